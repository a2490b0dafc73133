ghost use Rattle.std.specs.Prelude.{◌≡◌, ◌<◌, ◌++◌, ◌∷◌, [], ◌||◌, ◌&&◌, All, nat_lt, length, false, not, is_some, IfOk, IfSome, IfNone, None, if◌then◌else◌};
ghost use Rattle.fw_outside.specs.Counts.{Grew, Rose, counted};
ghost use Rattle.fw_outside.specs.DialerView.{Accepts, ComesUp, HangsUp, IfRefused, IfUp, LetsGo, Opens, Refuses, RoseIf, TurnsAway, dialer_waiting, has_broken, mark_of};
ghost use Rattle.fw_outside.specs.ToldList.{AddsOne};
ghost use Rattle.fw_outside.specs.declared.ask.Ask.TheVariants.{Back, Door, Main, Side};
ghost use Rattle.fw_outside.specs.declared.mark.Mark.TheVariants as marks;
ghost use Rattle.fw_memory.specs.CallsView.{comes_at};
ghost use Rattle.fw_memory.specs.MemDialerView.{CountsAccept, CountsAsk, CountsDoor, CountsHangUp, CountsLetGo, IsNewLink, IsNextLink, accepts, brings_up, dialer_view_of, has_ended_room, has_room, is_up, link_view_of, opens, place_of};
ghost use Rattle.fw_memory.specs.MemSinkView.{sink_view_of};
ghost use Rattle.fw_memory.specs.MemSourceView.{source_view_of};

use crate::{Calls, MemSink, MemSource};
use fw_outside::{Ask, Dialed, Dialer, Mark, Source};
use fw_types::{Dest, NoMemory};
use std::alloc::Global;
use std::collections::VecDeque;
use std::marker::Model;

/// A door in memory.
#[derive(Drop)]
pub struct MemDoor;

/// A dialer in memory, which brings up links and opens doors that it was given, and refuses calls as it is told.
#[derive(Drop)]
pub struct MemDialer {
    links: VecDeque<(MemSource, MemSink)>,
    doors: VecDeque<([u8; 4], u16)>,
    room: usize,
    fails: Calls,
    calls: u64,
    asked: Vec<Ask>,
    asked_past: bool,
    ended: Vec<(MemSource, MemSink)>,
    ended_room: usize,
    ended_past: bool,
    came: u64,
    refusals: u64,
    link_faults: u64,
    link_idles: u64,
    data_faults: u64,
    data_idles: u64,
    waits: u32,
}

impl Model for MemDialer {
    ghost use Rattle.std.specs.Prelude.{◌≤◌, All, vec_len};
    ghost use Rattle.std.specs.Vec.{vec_capacity};
    ghost use Rattle.fw_memory.specs.MemDialerView.{IsNewLink, MemDialerView};

    ghost Value = { MemDialerView };

    ghost view = { λ d. record {
      links = d.links.items;
      doors = d.doors.items;
      room = d.room;
      fails = d.fails;
      calls = d.calls;
      asked = d.asked.items;
      asked_past = d.asked_past;
      ended = d.ended.items;
      ended_room = d.ended_room;
      ended_past = d.ended_past;
      came = d.came;
      refusals = d.refusals;
      link_faults = d.link_faults;
      link_idles = d.link_idles;
      data_faults = d.data_faults;
      data_idles = d.data_idles;
      waits = d.waits;
    } };

    ghost invariant = { λ d. (d.room ≤ vec_capacity d.asked) × (d.ended_room ≤ vec_capacity d.ended) × All IsNewLink d.links.items };
}

// As what a link of this is marked.
fn mark_of(ask: &Ask) -> Mark
    ensures { result ≡ mark_of ask.now }
{
    match ask {
        Ask::Main(_) => Mark::Main,
        Ask::Side(_) => Mark::Side,
        Ask::Back { .. } => Mark::Back,
        Ask::Door { .. } => Mark::Door,
    }
}

// Whether the source or the sink failed.
fn has_broken(from: &MemSource, to: &MemSink) -> bool
    ensures { result ≡ has_broken (source_view_of from.now) (sink_view_of to.now) }
{
    from.faults() > 0 || to.faults() > 0
}

impl MemDialer {
    /// A dialer that brings up these links and opens these doors, in order, each with its IPv4 address and port. Its calls
    /// of `dial`, `side`, `back`, `door` and `accept` are numbered together from 0; those in `fails` are refused, and so is
    /// each for which no link or door is left. There is room for `asks` entries of what was asked: a call past it is
    /// refused, and from then on they aren't told; `accept` has no entry. There is room for as many links that were hung up
    /// as there are links; past it they aren't told.
    pub fn new(
        alloc: Global,
        links: Vec<(MemSource, MemSink)>,
        doors: Vec<([u8; 4], u16)>,
        asks: usize,
        fails: Calls,
    ) -> Result<MemDialer, NoMemory>
        requires { All IsNewLink links.items }
        ensures { IfOk result (λ dialer. dialer ≡ record {
          links = links.items;
          doors = doors.items;
          room = asks;
          fails = fails;
          calls = 0;
          asked = [];
          asked_past = false;
          ended = [];
          ended_room = length links.items;
          ended_past = false;
          came = 0;
          refusals = 0;
          link_faults = 0;
          link_idles = 0;
          data_faults = 0;
          data_idles = 0;
          waits = 3600;
        }) }
    {
        let asked = Vec::with_capacity(alloc, asks)?;
        let ended_room = links.len();
        let ended = Vec::with_capacity(alloc, ended_room)?;
        Ok(MemDialer {
            links: VecDeque::from(links),
            doors: VecDeque::from(doors),
            room: asks,
            fails,
            calls: 0,
            asked,
            asked_past: false,
            ended,
            ended_room,
            ended_past: false,
            came: 0,
            refusals: 0,
            link_faults: 0,
            link_idles: 0,
            data_faults: 0,
            data_idles: 0,
            waits: 3600,
        })
    }

    /// What was asked for: all of it, or the first entries, for which there was room.
    pub fn asked(&self) -> &[Ask]
        ensures { result.now ≡ self.now.asked }
    {
        &self.asked
    }

    /// The links that were hung up: all of them, or the first ones, for which there was room.
    pub fn ended(&self) -> &[(MemSource, MemSink)]
        ensures { result.now ≡ self.now.ended }
    {
        &self.ended
    }

    // Counts one more call, which is told to fail or not.
    fn is_failing(&mut self) -> bool
        ensures answer { result ≡ comes_at self.old.fails self.old.calls }
        ensures is { self.new ≡ record self.old { calls = counted self.old.calls } }
    {
        let call = self.calls;
        self.calls = call.saturating_add(1);
        self.fails.contains(call)
    }

    fn has_room(&self) -> bool
        ensures { result ≡ has_room self.now }
    {
        self.asked.len() < self.room
    }

    // Notes what was asked, where there is room, and says whether there was.
    fn note(&mut self, ask: Ask) -> bool
        ensures answer { result ≡ has_room self.old }
        ensures is { self.new ≡ record self.old {
          asked = (if has_room self.old then self.old.asked ++ ask ∷ [] else self.old.asked);
          asked_past = self.old.asked_past || not (has_room self.old);
        } }
    {
        if self.asked.len() >= self.room {
            self.asked_past = true;
            return false;
        }
        if self.asked.push(ask).is_err() {
            unreachable!();
        }
        true
    }

    // Counts and notes one more call, and says whether it may bring a link up.
    fn begin(&mut self, ask: Ask) -> bool
        ensures answer { result ≡ (not (comes_at self.old.fails self.old.calls) && has_room self.old) }
        ensures is { self.new ≡ record self.old {
          calls = counted self.old.calls;
          asked = (if has_room self.old then self.old.asked ++ ask ∷ [] else self.old.asked);
          asked_past = self.old.asked_past || not (has_room self.old);
        } }
        ensures adds { AddsOne ask (dialer_view_of self.old).asked (dialer_view_of self.new).asked }
    {
        let failing = self.is_failing();
        let noted = self.note(ask);
        !failing && noted
    }

    // The next of the links to come, which waits as the dialer says.
    fn next_link(&mut self) -> Option<(MemSource, MemSink)>
        ensures some { is_some result ≡ nat_lt 0 (length self.old.links) }
        ensures is_new { IfSome result IsNewLink }
        ensures next { IfSome result (λ link. self.old.links ≡ link ∷ self.new.links) }
        ensures none { IfNone result (self.new.links ≡ self.old.links) }
        ensures is { self.new ≡ record self.old { links = self.new.links } }
    {
        self.links.pop_front()
    }

    // Counts a link that came up.
    fn count_up(&mut self)
        ensures grew { Grew 1 self.old.came self.new.came }
        ensures is { self.new ≡ record self.old { came = counted self.old.came } }
    {
        self.came = self.came.saturating_add(1);
    }

    fn refuse(&mut self)
        ensures rose { Rose self.old.refusals self.new.refusals }
        ensures is { self.new ≡ record self.old { refusals = counted self.old.refusals } }
    {
        self.refusals = self.refusals.saturating_add(1);
    }

    // Counts a main link that failed.
    fn count_fault(&mut self, broken: bool)
        ensures rose { RoseIf broken self.old.link_faults self.new.link_faults }
        ensures is { self.new ≡ record self.old {
          link_faults = (if broken then counted self.old.link_faults else self.old.link_faults);
        } }
    {
        if broken {
            self.link_faults = self.link_faults.saturating_add(1);
        }
    }

    // Counts a main link that was idle.
    fn count_idle(&mut self, idle: bool)
        ensures rose { RoseIf idle self.old.link_idles self.new.link_idles }
        ensures is { self.new ≡ record self.old {
          link_idles = (if idle then counted self.old.link_idles else self.old.link_idles);
        } }
    {
        if idle {
            self.link_idles = self.link_idles.saturating_add(1);
        }
    }

    // Counts a data link that failed.
    fn count_data_fault(&mut self, broken: bool)
        ensures rose { RoseIf broken self.old.data_faults self.new.data_faults }
        ensures is { self.new ≡ record self.old {
          data_faults = (if broken then counted self.old.data_faults else self.old.data_faults);
        } }
    {
        if broken {
            self.data_faults = self.data_faults.saturating_add(1);
        }
    }

    // Counts a data link that was idle.
    fn count_data_idle(&mut self, idle: bool)
        ensures rose { RoseIf idle self.old.data_idles self.new.data_idles }
        ensures is { self.new ≡ record self.old {
          data_idles = (if idle then counted self.old.data_idles else self.old.data_idles);
        } }
    {
        if idle {
            self.data_idles = self.data_idles.saturating_add(1);
        }
    }

    // Counts one more call, and gives the place of the door that it opens.
    fn next_door(&mut self) -> Option<([u8; 4], u16)>
        ensures some { is_some result ≡ opens self.old }
        ensures next { IfSome result (λ at. self.old.doors ≡ at ∷ self.new.doors) }
        ensures none { IfNone result (self.new.doors ≡ self.old.doors) }
        ensures is { self.new ≡ record self.old { calls = counted self.old.calls; doors = self.new.doors } }
    {
        if self.is_failing() {
            return None;
        }
        if !self.has_room() {
            return None;
        }
        self.doors.pop_front()
    }

    // Asks for a link, and brings the next one up.
    fn bring(&mut self, ask: Ask) -> Dialed<MemSource, MemSink>
        ensures up { IfUp result (λ from to. ComesUp ask
            (source_view_of from) (sink_view_of to) (dialer_view_of self.old) (dialer_view_of self.new)) }
        ensures refused { IfRefused result (Refuses ask (dialer_view_of self.old) (dialer_view_of self.new)) }
        ensures answer { is_up result ≡ brings_up self.old }
        ensures next { IfUp result (λ from to. IsNextLink (mark_of ask) from to self.old self.new) }
        ensures kept { IfRefused result (self.new.links ≡ self.old.links) }
        ensures once { CountsAsk ask self.old self.new }
    {
        let mark = mark_of(&ask);
        if !self.begin(ask) {
            self.refuse();
            return Dialed::Refused;
        }
        match self.next_link() {
            Some((mut from, mut to)) => {
                from.patience(self.waits);
                from.mark_as(mark);
                to.mark_as(mark);
                self.count_up();
                Dialed::Up(from, to)
            }
            None => {
                self.refuse();
                Dialed::Refused
            }
        }
    }

    // Keeps a link that was hung up, where there is room.
    fn keep(&mut self, from: MemSource, to: MemSink)
        ensures is { self.new ≡ record self.old {
          ended = (if has_ended_room self.old then self.old.ended ++ (from, to) ∷ [] else self.old.ended);
          ended_past = self.old.ended_past || not (has_ended_room self.old);
        } }
        ensures adds { AddsOne (link_view_of (from, to)) (dialer_view_of self.old).ended
            (dialer_view_of self.new).ended }
    {
        if self.ended.len() >= self.ended_room {
            self.ended_past = true;
            return;
        }
        if self.ended.push((from, to)).is_err() {
            unreachable!();
        }
    }
}

impl Dialer for MemDialer {
    type In = MemSource;

    type Out = MemSink;

    type DataIn = MemSource;

    type DataOut = MemSink;

    type Door = MemDoor;

    ghost dialer_view = { dialer_view_of };

    fn dial(&mut self, dest: &Dest) -> Dialed<MemSource, MemSink>
        ensures up { IfUp result (λ from to. ComesUp (Main dest.now)
            (source_view_of from) (sink_view_of to) (dialer_view_of self.old) (dialer_view_of self.new)) }
        ensures refused { IfRefused result (Refuses (Main dest.now)
            (dialer_view_of self.old) (dialer_view_of self.new)) }
        ensures answer { is_up result ≡ brings_up self.old }
        ensures next { IfUp result (λ from to. IsNextLink marks.Main from to self.old self.new) }
        ensures kept { IfRefused result (self.new.links ≡ self.old.links) }
        ensures once { CountsAsk (Main dest.now) self.old self.new }
    {
        self.bring(Ask::Main(dest.twin()))
    }

    fn side(&mut self, dest: &Dest) -> Dialed<MemSource, MemSink>
        ensures up { IfUp result (λ from to. ComesUp (Side dest.now)
            (source_view_of from) (sink_view_of to) (dialer_view_of self.old) (dialer_view_of self.new)) }
        ensures refused { IfRefused result (Refuses (Side dest.now)
            (dialer_view_of self.old) (dialer_view_of self.new)) }
        ensures answer { is_up result ≡ brings_up self.old }
        ensures next { IfUp result (λ from to. IsNextLink marks.Side from to self.old self.new) }
        ensures kept { IfRefused result (self.new.links ≡ self.old.links) }
        ensures once { CountsAsk (Side dest.now) self.old self.new }
    {
        self.bring(Ask::Side(dest.twin()))
    }

    fn back(&mut self, addr: [u8; 4], port: u16) -> Dialed<MemSource, MemSink>
        ensures up { IfUp result (λ from to. ComesUp (Back addr port)
            (source_view_of from) (sink_view_of to) (dialer_view_of self.old) (dialer_view_of self.new)) }
        ensures refused { IfRefused result (Refuses (Back addr port)
            (dialer_view_of self.old) (dialer_view_of self.new)) }
        ensures answer { is_up result ≡ brings_up self.old }
        ensures next { IfUp result (λ from to. IsNextLink marks.Back from to self.old self.new) }
        ensures kept { IfRefused result (self.new.links ≡ self.old.links) }
        ensures once { CountsAsk (Back addr port) self.old self.new }
    {
        self.bring(Ask::Back { addr, port })
    }

    fn door(&mut self) -> Option<(MemDoor, [u8; 4], u16)>
        ensures opens { IfSome result (λ opened. Opens opened.1 opened.2
            (dialer_view_of self.old) (dialer_view_of self.new)) }
        ensures refused { IfNone result (Refuses (Door None) (dialer_view_of self.old) (dialer_view_of self.new)) }
        ensures answer { is_some result ≡ opens self.old }
        ensures next { IfSome result (λ opened. self.old.doors ≡ (opened.1, opened.2) ∷ self.new.doors) }
        ensures kept { IfNone result (self.new.doors ≡ self.old.doors) }
        ensures once { CountsDoor (place_of result) self.old self.new }
    {
        let at = self.next_door();
        let _ = self.note(Ask::Door { at });
        match at {
            Some(place) => {
                let addr = place.0;
                Some((MemDoor, addr, place.1))
            }
            None => {
                self.refuse();
                None
            }
        }
    }

    fn accept(&mut self, _door: &mut MemDoor) -> Dialed<MemSource, MemSink>
        ensures up { IfUp result (λ from to. Accepts
            (source_view_of from) (sink_view_of to) (dialer_view_of self.old) (dialer_view_of self.new)) }
        ensures refused { IfRefused result (TurnsAway (dialer_view_of self.old) (dialer_view_of self.new)) }
        ensures answer { is_up result ≡ accepts self.old }
        ensures next { IfUp result (λ from to. IsNextLink marks.Door from to self.old self.new) }
        ensures kept { IfRefused result (self.new.links ≡ self.old.links) }
        ensures once { CountsAccept self.old self.new }
    {
        if self.is_failing() {
            self.refuse();
            return Dialed::Refused;
        }
        match self.next_link() {
            Some((mut from, mut to)) => {
                from.patience(self.waits);
                from.mark_as(Mark::Door);
                to.mark_as(Mark::Door);
                self.count_up();
                Dialed::Up(from, to)
            }
            None => {
                self.refuse();
                Dialed::Refused
            }
        }
    }

    fn hang_up(&mut self, from: MemSource, to: MemSink)
        ensures hangs_up { HangsUp (source_view_of from) (sink_view_of to)
            (dialer_view_of self.old) (dialer_view_of self.new) }
        ensures once { CountsHangUp from to self.old self.new }
    {
        self.count_fault(has_broken(&from, &to));
        self.count_idle(from.idles() > 0);
        self.keep(from, to);
    }

    fn let_go(&mut self, from: MemSource, to: MemSink)
        ensures lets_go { LetsGo (source_view_of from) (sink_view_of to)
            (dialer_view_of self.old) (dialer_view_of self.new) }
        ensures once { CountsLetGo from to self.old self.new }
    {
        self.count_data_fault(has_broken(&from, &to));
        self.count_data_idle(from.idles() > 0);
        self.keep(from, to);
    }

    fn patience(&mut self, seconds: u32)
        ensures waits { dialer_view_of self.new ≡ dialer_waiting (dialer_view_of self.old) seconds }
        ensures is { self.new ≡ record self.old { waits = seconds } }
    {
        self.waits = seconds;
    }
}
