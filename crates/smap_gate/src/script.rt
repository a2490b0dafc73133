//! The session as a script.
ghost use Rattle.std.specs.Prelude.{◌≡◌, ◌≤◌, ◌<◌, IfOk, IfSome};
ghost use Rattle.fw_acts.specs.Acts.Row.{At};
ghost use Rattle.fw_acts.specs.Ran.{Ran};
ghost use Rattle.session_acts.specs.Session.{leads};
ghost use Rattle.smap_gate.specs.Dialogue.{smap_row, smap_rows};
ghost use Rattle.smap_gate.specs.Draft.{IsPlace, distance};
ghost use Rattle.smap_gate.specs.Gate.{Fits};

use crate::Place;
use crate::rows::{heard_row, tell_at};
use fw_types::Peer;
use session_acts::{Cause, Form, Script, Stage};
use std::alloc::Global;
use std::marker::Model;

/// A session of `smap` with a client: it does the rows of `specs/Dialogue.antt`.
#[derive(Drop)]
pub struct SmapScript<'p> {
    alloc: Global,
    peer: &'p Peer,
    most_bytes: u64,
    most_rcpts: u32,
}

impl<'p> Model for SmapScript<'p> {
    ghost use Rattle.smap_gate.specs.Gate.{Fits, Gate};

    ghost Value = { Gate };

    ghost view = { λ script. record { peer = script.peer.now; most_bytes = script.most_bytes; most_rcpts = script.most_rcpts } };

    ghost invariant = { λ script.
        Fits (record { peer = script.peer.now; most_bytes = script.most_bytes; most_rcpts = script.most_rcpts }) };
}

impl<'p> SmapScript<'p> {
    /// One with this client, of which a message has at most so many bytes and so many recipients, at most 67,108,864 and
    /// 1,000. The recipients are kept in memory of `alloc`.
    pub fn new(alloc: Global, peer: &'p Peer, most_bytes: u64, most_rcpts: u32) -> SmapScript<'p>
        requires { Fits record { peer = peer.now; most_bytes = most_bytes; most_rcpts = most_rcpts } }
        ensures { result ≡ record { peer = peer.now; most_bytes = most_bytes; most_rcpts = most_rcpts } }
    {
        SmapScript {
            alloc,
            peer,
            most_bytes,
            most_rcpts,
        }
    }

    pub(crate) fn alloc(&self) -> Global {
        self.alloc
    }

    // Who the client is.
    pub(crate) fn peer(&self) -> &Peer
        ensures { result.now ≡ self.now.peer }
    {
        self.peer
    }

    // How many bytes the body of a message has at most.
    pub(crate) fn most_bytes(&self) -> u32
        ensures is { result ≡ self.now.most_bytes }
        ensures fits { result ≤ 67108864 }
    {
        self.most_bytes as u32
    }

    // How many recipients a message has at most.
    pub(crate) fn most_rcpts(&self) -> u32
        ensures is { result ≡ self.now.most_rcpts }
        ensures fits { result ≤ 1000 }
    {
        self.most_rcpts
    }
}

// Waits for a line.
fn line_turn<D: Stage>(
    stage: &mut D,
    script: &SmapScript,
    place: Place,
) -> Result<Option<Place>, Cause>
    requires { IsPlace script.now place }
    ensures ran { Ran (smap_rows script.now) (At place) leads (D.world stage.old) (D.world stage.new) result }
    ensures form { IfOk result (λ next. IfSome next (IsPlace script.now)) }
    ensures nearer { IfOk result (λ next. IfSome next (λ p.
        distance p (D.world stage.new) < distance place (D.world stage.old))) }
{
    let heard = stage.hear(Form::Lines)?;
    heard_row(stage, script, place, heard)
}

impl<'p> Script for SmapScript<'p> {
    type Place = Place;

    ghost rows = { λ script Origin. smap_rows script };

    ghost first = { λ script Origin. smap_row };

    ghost holds = { λ script place. IsPlace script place };

    ghost distance = { λ script Origin place world. distance place world };

    fn begin<D: Stage>(&self, stage: &mut D) -> Result<Option<Place>, Cause> {
        tell_at(stage, self, b"220 smap ready\r\n", Place::Waiting)
    }

    fn turn<D: Stage>(&self, stage: &mut D, place: Place) -> Result<Option<Place>, Cause> {
        line_turn(stage, self, place)
    }
}
