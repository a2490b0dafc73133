//! What a port remembers of the requests that it was asked.
ghost use Rattle.std.specs.Prelude.{◌≡◌, ◌<◌, ◌^◌, [], OnOk, false, length, vec_len};
ghost use Rattle.std.specs.Vec.{vec_capacity};
ghost use Rattle.auth_events.specs.Port.{session_at};
ghost use Rattle.remote_port.specs.Talk.{talk_of, with_ask, with_entry, with_limit, with_loss, with_odd};
ghost use Rattle.remote_port.specs.declared.standing.Standing.TheVariants.{New};

use crate::answer::is_kept;
use crate::request::is_open;
use crate::standing::{Standing, standing_after};
use auth_events::{Entry, Reply, Request};
use fw_types::NoMemory;
use std::alloc::Global;

/// The entries, how the port stands with its server, whether a request was refused since no more entries fit there, how
/// many requests were asked, and how often something strange came.
#[derive(Drop)]
pub struct Talk {
    pub(crate) seen: Vec<Entry>,
    pub(crate) standing: Standing,
    pub(crate) refused: bool,
    pub(crate) asks: u64,
    pub(crate) odd: u64,
}

// The number of the session to which a request at this place belongs.
fn session_at(request: &Request, place: u64, sid: u64) -> u64
    ensures { result ≡ session_at request.now place sid }
{
    if is_open(request) { place } else { sid }
}

impl Talk {
    pub(crate) fn new(alloc: Global) -> Talk
        ensures { talk_of result ≡ record { seen = []; standing = New; refused = false; asks = 0; odd = 0 } }
    {
        Talk {
            seen: Vec::new(alloc),
            standing: Standing::New,
            refused: false,
            asks: 0,
            odd: 0,
        }
    }

    /// One request more.
    pub(crate) fn count(&mut self)
        ensures is { talk_of self.new ≡ with_ask (talk_of self.old) }
        ensures asks { self.old.asks < 2 ^ 64 }
        ensures odd { self.old.odd < 2 ^ 64 }
    {
        let _odd = self.odd;
        self.asks = self.asks.saturating_add(1);
    }

    /// Makes room for an entry.
    pub(crate) fn make_room(&mut self) -> Result<(), NoMemory>
        ensures same { talk_of self.new ≡ talk_of self.old }
        ensures room { OnOk result (vec_len self.new.seen < vec_capacity self.new.seen) }
    {
        self.seen.reserve(1)?;
        Ok(())
    }

    /// The place of the next entry.
    pub(crate) fn place(&self) -> u64
        ensures { result ≡ length self.now.seen.items }
    {
        self.seen.len() as u64
    }

    /// Adds an entry, for which there is room.
    pub(crate) fn enter(&mut self, sid: u64, at: u64, request: Request, reply: Reply)
        requires { vec_len self.old.seen < vec_capacity self.old.seen }
        ensures { talk_of self.new ≡ with_entry sid at request reply (talk_of self.old) }
    {
        let place = self.place();
        self.standing = standing_after(self.standing, &request, &reply);
        self.seen.push_reserved(Entry {
            sid: session_at(&request, place, sid),
            at,
            kept: is_kept(&reply),
            request,
            reply,
        });
    }

    /// The server's history is full.
    pub(crate) fn be_full(&mut self, limit: u64)
        ensures { talk_of self.new ≡ with_limit limit (talk_of self.old) }
    {
        self.standing = Standing::Full { limit };
        self.refused = true;
    }

    /// The link failed.
    pub(crate) fn be_lost(&mut self)
        ensures { talk_of self.new ≡ with_loss (talk_of self.old) }
    {
        self.standing = Standing::Lost;
    }

    /// Something strange came.
    pub(crate) fn be_strange(&mut self)
        ensures { talk_of self.new ≡ with_odd (talk_of self.old) }
    {
        self.standing = Standing::Lost;
        self.odd = self.odd.saturating_add(1);
    }
}
