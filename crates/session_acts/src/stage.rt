ghost use Rattle.std.specs.Prelude.{◌≡◌, ◌≤◌, false, is_err, is_some, Ok};
ghost use Rattle.session_acts.specs.Acts.Act.{Allot, Ask, Dial, HangUp, Hear, Join, Log, OpenDoor, Part, Pass, Reach, Renew, Say, Take};
ghost use Rattle.session_acts.specs.Met.{Acted, CopyDone, Deposits, Jotted, Met, Replies, Tried, is_password};
ghost use Rattle.session_acts.specs.World.{World};
ghost use Rattle.slot_bytes.specs.Layout.{IsEnvelope};

use crate::{Cause, Deposited, Form, Joined, Replied, ReplyUse, Target, Toward};
use auth_events::{Reply, Request};
use fw_outside::Heard;
use fw_types::{Dest, Name, OctetsList};
use relay_ways::WayEnd;
use std::alloc::Global;

/// Where a session takes place: its acts, one by one.
pub trait Stage {
    /// What the answers of the port stand on.
    type Origin;

    /// What the session meets.
    ghost world: { Self → World Self.Origin };

    /// Whether a session is open that wasn't asked to close.
    fn is_open(&self) -> bool
        ensures { result ≡ is_some (world self.now).office.opened };

    /// Whether a link is up.
    fn is_linked(&self) -> bool
        ensures { result ≡ is_some (world self.now).server.link };

    /// The next line of the client in this form, one that is too long, or the end.
    fn hear(&mut self, form: Form) -> Result<Heard, Cause>
        ensures { Acted (Hear form) result (world self.old) (world self.new) };

    /// Gives the client a text.
    fn say(&mut self, text: &[u8]) -> Result<(), Cause>
        ensures { Acted (Say text.now) result (world self.old) (world self.new) };

    /// Gives the client a text, or a front of it where the client's sink fails.
    fn attempt(&mut self, text: &[u8])
        ensures { Tried text.now (world self.old) (world self.new) };

    /// Gives the log a text.
    fn log(&mut self, text: &[u8]) -> Result<(), Cause>
        ensures { Acted (Log text.now) result (world self.old) (world self.new) };

    /// Gives the log a text, or a front of it where the log fails.
    fn jot(&mut self, text: &[u8])
        ensures { Jotted text.now (world self.old) (world self.new) };

    /// Asks the port, at a moment of the clock, for the session that is open. Where none is, the number told is 2^64 - 1:
    /// numbers are places in a history, so no session has it in one of fewer than 2^64 entries.
    /// A new password isn't asked for so, but by `renew`.
    fn ask(&mut self, request: Request) -> Result<Reply, Cause>
        requires { is_password request ≡ false }
        ensures { Acted (Ask request) result (world self.old) (world self.new) };

    /// Asks the port for a new password, the MD5 digest of which is told, with a salt of the dice. The salt comes with the
    /// reply.
    fn renew(&mut self, name: Name, hash: [u8; 16]) -> Result<([u8; 8], Reply), Cause>
        ensures { Acted (Renew name hash) result (world self.old) (world self.new) };

    /// Hangs up a link that is up, as `hang_up`, and asks for a link to the destination; whether it came up.
    fn dial(&mut self, dest: &Dest) -> bool
        ensures { Met (Dial dest.now) (Ok result) (world self.old) (world self.new) };

    /// Hangs up a link that is up, as `hang_up`, and asks for a link to the destination, which has to come up.
    fn reach(&mut self, dest: &Dest) -> Result<(), Cause>
        ensures { Acted (Reach dest.now) result (world self.old) (world self.new) };

    /// The next line of the server, one that is too long, or the end, which it is too where no link is up.
    fn take(&mut self) -> Result<Heard, Cause>
        ensures { Acted Take result (world self.old) (world self.new) };

    /// Gives the server a text, where a link is up.
    fn pass(&mut self, text: &[u8]) -> Result<(), Cause>
        ensures { Acted (Pass text.now) result (world self.old) (world self.new) };

    /// Lets go the data links that are up and closes a door that stands, and hangs up a link that is up.
    fn hang_up(&mut self)
        ensures { Met HangUp (Ok tt) (world self.old) (world self.new) };

    /// Takes in a message, with a body of at most `most` bytes: takes a free slot of the store, begins the message, says the
    /// words, hears the client's data to the line that is a period alone, and puts the slot back: full where the message
    /// stands, else free, or broken where its disk failed. Where the body is too large or the disk failed, the data are heard
    /// to their end all the same; the earlier of the two decides.
    fn deposit(
        &mut self,
        alloc: Global,
        sender: &[u8],
        rcpts: &OctetsList,
        words: &[u8],
        most: u32,
    ) -> Result<Deposited, Cause>
        requires envelope { IsEnvelope sender.now rcpts.now }
        requires small { most ≤ 67108864 }
        ensures { Deposits sender.now rcpts.now words.now most result (world self.old) (world self.new) };

    /// Takes the server's next reply (RFC 959, 4.2) and gives the client what is to be said of it, as it comes. The server's
    /// end comes first where no link is up. The bytes behind the reply stay.
    fn take_reply(&mut self, how: ReplyUse) -> Result<Replied, Cause>
        ensures { Replies how result (world self.old) (world self.new) };

    /// Asks for a door for the client's data link, which replaces one that stands if it opens; its IPv4 address and port.
    fn open_door(&mut self) -> Option<([u8; 4], u16)>
        ensures { Met OpenDoor (Ok result) (world self.old) (world self.new) };

    /// Lets go the data links that are up, and asks for two beside the main link: one to the destination, and then the
    /// client's. Where that is refused the first is let go. A door at which the client's is wanted is closed then.
    fn join(&mut self, dest: &Dest, target: Target) -> Joined
        ensures { Met (Join dest.now target) (Ok result) (world self.old) (world self.new) };

    /// Copies all that comes over one data link to the other, at most 2^40 bytes, and lets both go; how that ended. Nothing
    /// where no data links are up.
    fn copy(&mut self, toward: Toward) -> Option<WayEnd>
        ensures { CopyDone toward result (world self.old) (world self.new) };

    /// Lets go the data links that are up.
    fn part(&mut self)
        ensures { Met Part (Ok tt) (world self.old) (world self.new) };

    /// Stops the session where it lacks memory of its own.
    fn allot(&mut self, lacks: bool) -> Result<(), Cause>
        ensures acted { Acted Allot result (world self.old) (world self.new) }
        ensures lacks { is_err result ≡ lacks };
}
