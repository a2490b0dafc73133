//! The call that the program makes.
ghost use Rattle.std.specs.Prelude.{◌≡◌, ◌≤◌, ◌<◌, length, map, true, IsSome, None, Some};
ghost use Rattle.bastion.specs.Account.{Account};
ghost use Rattle.bastion.specs.Headline.{Headline};
ghost use Rattle.bastion.specs.Status.{LeavesDisks, LeavesMailers, LeavesRemote, TakesBy, is_remote_line};
ghost use Rattle.bastion.specs.Words.{line_of};
ghost use Rattle.bastion.specs.WorldView.{post_of};

use crate::obeying::{obey, tell};
use crate::{Kit, World};
use fw_mail::Mailer;
use fw_types::Octets;
use std::alloc::Global;
use std::thread::Threads;

/// Runs a command line over the devices of a world, and answers the exit status:
///
/// - 0 where the table permits the peer, and a session of `authsrv`, `plug-gw`, `tn-gw`, `ftp-gw` or `smap` is done, or a job
///   that needs no table; 1 where the table denies the peer, who isn't at the console of `authsrv`;
/// - 2 where the words are no command;
/// - 3 where a line of the table, or of the service, or a user's record or a slot can't be read; for `tn-gw` and `ftp-gw` also
///   where a line of `authsrv` can't, unless a server elsewhere knows the users: then neither that nor a record is read;
/// - 4 where a device failed, which its count shows, the link to a server elsewhere too; where such a server answered with
///   something strange; of `smapd` also where a hand failed or a slot broke;
/// - 5 for want of memory, which never takes the place of a denial once the records and rules are read, and for `smap` the slots
///   opened;
/// - 6 where a session took as many bytes as it may, or was done but was refused a request since the history is full, here
///   or at a server elsewhere.
///
/// What ends a run before a session is told to the log in one line that names its cause, and so is a history that was
/// full. A session's ending has its own line, but for a denial, which the verdict's line tells, and a log that failed.
/// If the log fails within the verdict's line, `netacl` prints nothing, a client is told nothing, and no destination is
/// asked for. A denial that was logged stands even if it couldn't be printed. `table` prints alone.
pub fn run<H, T>(
    rt: &H,
    alloc: Global,
    words: &[Octets],
    mailers: &mut Vec<Box<dyn Mailer>>,
    world: &mut World<T>,
) -> u8
where
    H: Threads + Sync,
    T: Kit,
    requires keeper { IsSome world.old.inputs.keeper }
    requires slots { length world.old.inputs.disks ≤ 64 }
    requires some { 0 < length mailers.old.items }
    requires remote { is_remote_line (line_of words.now) ≡ true → IsSome world.old.inputs.remote }
    // All of this holds at once, by one reading of the table and of the records, and by what one session did: what the run came
    // to and did, with its line in the log and its status (`ran`); the headline; that the status is what the reading says,
    // unless a device failed, there was no memory, or the session was answered that something strange came of a server
    // elsewhere (`status`; 2 is for words that are no command); and that where no count rose, all that the reading calls for
    // was logged and printed whole, or there was no memory, or it was answered so (`complete`).
    ensures account { Account (post_of (map (λ m. mailer_view m) mailers.old.items) (map (λ m. mailer_view m) mailers.new.items))
        (line_of words.now) result world.old world.new }
    // The headline by itself. The replies that a client is told are those of a legal history, or of a gateway whose users a
    // server elsewhere knows those that its port has entered; destinations are asked for as the table permits, a denial's line
    // stands in the log, and each message that is answered as kept stands whole in its slot; what `smap` and `smapd` did to the
    // spool on the disks are events of its law.
    ensures headline { Headline (post_of (map (λ m. mailer_view m) mailers.old.items) (map (λ m. mailer_view m) mailers.new.items))
        (line_of words.now) result world.old world.new }
    // At most 2^40 bytes are taken of the input; after so many the status is 6, or 4 where a link or its client failed
    // first.
    ensures taken { TakesBy (line_of words.now) result world.old.inputs.input world.new.inputs.input }
    // `spool-init` ends with 0 only after each disk is a free slot, whatever a crash leaves of it. Behind `smap` a slot that
    // was opened with a message has it, and behind `smapd` one that was opened set aside. Any other command leaves the disks as they were, their counts too.
    ensures disks { LeavesDisks (line_of words.now) result world.old.inputs.disks world.new.inputs.disks }
    // Any command but `smapd` leaves the mailers as they were: none accepted a message, refused one or failed.
    ensures mailers { LeavesMailers (post_of (map (λ m. mailer_view m) mailers.old.items) (map (λ m. mailer_view m) mailers.new.items))
        (line_of words.now) }
    // Each source that the run got was given back: as many are out as before.
    ensures returned { world.new.files.out ≡ world.old.files.out }
    // A gateway whose users a server elsewhere knows gives both ends of the link back, and doesn't call the keeper. Any other order
    // leaves the ends as they were.
    ensures remote { LeavesRemote (line_of words.now) world.old.inputs world.new.inputs }
    // The keeper is there again.
    ensures kept { IsSome world.new.inputs.keeper }
{
    let outcome = obey(rt, alloc, words, mailers, world);
    tell(world, &outcome);
    outcome.status()
}
