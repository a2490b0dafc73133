//! A server is made ready.
ghost use Rattle.std.specs.Prelude.{◌≡◌, ◌≤◌, true, All, IfOk, IfErr, IfSome, IsSome, OnOk, length};
ghost use Rattle.bastion.specs.Mailing.{OpensRack, SlotsUnread};
ghost use Rattle.bastion.specs.Outcome.{fault_line_of, status_of};
ghost use Rattle.bastion.specs.Run.{TellsIf};
ghost use Rattle.bastion.specs.SessionSteps.{Opened, Unopened};
ghost use Rattle.bastion_ready.specs.Ready.{AreBack, IsReady, IsReadyFor, IsRefused, IsStatus, OpensBehind, OpensSite, ShutsBook, SlotsUnreadBehind, Stops, StopsFor, StopsSite};
ghost use Rattle.bastion_ready.specs.Words.{doors_of, is_for_server, server_of, services_of};
ghost use Rattle.fwtk_serve.specs.RulesFor.{MayServe};

use crate::doors::{doors_of, services_for};
use crate::reading::{Ruled, SiteRules, site_for};
use crate::server::Ready;
use crate::{Door, ServerLine};
use auth_machine::{Book, Policy};
use bastion::{Kit, Outcome, Step, World, open_book, open_rack, tell};
use fw_types::{NoMemory, Octets};
use gate_rules::Service;
use spool_rack::Rack;
use std::alloc::Global;

// The keeper of this book is in the world again.
fn shut<T: Kit>(book: Book<T::Keeper>, world: &mut World<T>)
    ensures { ShutsBook book world.old world.new }
{
    let (keeper, _history) = book.close();
    world.keeper = Some(keeper);
}

fn disk_count<T: Kit>(world: &World<T>) -> usize
    ensures { result ≡ length world.now.inputs.disks }
{
    world.disks.len()
}

// There is room in a rack for the disks, or none.
fn check_room<T: Kit>(world: &World<T>) -> Result<(), NoMemory>
    ensures { OnOk result (length world.now.inputs.disks ≤ 64) }
{
    if disk_count(world) <= 64 {
        Ok(())
    } else {
        Err(NoMemory)
    }
}

// The slots of the disks are opened. Where there are more than a rack has room for, that is want of memory.
fn open_disks<T: Kit>(alloc: Global, world: &mut World<T>) -> Result<Rack<T::Disk>, Outcome>
    ensures opened { IfOk result (λ rack. OpensRack rack world.old world.new) }
    ensures unopened { IfErr result (λ outcome. SlotsUnread outcome world.old world.new) }
{
    match check_room(world) {
        Ok(()) => open_rack(alloc, world),
        Err(NoMemory) => Err(Outcome::NoMemory(Step::Slots)),
    }
}

// The slots are opened behind this book, whose keeper goes back to the world where one can't be.
fn open_slots<T: Kit>(
    alloc: Global,
    book: Book<T::Keeper>,
    world: &mut World<T>,
) -> Result<(Book<T::Keeper>, Rack<T::Disk>), Outcome>
    ensures opened { IfOk result (λ both. (both.0 ≡ book) × OpensRack both.1 world.old world.new) }
    ensures unopened { IfErr result (λ outcome. SlotsUnreadBehind book outcome world.old world.new) }
{
    match open_disks(alloc, world) {
        Ok(rack) => Ok((book, rack)),
        Err(outcome) => {
            shut(book, world);
            Err(outcome)
        }
    }
}

// The book is opened, by what the table says, with the rules beside it.
fn open_by<T: Kit>(
    alloc: Global,
    site: SiteRules,
    world: &mut World<T>,
) -> Result<(Ruled, Book<T::Keeper>), Outcome>
    requires keeper { IsSome world.old.inputs.keeper }
    ensures opened { IfOk result (λ both. (both.0 ≡ site.rules) × Opened site.policy both.1 world.old world.new) }
    ensures unopened { IfErr result (λ outcome. Unopened outcome world.old world.new) }
{
    let SiteRules { ruled, policy } = site;
    match open_book(alloc, world, policy) {
        Ok(book) => Ok((ruled, book)),
        Err(outcome) => Err(outcome),
    }
}

// What the table says of the services is read, and the book opened by it.
fn open_site<T: Kit>(
    alloc: Global,
    name: &[u8],
    services: &[Service],
    world: &mut World<T>,
) -> Result<(Ruled, Book<T::Keeper>), Outcome>
    requires keeper { IsSome world.old.inputs.keeper }
    ensures opened { IfOk result (λ both. OpensSite name.now services.now both.0 both.1 world.old world.new) }
    ensures unopened { IfErr result (λ outcome. StopsSite name.now services.now outcome world.old world.new) }
{
    match site_for(alloc, name, services, world) {
        Ok(site) => open_by(alloc, site, world),
        Err(outcome) => Err(outcome),
    }
}

// Behind these the slots are opened, and all is together.
fn open_behind<T: Kit>(
    alloc: Global,
    doors: Vec<Door>,
    ruled: Ruled,
    book: Book<T::Keeper>,
    world: &mut World<T>,
) -> Result<Ready<T::Keeper, T::Disk>, Outcome>
    ensures opened { IfOk result (λ ready. OpensBehind doors.items ruled book ready.doors.items ready.rules.items ready.book
        ready.rack world.old world.new) }
    ensures unopened { IfErr result (λ outcome. SlotsUnreadBehind book outcome world.old world.new) }
{
    match open_slots(alloc, book, world) {
        Ok((book, rack)) => Ok(Ready {
            doors,
            rules: ruled.rules,
            book,
            rack,
        }),
        Err(outcome) => Err(outcome),
    }
}

fn table_of<'a>(line: &ServerLine<'a>) -> &'a [u8]
    ensures { result.now ≡ line.now.table }
{
    line.table
}

fn posts_of<'a>(line: &'a ServerLine) -> &'a [Door]
    ensures { result.now ≡ line.now.plan.posts }
{
    line.plan.posts.as_slice()
}

// What a server with these doors and services needs is read, and its book and slots opened.
fn prepare_by<T: Kit>(
    alloc: Global,
    name: &[u8],
    line: &ServerLine,
    doors: Vec<Door>,
    services: &[Service],
    world: &mut World<T>,
) -> Result<Ready<T::Keeper, T::Disk>, Outcome>
    requires keeper { IsSome world.old.inputs.keeper }
    requires name { name.now ≡ line.now.table }
    requires doors { doors.items ≡ doors_of line.now.plan }
    requires services { services.now ≡ services_of line.now.plan.posts }
    requires served { All (λ s. is_for_server s ≡ true) services.now }
    ensures ready { IfOk result (λ ready. IsReadyFor line.now ready.doors.items ready.rules.items ready.book
        ready.rack world.old world.new) }
    ensures may { IfOk result (λ ready. All MayServe ready.rules.items) }
    ensures stops { IfErr result (λ outcome. StopsFor line.now outcome world.old world.new) }
{
    let _ = line;
    match open_site(alloc, name, services, world) {
        Ok((ruled, book)) => open_behind(alloc, doors, ruled, book, world),
        Err(outcome) => Err(outcome),
    }
}

// What the server of this line needs is read, and its book and slots opened.
fn prepare_for<T: Kit>(
    alloc: Global,
    line: &ServerLine,
    world: &mut World<T>,
) -> Result<Ready<T::Keeper, T::Disk>, Outcome>
    requires keeper { IsSome world.old.inputs.keeper }
    requires served { All (λ post. is_for_server post.0 ≡ true) line.now.plan.posts }
    ensures ready { IfOk result (λ ready. IsReadyFor line.now ready.doors.items ready.rules.items ready.book
        ready.rack world.old world.new) }
    ensures may { IfOk result (λ ready. All MayServe ready.rules.items) }
    ensures stops { IfErr result (λ outcome. StopsFor line.now outcome world.old world.new) }
{
    let Ok(doors) = doors_of(alloc, &line.plan) else {
        return Err(Outcome::NoMemory(Step::Start));
    };
    let Ok(services) = services_for(alloc, posts_of(line)) else {
        return Err(Outcome::NoMemory(Step::Start));
    };
    prepare_by(
        alloc,
        table_of(line),
        line,
        doors,
        services.as_slice(),
        world,
    )
}

// The same, if there is a line.
fn prepare_read<T: Kit>(
    alloc: Global,
    read: Option<ServerLine>,
    world: &mut World<T>,
) -> Result<Ready<T::Keeper, T::Disk>, Outcome>
    requires keeper { IsSome world.old.inputs.keeper }
    requires served { IfSome read (λ line. All (λ post. is_for_server post.0 ≡ true) line.plan.posts) }
    ensures ready { IfOk result (λ ready. IsReady read.entry ready.doors.items ready.rules.items ready.book ready.rack
        world.old world.new) }
    ensures may { IfOk result (λ ready. All MayServe ready.rules.items) }
    ensures stops { IfErr result (λ outcome. Stops read.entry outcome world.old world.new) }
{
    match read {
        Some(line) => prepare_for(alloc, &line, world),
        None => Err(Outcome::Usage),
    }
}

// The same of the words.
fn prepare<T: Kit>(
    alloc: Global,
    words: &[Octets],
    world: &mut World<T>,
) -> Result<Ready<T::Keeper, T::Disk>, Outcome>
    requires keeper { IsSome world.old.inputs.keeper }
    ensures ready { IfOk result (λ ready. IsReady (server_of words.now) ready.doors.items ready.rules.items ready.book
        ready.rack world.old world.new) }
    ensures may { IfOk result (λ ready. All MayServe ready.rules.items) }
    ensures stops { IfErr result (λ outcome. Stops (server_of words.now) outcome world.old world.new) }
{
    match ServerLine::read(alloc, words) {
        Ok(read) => prepare_read(alloc, read, world),
        Err(NoMemory) => Err(Outcome::NoMemory(Step::Start)),
    }
}

// Tells the log why there is no server, and answers the status.
fn refuse<T: Kit>(outcome: &Outcome, world: &mut World<T>) -> u8
    ensures tells { TellsIf (fault_line_of outcome.now) world.old world.new }
    ensures status { result ≡ status_of outcome.now }
{
    tell(world, outcome);
    outcome.status()
}

/// Makes the server ready that the words `serve WORKERS SERVICE@PORT` and more of these ask for, over the devices of a world.
/// WORKERS is a decimal number from 1 to 64. Each SERVICE is one that may be served, which is any but `netacl-` and a label, and
/// each PORT a decimal number from 1 to 65,535, of which none stands twice. Each has so many workers, and there are at most 64
/// in all.
///
/// The table is read, then the rules of each service in the order of the words, then what the authentication server goes by.
/// Then the book of the records is opened, and then the slots of all disks, in the order of their numbers.
///
/// # Errors
///
/// The exit status, after a line in the log that names the cause:
///
/// - 2 where the words ask for no server;
/// - 3 where a line of the table, of one of the services or of `authsrv`, a user's record or a slot can't be read;
/// - 4 where the files, the keeper or a disk failed, which its count shows;
/// - 5 for want of memory.
///
/// Keeper and disks are back in the world then.
pub fn ready<T: Kit>(
    alloc: Global,
    words: &[Octets],
    world: &mut World<T>,
) -> Result<Ready<T::Keeper, T::Disk>, u8>
    requires keeper { IsSome world.old.inputs.keeper }
    requires few { length world.old.inputs.disks ≤ 64 }
    // A door for each worker and the rules of each service, each once, in the order of the words; the book is of all the
    // records that the keeper had, and goes by what the table says; and the rack is of the slots on all disks.
    ensures ready { IfOk result (λ ready. IsReady (server_of words.now) ready.doors.items ready.rules.items ready.book
        ready.rack world.old world.new) }
    // The rules may be served.
    ensures may { IfOk result (λ ready. All MayServe ready.rules.items) }
    // What stopped it, and that nothing else was done; its line in the log, and its status.
    ensures refused { IfErr result (λ status. IsRefused (server_of words.now) status world.old world.new) }
    // 2 is for words that ask for no server; 3 is for inputs or a slot that can't be read, and 4 for a count that rose.
    ensures status { IfErr result (λ status. IsStatus (server_of words.now) status world.old world.new) }
    // Each source that it got was given back: as many are out as before.
    ensures returned { world.new.files.out ≡ world.old.files.out }
    // After a refusal the keeper is there, and so are the disks: as they were, or as opening the slots before a bad one left them.
    ensures kept { IfErr result (λ _. IsSome world.new.inputs.keeper) }
    ensures disks { IfErr result (λ _. AreBack world.old.inputs.disks world.new.inputs.disks) }
{
    match prepare(alloc, words, world) {
        Ok(ready) => Ok(ready),
        Err(outcome) => Err(refuse(&outcome, world)),
    }
}
