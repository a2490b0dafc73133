//! The devices that a row's run is given.
ghost use Rattle.std.specs.Prelude.{All, IfOk};
ghost use Rattle.fw_memory.specs.MemDialerView.{IsNewLink};

use crate::calls::{calls_of, room_of};
use crate::plan::Plan;
use format_of_rows::{File, Link, Part};
use fw_memory::{
    Calls, MemClock, MemDialer, MemDice, MemFiles, MemKeeper, MemLauncher, MemSink, MemSource,
};
use fw_types::{Name, NoMemory, Octets};
use std::alloc::Global;

/// The names that a keeper has, with their bytes.
pub(crate) type Records = Vec<(Name, Octets)>;

/// The moment that follows those of a row.
pub(crate) const NEXT: u64 = 10_000_000_000;

/// The number from which the dice count up.
const FIRST_SALT: u64 = 0x0102_0304_0506_0708;

/// So many destinations may be asked for.
const MOST_ASKED: usize = 64;

/// What a client says and is told, or what is printed.
#[derive(Drop)]
pub struct Talk {
    pub input: MemSource,
    pub output: MemSink,
}

/// What a run reads and logs, and what gives it moments and salts.
#[derive(Drop)]
pub struct Place {
    pub files: MemFiles,
    pub logs: MemSink,
    pub clock: MemClock,
    pub dice: MemDice,
}

/// Whom a run calls.
#[derive(Drop)]
pub struct Helpers {
    pub dialer: MemDialer,
    pub launcher: MemLauncher,
    /// Both ends of the link to an authentication server elsewhere, where there is one.
    pub remote: Option<(MemSource, MemSink)>,
}

/// The devices that a run is given, but for its keeper.
#[derive(Drop)]
pub struct Devices {
    pub talk: Talk,
    pub place: Place,
    pub helpers: Helpers,
}

/// Both, where there is memory for each.
pub(crate) fn both<A: Drop, B: Drop>(
    first: Result<A, NoMemory>,
    second: Result<B, NoMemory>,
) -> Result<(A, B), NoMemory> {
    Ok((first?, second?))
}

fn twin_of(alloc: Global, name: &Name, bytes: &Octets) -> Result<(Name, Octets), NoMemory> {
    let bytes = Octets::copy(alloc, bytes.bytes())?;
    Ok((name.twin(), bytes))
}

/// A copy of the records.
pub(crate) fn copy_of(alloc: Global, records: &[(Name, Octets)]) -> Result<Records, NoMemory> {
    let mut copy = Vec::new(alloc);
    for (name, bytes) in records {
        let twin = twin_of(alloc, name, bytes)?;
        copy.push(twin)?;
    }
    Ok(copy)
}

// Gives these moments, then the next one, and another one from then on.
fn clock_of(alloc: Global, moments: &[u64]) -> Result<MemClock, NoMemory> {
    let mut all = Vec::from_slice(alloc, moments)?;
    all.extend_from_slice(&[NEXT, NEXT + 1])?;
    Ok(MemClock::new(all))
}

fn entry_of(alloc: Global, name: &[u8], bytes: &[u8]) -> Result<(Octets, Octets), NoMemory> {
    let name = Octets::copy(alloc, name)?;
    let bytes = Octets::copy(alloc, bytes)?;
    Ok((name, bytes))
}

fn entries_of(alloc: Global, files: &[File]) -> Result<Vec<(Octets, Octets)>, NoMemory> {
    let mut entries = Vec::new(alloc);
    for file in files {
        let entry = entry_of(alloc, &file.name, &file.bytes)?;
        entries.push(entry)?;
    }
    Ok(entries)
}

fn files_of(plan: &Plan) -> Result<MemFiles, NoMemory> {
    let entries = entries_of(plan.alloc, &plan.row.setting.files)?;
    let (fails, idle) = both(calls_of(plan, Part::Table), calls_of(plan, Part::TableIdle))?;
    Ok(MemFiles::new(plan.alloc, entries, plan.piece.max(1), fails, idle))
}

fn input_of(plan: &Plan) -> Result<MemSource, NoMemory> {
    let said = Octets::copy(plan.alloc, &plan.row.setting.client)?;
    let (fails, idle) = both(
        calls_of(plan, Part::Client),
        calls_of(plan, Part::ClientIdle),
    )?;
    Ok(MemSource::new(said, plan.piece.max(1), fails, idle))
}

fn output_of(plan: &Plan) -> Result<MemSink, NoMemory> {
    let fails = calls_of(plan, Part::Output)?;
    MemSink::new(plan.alloc, room_of(plan, Part::OutputRoom), fails)
}

fn logs_of(plan: &Plan) -> Result<MemSink, NoMemory> {
    let fails = calls_of(plan, Part::Log)?;
    MemSink::new(plan.alloc, room_of(plan, Part::LogRoom), fails)
}

/// The keeper of a row's run.
pub(crate) fn keeper_of(plan: &Plan) -> Result<MemKeeper, NoMemory> {
    let records = copy_of(plan.alloc, plan.records)?;
    let fails = calls_of(plan, Part::Keeper)?;
    Ok(MemKeeper::new(plan.alloc, records, fails))
}

/// The requests at which the link of a port fails, where the row says any.
pub(crate) fn port_of(plan: &Plan) -> Result<Option<Calls>, NoMemory> {
    match plan.row.trial.times(Part::Port) {
        Some(_) => Ok(Some(calls_of(plan, Part::Port)?)),
        None => Ok(None),
    }
}

fn launcher_of(plan: &Plan) -> Result<MemLauncher, NoMemory> {
    let ends = Vec::from_slice(plan.alloc, &plan.row.setting.ends)?;
    let fails = calls_of(plan, Part::Program)?;
    Ok(MemLauncher::new(plan.alloc, ends, fails))
}

// A link of these.
fn linked(
    alloc: Global,
    said: Octets,
    piece: usize,
    fails: Calls,
    idle: Calls,
    room: usize,
    refuses: Calls,
) -> Result<(MemSource, MemSink), NoMemory>
    ensures { IfOk result IsNewLink }
{
    let to = MemSink::new(alloc, room, refuses)?;
    Ok((MemSource::new(said, piece.max(1), fails, idle), to))
}

/// The ways in which a link may fail.
#[derive(Clone, Copy)]
struct LinkParts {
    source: Part,
    idle: Part,
    sink: Part,
    room: Part,
}

const MAIN: LinkParts = LinkParts {
    source: Part::Server,
    idle: Part::ServerIdle,
    sink: Part::Given,
    room: Part::GivenRoom,
};

const DATA: LinkParts = LinkParts {
    source: Part::Data,
    idle: Part::DataIdle,
    sink: Part::DataGiven,
    room: Part::DataRoom,
};

// A link at whose other end this is said.
fn link_of(plan: &Plan, link: &Link) -> Result<(MemSource, MemSink), NoMemory>
    ensures { IfOk result IsNewLink }
{
    let parts = if link.is_data { DATA } else { MAIN };
    let source = both(calls_of(plan, parts.source), calls_of(plan, parts.idle));
    let other = both(
        Octets::copy(plan.alloc, &link.said),
        calls_of(plan, parts.sink),
    );
    let ((fails, idle), (said, refuses)) = both(source, other)?;
    let room = room_of(plan, parts.room);
    linked(plan.alloc, said, plan.piece, fails, idle, room, refuses)
}

fn links_of(plan: &Plan) -> Result<Vec<(MemSource, MemSink)>, NoMemory>
    ensures { IfOk result (λ links. All IsNewLink links.items) }
{
    let mut links = Vec::new(plan.alloc);
    for link in &plan.row.setting.links {
        links.push(link_of(plan, link)?)?;
    }
    Ok(links)
}

fn dialer_of(plan: &Plan) -> Result<MemDialer, NoMemory> {
    let doors = Vec::from_slice(plan.alloc, &plan.row.setting.doors)?;
    let fails = calls_of(plan, Part::Dialer)?;
    let links = links_of(plan)?;
    MemDialer::new(plan.alloc, links, doors, MOST_ASKED, fails)
}

fn talk_of(plan: &Plan) -> Result<Talk, NoMemory> {
    let (input, output) = both(input_of(plan), output_of(plan))?;
    Ok(Talk { input, output })
}

fn place_of(plan: &Plan) -> Result<Place, NoMemory> {
    let clock = clock_of(plan.alloc, &plan.row.setting.moments)?;
    let (logs, files) = both(logs_of(plan), files_of(plan))?;
    Ok(Place {
        files,
        logs,
        clock,
        dice: MemDice::new(FIRST_SALT),
    })
}

// Both ends of a link to an authentication server elsewhere that says this.
fn ends_of(plan: &Plan, said: &[u8]) -> Result<(MemSource, MemSink), NoMemory> {
    let source = both(
        calls_of(plan, Part::Remote),
        calls_of(plan, Part::RemoteIdle),
    );
    let other = both(
        Octets::copy(plan.alloc, said),
        calls_of(plan, Part::RemoteGiven),
    );
    let ((fails, idle), (said, refuses)) = both(source, other)?;
    let to = MemSink::new(plan.alloc, room_of(plan, Part::RemoteRoom), refuses)?;
    Ok((MemSource::new(said, plan.piece.max(1), fails, idle), to))
}

fn remote_of(plan: &Plan) -> Result<Option<(MemSource, MemSink)>, NoMemory> {
    match &plan.row.setting.remote {
        Some(said) => Ok(Some(ends_of(plan, said)?)),
        None => Ok(None),
    }
}

fn helpers_of(plan: &Plan) -> Result<Helpers, NoMemory> {
    let called = both(launcher_of(plan), dialer_of(plan));
    let ((launcher, dialer), remote) = both(called, remote_of(plan))?;
    Ok(Helpers {
        dialer,
        launcher,
        remote,
    })
}

/// What a row's run meets.
pub(crate) fn devices_of(plan: &Plan) -> Result<Devices, NoMemory> {
    let others = both(place_of(plan), helpers_of(plan));
    let (talk, (place, helpers)) = both(talk_of(plan), others)?;
    Ok(Devices {
        talk,
        place,
        helpers,
    })
}
