ghost use Rattle.std.specs.Prelude.{◌≡◌, ◌≤◌, ◌++◌, ◌∷◌, [], ℕ, List, IfOk, IfErr, OnOk, OnErr, Some, None, length, not};
ghost use Rattle.std.specs.List.{position, position_or_len};
ghost use Rattle.fw_outside.specs.FilesView.{bytes_under};
ghost use Rattle.fw_memory.specs.MemKeeperView.{FailsAsTold, called, put, keeper_view_of};
ghost use Rattle.fw_outside.specs.Counts.{Grew, Rose, counted};
ghost use Rattle.fw_types.specs.Keyed.{Ascends, IsPlaceOf, is_named, placed, under, without};
ghost use Rattle.fw_types.specs.Name.{is_before};
ghost use Rattle.fw_memory.specs.CallsView.{comes_at};
ghost use Rattle.fw_outside.specs.KeeperView.{AreLoaded, Refuses, Sets, entry_name};

use crate::Calls;
use fw_outside::{KeepFault, Keeper};
use fw_types::{Name, NoMemory, Octets};
use std::alloc::Global;
use std::marker::Model;

/// A keeper in memory, which fails at the calls that it is told.
#[derive(Drop)]
pub struct MemKeeper {
    alloc: Global,
    entries: Vec<(Name, Octets)>,
    fails: Calls,
    calls: u64,
    faults: u64,
}

impl Model for MemKeeper {
    ghost use Rattle.fw_memory.specs.MemKeeperView.{MemKeeperView};

    ghost Value = { MemKeeperView };

    ghost view = { λ k. record { table = k.entries.items; fails = k.fails; calls = k.calls; faults = k.faults } };
}

// Whether the entry has the name.
fn is_at(entry: &(Name, Octets), name: &[u8]) -> bool
    ensures { result ≡ is_named entry_name name.now entry.now }
{
    entry.0.text() == name
}

fn position_of(entries: &[(Name, Octets)], name: &[u8]) -> Option<usize>
    ensures { result ≡ position (is_named entry_name name.now) entries.now }
{
    entries.iter().position(|entry| is_at(entry, name))
}

// The place of the first entry with the name.
fn place_of(entries: &[(Name, Octets)], name: &[u8]) -> Option<usize>
    ensures { IsPlaceOf entry_name name.now entries.now result }
{
    position_of(entries, name)
}

// Puts the bytes under the name.
fn put(entries: &mut Vec<(Name, Octets)>, name: &Name, bytes: Octets) -> Result<(), NoMemory>
    ensures ok { OnOk result (entries.new.items ≡ put name.now bytes entries.old.items) }
    ensures err { OnErr result (entries.new.items ≡ entries.old.items) }
{
    match place_of(entries, name.text()) {
        Some(at) => {
            entries[at] = (name.twin(), bytes);
            Ok(())
        }
        None => Ok(entries.push((name.twin(), bytes))?),
    }
}

// Drops all entries with the name.
fn drop_all(entries: &mut Vec<(Name, Octets)>, name: &[u8])
    ensures { entries.new.items ≡ without entry_name name.now entries.old.items }
{
    entries.retain(|entry| !is_at(entry, name));
}

fn first_not_before(entries: &[(Name, Octets)], name: &Name) -> Option<usize>
    ensures { result ≡ position (λ entry. not (is_before entry.0 name.now)) entries.now }
{
    entries.iter().position(|entry| !entry.0.is_before(name))
}

// How many entries, in order, have names before this one.
fn count_before(entries: &[(Name, Octets)], name: &Name) -> usize
    ensures count { result ≡ position_or_len (λ entry. not (is_before entry.0 name.now)) entries.now }
    ensures within { result ≤ length entries.now }
{
    first_not_before(entries, name).unwrap_or(entries.len())
}

// An equal entry.
fn twin(alloc: Global, entry: &(Name, Octets)) -> Result<(Name, Octets), NoMemory>
    ensures { IfOk result (λ twin. twin ≡ entry.now) }
{
    let bytes = Octets::copy(alloc, entry.1.bytes())?;
    Ok((entry.0.twin(), bytes))
}

// Inserts the entry behind those whose names come before its own.
fn insert(sorted: &mut Vec<(Name, Octets)>, entry: (Name, Octets)) -> Result<(), NoMemory>
    ensures { OnOk result (sorted.new.items ≡ placed entry_name entry sorted.old.items) }
{
    let at = count_before(sorted, &entry.0);
    sorted.insert(at, entry)?;
    Ok(())
}

// Adds the entry at its place, unless there is one with its name.
fn add_sorted(
    alloc: Global,
    sorted: &mut Vec<(Name, Octets)>,
    entry: &(Name, Octets),
) -> Result<(), NoMemory>
    requires { Ascends entry_name sorted.old.items }
    ensures ordered { OnOk result (Ascends entry_name sorted.new.items) }
    ensures same { OnOk result ((name : List ℕ) →
        under entry_name name sorted.new.items ≡ under entry_name name (sorted.old.items ++ entry.now ∷ [])) }
{
    if place_of(sorted, entry.0.text()).is_some() {
        return Ok(());
    }
    let twin = twin(alloc, entry)?;
    insert(sorted, twin)?;
    Ok(())
}

// The entries in the order of their names; of a name that stands twice the first entry.
fn sorted(alloc: Global, entries: &[(Name, Octets)]) -> Result<Vec<(Name, Octets)>, NoMemory>
    ensures ordered { IfOk result (λ sorted. Ascends entry_name sorted.items) }
    ensures same { IfOk result (λ sorted. (name : List ℕ) →
        under entry_name name sorted.items ≡ under entry_name name entries.now) }
{
    let mut sorted = Vec::new(alloc);
    for entry in entries {
        add_sorted(alloc, &mut sorted, entry)?;
    }
    Ok(sorted)
}

impl MemKeeper {
    /// A keeper with these names and bytes; of a name that stands twice the first entry counts. The calls of its three
    /// methods are counted together, and those in `fails` fail. Memory comes from `alloc`.
    pub fn new(alloc: Global, records: Vec<(Name, Octets)>, fails: Calls) -> MemKeeper
        ensures { result ≡ record { table = records.items; fails = fails; calls = 0; faults = 0 } }
    {
        MemKeeper {
            alloc,
            entries: records,
            fails,
            calls: 0,
            faults: 0,
        }
    }

    /// The names with their bytes; of a name that stands twice the first entry counts.
    pub fn table(&self) -> &[(Name, Octets)]
        ensures { result.now ≡ self.now.table }
    {
        &self.entries
    }

    // One more call, which is told to fail or not.
    fn is_failing(&mut self) -> bool
        ensures answer { result ≡ comes_at self.old.fails self.old.calls }
        ensures is { self.new ≡ called self.old }
        ensures grew { Grew 1 self.old.calls self.new.calls }
    {
        let call = self.calls;
        self.calls = call.saturating_add(1);
        self.fails.contains(call)
    }

    fn keep(&mut self, name: &Name, bytes: &[u8]) -> Result<(), NoMemory>
        ensures ok { OnOk result (self.new ≡ record self.old { table = put name.now bytes.now self.old.table }) }
        ensures err { OnErr result (self.new ≡ self.old) }
    {
        let bytes = Octets::copy(self.alloc, bytes)?;
        put(&mut self.entries, name, bytes)
    }

    fn arranged(&self) -> Result<Vec<(Name, Octets)>, NoMemory>
        ensures ordered { IfOk result (λ sorted. Ascends entry_name sorted.items) }
        ensures same { IfOk result (λ sorted. (name : List ℕ) →
            under entry_name name sorted.items ≡ under entry_name name self.now.table) }
    {
        sorted(self.alloc, &self.entries)
    }

    fn let_go(&mut self, name: &Name)
        ensures { self.new ≡ record self.old { table = without entry_name name.now self.old.table } }
    {
        drop_all(&mut self.entries, name.text());
    }

    fn fail(&mut self) -> KeepFault
        ensures answer { result ≡ KeepFault.Failed }
        ensures rose { Rose self.old.faults self.new.faults }
        ensures is { self.new ≡ record self.old { faults = counted self.old.faults } }
    {
        self.faults = self.faults.saturating_add(1);
        KeepFault::Failed
    }
}

impl Keeper for MemKeeper {
    ghost keeper_view = { keeper_view_of };

    fn put(&mut self, name: &Name, bytes: &[u8]) -> Result<(), KeepFault>
        ensures sets { Sets result name.now (Some bytes.now) (keeper_view_of self.old) (keeper_view_of self.new) }
        ensures answer { FailsAsTold result (put name.now bytes.now self.old.table) self.old self.new }
    {
        if self.is_failing() {
            return Err(self.fail());
        }
        match self.keep(name, bytes) {
            Ok(()) => Ok(()),
            Err(NoMemory) => Err(KeepFault::NoMemory),
        }
    }

    fn drop_name(&mut self, name: &Name) -> Result<(), KeepFault>
        ensures sets { Sets result name.now None (keeper_view_of self.old) (keeper_view_of self.new) }
        ensures answer { FailsAsTold result (without entry_name name.now self.old.table) self.old self.new }
    {
        if self.is_failing() {
            return Err(self.fail());
        }
        self.let_go(name);
        Ok(())
    }

    fn load(&mut self) -> Result<Vec<(Name, Octets)>, KeepFault>
        ensures loaded { IfOk result (λ loaded.
            AreLoaded loaded.items (keeper_view_of self.old) (keeper_view_of self.new)) }
        ensures refused { IfErr result (λ fault. Refuses fault (keeper_view_of self.old) (keeper_view_of self.new)) }
        ensures answer { FailsAsTold result self.old.table self.old self.new }
    {
        if self.is_failing() {
            return Err(self.fail());
        }
        let Ok(loaded) = self.arranged() else {
            return Err(KeepFault::NoMemory);
        };
        Ok(loaded)
    }
}
