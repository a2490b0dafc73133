//! Rows of the table as names with their bytes.
ghost use Rattle.std.specs.Prelude.{◌≡◌, ◌≢◌, ◌∷◌, ◌++◌, [], Some, None, IfOk, IfErr, OnOk, option_map};
ghost use Rattle.fw_types.specs.Keyed.{Ascends};
ghost use Rattle.fw_outside.specs.KeeperView.{entry_name};
ghost use Rattle.fw_real.specs.Entries.{entry_of, is_behind, with_entry, with_row, with_rows};

use fw_outside::KeepFault;
use fw_types::{Name, Octets};
use sqlite::Row;
use sqlite::types::ValueRef;
use std::alloc::Global;

// The name and the bytes of a row, or nothing where it has another form.
fn cells(row: &Row) -> Option<(Name, &[u8])>
    ensures { option_map (λ cells. (cells.0, cells.1.now)) result ≡ entry_of row.now }
{
    if row.column_count() != 2 {
        return None;
    }
    match (row.get_ref(0).ok()?, row.get_ref(1).ok()?) {
        (ValueRef::Text(name), ValueRef::Blob(bytes)) => Some((Name::read(name)?, bytes)),
        _ => None,
    }
}

// The entry of a row: a text that is a name, and bytes.
fn entry(alloc: Global, row: &Row) -> Result<(Name, Octets), KeepFault>
    ensures ok { IfOk result (λ entry. entry_of row.now ≡ Some entry) }
    ensures err { IfErr result (λ fault. fault ≢ KeepFault.NoMemory → entry_of row.now ≡ None) }
{
    let Some((name, bytes)) = cells(row) else {
        return Err(KeepFault::Failed);
    };
    match Octets::copy(alloc, bytes) {
        Ok(bytes) => Ok((name, bytes)),
        Err(_) => Err(KeepFault::NoMemory),
    }
}

// Whether the name comes behind those of the entries.
fn is_behind(entries: &[(Name, Octets)], name: &Name) -> bool
    ensures { result ≡ is_behind entries.now name.now }
{
    match entries.last() {
        Some(last) => last.0.is_before(name),
        None => true,
    }
}

fn push(entries: &mut Vec<(Name, Octets)>, entry: (Name, Octets)) -> Result<(), KeepFault>
    ensures ok { OnOk result (entries.new.items ≡ entries.old.items ++ entry ∷ []) }
    ensures err { IfErr result (λ fault. fault ≡ KeepFault.NoMemory) }
{
    match entries.push(entry) {
        Ok(()) => Ok(()),
        Err(_) => Err(KeepFault::NoMemory),
    }
}

// Adds an entry at the end, where its name belongs there.
fn add(entries: &mut Vec<(Name, Octets)>, entry: (Name, Octets)) -> Result<(), KeepFault>
    requires { Ascends entry_name entries.old.items }
    ensures ordered { OnOk result (Ascends entry_name entries.new.items) }
    ensures ok { OnOk result (with_entry entries.old.items entry ≡ Some entries.new.items) }
    ensures err { IfErr result (λ fault. fault ≢ KeepFault.NoMemory → with_entry entries.old.items entry ≡ None) }
{
    if !is_behind(entries, &entry.0) {
        return Err(KeepFault::Failed);
    }
    push(entries, entry)?;
    Ok(())
}

// Adds the entry of a row at the end.
fn add_row(alloc: Global, entries: &mut Vec<(Name, Octets)>, row: &Row) -> Result<(), KeepFault>
    requires { Ascends entry_name entries.old.items }
    ensures ordered { OnOk result (Ascends entry_name entries.new.items) }
    ensures ok { OnOk result (with_row entries.old.items row.now ≡ Some entries.new.items) }
    ensures err { IfErr result (λ fault. fault ≢ KeepFault.NoMemory → with_row entries.old.items row.now ≡ None) }
{
    match entry(alloc, row) {
        Ok(entry) => add(entries, entry),
        Err(fault) => Err(fault),
    }
}

/// The entries of the rows, each of which has a name that comes behind the one before.
pub(crate) fn read_all(alloc: Global, rows: &[Row]) -> Result<Vec<(Name, Octets)>, KeepFault>
    ensures ordered { IfOk result (λ entries. Ascends entry_name entries.items) }
    ensures ok { IfOk result (λ entries. with_rows [] rows.now ≡ Some entries.items) }
    ensures err { IfErr result (λ fault. fault ≢ KeepFault.NoMemory → with_rows [] rows.now ≡ None) }
{
    let mut entries = Vec::new(alloc);
    for row in rows {
        match add_row(alloc, &mut entries, row) {
            Ok(()) => {}
            Err(fault) => return Err(fault),
        }
    }
    Ok(entries)
}
