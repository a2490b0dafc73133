//! Reading all records that a keeper has.
ghost use Rattle.std.specs.Prelude.{◌≡◌, All, Err, IfErr, IfOk, IfSome, MatchResult, Ok};
ghost use Rattle.fw_types.specs.Keyed.{Ascends};
ghost use Rattle.fw_outside.specs.KeeperView.{IsCalled};
ghost use Rattle.auth_records.specs.Spelling.{HasForm};
ghost use Rattle.auth_machine.specs.History.{DecodesTo};
ghost use Rattle.auth_machine.specs.Opening.{IsBadIn, ReadsAs, RefusesBook, name_place, record_in, records_in};
ghost use Rattle.auth_machine.specs.State.{record_name};

use crate::OpenFault;
use crate::user_record::UserRecord;
use auth_records::decode;
use fw_outside::{KeepFault, Keeper};
use fw_types::{Name, Octets};
use std::alloc::Global;

// The place of the name in the bytes of a record.
fn name_place(bytes: &[u8]) -> usize
    ensures { result ≡ name_place bytes.now }
{
    match bytes {
        [1, ..] => 14,
        _ => 30,
    }
}

// The record that an entry is, or the place of its first bad byte.
fn read_entry(entry: &(Name, Octets)) -> Result<UserRecord, usize>
    ensures reads { MatchResult result (λ user. record_in entry.now ≡ Ok user) (λ at. record_in entry.now ≡ Err at) }
    ensures formed { IfOk result HasForm }
{
    match decode(entry.1.bytes()) {
        Err(fault) => Err(fault.at),
        Ok(record) => {
            if record.name.text() != entry.0.text() {
                return Err(name_place(entry.1.bytes()));
            }
            Ok(UserRecord { record })
        }
    }
}

// The records that all entries are, in order.
fn read_entries(alloc: Global, entries: &[(Name, Octets)]) -> Result<Vec<UserRecord>, OpenFault>
    ensures reads { IfOk result (λ records. records_in entries.now ≡ Ok records.items) }
    ensures formed { IfOk result (λ records. All HasForm records.items) }
    ensures fault { IfErr result (IsBadIn entries.now) }
{
    let mut records = Vec::new(alloc);
    for entry in entries {
        match read_entry(entry) {
            Ok(user) => {
                if records.push(user).is_err() {
                    return Err(OpenFault::NoMemory);
                }
            }
            Err(at) => {
                return Err(OpenFault::BadRecord {
                    name: entry.0.twin(),
                    at,
                });
            }
        }
    }
    Ok(records)
}

// All records that the keeper has, in the order of names.
pub(crate) fn load<K: Keeper>(alloc: Global, keeper: &mut K) -> Result<Vec<UserRecord>, OpenFault>
    ensures reads { IfOk result (λ records.
        ReadsAs (Ok records.items) (K.keeper_view keeper.old) (K.keeper_view keeper.new)) }
    ensures ordered { IfOk result (λ records. Ascends record_name records.items) }
    ensures formed { IfOk result (λ records. All HasForm records.items) }
    ensures told { IfOk result (λ records. IfSome (K.keeper_view keeper.new).table (DecodesTo records.items)) }
    ensures called { IfOk result (λ _. IsCalled (K.keeper_view keeper.old) (K.keeper_view keeper.new)) }
    ensures refused { IfErr result (λ fault. RefusesBook fault (K.keeper_view keeper.old) (K.keeper_view keeper.new)) }
{
    match keeper.load() {
        Ok(loaded) => read_entries(alloc, &loaded),
        Err(KeepFault::Failed) => Err(OpenFault::LoadFault),
        Err(KeepFault::NoMemory) => Err(OpenFault::NoMemory),
    }
}
