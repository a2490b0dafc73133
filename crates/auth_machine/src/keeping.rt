//! Keeping what becomes of the records.
ghost use Rattle.std.specs.Prelude.{◌≡◌, IfOk, Ok, OnErr, Some, true};
ghost use Rattle.std.specs.Option.{option_copied};
ghost use Rattle.fw_types.specs.Keyed.{Ascends};
ghost use Rattle.auth_records.specs.Reading.{decoded};
ghost use Rattle.auth_records.specs.Spelling.{Fields, spelling};
ghost use Rattle.auth_machine.specs.Keeping.{Calls, KeepsChange, MayBeCalled, kept_by};
ghost use Rattle.auth_machine.specs.State.{record_at, record_name};
ghost use Rattle.auth_machine.specs.Step.{is_record_change, is_record};
ghost use Rattle.auth_machine.specs.Stepping.{IsReadAgain, PutsReadable};

use crate::record_change::RecordChange;
use crate::search::record_at;
use crate::user_record::UserRecord;
use auth_records::encode;
use fw_outside::{KeepFault, Keeper};
use fw_types::{Name, NoMemory};
use std::alloc::Global;

// Whether the bytes are those of the record that stands.
fn is_record(alloc: Global, bytes: &[u8], current: Option<&UserRecord>) -> Result<bool, NoMemory>
    ensures is { IfOk result (λ same. (f : Fields) → bytes.now ≡ spelling f →
        same ≡ is_record f (option_copied current.entry)) }
    ensures stands { IfOk result (λ same. (f : Fields) → decoded bytes.now ≡ Ok f → same ≡ true →
        option_copied current.entry ≡ Some f) }
{
    match current {
        None => Ok(false),
        Some(user) => {
            let old = encode(alloc, &user.record)?;
            Ok(bytes == old.bytes())
        }
    }
}

// Whether the keeper has kept it; a failure is the keeper's own count.
fn is_kept(answer: Result<(), KeepFault>) -> Result<bool, NoMemory>
    ensures { result ≡ kept_by answer }
{
    match answer {
        Ok(()) => Ok(true),
        Err(KeepFault::Failed) => Ok(false),
        Err(KeepFault::NoMemory) => Err(NoMemory),
    }
}

fn put<K: Keeper>(
    alloc: Global,
    keeper: &mut K,
    records: &[UserRecord],
    user: &UserRecord,
) -> Result<bool, NoMemory>
    requires { Ascends record_name records.now }
    ensures keeps { IfOk result (λ done.
        KeepsChange (is_record_change (RecordChange.Put user.now) records.now) (RecordChange.Put user.now) done
        (K.keeper_view keeper.old) (K.keeper_view keeper.new)) }
    ensures readable { IfOk result (λ done. IsReadAgain user.now records.now) }
    ensures lacks { OnErr result (MayBeCalled (is_record_change (RecordChange.Put user.now) records.now)
        (K.keeper_view keeper.old) (K.keeper_view keeper.new)) }
{
    let bytes = encode(alloc, &user.record)?;
    let current = record_at(records, &user.record.name);
    if is_record(alloc, bytes.bytes(), current)? {
        return Ok(true);
    }
    is_kept(keeper.put(&user.record.name, bytes.bytes()))
}

// Keeps what becomes of the records, where anything does; answers whether it was kept.
pub(crate) fn keep<K: Keeper>(
    alloc: Global,
    keeper: &mut K,
    records: &[UserRecord],
    change: &RecordChange,
) -> Result<bool, NoMemory>
    requires { Ascends record_name records.now }
    ensures keeps { IfOk result (λ kept.
        KeepsChange (is_record_change change.now records.now) change.now kept (K.keeper_view keeper.old) (K.keeper_view
        keeper.new)) }
    ensures readable { IfOk result (λ kept. PutsReadable change.now records.now) }
    ensures lacks { OnErr result (MayBeCalled (is_record_change change.now records.now) (K.keeper_view keeper.old)
        (K.keeper_view keeper.new)) }
{
    match change {
        RecordChange::Leave => Ok(true),
        RecordChange::Put(user) => put(alloc, keeper, records, user),
        RecordChange::Delete(name) => is_kept(keeper.drop_name(name)),
    }
}
