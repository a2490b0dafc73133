//! Finding a record among those that stand in the order of their names.
ghost use Rattle.std.specs.Prelude.{◌≡◌, ◌≤◌, Some, is_some, length, not};
ghost use Rattle.std.specs.List.{position_or_len, slice_get};
ghost use Rattle.std.specs.Option.{option_copied};
ghost use Rattle.fw_types.specs.Keyed.{Ascends, is_named};
ghost use Rattle.fw_types.specs.Name.{is_before};
ghost use Rattle.auth_machine.specs.MachineState.{if_named};
ghost use Rattle.auth_machine.specs.State.{record_at, record_name};

use crate::user_record::UserRecord;
use fw_types::Name;

pub(crate) fn is_named(user: &UserRecord, name: &Name) -> bool
    ensures { result ≡ is_named record_name name.now user.now }
{
    user.record.name.text() == name.text()
}

fn is_before(user: &UserRecord, name: &Name) -> bool
    ensures { result ≡ is_before user.now.name name.now }
{
    user.record.name.is_before(name)
}

// How many records have names before this one.
pub(crate) fn count_before(records: &[UserRecord], name: &Name) -> usize
    requires { Ascends record_name records.now }
    ensures count { result ≡ position_or_len (λ user. not (is_before user.name name.now)) records.now }
    ensures within { result ≤ length records.now }
{
    records.partition_point(|user| is_before(user, name))
}

fn if_named<'a>(user: &'a UserRecord, name: &Name) -> Option<&'a UserRecord>
    ensures { option_copied result ≡ if_named record_name name.now (Some user.entry.now) }
{
    if is_named(user, name) {
        Some(user)
    } else {
        None
    }
}

// The record at this place, where it has this name.
fn named_at<'a>(records: &'a [UserRecord], at: usize, name: &Name) -> Option<&'a UserRecord>
    ensures { option_copied result ≡ if_named record_name name.now (slice_get records.entry.now at) }
{
    match records.get(at) {
        Some(user) => if_named(user, name),
        None => None,
    }
}

// Whether the record at this place has this name.
pub(crate) fn stands_at(records: &[UserRecord], at: usize, name: &Name) -> bool
    ensures { result ≡ is_some (if_named record_name name.now (slice_get records.now at)) }
{
    named_at(records, at, name).is_some()
}

// The record of this name.
pub(crate) fn record_at<'a>(records: &'a [UserRecord], name: &Name) -> Option<&'a UserRecord>
    requires { Ascends record_name records.now }
    ensures { option_copied result ≡ record_at name.now records.entry.now }
{
    named_at(records, count_before(records, name), name)
}
