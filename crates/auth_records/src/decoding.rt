//! Reading a record from its bytes.
ghost use Rattle.std.specs.Prelude.{◌≡◌, ◌≤◌, ◌^◌, Bool, List, Option, IsTrue, IfOk, IfErr, MatchResult, Ok, Err, option_map};
ghost use Rattle.auth_records.specs.declared.record.Record.{Record};
ghost use Rattle.auth_records.specs.Spelling.{IsRecord, Spells, fields, otp_fields};
ghost use Rattle.auth_records.specs.Reading.{Head, Names, head_at, dates_at, last_of, expires_of, names_at, plain_at, otp_at, optional_at, whole_record_at, whole, decoded, proto_of, wiz_of};
ghost use Rattle.byte_reader.specs.Reading.{IsReadAs};
ghost use Rattle.auth_records.specs.Fault.{IsLongestBeginning};
ghost use Rattle.auth_records.specs.Views.{head_view, dates_view, names_view};

use crate::fields::{group_of, long_of, name_of, seed_of, small_number_of};
use crate::{LongName, Otp, Plain, Proto, Record, RecordFault, Wiz};
use byte_reader::{Stop, byte_of, bytes_of, long_number_of};
use fw_types::Name;

/// What follows the number of the version.
#[derive(Drop)]
pub(crate) struct Head {
    pub(crate) enabled: bool,
    pub(crate) has_plain: bool,
    pub(crate) has_otp: bool,
    pub(crate) proto: Proto,
    pub(crate) wiz: Wiz,
    pub(crate) fails: u8,
    pub(crate) since: u64,
}

/// What version 2 has besides.
#[derive(Clone, Copy)]
pub(crate) struct Dates {
    pub(crate) last: u64,
    pub(crate) expires: u64,
}

/// The names.
#[derive(Drop)]
pub(crate) struct Names {
    pub(crate) name: Name,
    pub(crate) long: LongName,
    pub(crate) group: Option<Name>,
}

fn proto_of(byte: u8) -> Proto
    ensures { result ≡ proto_of byte }
{
    match byte {
        0 => Proto::None,
        1 => Proto::Plain,
        _ => Proto::Otp,
    }
}

fn wiz_of(byte: u8) -> Wiz
    ensures { result ≡ wiz_of byte }
{
    match byte {
        0 => Wiz::None,
        1 => Wiz::Group,
        _ => Wiz::Super,
    }
}

#[tactic(auto, unfolding(crate::specs::Reading::head_at))]
fn head_of(bytes: &[u8]) -> Result<(Head, &[u8]), Stop>
    ensures gives { IsReadAs (λ x. (head_view x.0, x.1.now)) result (head_at bytes.now) }
    ensures fails { IfOk result (λ x. x.0.fails ≤ 5) }
{
    let (flags, rest) = byte_of(0, 7, bytes)?;
    let (proto, rest) = byte_of(0, 2, rest)?;
    let (wiz, rest) = byte_of(0, 2, rest)?;
    let (fails, rest) = byte_of(0, 5, rest)?;
    let (since, rest) = long_number_of(rest)?;
    let head = Head {
        enabled: flags & 1 == 1,
        has_plain: flags & 2 == 2,
        has_otp: flags & 4 == 4,
        proto: proto_of(proto),
        wiz: wiz_of(wiz),
        fails,
        since,
    };
    Ok((head, rest))
}

#[tactic(auto, unfolding(crate::specs::Reading::dates_at))]
fn dates_of(bytes: &[u8]) -> Result<(Dates, &[u8]), Stop>
    ensures { IsReadAs (λ x. (dates_view x.0, x.1.now)) result (dates_at bytes.now) }
{
    let (last, rest) = long_number_of(bytes)?;
    let (expires, rest) = long_number_of(rest)?;
    Ok((Dates { last, expires }, rest))
}

#[tactic(auto, unfolding(crate::specs::Reading::names_at))]
fn names_of(bytes: &[u8]) -> Result<(Names, &[u8]), Stop>
    ensures { IsReadAs (λ x. (names_view x.0, x.1.now)) result (names_at bytes.now) }
{
    let (name, rest) = name_of(bytes)?;
    let (long, rest) = long_of(rest)?;
    let (group, rest) = group_of(rest)?;
    Ok((Names { name, long, group }, rest))
}

#[tactic(auto, unfolding(crate::specs::Reading::plain_at))]
fn plain_of(bytes: &[u8]) -> Result<(Plain, &[u8]), Stop>
    ensures { IsReadAs (λ x. (x.0, x.1.now)) result (plain_at bytes.now) }
{
    let (eight, rest) = bytes_of(8, bytes)?;
    let (sixteen, rest) = bytes_of(16, rest)?;
    let mut salt = [0; 8];
    salt.copy_from_slice(eight);
    let mut hash = [0; 16];
    hash.copy_from_slice(sixteen);
    Ok((Plain { salt, hash }, rest))
}

#[tactic(auto, unfolding(crate::specs::Reading::otp_at))]
fn otp_of(bytes: &[u8]) -> Result<(Otp, &[u8]), Stop>
    ensures { IsReadAs (λ x. (otp_fields x.0, x.1.now)) result (otp_at bytes.now) }
{
    let (number, rest) = small_number_of(bytes)?;
    let (word_seed, rest) = seed_of(rest)?;
    let (kept, rest) = long_number_of(rest)?;
    Ok((
        Otp {
            number,
            word_seed,
            kept,
        },
        rest,
    ))
}

#[tactic(auto, unfolding(crate::specs::Reading::optional_at))]
fn dates_where(flag: bool, bytes: &[u8]) -> Result<(Option<Dates>, &[u8]), Stop>
    ensures { IsReadAs (λ x. (option_map dates_view x.0, x.1.now)) result (optional_at flag dates_at bytes.now) }
{
    if !flag {
        return Ok((None, bytes));
    }
    let (dates, rest) = dates_of(bytes)?;
    Ok((Some(dates), rest))
}

fn last_of(dates: Option<Dates>) -> u64
    ensures { result ≡ last_of (option_map dates_view dates) }
{
    match dates {
        Some(dates) => dates.last,
        None => 0,
    }
}

fn expires_of(dates: Option<Dates>) -> u64
    ensures { result ≡ expires_of (option_map dates_view dates) }
{
    match dates {
        Some(dates) => dates.expires,
        None => 0,
    }
}

#[tactic(auto, unfolding(crate::specs::Reading::optional_at))]
fn plain_where(flag: bool, bytes: &[u8]) -> Result<(Option<Plain>, &[u8]), Stop>
    ensures { IsReadAs (λ x. (x.0, x.1.now)) result (optional_at flag plain_at bytes.now) }
{
    if !flag {
        return Ok((None, bytes));
    }
    let (plain, rest) = plain_of(bytes)?;
    Ok((Some(plain), rest))
}

#[tactic(auto, unfolding(crate::specs::Reading::optional_at))]
fn otp_where(flag: bool, bytes: &[u8]) -> Result<(Option<Otp>, &[u8]), Stop>
    ensures { IsReadAs (λ x. (option_map otp_fields x.0, x.1.now)) result (optional_at flag otp_at bytes.now) }
{
    if !flag {
        return Ok((None, bytes));
    }
    let (otp, rest) = otp_of(bytes)?;
    Ok((Some(otp), rest))
}

#[tactic(auto, unfolding(crate::specs::Reading::whole_record_at))]
fn record_of(bytes: &[u8]) -> Result<(Record, &[u8]), Stop>
    ensures { IsReadAs (λ x. (fields x.0, x.1.now)) result (whole_record_at bytes.now) }
{
    let (version, rest) = byte_of(1, 2, bytes)?;
    let (head, rest) = head_of(rest)?;
    let (dates, rest) = dates_where(version == 2, rest)?;
    let (names, rest) = names_of(rest)?;
    let (plain, rest) = plain_where(head.has_plain, rest)?;
    let (otp, rest) = otp_where(head.has_otp, rest)?;
    let record = Record {
        name: names.name,
        long: names.long,
        group: names.group,
        proto: head.proto,
        enabled: head.enabled,
        wiz: head.wiz,
        fails: head.fails,
        since: head.since,
        last: last_of(dates),
        expires: expires_of(dates),
        plain,
        otp,
    };
    Ok((record, rest))
}

#[tactic(auto, unfolding(crate::specs::Reading::whole))]
fn whole_record(bytes: &[u8]) -> Result<Record, Stop>
    ensures { IsReadAs fields result (whole bytes.now) }
{
    let (record, rest) = record_of(bytes)?;
    if !rest.is_empty() {
        return Err(Stop { left: rest.len() });
    }
    Ok(record)
}

/// The record whose bytes these are, in either version. Takes no memory.
#[tactic(auto, unfolding(crate::specs::Reading::decoded))]
pub fn decode(bytes: &[u8]) -> Result<Record, RecordFault>
    ensures found { IfOk result (λ r. IsRecord r × Spells bytes.now r) }
    ensures only { (r : Record) → IsRecord r → Spells bytes.now r → result ≡ Ok r }
    ensures none { IfErr result (λ e. (r : Record) → IsRecord r → ¬ Spells bytes.now r) }
    ensures at { IfErr result (λ e. IsLongestBeginning bytes.now e.at) }
    ensures computed { MatchResult result (λ r. decoded bytes.now ≡ Ok (fields r)) (λ e. decoded bytes.now ≡ Err e.at) }
{
    match whole_record(bytes) {
        Ok(record) => Ok(record),
        Err(stop) => Err(RecordFault {
            at: bytes.len() - stop.left,
        }),
    }
}
