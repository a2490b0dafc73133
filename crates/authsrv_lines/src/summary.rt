//! What is shown of a user.
ghost use Rattle.std.specs.Prelude.{◌≡◌, ◌<◌, ◌≤◌, ◌^◌, ◌++◌, length, option_map, IsTrue, IfSome};
ghost use Rattle.fw_types.specs.Name.{is_name};
ghost use Rattle.auth_records.specs.Texts.{is_long_name};
ghost use Rattle.authsrv_lines.specs.Number.{number_up_to};
ghost use Rattle.arrayvec.specs.ArrayVec.{array_vec_len};
ghost use Rattle.authsrv_lines.specs.Reply.{IsSummary, counts, dates, group_text, identity, in_full, proto_text, rights, state_text, summary_line, wiz_text};
ghost use Rattle.authsrv_lines.specs.ReplyReading.{behind, field, longest, summary_fields, group_in, after_two_spaces, state_in, summary_of, to_space, wiz_in};

use crate::number::{append_u64, read_up_to};
use crate::parts::read_proto_name;
use arrayvec::ArrayVec;
use auth_events::Summary;
use auth_records::{LongName, Proto, Wiz};
use fw_types::{Name, append, append_u32};

fn count_to_space(text: &[u8]) -> usize
    ensures count { result ≡ to_space text.now }
    ensures within { result ≤ length text.now }
{
    text.iter().take_while(|byte| **byte != b' ').count()
}

/// The bytes before the first space.
pub(crate) fn field(text: &[u8]) -> &[u8]
    ensures { result.now ≡ field text.now }
{
    text.split_at(count_to_space(text)).0
}

/// The bytes behind the first space.
pub(crate) fn behind(text: &[u8]) -> &[u8]
    ensures { result.now ≡ behind text.now }
{
    match text.split_at(count_to_space(text)).1 {
        [] => b"",
        [_, rest @ ..] => rest,
    }
}

/// The bytes behind the second space.
#[tactic(auto, unfolding(crate::specs::ReplyReading::after_two_spaces))]
pub(crate) fn after_two_spaces(text: &[u8]) -> &[u8]
    ensures { result.now ≡ after_two_spaces text.now }
{
    behind(behind(text))
}

fn group_text(group: &Option<Name>) -> &[u8]
    ensures text { result.now ≡ group_text group.now }
    ensures short { length result.now ≤ 32 }
    ensures form { IfSome group.now (λ name. IsTrue (is_name name)) }
{
    match group {
        Some(name) => name.text(),
        None => b"-",
    }
}

fn proto_text(proto: Proto) -> &'static [u8]
    ensures text { result.now ≡ proto_text proto }
    ensures short { length result.now ≤ 5 }
{
    match proto {
        Proto::None => b"none",
        Proto::Plain => b"plain",
        Proto::Otp => b"otp",
    }
}

fn state_text(enabled: bool) -> &'static [u8]
    ensures text { result.now ≡ state_text enabled }
    ensures short { length result.now ≤ 8 }
{
    if enabled { b"enabled" } else { b"disabled" }
}

fn wiz_text(wiz: Wiz) -> &'static [u8]
    ensures text { result.now ≡ wiz_text wiz }
    ensures short { length result.now ≤ 5 }
{
    match wiz {
        Wiz::None => b"none",
        Wiz::Group => b"group",
        Wiz::Super => b"super",
    }
}

fn append_identity(out: &mut ArrayVec<u8, 512>, summary: &Summary)
    requires { array_vec_len out.old ≤ 0 }
    ensures items { out.new.items ≡ out.old.items ++ identity summary.now }
    ensures room { array_vec_len out.new ≤ 100 }
    ensures name { IsTrue (is_name summary.now.name) }
    ensures group { IfSome summary.now.group (λ name. IsTrue (is_name name)) }
{
    append(out, b"user ");
    append(out, summary.name.text());
    append(out, b" group ");
    append(out, group_text(&summary.group));
}

fn append_rights(out: &mut ArrayVec<u8, 512>, summary: &Summary)
    requires { array_vec_len out.old ≤ 100 }
    ensures items { out.new.items ≡ out.old.items ++ rights summary.now }
    ensures room { array_vec_len out.new ≤ 200 }
{
    append(out, b" proto ");
    append(out, proto_text(summary.proto));
    append(out, b" state ");
    append(out, state_text(summary.enabled));
    append(out, b" wiz ");
    append(out, wiz_text(summary.wiz));
}

fn append_counts(out: &mut ArrayVec<u8, 512>, summary: &Summary)
    requires { array_vec_len out.old ≤ 200 }
    ensures items { out.new.items ≡ out.old.items ++ counts summary.now }
    ensures room { array_vec_len out.new ≤ 250 }
{
    append(out, b" fails ");
    append_u32(out, u32::from(summary.fails));
    append(out, b" number ");
    append_u32(out, summary.number);
}

fn append_dates(out: &mut ArrayVec<u8, 512>, summary: &Summary)
    requires { array_vec_len out.old ≤ 250 }
    ensures items { out.new.items ≡ out.old.items ++ dates summary.now }
    ensures room { array_vec_len out.new ≤ 320 }
    ensures last { summary.now.last < 2 ^ 64 }
    ensures expires { summary.now.expires < 2 ^ 64 }
{
    append(out, b" last ");
    append_u64(out, summary.last);
    append(out, b" expires ");
    append_u64(out, summary.expires);
}

fn append_in_full(out: &mut ArrayVec<u8, 512>, summary: &Summary)
    requires { array_vec_len out.old ≤ 320 }
    ensures items { out.new.items ≡ out.old.items ++ in_full summary.now }
    ensures long { IsTrue (is_long_name summary.now.long) }
{
    append(out, b" long ");
    append(out, summary.long.text());
}

/// Sets `out` to the line that shows the user.
#[tactic(auto, unfolding(crate::specs::Reply::summary_line))]
pub(crate) fn summary_text(summary: &Summary, out: &mut ArrayVec<u8, 512>)
    ensures text { out.new.items ≡ summary_line summary.now }
    ensures is_summary { IsSummary summary.now }
{
    out.clear();
    append_identity(out, summary);
    append_rights(out, summary);
    append_counts(out, summary);
    append_dates(out, summary);
    append_in_full(out, summary);
}

fn read_group(text: &[u8]) -> Option<Option<Name>>
    ensures { result ≡ group_in text.now }
{
    if text == b"-".as_slice() {
        return Some(None);
    }
    Name::read(text).map(Some)
}

fn read_state(text: &[u8]) -> Option<bool>
    ensures { result ≡ state_in text.now }
{
    if text == b"enabled".as_slice() {
        Some(true)
    } else if text == b"disabled".as_slice() {
        Some(false)
    } else {
        None
    }
}

fn read_wiz(text: &[u8]) -> Option<Wiz>
    ensures { result ≡ wiz_in text.now }
{
    if text == b"none".as_slice() {
        Some(Wiz::None)
    } else if text == b"group".as_slice() {
        Some(Wiz::Group)
    } else if text == b"super".as_slice() {
        Some(Wiz::Super)
    } else {
        None
    }
}

fn read_fails(text: &[u8]) -> Option<u8>
    ensures value { result ≡ number_up_to 5 text.now }
    ensures range { IfSome result (λ n. n ≤ 5) }
{
    let number = read_up_to(5, text)?;
    Some(number as u8)
}

fn read_number(text: &[u8]) -> Option<u32>
    ensures value { result ≡ number_up_to 9999 text.now }
    ensures range { IfSome result (λ n. n ≤ 9999) }
{
    let number = read_up_to(9999, text)?;
    Some(number as u32)
}

/// What is shown of the user of whom the text, behind `user `, seems to speak.
#[tactic(auto, unfolding(crate::specs::ReplyReading::summary_of))]
pub(crate) fn read_summary(text: &[u8]) -> Option<Summary>
    ensures { option_map summary_fields result ≡ summary_of text.now }
{
    let name = Name::read(field(text))?;
    let text = after_two_spaces(text);
    let group = read_group(field(text))?;
    let text = after_two_spaces(text);
    let proto = read_proto_name(field(text))?;
    let text = after_two_spaces(text);
    let enabled = read_state(field(text))?;
    let text = after_two_spaces(text);
    let wiz = read_wiz(field(text))?;
    let text = after_two_spaces(text);
    let fails = read_fails(field(text))?;
    let text = after_two_spaces(text);
    let number = read_number(field(text))?;
    let text = after_two_spaces(text);
    let last = read_up_to(u64::MAX, field(text))?;
    let text = after_two_spaces(text);
    let expires = read_up_to(u64::MAX, field(text))?;
    let long = LongName::read(after_two_spaces(text))?;
    Some(Summary {
        name,
        group,
        proto,
        enabled,
        wiz,
        fails,
        number,
        last,
        expires,
        long,
    })
}
