ghost use Rattle.std.specs.Prelude.{◌≡◌, ◌+◌, ◌≤◌, ◌++◌, option_map};
ghost use Rattle.arrayvec.specs.ArrayVec.{array_vec_len};
ghost use Rattle.authsrv_lines.specs.Number.{number_up_to};
ghost use Rattle.authsrv_lines.specs.Reply.{IsDenial, cause, denial_line};
ghost use Rattle.authsrv_lines.specs.ReplyReading.{busy, counted_denial, denial_of, field, limited_denial, longest, after_two_spaces, plain_denial};

use crate::number::{append_u64, read_u32, read_up_to};
use crate::summary::{after_two_spaces, field};
use arrayvec::ArrayVec;
use auth_events::Denial;
use fw_types::{append, append_u32};

// Appends the numbers of a session and of a moment to the words.
fn append_busy(out: &mut ArrayVec<u8, 512>, sid: u64, until: u64)
    requires { array_vec_len out.old ≤ 7 }
    ensures { out.new.items ≡ out.old.items ++ cause (Denial.Busy sid until) }
{
    append(out, b"busy ");
    append_u64(out, sid);
    append(out, b" until ");
    append_u64(out, until);
}

/// Sets `out` to what a client is told of a denial, without the line's end.
pub fn denial_text(denial: Denial, out: &mut ArrayVec<u8, 512>)
    ensures text { out.new.items ≡ denial_line denial }
    ensures is_denial { IsDenial denial }
{
    out.clear();
    append(out, b"denied ");
    match denial {
        Denial::Unknown => append(out, b"unknown user"),
        Denial::Wrong => append(out, b"wrong response"),
        Denial::Disabled => append(out, b"disabled"),
        Denial::Expired { at } => {
            append(out, b"expired ");
            append_u64(out, at);
        }
        Denial::Sleeping { until } => {
            append(out, b"sleeping until ");
            append_u64(out, until);
        }
        Denial::Busy { sid, until } => append_busy(out, sid, until),
        Denial::Exhausted => append(out, b"no passwords left"),
        Denial::NoChallenge => append(out, b"no challenge"),
        Denial::NotIn => append(out, b"not logged in"),
        Denial::NotWizard => append(out, b"not a wizard"),
        Denial::Exists => append(out, b"exists"),
        Denial::NoSuch => append(out, b"no such user"),
        Denial::NoRule { line } => {
            append(out, b"no rule line ");
            append_u32(out, line);
        }
        Denial::Full { limit } => {
            append(out, b"full ");
            append_u64(out, limit);
        }
        Denial::Closed => append(out, b"closed"),
        Denial::NotKept => append(out, b"not kept"),
    }
}

fn plain_denial(text: &[u8]) -> Option<Denial>
    ensures { result ≡ plain_denial text.now }
{
    if text == b"unknown user".as_slice() {
        Some(Denial::Unknown)
    } else if text == b"wrong response".as_slice() {
        Some(Denial::Wrong)
    } else if text == b"disabled".as_slice() {
        Some(Denial::Disabled)
    } else if text == b"no passwords left".as_slice() {
        Some(Denial::Exhausted)
    } else if text == b"no challenge".as_slice() {
        Some(Denial::NoChallenge)
    } else if text == b"not logged in".as_slice() {
        Some(Denial::NotIn)
    } else if text == b"not a wizard".as_slice() {
        Some(Denial::NotWizard)
    } else if text == b"exists".as_slice() {
        Some(Denial::Exists)
    } else if text == b"no such user".as_slice() {
        Some(Denial::NoSuch)
    } else if text == b"closed".as_slice() {
        Some(Denial::Closed)
    } else if text == b"not kept".as_slice() {
        Some(Denial::NotKept)
    } else {
        None
    }
}

fn busy(text: &[u8]) -> Option<Denial>
    ensures { result ≡ busy (number_up_to longest (field text.now)) (number_up_to longest (after_two_spaces text.now)) }
{
    let sid = read_up_to(u64::MAX, field(text))?;
    let until = read_up_to(u64::MAX, after_two_spaces(text))?;
    Some(Denial::Busy { sid, until })
}

fn sleeping(text: &[u8]) -> Option<Denial>
    ensures { result ≡ option_map (λ n. Denial.Sleeping n) (number_up_to longest text.now) }
{
    let until = read_up_to(u64::MAX, text)?;
    Some(Denial::Sleeping { until })
}

fn expired(text: &[u8]) -> Option<Denial>
    ensures { result ≡ option_map (λ n. Denial.Expired n) (number_up_to longest text.now) }
{
    let at = read_up_to(u64::MAX, text)?;
    Some(Denial::Expired { at })
}

fn no_rule(text: &[u8]) -> Option<Denial>
    ensures { result ≡ option_map (λ n. Denial.NoRule n) (number_up_to 4294967295 text.now) }
{
    let line = read_u32(text)?;
    Some(Denial::NoRule { line })
}

fn full(text: &[u8]) -> Option<Denial>
    ensures { result ≡ option_map (λ n. Denial.Full n) (number_up_to longest text.now) }
{
    let limit = read_up_to(u64::MAX, text)?;
    Some(Denial::Full { limit })
}

fn limited_denial(text: &[u8]) -> Option<Denial>
    ensures { result ≡ limited_denial text.now }
{
    if text.starts_with(b"no rule line ") {
        no_rule(&text[13..])
    } else if text.starts_with(b"full ") {
        full(&text[5..])
    } else {
        None
    }
}

fn counted_denial(text: &[u8]) -> Option<Denial>
    ensures { result ≡ counted_denial text.now }
{
    if text.starts_with(b"sleeping until ") {
        sleeping(&text[15..])
    } else if text.starts_with(b"expired ") {
        expired(&text[8..])
    } else if text.starts_with(b"busy ") {
        busy(&text[5..])
    } else {
        limited_denial(text)
    }
}

/// The denial whose cause the text seems to be.
#[tactic(auto, unfolding(crate::specs::ReplyReading::denial_of))]
pub(crate) fn read_denial(text: &[u8]) -> Option<Denial>
    ensures { result ≡ denial_of text.now }
{
    match plain_denial(text) {
        Some(denial) => Some(denial),
        None => counted_denial(text),
    }
}
