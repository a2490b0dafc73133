//! The parts of a text between commas, of which the first ones are numbers (RFC 959, 4.1.2).
ghost use Rattle.std.specs.Prelude.{◌≡◌, ◌<◌, ◌≤◌, [], ◌∷◌, length, IfSome, IfNone};
ghost use Rattle.std.specs.List.{slice_split};
ghost use Rattle.ftp_lines.specs.Six.{is_comma, octet_in, run_of, six_octets};
ghost use Rattle.ftp_lines.specs.Parts.{IsFirstPart};

use fw_types::read_number;
use memchr::memchr;

/// What stands before the first five commas of a text, and what stands behind them.
#[derive(Drop)]
pub(crate) struct FiveParts<'a> {
    pub(crate) a: &'a [u8],
    pub(crate) b: &'a [u8],
    pub(crate) c: &'a [u8],
    pub(crate) d: &'a [u8],
    pub(crate) e: &'a [u8],
    pub(crate) rest: &'a [u8],
}

// What stands before and behind the first comma.
fn cut(text: &[u8]) -> Option<(&[u8], &[u8])>
    ensures some { IfSome result (λ p. slice_split is_comma text.now ≡ p.0.now ∷ slice_split is_comma p.1.now) }
    ensures none { IfNone result (slice_split is_comma text.now ≡ text.now ∷ []) }
{
    let at = memchr(b',', text)?;
    Some((&text[..at], &text[at + 1..]))
}

/// The first five parts and the rest, where there are six parts or more.
pub(crate) fn five_parts(text: &[u8]) -> Option<FiveParts<'_>>
    ensures some { IfSome result (λ p. slice_split is_comma text.now
        ≡ p.a.now ∷ p.b.now ∷ p.c.now ∷ p.d.now ∷ p.e.now ∷ slice_split is_comma p.rest.now) }
    ensures none { IfNone result (length (slice_split is_comma text.now) < 6) }
{
    let (a, rest) = cut(text)?;
    let (b, rest) = cut(rest)?;
    let (c, rest) = cut(rest)?;
    let (d, rest) = cut(rest)?;
    let (e, rest) = cut(rest)?;
    Some(FiveParts {
        a,
        b,
        c,
        d,
        e,
        rest,
    })
}

/// The first part, and whether it is the only one.
pub(crate) fn first_part(text: &[u8]) -> (&[u8], bool)
    ensures { IsFirstPart result.0.now result.1 (slice_split is_comma text.now) }
{
    match cut(text) {
        Some((part, _)) => (part, false),
        None => (text, true),
    }
}

// The number from 0 to 255 that one to three digits are.
fn octet(text: &[u8]) -> Option<u8>
    ensures { result ≡ octet_in text.now }
{
    if text.len() > 3 {
        return None;
    }
    match read_number(text) {
        Some(number) if number <= 255 => Some(number as u8),
        _ => None,
    }
}

/// The digits at the beginning of a text.
pub(crate) fn run(text: &[u8]) -> &[u8]
    ensures { result.now ≡ run_of text.now }
{
    &text[..run_len(text)]
}

fn run_len(text: &[u8]) -> usize
    ensures { result ≡ length (run_of text.now) }
{
    text.iter().take_while(|byte| byte.is_ascii_digit()).count()
}

/// The address and the port of five parts and a sixth one.
pub(crate) fn six_octets(five: &FiveParts<'_>, sixth: &[u8]) -> Option<([u8; 4], u16)>
    ensures { result ≡ six_octets (octet_in five.now.a.now) (octet_in five.now.b.now) (octet_in five.now.c.now)
        (octet_in five.now.d.now) (octet_in five.now.e.now) (octet_in sixth.now) }
{
    let a = octet(five.a)?;
    let b = octet(five.b)?;
    let c = octet(five.c)?;
    let d = octet(five.d)?;
    let e = octet(five.e)?;
    let f = octet(sixth)?;
    Some(([a, b, c, d], u16::from(e) * 256 + u16::from(f)))
}
