//! Where bytes are cut in two.
ghost use Rattle.std.specs.Prelude.{◌≡◌, ◌==◌, false, ◌∷◌, ◌++◌, is_some, position, All, IfSome, IfNone};
ghost use Rattle.std.specs.List.{list_any, before_first, after_first};
ghost use Rattle.std.specs.Str.Lines.{strip_carriage_return};

use memchr::memchr;

#[tactic(auto, using(crate::proofs::FindLemmas::first_byte))]
fn find(byte: u8, bytes: &[u8]) -> Option<usize>
    ensures { result ≡ position (λ b. b == byte) bytes.now }
{
    memchr(byte, bytes)
}

/// What stands before the first such byte, and what stands after it.
pub(crate) fn cut_at(byte: u8, bytes: &[u8]) -> Option<(&[u8], &[u8])>
    ensures is { is_some result ≡ list_any (λ b. b == byte) bytes.now }
    ensures front { IfSome result (λ r. r.0.now ≡ before_first (λ b. b == byte) bytes.now) }
    ensures back { IfSome result (λ r. r.1.now ≡ after_first (λ b. b == byte) bytes.now) }
{
    match find(byte, bytes) {
        Some(at) => Some((&bytes[..at], &bytes[at + 1..])),
        None => None,
    }
}

/// The bytes before the first LF, and those after it, if there is one.
pub(crate) fn cut_at_line_end(bytes: &[u8]) -> (&[u8], Option<&[u8]>)
    ensures line { All (λ b. (b == 10) ≡ false) result.0.now }
    ensures more { IfSome result.1 (λ rest. bytes.now ≡ result.0.now ++ 10 ∷ rest.now) }
    ensures whole { IfNone result.1 (bytes.now ≡ result.0.now) }
{
    match memchr(b'\n', bytes) {
        Some(at) => (&bytes[..at], Some(&bytes[at + 1..])),
        None => (bytes, None),
    }
}

/// The bytes without the CR at their end, if they have one.
pub(crate) fn without_return(bytes: &[u8]) -> &[u8]
    ensures { result.now ≡ strip_carriage_return bytes.now }
{
    match bytes {
        [front @ .., b'\r'] => front,
        _ => bytes,
    }
}
