//! The lines of a text.
ghost use Rattle.std.specs.Prelude.{◌≡◌, ◌<◌, ◌∷◌, ◌++◌, ◌==◌, [], false, length, All, IfSome, IfNone};
ghost use Rattle.std.specs.Str.Lines.{lines, strip_carriage_return};

use memchr::memchr;

// The bytes before the first LF, and those after it, if there is one.
fn cut_at_line_end(bytes: &[u8]) -> (&[u8], Option<&[u8]>)
    ensures line { All (λ b. (b == 10) ≡ false) result.0.now }
    ensures more { IfSome result.1 (λ rest. bytes.now ≡ result.0.now ++ 10 ∷ rest.now) }
    ensures whole { IfNone result.1 (bytes.now ≡ result.0.now) }
{
    match memchr(b'\n', bytes) {
        Some(at) => (&bytes[..at], Some(&bytes[at + 1..])),
        None => (bytes, None),
    }
}

// The bytes without the CR at their end, if they have one.
fn without_return(bytes: &[u8]) -> &[u8]
    ensures { result.now ≡ strip_carriage_return bytes.now }
{
    match bytes {
        [front @ .., b'\r'] => front,
        _ => bytes,
    }
}

/// The first line, without its end, and what follows it.
pub(crate) fn next_line(text: &[u8]) -> Option<(&[u8], &[u8])>
    ensures some { IfSome result (λ r. lines text.now ≡ r.0.now ∷ lines r.1.now) }
    ensures shorter { IfSome result (λ r. length r.1.now < length text.now) }
    ensures none { IfNone result (lines text.now ≡ []) }
{
    if text.is_empty() {
        return None;
    }
    let (line, rest) = cut_at_line_end(text);
    match rest {
        Some(rest) => Some((without_return(line), rest)),
        None => Some((line, &[])),
    }
}
