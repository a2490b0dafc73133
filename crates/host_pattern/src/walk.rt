//! The walk of a pattern and a text side by side.

ghost use Rattle.std.specs.Prelude.{◌≡◌, ◌==◌};
ghost use Rattle.std.specs.Char.{to_ascii_lowercase};
ghost use Rattle.std.specs.List.{list_all};
ghost use Rattle.std.specs.Str.{str_to_ascii_lowercase};
ghost use Rattle.host_pattern.specs.Glob.{glob};

const STAR: u8 = b'*';

/// Where the walk goes on after a mismatch: behind the last star of the pattern, one byte further on in the text.
#[derive(Clone, Copy)]
struct Back {
    pattern: usize,
    text: usize,
}

/// Whether nothing but stars stands in the pattern.
pub(crate) fn only_stars(pattern: &[u8]) -> bool
    ensures { result ≡ list_all (λ c. c == 42) pattern.now }
{
    pattern.iter().all(|byte| *byte == STAR)
}

/// Whether a byte of a pattern, put to lower case, is the text's.
fn is_same(byte: u8, other: u8) -> bool
    ensures { result ≡ (to_ascii_lowercase byte == other) }
{
    byte.to_ascii_lowercase() == other
}

/// Whether the pattern, its letters taken in lower case, stands for the text. A star stands for any run of bytes.
///
/// Of the stars that were passed only the last one is tried again, since it can take whatever an earlier one could.
pub(crate) fn globs(pattern: &[u8], text: &[u8]) -> bool
    ensures { result ≡ glob (str_to_ascii_lowercase pattern.now) text.now }
{
    let mut place = 0;
    let mut at = 0;
    let mut back: Option<Back> = None;
    while at < text.len() {
        match pattern.get(place) {
            Some(&STAR) => {
                place += 1;
                back = Some(Back {
                    pattern: place,
                    text: at + 1,
                });
            }
            Some(byte) if is_same(*byte, text[at]) => {
                place += 1;
                at += 1;
            }
            _ => match back {
                Some(star) => {
                    place = star.pattern;
                    at = star.text;
                    back = Some(Back {
                        pattern: star.pattern,
                        text: star.text + 1,
                    });
                }
                None => return false,
            },
        }
    }
    only_stars(&pattern[place..])
}
