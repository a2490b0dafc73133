//! What the words of `otp-calc` and `otp-hex` name.
ghost use Rattle.std.specs.Prelude.{◌≡◌};
ghost use Rattle.bastion.specs.Words.{calc_in, hex_in};

use fw_types::Octets;
use otp_words::SixWords;
use std::marker::Model;

/// The name of a file.
#[derive(Drop)]
pub struct FileName<'a> {
    pub bytes: &'a [u8],
}

impl<'a> Model for FileName<'a> {
    ghost use Rattle.std.specs.Prelude.{ℕ, List};

    ghost Value = { List ℕ };

    ghost view = { λ file. file.bytes.now };
}

/// Six words of a password, with the name of the dictionary that has them.
#[derive(Drop)]
pub struct Spelling<'a> {
    pub file: &'a [u8],
    pub words: SixWords<'a>,
}

impl<'a> Model for Spelling<'a> {
    ghost use Rattle.otp_words.specs.Listed.{listed};
    ghost use Rattle.bastion.specs.SpellingView.{SpellingView};

    ghost Value = { SpellingView };

    ghost view = { λ spelling. record { file = spelling.file.now; words = listed spelling.words } };
}

/// The file that the words of `otp-calc` name.
pub(crate) fn calc_in(words: &[Octets]) -> Option<FileName<'_>>
    ensures { result ≡ calc_in words.entry.now }
{
    match words {
        [file] => Some(FileName {
            bytes: file.bytes(),
        }),
        _ => None,
    }
}

/// What the words of `otp-hex` name.
pub(crate) fn hex_in(words: &[Octets]) -> Option<Spelling<'_>>
    ensures { result ≡ hex_in words.entry.now }
{
    match words {
        [file, first, second, third, fourth, fifth, last] => Some(Spelling {
            file: file.bytes(),
            words: SixWords {
                first: first.bytes(),
                second: second.bytes(),
                third: third.bytes(),
                fourth: fourth.bytes(),
                fifth: fifth.bytes(),
                last: last.bytes(),
            },
        }),
        _ => None,
    }
}
