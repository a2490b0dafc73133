//! What the client is told.
ghost use Rattle.std.specs.Prelude.{◌≡◌, ◌≤◌, ◌++◌, [], ◌∷◌, length};
ghost use Rattle.tn_gate.specs.Texts.{challenge_asked, command_prompt, connected, goodbye, help, login_denied, name_prompt, no_route, password_asked, password_ended, refusal, unknown_command};

use arrayvec::ArrayVec;
use auth_records::Seed;
use fw_types::{append, append_u32, copy_of};
use otp_md5::challenge_text;

/// Words for the client, and a prompt behind them.
pub(crate) type Words = ArrayVec<u8, 96>;

/// The words, and the prompt for a name.
pub(crate) fn before_name(words: &[u8]) -> Words
    requires { length words.now ≤ 32 }
    ensures { result.items ≡ words.now ++ name_prompt }
{
    let mut out = copy_of(words);
    append(&mut out, b"Username: ");
    out
}

/// The words, and the prompt for a command.
pub(crate) fn before_command(words: &[u8]) -> Words
    requires { length words.now ≤ 32 }
    ensures { result.items ≡ words.now ++ command_prompt }
{
    let mut out = copy_of(words);
    append(&mut out, b"tn-gw-> ");
    out
}

/// A destination is denied by the line with this number.
pub(crate) fn refusal(line: u32) -> ArrayVec<u8, 32>
    ensures { result.items ≡ refusal line }
{
    let mut out = ArrayVec::new();
    append(&mut out, b"Denied (line ");
    append_u32(&mut out, line);
    append(&mut out, b")\r\n");
    out
}

/// A password is asked for, and what is typed stays hidden.
pub(crate) fn password_asked() -> ArrayVec<u8, 16>
    ensures { result.items ≡ password_asked }
{
    copy_of(b"\xff\xfb\x01Password: ")
}

/// The line with the password, which the client didn't show, is ended.
pub(crate) fn password_ended() -> ArrayVec<u8, 16>
    ensures { result.items ≡ password_ended }
{
    copy_of(b"\xff\xfc\x01\r\n")
}

/// A one-time password is asked for.
pub(crate) fn challenge_asked(number: u32, word_seed: &Seed) -> Words
    ensures { result.items ≡ challenge_asked number word_seed.now }
{
    let mut text = ArrayVec::new();
    challenge_text(number, word_seed, &mut text);
    let mut out = copy_of(text.as_slice());
    append(&mut out, b"\r\nResponse: ");
    out
}
