//! What the calculator of passwords is asked: a challenge and a pass phrase, in two lines.
ghost use Rattle.std.specs.Prelude.{◌≡◌, IfOk, IfErr, Ok, Err};
ghost use Rattle.otp_md5.specs.Passwords.{password};
ghost use Rattle.otp_words.specs.Hearing.{HearsAs, HearsTask, challenge_said, phrase_said, stopped};
ghost use Rattle.otp_words.specs.Task.{is_phrase};

use crate::challenge::read_challenge;
use arrayvec::ArrayVec;
use auth_records::Seed;
use fw_outside::{Heard, LineReader, Source, Stop};
use otp_md5::{initial, next};
use thiserror::Error;

/// Why no password is asked for.
#[derive(Clone, Copy, Debug, PartialEq, Eq, Error)]
pub enum TaskFault {
    /// There is no challenge, or no pass phrase of 1 to 255 bytes after it.
    #[error("no challenge and pass phrase")]
    Challenge,
    /// The source failed, or nothing came from it in time.
    #[error("the source failed")]
    Failed,
}

/// How many bytes are taken at most.
const MOST: u64 = 1 << 40;

fn is_phrase(line: &[u8]) -> bool
    ensures { result ≡ is_phrase line.now }
{
    !line.is_empty() && line.len() <= 255
}

/// The password of a count: the seed and then the pass phrase, folded, and then its eight bytes so many times (RFC 2289,
/// 6.0).
fn password(number: u32, word_seed: &Seed, phrase: &[u8]) -> u64
    ensures { result ≡ password word_seed.now phrase.now number }
{
    let mut password = initial(word_seed, phrase);
    for _count in 0..number {
        password = next(password);
    }
    password
}

fn stopped(stop: Stop) -> TaskFault
    ensures { result ≡ stopped stop }
{
    match stop {
        Stop::End | Stop::Spent => TaskFault::Challenge,
        Stop::Idle | Stop::Failed => TaskFault::Failed,
    }
}

// What is heard as the challenge.
fn challenge_said(heard: Heard) -> Result<(u32, Seed), TaskFault>
    ensures { result ≡ challenge_said heard }
{
    match heard {
        Heard::Line(line) => match read_challenge(line.as_slice()) {
            Some(asked) => Ok(asked),
            None => Err(TaskFault::Challenge),
        },
        Heard::TooLong => Err(TaskFault::Challenge),
        Heard::Stopped(stop) => Err(stopped(stop)),
    }
}

// What is heard as the pass phrase.
fn phrase_said(heard: Heard) -> Result<ArrayVec<u8, 512>, TaskFault>
    ensures ok { IfOk result (λ phrase. phrase_said heard ≡ Ok phrase.items) }
    ensures err { IfErr result (λ e. phrase_said heard ≡ Err e) }
{
    match heard {
        Heard::Line(line) => {
            if is_phrase(line.as_slice()) {
                return Ok(line);
            }
            Err(TaskFault::Challenge)
        }
        Heard::TooLong => Err(TaskFault::Challenge),
        Heard::Stopped(stop) => Err(stopped(stop)),
    }
}

// Hears the challenge.
fn hear_challenge<S: Source>(
    reader: &mut LineReader,
    from: &mut S,
) -> Result<(u32, Seed), TaskFault>
    ensures { HearsAs challenge_said result reader.old reader.new (S.source_view from.old) (S.source_view from.new) }
{
    let heard = reader.next(from);
    challenge_said(heard)
}

// Hears the pass phrase.
fn hear_phrase<S: Source>(
    reader: &mut LineReader,
    from: &mut S,
) -> Result<ArrayVec<u8, 512>, TaskFault>
    ensures ok { IfOk result (λ phrase. HearsAs phrase_said (Ok phrase.items) reader.old reader.new (S.source_view from.old) (S.source_view
        from.new)) }
    ensures err { IfErr result (λ e. HearsAs phrase_said (Err e) reader.old reader.new (S.source_view from.old) (S.source_view
        from.new)) }
{
    let heard = reader.next(from);
    phrase_said(heard)
}

/// The password that the next two lines of a source ask for: a challenge, in a line of at most 512 bytes, and a pass
/// phrase of 1 to 255 bytes. Each ends at LF or CR LF; a rest without an end is no line.
///
/// # Errors
///
/// `Challenge` where the lines aren't such; `Failed` where the source failed or nothing came in time.
pub fn hear_password<S: Source>(from: &mut S) -> Result<u64, TaskFault>
    ensures { HearsTask result (S.source_view from.old) (S.source_view from.new) }
{
    let mut reader = LineReader::new(MOST);
    let (number, word_seed) = match hear_challenge(&mut reader, from) {
        Ok(asked) => asked,
        Err(fault) => return Err(fault),
    };
    match hear_phrase(&mut reader, from) {
        Ok(phrase) => Ok(password(number, &word_seed, phrase.as_slice())),
        Err(fault) => Err(fault),
    }
}
