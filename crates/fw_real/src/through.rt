//! Reads and writes of a file that go on after short ones, and after a signal.
ghost use Rattle.std.specs.Prelude.{◌≡◌, ◌≤◌, ◌<◌, ◌+◌, length, take, true, IfOk, OnOk};
ghost use Rattle.std.specs.IoError.{error_kind};
ghost use Rattle.fw_real.specs.FileView.{EndsBy, Lays, ReadsAll, ReadsSome, ReadsTo};

use crate::RawFile;
use std::io::{self, ErrorKind};

// An error of this kind.
fn error(kind: ErrorKind) -> io::Error {
    io::Error::from(kind)
}

// The place that lies so many bytes behind another.
fn place_behind(at: u64, count: usize) -> io::Result<u64>
    ensures { IfOk result (λ place. place ≡ at + count) }
{
    match at.checked_add(count as u64) {
        Some(place) => Ok(place),
        None => Err(error(ErrorKind::InvalidInput)),
    }
}

// Whether a signal came in between.
fn is_interrupted(fault: &io::Error) -> bool
    ensures { result ≡ true → error_kind fault.now ≡ ErrorKind.Interrupted }
{
    fault.kind() == ErrorKind::Interrupted
}

// Reads once, and again after each signal.
fn read_once<F: RawFile>(file: &mut F, at: u64, buf: &mut [u8]) -> io::Result<usize>
    ensures bound { IfOk result (λ n. n ≤ length buf.new) }
    ensures bytes { IfOk result (λ n. ReadsSome n at (length buf.old) buf.new (F.file_view file.old)) }
    ensures same { F.file_view file.new ≡ F.file_view file.old }
{
    for _ in 0..u64::MAX {
        match file.read_some(at, buf) {
            Err(fault) if is_interrupted(&fault) => {}
            answer => return answer,
        }
    }
    Err(error(ErrorKind::Interrupted))
}

// Reads behind the bytes that were read.
#[tactic(auto, using(crate::proofs::FileLemmas::reads_then, crate::proofs::FileLemmas::ends_by))]
fn read_more<F: RawFile>(file: &mut F, at: u64, done: usize, buf: &mut [u8]) -> io::Result<usize>
    requires { done < length buf.old }
    ensures bound { IfOk result (λ n. done + n ≤ length buf.old) }
    ensures room { length buf.new ≡ length buf.old }
    ensures bytes { IfOk result (λ n.
        ReadsTo done at buf.old (F.file_view file.old) → ReadsTo (done + n) at buf.new (F.file_view file.old)) }
    ensures ended { IfOk result (λ n. n ≡ 0 → EndsBy (at + done) (F.file_view file.old)) }
    ensures same { F.file_view file.new ≡ F.file_view file.old }
{
    let place = place_behind(at, done)?;
    read_once(file, place, &mut buf[done..])
}

/// Reads the bytes that stand from a place on, as many as fit into the buffer.
#[tactic(auto, using(crate::proofs::FileLemmas::read_nothing, crate::proofs::FileLemmas::reads_full, crate::proofs::FileLemmas::reads_end))]
pub(crate) fn read_through<F: RawFile>(file: &mut F, at: u64, buf: &mut [u8]) -> io::Result<usize>
    ensures bound { IfOk result (λ n. n ≤ length buf.new) }
    ensures bytes { IfOk result (λ n. ReadsAll n at (length buf.old) buf.new (F.file_view file.old)) }
    ensures same { F.file_view file.new ≡ F.file_view file.old }
{
    let mut done = 0;
    while done < buf.len() {
        let count = read_more(file, at, done, buf)?;
        if count == 0 {
            return Ok(done);
        }
        done += count;
    }
    Ok(done)
}

// Writes once, and again after each signal.
fn write_once<F: RawFile>(file: &mut F, at: u64, bytes: &[u8]) -> io::Result<usize>
    ensures bound { IfOk result (λ n. n ≤ length bytes.now) }
    ensures bytes { IfOk result (λ n. Lays at (take n bytes.now) (F.file_view file.old) (F.file_view file.new)) }
{
    for _ in 0..u64::MAX {
        match file.write_some(at, bytes) {
            Err(fault) if is_interrupted(&fault) => {}
            answer => return answer,
        }
    }
    Err(error(ErrorKind::Interrupted))
}

/// Writes all the bytes from a place on.
#[tactic(auto, using(crate::proofs::FileLemmas::lays_none, crate::proofs::FileLemmas::lays_then))]
pub(crate) fn write_through<F: RawFile>(file: &mut F, at: u64, bytes: &[u8]) -> io::Result<()>
    ensures { OnOk result (Lays at bytes.now (F.file_view file.old) (F.file_view file.new)) }
{
    let mut place = at;
    let mut rest = bytes;
    while !rest.is_empty() {
        let count = write_once(file, place, rest)?;
        if count == 0 {
            return Err(error(ErrorKind::WriteZero));
        }
        place = place_behind(place, count)?;
        rest = &rest[count..];
    }
    Ok(())
}
