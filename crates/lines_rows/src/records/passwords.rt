//! What is told of one-time passwords.

use arrayvec::ArrayVec;
use auth_events::OtpNumber;
use auth_records::Seed;
use lines_of_rows::{Told, add, add_hex, add_number, cut_word, number_of};
use otp_md5::{challenge_text, fold, initial, next, read_hex};

/// `passwords SEED PHRASE => ZEROTH FIRST HUNDREDTH`: those of the counts 0, 1 and 99.
pub(crate) fn tell_passwords(asked: &[u8], out: &mut Told) {
    let (seed, phrase) = cut_word(asked);
    let Some(seed) = Seed::read(seed) else {
        return add(out, b"no seed");
    };
    let mut word = initial(&seed, phrase);
    add_hex(out, &word.to_be_bytes());
    add_hex(out, &next(word).to_be_bytes());
    for _ in 0..99u8 {
        word = next(word);
    }
    add_hex(out, &word.to_be_bytes());
}

/// `fold TEXT => PASSWORD`.
pub(crate) fn tell_fold(asked: &[u8], out: &mut Told) {
    add_hex(out, &fold(asked).to_be_bytes());
}

/// `hex TEXT => PASSWORD`. `-` is none.
pub(crate) fn tell_hex(asked: &[u8], out: &mut Told) {
    match read_hex(asked) {
        Some(word) => add_hex(out, &word.to_be_bytes()),
        None => add(out, b"-"),
    }
}

/// `challenge COUNT SEED => TEXT`.
pub(crate) fn tell_challenge(asked: &[u8], out: &mut Told) {
    let (count, seed) = cut_word(asked);
    let Some(seed) = Seed::read(seed) else {
        return add(out, b"no seed");
    };
    let mut text = ArrayVec::new();
    let count = number_of(count).min(u64::from(u32::MAX)) as u32;
    challenge_text(count, &seed, &mut text);
    add(out, text.as_slice());
}

/// `count NUMBER => NUMBER`. `-` is none.
pub(crate) fn tell_count(asked: &[u8], out: &mut Told) {
    let count = number_of(asked).min(u64::from(u32::MAX)) as u32;
    match OtpNumber::of(count) {
        Some(count) => add_number(out, u64::from(count.twin().value())),
        None => add(out, b"-"),
    }
}
