//! The parts of what is asked.

use fw_types::NoMemory;
use std::alloc::Global;

/// What stands before the first such byte, and what stands behind it. Where there is none, all stands before it.
pub fn cut(text: &[u8], byte: u8) -> (&[u8], &[u8]) {
    match text.iter().position(|one| *one == byte) {
        Some(at) => (&text[..at], &text[at + 1..]),
        None => (text, &[]),
    }
}

/// The first word, and what stands behind the space at its end.
pub fn cut_word(text: &[u8]) -> (&[u8], &[u8]) {
    cut(text, b' ')
}

/// The number that the digits are.
pub fn number_of(digits: &[u8]) -> u64 {
    let mut number = 0u64;
    for digit in digits {
        let value = u64::from(digit.wrapping_sub(b'0'));
        number = number.saturating_mul(10).saturating_add(value);
    }
    number
}

/// The numbers between commas. `-` is none.
pub fn numbers_of(alloc: Global, text: &[u8]) -> Result<Vec<u64>, NoMemory> {
    let mut numbers = Vec::new(alloc);
    if text == b"-".as_slice() {
        return Ok(numbers);
    }
    for digits in text.split(|byte| *byte == b',') {
        numbers.push(number_of(digits))?;
    }
    Ok(numbers)
}
