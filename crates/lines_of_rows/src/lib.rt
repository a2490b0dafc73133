//! Rows of text files, each of which says what is told of what is asked.
//!
//! A row is a line `KIND ASKED => TOLD`. A crate knows some kinds and tells, by [`Rows::tell`], what comes of
//! what is asked; [`compare`] reads files, and prints for each the rows that are told otherwise, and as what, or, where
//! there is none, how many it has, and last how many there are of both. Blank lines and
//! lines that begin with `#` are skipped. Nothing of a row is ever made by the crate. Files of wrong rows,
//! behind the word `-differ`, show that each comparison bites. One program tries the rows of many subjects: [`try_subjects`]
//! takes from its command line their names, each with a colon, and behind each the names of its files.
//!
//! What is asked and what is told are texts with escapes: `\n`, `\r`, `\t` and `\0` are the bytes of those
//! names, `\s` is a space, `\xHH` the byte with these hexadecimal digits, `\(N:TEXT)` the text N times, and `\`
//! before another byte is that byte.
#![tactic(auto)]

mod escapes;
mod files;
mod parts;
mod subjects;
mod sums;
mod telling;

pub use escapes::{escape, from_hex, unescape};
pub use files::{Rows, compare, is_row, read_file};
pub use parts::{cut, cut_word, number_of, numbers_of};
pub use subjects::{Subjects, try_subjects};
pub use sums::{Count, Sums, print_behind, print_difference, print_file};
pub use telling::{Told, add, add_hex, add_number, add_word};
