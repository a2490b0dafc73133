//! One-time passwords as six words, after RFC 2289, section 6.2.
//!
//! A password of 64 bits and the two check bits that follow it are six numbers of 11 bits, and a [`Dictionary`] of
//! 2,048 words has a word for each number. [`Dictionary::read`] takes one from any source, in whatever pieces the source
//! gives; its contract speaks of the whole text that was left in the source. [`Dictionary::words_of`] writes the six
//! words of a password, and [`Dictionary::read_words`] gives the password exactly for its six words, in whatever case.
//! [`read_challenge`] reads what a user is asked. These three take no memory.
//! [`Dictionary::read_six`] does the same for words that stand apart, [`hear_password`] makes the password that the two lines of a
//! calculator's input ask for, and [`append_groups`] writes one as hexadecimal digits; nor do they.
//!
//! The list of words is the operator's to bring: it is printed in appendix D of the RFC. A word is found by its place in
//! an order, in a time that hardly grows with the list.
#![tactic(auto)]

mod challenge;
mod dict_fault;
mod dictionary;
mod gathering;
mod groups;
pub mod laws;
mod lines;
mod six_numbers;
mod six_words;
mod task;
mod word_list;
mod words_fault;

pub use challenge::read_challenge;
pub use dict_fault::DictFault;
pub use dictionary::Dictionary;
pub use groups::append_groups;
pub use six_words::SixWords;
pub use task::{TaskFault, hear_password};
pub use words_fault::WordsFault;
