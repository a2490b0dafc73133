//! What came of rows, as it is printed.

use crate::escape;
use std::{io, str};

/// How many rows there are, and how many of them are told otherwise.
#[derive(Clone, Copy)]
pub struct Count {
    /// The rows.
    pub rows: u64,
    /// Those that are told otherwise.
    pub differ: u64,
}

impl Count {
    /// No rows.
    pub fn none() -> Count {
        Count { rows: 0, differ: 0 }
    }

    /// Adds a row, which is told as it says or otherwise.
    pub fn add_one(&mut self, is_told: bool) {
        self.rows = self.rows.saturating_add(1);
        if !is_told {
            self.differ = self.differ.saturating_add(1);
        }
    }

    /// Adds as many as `other` says.
    pub fn add(&mut self, other: Count) {
        self.rows = self.rows.saturating_add(other.rows);
        self.differ = self.differ.saturating_add(other.differ);
    }
}

/// What came of the rows of several files, and behind a word `-differ` of wrong rows, each of which is to differ.
#[derive(Clone, Copy)]
pub struct Sums {
    right: Count,
    wrong: Count,
    are_wrong: bool,
    is_unread: bool,
}

impl Sums {
    /// No rows.
    pub fn none() -> Sums {
        Sums {
            right: Count::none(),
            wrong: Count::none(),
            are_wrong: false,
            is_unread: false,
        }
    }

    /// Whether the word is `-differ`: the rows behind it are wrong ones.
    pub fn turns(&mut self, word: &str) -> bool {
        if word == "-differ" {
            self.are_wrong = true;
            return true;
        }
        false
    }

    /// Adds the rows of a file, or that it can't be read.
    pub fn add_file(&mut self, count: Option<Count>) {
        match count {
            Some(count) => self.add(count),
            None => self.is_unread = true,
        }
    }

    fn add(&mut self, count: Count) {
        if self.are_wrong {
            self.wrong.add(count);
        } else {
            self.right.add(count);
        }
    }

    /// Prints how many there are, in lines of this noun, and tells whether all is as it is to be.
    ///
    /// # Errors
    ///
    /// What standard output answers.
    pub fn print(&self, rt: &HostRuntime, noun: &str) -> io::Result<bool> {
        let Count { rows, differ } = self.right;
        println!(rt; "{rows} {noun}, {differ} differ")?;
        let is_right = rows > 0 && differ == 0 && !self.is_unread;
        let Count { rows, differ } = self.wrong;
        if rows > 0 {
            println!(rt; "{rows} wrong {noun}, {differ} differ")?;
        }
        Ok(is_right && rows == differ)
    }
}

/// Prints a text behind another: as it stands, or with escapes where its bytes are no text.
///
/// # Errors
///
/// What standard output answers.
pub fn print_behind(rt: &HostRuntime, first: &str, told: &[u8]) -> io::Result<()> {
    if let Ok(text) = str::from_utf8(told) {
        return println!(rt; "{first}{text}");
    }
    match escape(rt.alloc(), told) {
        Ok(escaped) => println!(rt; "{first}{}", str::from_utf8(&escaped).unwrap_or("")),
        Err(_) => println!(rt; "{first}no memory"),
    }
}

/// Prints a row that is told otherwise than it says, and what is told.
///
/// # Errors
///
/// What standard output answers.
pub fn print_difference(rt: &HostRuntime, line: &str, told: &[u8]) -> io::Result<()> {
    println!(rt; "differs: {line}")?;
    print_behind(rt, "   told: ", told)
}

/// Prints that all rows of a file are told as they say, if they are.
///
/// # Errors
///
/// What standard output answers.
pub fn print_file(rt: &HostRuntime, name: &str, count: Count) -> io::Result<()> {
    let Count { rows, differ } = count;
    if differ == 0 {
        println!(rt; "ok {name}: {rows} rows")?;
    }
    Ok(())
}
