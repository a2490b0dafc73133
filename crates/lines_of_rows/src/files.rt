//! Files of rows, compared with what is told.

use crate::sums::{print_difference, print_file};
use crate::{Count, Sums, Told, unescape};
use fw_types::NoMemory;
use std::alloc::Global;
use std::{fs, io};

/// Whoever tells what comes of what is asked.
pub trait Rows {
    /// Adds to `out`, which is empty, what is told of `asked` in a row of this kind.
    fn tell(
        &mut self,
        alloc: Global,
        kind: &str,
        asked: &[u8],
        out: &mut Told,
    ) -> Result<(), NoMemory>;
}

// What is told of the row with this left side.
fn told_of<R: Rows>(alloc: Global, rows: &mut R, left: &str) -> Result<Told, NoMemory> {
    let (kind, asked) = left.split_once(" ").unwrap_or((left, ""));
    let asked = unescape(alloc, asked)?;
    let mut out = Told::new();
    rows.tell(alloc, kind, &asked, &mut out)?;
    Ok(out)
}

// What is told of the row, where that isn't what it says.
fn difference<R: Rows>(alloc: Global, rows: &mut R, line: &str) -> Result<Option<Told>, NoMemory> {
    let (left, right) = line.split_once(" =>").unwrap_or((line, "\\x00no arrow"));
    let expected = unescape(alloc, right.strip_prefix(" ").unwrap_or(right))?;
    let told = told_of(alloc, rows, left)?;
    if told.as_slice() == expected.as_slice() {
        return Ok(None);
    }
    Ok(Some(told))
}

// Whether the row is told as it says. Else what is told is printed.
fn is_told<R: Rows>(rt: &HostRuntime, rows: &mut R, line: &str) -> io::Result<bool> {
    match difference(rt.alloc(), rows, line) {
        Ok(None) => return Ok(true),
        Ok(Some(told)) => print_difference(rt, line, told.as_slice())?,
        Err(NoMemory) => print_difference(rt, line, b"no memory")?,
    }
    Ok(false)
}

/// Whether a line of a file is a row.
pub fn is_row(line: &str) -> bool {
    !line.trim().is_empty() && !line.starts_with("#")
}

fn compare_text<R: Rows>(rt: &HostRuntime, rows: &mut R, text: &str) -> io::Result<Count> {
    let mut count = Count::none();
    for line in text.lines() {
        if is_row(line) {
            count.add_one(is_told(rt, rows, line)?);
        }
    }
    Ok(count)
}

/// The text of the file of this name. Where it can't be read, prints that.
///
/// # Errors
///
/// What standard output answers.
pub fn read_file(rt: &HostRuntime, name: &str) -> io::Result<Option<String>> {
    match fs::read_to_string(rt, name) {
        Ok(text) => Ok(Some(text)),
        Err(_) => {
            println!(rt; "{name}: no text that can be read")?;
            Ok(None)
        }
    }
}

fn compare_file<R: Rows>(rt: &HostRuntime, rows: &mut R, name: &str) -> io::Result<Option<Count>> {
    let Some(text) = read_file(rt, name)? else {
        return Ok(None);
    };
    let count = compare_text(rt, rows, text.as_str())?;
    print_file(rt, name, count)?;
    Ok(Some(count))
}

/// Compares the rows of the files of these names, prints what comes of it, and tells whether all is as it is to be. Behind a
/// name `-differ` stand files of wrong rows, each of which is to differ. All isn't as it is to be where a row is told
/// otherwise, where a wrong row isn't, where there is no row, and where a file can't be read.
///
/// # Errors
///
/// What standard output answers.
pub fn compare<R: Rows>(rt: HostRuntime, rows: &mut R, names: &[String]) -> io::Result<bool> {
    let mut sums = Sums::none();
    for name in names {
        if !sums.turns(name.as_str()) {
            sums.add_file(compare_file(&rt, rows, name.as_str())?);
        }
    }
    sums.print(&rt, "rows")
}
