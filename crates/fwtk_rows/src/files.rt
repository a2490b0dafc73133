//! Files with rows of whole runs.

use crate::bastion_runner::BastionRunner;
use format_of_rows::parse;
use runs_of_rows::{Counts, Report, try_rows};
use std::thread::Threads;
use std::{fs, io};

// The rows of a file are tried; its text, or what is wrong with it, is printed.
fn try_file<H: Threads + Sync>(
    threads: &H,
    rt: HostRuntime,
    name: &str,
    differ: bool,
    counts: &mut Counts,
) -> io::Result<u8> {
    let alloc = rt.alloc();
    let Ok(bytes) = fs::read(&rt, name) else {
        eprintln!(rt; "fwtk_rows: {name} can't be read: give the names of row files")?;
        return Ok(2);
    };
    let rows = match parse(alloc, &bytes) {
        Ok(rows) => rows,
        Err(fault) => {
            let (line, why) = (fault.line, fault.why.text());
            eprintln!(rt; "fwtk_rows: {name} line {line}: {why}")?;
            return Ok(2);
        }
    };
    let mut report = Report::new(alloc, differ);
    let tried = try_rows(threads, &BastionRunner, alloc, &rows, &mut report, counts);
    let mut out = io::writer(&rt);
    io::Write::write_all(&mut out, report.bytes())?;
    if tried.is_err() {
        eprintln!(rt; "fwtk_rows: no memory")?;
        return Ok(2);
    }
    Ok(0)
}

fn try_files<H: Threads + Sync>(
    threads: &H,
    rt: HostRuntime,
    names: &[String],
    counts: &mut Counts,
) -> io::Result<u8> {
    let mut differ = false;
    let mut files: u64 = 0;
    for name in names {
        if name.as_str() == "-differ" {
            differ = true;
        } else {
            files = files.saturating_add(1);
            let status = try_file(threads, rt, name.as_str(), differ, counts)?;
            if status != 0 {
                return Ok(status);
            }
        }
    }
    if files == 0 {
        eprintln!(rt; "usage: fwtk_rows FILE.. [-differ FILE..]")?;
        return Ok(2);
    }
    Ok(0)
}

/// Runs the rows of these files, and prints what comes of it: the status is 0 where all is well, 1 where a row isn't, and 2 where there
/// is no file or one can't be read.
///
/// # Errors
///
/// What standard output answers.
pub(crate) fn run_files<H: Threads + Sync>(
    threads: &H,
    rt: HostRuntime,
    names: &[String],
) -> io::Result<u8> {
    let mut counts = Counts::new();
    let status = try_files(threads, rt, names, &mut counts)?;
    if status != 0 {
        return Ok(status);
    }
    let (rows, differ) = (counts.rows, counts.differ);
    println!(rt; "{rows} rows, {differ} differ")?;
    Ok(if differ == 0 { 0 } else { 1 })
}
