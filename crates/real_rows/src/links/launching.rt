//! What is told of programs of the system.

use fw_outside::{Launcher, Started};
use fw_types::{NoMemory, Octets, OctetsList};
use lines_of_rows::{Told, add_number, add_word, cut};
use real_links::Programs;
use std::alloc::Global;

/// The texts between commas, or none.
pub(crate) fn args_of(alloc: Global, texts: &[u8]) -> Result<OctetsList, NoMemory> {
    let mut args = OctetsList::new(alloc);
    if texts.is_empty() {
        return Ok(args);
    }
    for text in texts.split(|byte| *byte == b',') {
        if args.push(Octets::copy(alloc, text)?).is_err() {
            return Err(NoMemory);
        }
    }
    Ok(args)
}

/// `program PROGRAM,ARGUMENT,.. => STATUS`, or `failed`.
pub(crate) fn tell_program(
    rt: HostRuntime,
    alloc: Global,
    asked: &[u8],
    out: &mut Told,
) -> Result<(), NoMemory> {
    let (program, args) = cut(asked, b',');
    let args = args_of(alloc, args)?;
    let mut programs = Programs::new(rt, alloc);
    match programs.start(program, &args) {
        Started::Ended(status) => add_number(out, u64::from(status)),
        Started::Failed => add_word(out, b"failed"),
    }
    Ok(())
}
