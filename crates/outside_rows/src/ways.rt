//! What is told of a way of a relay.

use crate::devices::{sink_of, source_of, tell_take};
use fw_memory::{MemSink, MemSource};
use fw_types::NoMemory;
use lines_of_rows::{Told, add_number, add_word, cut_word, number_of};
use relay_ways::{WayEnd, copy_way};
use std::alloc::Global;

fn tell_end(end: WayEnd, out: &mut Told) {
    match end {
        WayEnd::Done => add_word(out, b"done"),
        WayEnd::ReadFault => add_word(out, b"read-fault"),
        WayEnd::WriteFault => add_word(out, b"write-fault"),
        WayEnd::Idle => add_word(out, b"idle"),
        WayEnd::Spent => add_word(out, b"spent"),
    }
}

// Copies, and tells what came of it.
fn tell_copy(mut source: MemSource, mut sink: MemSink, limit: u64, out: &mut Told) {
    tell_end(copy_way(&mut source, &mut sink, limit), out);
    let given = sink.bytes();
    add_number(out, given.len() as u64);
    add_word(out, &given[given.len().saturating_sub(10)..]);
    tell_take(&mut source, out);
}

/// `way LIMIT PIECE FAILS IDLES ROOM SINK-FAILS TEXT => END COUNT LAST NEXT`: how the way ended, how many bytes the sink
/// was given, the last ten of them, and what the source gives next.
pub(crate) fn tell_way(alloc: Global, asked: &[u8], out: &mut Told) -> Result<(), NoMemory> {
    let (limit, rest) = cut_word(asked);
    let (piece, rest) = cut_word(rest);
    let (fails, rest) = cut_word(rest);
    let (idles, rest) = cut_word(rest);
    let (room, rest) = cut_word(rest);
    let (sink_fails, text) = cut_word(rest);
    let source = source_of(alloc, piece, fails, idles, text)?;
    let sink = sink_of(alloc, room, sink_fails)?;
    tell_copy(source, sink, number_of(limit), out);
    Ok(())
}
