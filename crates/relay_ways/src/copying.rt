ghost use Rattle.std.specs.Prelude.{◌<◌, IfOk, IfErr};
ghost use Rattle.relay_ways.specs.Way.{Copies, CopiesTo, MovesSome};

use crate::WayEnd;
use fw_outside::{Got, Sink, Source};

// The most bytes of a piece.
const PIECE: usize = 4096;

// Moves one piece, of at most as many bytes as may still be taken, or tells how the way ended instead. Those that were taken
// are no more left.
fn move_piece<S: Source, K: Sink>(from: &mut S, to: &mut K, left: &mut u64) -> Result<(), WayEnd>
    requires { 0 < left.old }
    ensures moves { IfOk result (λ done. MovesSome left.old left.new (S.source_view from.old) (S.source_view from.new)
        (K.sink_view to.old) (K.sink_view to.new)) }
    ensures copies { IfErr result (λ end. CopiesTo left.old left.new end (S.source_view from.old) (S.source_view from.new)
        (K.sink_view to.old) (K.sink_view to.new)) }
{
    let mut buffer = [0; PIECE];
    let room = (*left).min(PIECE as u64) as usize;
    match from.take(&mut buffer[..room]) {
        Ok(Got::Bytes(count)) => {
            *left -= count as u64;
            match to.give(&buffer[..count]) {
                Ok(()) => Ok(()),
                Err(_) => Err(WayEnd::WriteFault),
            }
        }
        Ok(Got::End) => match to.end() {
            Ok(()) => Err(WayEnd::Done),
            Err(_) => Err(WayEnd::WriteFault),
        },
        Ok(Got::Idle) => Err(WayEnd::Idle),
        Err(_) => Err(WayEnd::ReadFault),
    }
}

// As `copy_way`, and tells how many bytes may still be taken.
pub(crate) fn copy_on<S: Source, K: Sink>(from: &mut S, to: &mut K, left: &mut u64) -> WayEnd
    ensures { CopiesTo left.old left.new result (S.source_view from.old) (S.source_view from.new)
        (K.sink_view to.old) (K.sink_view to.new) }
{
    while *left > 0 {
        match move_piece(from, to, left) {
            Ok(()) => {}
            Err(end) => return end,
        }
    }
    WayEnd::Spent
}

/// Gives the sink what it takes from the source, in pieces of at most 4,096 bytes, until the source's end, and then
/// tells the sink that no more comes. It takes at most `limit` bytes. Where it took so many it stops and asks for no
/// end, so the sink isn't told of one.
pub fn copy_way<S: Source, K: Sink>(from: &mut S, to: &mut K, limit: u64) -> WayEnd
    ensures { Copies limit result (S.source_view from.old) (S.source_view from.new)
        (K.sink_view to.old) (K.sink_view to.new) }
{
    let mut left = limit;
    copy_on(from, to, &mut left)
}
