//! What goes from one data link to the other.
ghost use Rattle.std.specs.Prelude.{◌≡◌, Some};
ghost use Rattle.session_acts.specs.Link.{pair_of, pair_view};
ghost use Rattle.session_acts.specs.Side.{CarriedSo};
ghost use Rattle.session_acts.specs.declared.toward.Toward.TheVariants.{Client, Server};

use crate::Toward;
use crate::link::MOST_TAKEN;
use crate::pair::DataPair;
use fw_outside::{Sink, Source};
use relay_ways::{WayEnd, carry_way};

/// Keeps two data links that came up.
pub(crate) fn put_pair<A: Source, B: Sink>(
    pair: &mut Option<DataPair<A, B>>,
    far_from: A,
    far_to: B,
    near_from: A,
    near_to: B,
)
    ensures { pair_view A.source_view B.sink_view pair.new ≡ Some (record {
      far = record { from = A.source_view far_from; to = B.sink_view far_to };
      near = record { from = A.source_view near_from; to = B.sink_view near_to };
    }) }
{
    *pair = Some(DataPair {
        far_from,
        far_to,
        near_from,
        near_to,
    });
}

// All that comes over the server's data link goes to the client.
fn carry_near<A: Source, B: Sink>(pair: &mut DataPair<A, B>) -> WayEnd
    ensures { CarriedSo Client result (pair_of A.source_view B.sink_view pair.old)
        (pair_of A.source_view B.sink_view pair.new) }
{
    let mut left = MOST_TAKEN;
    carry_way(&[], &mut pair.far_from, &mut pair.near_to, &mut left)
}

// All that comes over the client's data link goes to the server.
fn carry_far<A: Source, B: Sink>(pair: &mut DataPair<A, B>) -> WayEnd
    ensures { CarriedSo Server result (pair_of A.source_view B.sink_view pair.old)
        (pair_of A.source_view B.sink_view pair.new) }
{
    let mut left = MOST_TAKEN;
    carry_way(&[], &mut pair.near_from, &mut pair.far_to, &mut left)
}

/// All that comes over one data link goes to the other.
pub(crate) fn carry<A: Source, B: Sink>(toward: Toward, pair: &mut DataPair<A, B>) -> WayEnd
    ensures { CarriedSo toward result (pair_of A.source_view B.sink_view pair.old)
        (pair_of A.source_view B.sink_view pair.new) }
{
    match toward {
        Toward::Client => carry_near(pair),
        Toward::Server => carry_far(pair),
    }
}
