//! The relay at the end of a dialogue.
ghost use Rattle.std.specs.Prelude.{◌≡◌};
ghost use Rattle.session_acts.specs.Finishing.{RelaysAfter, RelaysSo, RunsWays};
ghost use Rattle.session_acts.specs.Link.{link_view};
ghost use Rattle.session_acts.specs.Relaying.{stops_by};

use crate::Cause;
use crate::link::Link;
use fw_outside::{LineReader, Sink, Source};
use fw_types::Ending;
use relay_ways::{WayEnd, carry_both, way_ending};
use std::thread::Threads;

// For which cause a session stops that ends so, if it does.
fn stops_by(ending: Ending) -> Result<(), Cause>
    ensures { result ≡ stops_by ending }
{
    match ending {
        Ending::Done => Ok(()),
        Ending::Denied { .. } => Ok(()),
        Ending::ClientFault => Err(Cause::ClientFault),
        Ending::ServerFault => Err(Cause::ServerFault),
        Ending::LogFault => Err(Cause::LogFault),
        Ending::AuthFault => Err(Cause::AuthFault),
        Ending::Idle => Err(Cause::Idle),
        Ending::NoRoute => Err(Cause::NoRoute),
        Ending::Spent => Err(Cause::Spent),
        Ending::NoMemory => Err(Cause::NoMemory),
    }
}

// Both ways of a link, to the ends of both. Each begins with what was taken ahead for it, and takes no more than the dialogue
// has left.
fn run_ways<H, S, K, I, O>(
    rt: &H,
    reader: &mut LineReader,
    from: &mut S,
    to: &mut K,
    up: &mut Link<I, O>,
) -> (WayEnd, WayEnd)
where
    H: Threads + Sync,
    S: Source + Send,
    K: Sink + Send,
    I: Source + Send,
    O: Sink + Send,
    ensures { RunsWays result.0 result.1
        (record { inlet = S.source_view from.old; reader = reader.old; outlet = K.sink_view to.old })
        (record { inlet = I.source_view up.old.from; reader = up.old.reader; outlet = O.sink_view up.old.to })
        (record { inlet = S.source_view from.new; reader = reader.new; outlet = K.sink_view to.new })
        (record { inlet = I.source_view up.new.from; reader = up.new.reader; outlet = O.sink_view up.new.to }) }
{
    let mut up_left = reader.room();
    let mut down_left = up.reader.room();
    let ends = carry_both(
        rt,
        reader.pending(),
        from,
        to,
        up.reader.pending(),
        &mut up.from,
        &mut up.to,
        &mut up_left,
        &mut down_left,
    );
    *reader = LineReader::new(up_left);
    up.reader = LineReader::new(down_left);
    ends
}

// The relay over the link that is up, if one is.
fn relay_link<H, S, K, I, O>(
    rt: &H,
    reader: &mut LineReader,
    from: &mut S,
    to: &mut K,
    link: &mut Option<Link<I, O>>,
) -> Result<(), Cause>
where
    H: Threads + Sync,
    S: Source + Send,
    K: Sink + Send,
    I: Source + Send,
    O: Sink + Send,
    ensures { RelaysSo result
        (record { inlet = S.source_view from.old; reader = reader.old; outlet = K.sink_view to.old })
        (link_view I.source_view O.sink_view link.old)
        (record { inlet = S.source_view from.new; reader = reader.new; outlet = K.sink_view to.new })
        (link_view I.source_view O.sink_view link.new) }
{
    let Some(mut up) = link.take() else {
        return Ok(());
    };
    let (there, back) = run_ways(rt, reader, from, to, &mut up);
    *link = Some(up);
    stops_by(way_ending(there, back))
}

// The relay, where the dialogue came to its end.
pub(crate) fn relay_after<H, S, K, I, O>(
    dialogue: Result<(), Cause>,
    rt: &H,
    reader: &mut LineReader,
    from: &mut S,
    to: &mut K,
    link: &mut Option<Link<I, O>>,
) -> Result<(), Cause>
where
    H: Threads + Sync,
    S: Source + Send,
    K: Sink + Send,
    I: Source + Send,
    O: Sink + Send,
    ensures { RelaysAfter dialogue result
        (record { inlet = S.source_view from.old; reader = reader.old; outlet = K.sink_view to.old })
        (link_view I.source_view O.sink_view link.old)
        (record { inlet = S.source_view from.new; reader = reader.new; outlet = K.sink_view to.new })
        (link_view I.source_view O.sink_view link.new) }
{
    match dialogue {
        Ok(()) => relay_link(rt, reader, from, to, link),
        Err(cause) => Err(cause),
    }
}
