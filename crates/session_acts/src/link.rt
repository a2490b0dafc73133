//! The link to a server, while it is up.
ghost use Rattle.std.specs.Prelude.{◌≡◌};
ghost use Rattle.fw_outside.specs.SinkView.{SinkView};
ghost use Rattle.session_acts.specs.Link.{IsPutUp, PassesSo, link_view, outcome_of};
ghost use Rattle.session_acts.specs.Met.{Hears, Takes};
ghost use Rattle.session_acts.specs.World.{Server};
ghost use Rattle.session_acts.specs.declared.form.Form.TheVariants.{Lines, Telnet};

use crate::{Form, Silence};
use fw_outside::{Dialed, Failed, Heard, LineReader, Sink, Source, Stop};
use telnet_hearing::hear_line;

// No more bytes than these are taken from a client, or from a server over one link.
pub(crate) const MOST_TAKEN: u64 = 1 << 40;

/// A link that is up, and the buffer behind which the server is heard.
#[derive(Drop)]
pub(crate) struct Link<I, O> {
    pub(crate) from: I,
    pub(crate) to: O,
    pub(crate) reader: LineReader,
}

// How a session takes what a reader of lines hears.
fn outcome_of(heard: Heard) -> Result<Heard, Silence>
    ensures { result ≡ outcome_of heard }
{
    match heard {
        Heard::Line(line) => Ok(Heard::Line(line)),
        Heard::TooLong => Ok(Heard::TooLong),
        Heard::Stopped(Stop::End) => Ok(Heard::Stopped(Stop::End)),
        Heard::Stopped(Stop::Idle) => Err(Silence::Quiet),
        Heard::Stopped(Stop::Failed) => Err(Silence::Broken),
        Heard::Stopped(Stop::Spent) => Err(Silence::Limit),
    }
}

// The next line of a source, one that is too long, or the end.
fn heed_line<S: Source>(reader: &mut LineReader, from: &mut S) -> Result<Heard, Silence>
    ensures { (outlet : SinkView) → Hears Lines result
        (record { inlet = S.source_view from.old; reader = reader.old; outlet = outlet })
        (record { inlet = S.source_view from.new; reader = reader.new; outlet = outlet }) }
{
    let heard = reader.next(from);
    outcome_of(heard)
}

// The next line of a client of Telnet, one that is too long, or the end.
fn heed_telnet<S: Source>(reader: &mut LineReader, from: &mut S) -> Result<Heard, Silence>
    ensures { (outlet : SinkView) → Hears Telnet result
        (record { inlet = S.source_view from.old; reader = reader.old; outlet = outlet })
        (record { inlet = S.source_view from.new; reader = reader.new; outlet = outlet }) }
{
    let heard = hear_line(reader, from);
    outcome_of(heard)
}

// What is heard next of a source, in a form.
pub(crate) fn heed<S: Source>(
    form: Form,
    reader: &mut LineReader,
    from: &mut S,
) -> Result<Heard, Silence>
    ensures { (outlet : SinkView) → Hears form result
        (record { inlet = S.source_view from.old; reader = reader.old; outlet = outlet })
        (record { inlet = S.source_view from.new; reader = reader.new; outlet = outlet }) }
{
    match form {
        Form::Lines => heed_line(reader, from),
        Form::Telnet => heed_telnet(reader, from),
    }
}

// Keeps a link that came up, of which nothing was heard yet; whether one did.
pub(crate) fn put_up<I: Source, O: Sink>(
    link: &mut Option<Link<I, O>>,
    dialed: Dialed<I, O>,
) -> bool
    ensures { IsPutUp I.source_view O.sink_view dialed result (link_view I.source_view O.sink_view link.new) }
{
    match dialed {
        Dialed::Up(from, to) => {
            *link = Some(Link {
                from,
                to,
                reader: LineReader::new(MOST_TAKEN),
            });
            true
        }
        Dialed::Refused => {
            *link = None;
            false
        }
    }
}

// The next line of the server, one that is too long, or the end, which it is too where no link is up.
pub(crate) fn take_line<I: Source, O: Sink>(link: &mut Option<Link<I, O>>) -> Result<Heard, Silence>
    ensures { (server : Server) → Takes result (link_view I.source_view O.sink_view link.old)
        (record server { link = link_view I.source_view O.sink_view link.old })
        (record server { link = link_view I.source_view O.sink_view link.new }) }
{
    let Some(mut up) = link.take() else {
        return Ok(Heard::Stopped(Stop::End));
    };
    let heard = heed_line(&mut up.reader, &mut up.from);
    *link = Some(up);
    heard
}

// Gives the server a text, where a link is up.
pub(crate) fn pass_text<I: Source, O: Sink>(
    link: &mut Option<Link<I, O>>,
    text: &[u8],
) -> Result<(), Failed>
    ensures { PassesSo text.now result (link_view I.source_view O.sink_view link.old)
        (link_view I.source_view O.sink_view link.new) }
{
    let Some(mut up) = link.take() else {
        return Ok(());
    };
    let passed = up.to.give(text);
    *link = Some(up);
    passed
}
