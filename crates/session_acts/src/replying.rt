//! Taking a reply of the server, which the client may be given as it comes.
ghost use Rattle.std.specs.Prelude.{◌≡◌, ◌≢◌, ◌<◌, [], None, OnErr, OnOk};
ghost use Rattle.ftp_lines.specs.Reply.{first_reply};
ghost use Rattle.arrayvec.specs.ArrayVec.{array_vec_len};
ghost use Rattle.fw_outside.specs.SinkView.{Gives, SinkView};
ghost use Rattle.session_acts.specs.Link.{link_view};
ghost use Rattle.session_acts.specs.ReplyRest.{DropsRest, HearsBy, HearsReply, KeepsByte, PassesRest, RepliesSo, StopsPassing, caused_by, last_code, miss_of};
ghost use Rattle.session_acts.specs.Replying.{six_in};
ghost use Rattle.session_acts.specs.World.{Speaker};
ghost use Rattle.session_acts.specs.declared.reply_use.ReplyUse.TheVariants.{Dropped, Passed};

use crate::causes::silence_cause;
use crate::greeting::hear_greeting;
use crate::link::Link;
use crate::{Cause, Replied, ReplyUse, Silence};
use arrayvec::ArrayVec;
use ftp_lines::{ReplyReader, ReplyStep, find_six};
use fw_outside::{Failed, LineReader, Sink, Source, Stop};

/// Why no whole reply came, nor the server's end.
#[derive(Clone, Copy)]
pub(crate) enum Miss {
    /// The server said nothing more.
    Silent(Silence),
    /// The client's sink failed.
    Unsaid,
}

/// At most so many bytes are kept before they are said.
pub(crate) const KEPT: usize = 512;

pub(crate) fn miss_of(stop: Stop) -> Result<Replied, Miss>
    ensures { result ≡ miss_of stop }
{
    match stop {
        Stop::End => Ok(Replied::Ended),
        Stop::Idle => Err(Miss::Silent(Silence::Quiet)),
        Stop::Failed => Err(Miss::Silent(Silence::Broken)),
        Stop::Spent => Err(Miss::Silent(Silence::Limit)),
    }
}

/// The code of the reply that a step ended.
pub(crate) fn last_code(step: ReplyStep) -> Option<u16>
    ensures { result ≡ last_code step }
{
    match step {
        ReplyStep::Last { code } => Some(code),
        ReplyStep::Line => None,
        ReplyStep::More => None,
    }
}

// What the last line of a reply tells.
pub(crate) fn six_in(replies: &ReplyReader) -> Option<([u8; 4], u16)>
    ensures { result ≡ six_in replies.now.heard }
{
    find_six(replies.line()?)
}

// Gives the client what is kept, if there is something.
fn say_kept<K: Sink>(kept: &mut ArrayVec<u8, KEPT>, to: &mut K) -> Result<(), Failed>
    ensures gives { Gives result kept.old.items (K.sink_view to.old) (K.sink_view to.new) }
    ensures none { OnOk result (kept.new.items ≡ []) }
    ensures some { OnErr result (kept.old.items ≢ []) }
{
    if kept.is_empty() {
        return Ok(());
    }
    match to.give(kept) {
        Ok(()) => {
            kept.clear();
            Ok(())
        }
        Err(failed) => Err(failed),
    }
}

// Keeps one byte more, and says what is kept at the end of a line, or where no more fits.
fn keep<K: Sink>(kept: &mut ArrayVec<u8, KEPT>, byte: u8, to: &mut K) -> Result<(), Failed>
    requires { array_vec_len kept.old < 512 }
    ensures keeps { KeepsByte kept.old.items byte result kept.new.items (K.sink_view to.old) (K.sink_view to.new) }
    ensures room { OnOk result (array_vec_len kept.new < 512) }
{
    kept.push(byte);
    if byte == b'\n' {
        return say_kept(kept, to);
    }
    if kept.is_full() {
        return say_kept(kept, to);
    }
    Ok(())
}

/// The rest of a reply, which isn't passed.
pub(crate) fn drop_rest<I: Source>(
    replies: ReplyReader,
    reader: &mut LineReader,
    from: &mut I,
) -> Result<Replied, Miss>
    requires { first_reply replies.fed ≡ None }
    ensures { (outlet : SinkView) → DropsRest replies.fed result
        (record { inlet = I.source_view from.old; reader = reader.old; outlet = outlet })
        (record { inlet = I.source_view from.new; reader = reader.new; outlet = outlet }) }
{
    let mut replies = replies;
    loop {
        match reader.next_byte(from) {
            Ok(byte) => {
                let step = replies.feed(byte);
                match last_code(step) {
                    Some(code) => {
                        let six = six_in(&replies);
                        return Ok(Replied::Whole { code, six });
                    }
                    None => {}
                }
            }
            Err(stop) => return miss_of(stop),
        }
    }
}

// What is kept is said at the server's end. Where it stops otherwise the session does, too.
fn stop_passing<K: Sink>(
    stop: Stop,
    kept: &mut ArrayVec<u8, KEPT>,
    to: &mut K,
) -> Result<Replied, Miss>
    ensures { StopsPassing stop kept.old.items result (K.sink_view to.old) (K.sink_view to.new) }
{
    match stop {
        Stop::End => match say_kept(kept, to) {
            Ok(()) => Ok(Replied::Ended),
            Err(_) => Err(Miss::Unsaid),
        },
        Stop::Idle => Err(Miss::Silent(Silence::Quiet)),
        Stop::Failed => Err(Miss::Silent(Silence::Broken)),
        Stop::Spent => Err(Miss::Silent(Silence::Limit)),
    }
}

/// The rest of a reply, which is passed, behind what was kept of it.
pub(crate) fn pass_rest<I: Source, K: Sink>(
    replies: ReplyReader,
    kept: ArrayVec<u8, KEPT>,
    reader: &mut LineReader,
    from: &mut I,
    to: &mut K,
) -> Result<Replied, Miss>
    requires unended { first_reply replies.fed ≡ None }
    requires room { array_vec_len kept < 512 }
    ensures { (outlet : SinkView) (client : Speaker) → PassesRest replies.fed kept.items result
        (record { inlet = I.source_view from.old; reader = reader.old; outlet = outlet })
        (record { inlet = I.source_view from.new; reader = reader.new; outlet = outlet })
        (record client { outlet = K.sink_view to.old }) (record client { outlet = K.sink_view to.new }) }
{
    let mut replies = replies;
    let mut kept = kept;
    loop {
        match reader.next_byte(from) {
            Ok(byte) => {
                let step = replies.feed(byte);
                match keep(&mut kept, byte, to) {
                    Ok(()) => {}
                    Err(_) => return Err(Miss::Unsaid),
                }
                match last_code(step) {
                    Some(code) => {
                        let six = six_in(&replies);
                        return Ok(Replied::Whole { code, six });
                    }
                    None => {}
                }
            }
            Err(stop) => return stop_passing(stop, &mut kept, to),
        }
    }
}

fn caused_by(heard: Result<Replied, Miss>) -> Result<Replied, Cause>
    ensures { result ≡ caused_by heard }
{
    match heard {
        Ok(replied) => Ok(replied),
        Err(Miss::Silent(silence)) => Err(silence_cause(Cause::ServerFault, silence)),
        Err(Miss::Unsaid) => Err(Cause::ClientFault),
    }
}

// A reply that is passed.
fn hear_passed<I: Source, K: Sink>(
    reader: &mut LineReader,
    from: &mut I,
    to: &mut K,
) -> Result<Replied, Miss>
    ensures { (outlet : SinkView) (client : Speaker) → HearsBy Passed result
        (record { inlet = I.source_view from.old; reader = reader.old; outlet = outlet })
        (record { inlet = I.source_view from.new; reader = reader.new; outlet = outlet })
        (record client { outlet = K.sink_view to.old }) (record client { outlet = K.sink_view to.new }) }
{
    pass_rest(ReplyReader::new(), ArrayVec::new(), reader, from, to)
}

// A reply that isn't.
fn hear_dropped<I: Source>(reader: &mut LineReader, from: &mut I) -> Result<Replied, Miss>
    ensures { (outlet : SinkView) (client : Speaker) → HearsBy Dropped result
        (record { inlet = I.source_view from.old; reader = reader.old; outlet = outlet })
        (record { inlet = I.source_view from.new; reader = reader.new; outlet = outlet })
        client client }
{
    drop_rest(ReplyReader::new(), reader, from)
}

fn hear_so<I: Source, K: Sink>(
    how: ReplyUse,
    reader: &mut LineReader,
    from: &mut I,
    to: &mut K,
) -> Result<Replied, Miss>
    ensures { (outlet : SinkView) (client : Speaker) → HearsBy how result
        (record { inlet = I.source_view from.old; reader = reader.old; outlet = outlet })
        (record { inlet = I.source_view from.new; reader = reader.new; outlet = outlet })
        (record client { outlet = K.sink_view to.old }) (record client { outlet = K.sink_view to.new }) }
{
    match how {
        ReplyUse::Passed => hear_passed(reader, from, to),
        ReplyUse::Dropped => hear_dropped(reader, from),
        ReplyUse::Greeting => hear_greeting(reader, from, to),
    }
}

fn hear_reply<I: Source, K: Sink>(
    how: ReplyUse,
    reader: &mut LineReader,
    from: &mut I,
    to: &mut K,
) -> Result<Replied, Cause>
    ensures { (outlet : SinkView) (client : Speaker) → HearsReply how result
        (record { inlet = I.source_view from.old; reader = reader.old; outlet = outlet })
        (record { inlet = I.source_view from.new; reader = reader.new; outlet = outlet })
        (record client { outlet = K.sink_view to.old }) (record client { outlet = K.sink_view to.new }) }
{
    let heard = hear_so(how, reader, from, to);
    caused_by(heard)
}

/// The server's next reply, or its end, which it is too where no link is up.
pub(crate) fn take_reply<I: Source, O: Sink, K: Sink>(
    how: ReplyUse,
    link: &mut Option<Link<I, O>>,
    to: &mut K,
) -> Result<Replied, Cause>
    ensures { (client : Speaker) → RepliesSo how result (link_view I.source_view O.sink_view link.old)
        (link_view I.source_view O.sink_view link.new)
        (record client { outlet = K.sink_view to.old }) (record client { outlet = K.sink_view to.new }) }
{
    let Some(mut up) = link.take() else {
        return Ok(Replied::Ended);
    };
    let heard = hear_reply(how, &mut up.reader, &mut up.from, to);
    *link = Some(up);
    heard
}
