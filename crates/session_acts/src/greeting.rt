//! The greeting of a server, which is passed unless its code begins with 2.
//!
//! A line tells the code by its first four bytes, or at its end, so at most five bytes are held back: three digits, CR and LF.
ghost use Rattle.std.specs.Prelude.{◌≡◌, ◌≤◌, None};
ghost use Rattle.ftp_lines.specs.Reply.{first_reply};
ghost use Rattle.arrayvec.specs.ArrayVec.{array_vec_len};
ghost use Rattle.fw_outside.specs.SinkView.{Gives, SinkView};
ghost use Rattle.session_acts.specs.Greeting.{GivesHead, PassesBy, code_told, head_after, head_behind, told_by};
ghost use Rattle.session_acts.specs.ReplyRest.{HearsBy};
ghost use Rattle.session_acts.specs.Replying.{is_welcome, unless_welcome};
ghost use Rattle.session_acts.specs.World.{Speaker};
ghost use Rattle.session_acts.specs.declared.reply_use.ReplyUse.TheVariants.{Greeting};

use crate::Replied;
use crate::replying::{KEPT, Miss, drop_rest, last_code, miss_of, pass_rest, six_in};
use arrayvec::ArrayVec;
use ftp_lines::{ReplyReader, ReplyStep, ending_code};
use fw_outside::{Failed, LineReader, Sink, Source};

fn is_welcome(code: u16) -> bool
    ensures { result ≡ is_welcome code }
{
    code / 100 == 2
}

// The code that the greeting tells, of whose line these first bytes have come.
fn code_told(replies: &ReplyReader, head: &[u8]) -> Option<u16>
    ensures { result ≡ code_told replies.now.fed head.now }
{
    match replies.first_code() {
        Some(code) => Some(code),
        None => ending_code(head),
    }
}

// The code that is told where no line ended.
fn told_by(step: ReplyStep, replies: &ReplyReader, head: &ArrayVec<u8, KEPT>) -> Option<u16>
    ensures { result ≡ told_by step replies.now.fed head.now.items }
{
    match step {
        ReplyStep::More => code_told(replies, head),
        ReplyStep::Line => None,
        ReplyStep::Last { .. } => None,
    }
}

// Keeps the first five bytes of a line.
fn keep_head(head: &mut ArrayVec<u8, KEPT>, byte: u8)
    requires { array_vec_len head.old ≤ 5 }
    ensures items { head.new.items ≡ head_after head.old.items byte }
    ensures few { array_vec_len head.new ≤ 5 }
{
    if head.len() < 5 {
        head.push(byte);
    }
}

// Behind the end of a line nothing is kept.
fn pass_line(step: ReplyStep, head: &mut ArrayVec<u8, KEPT>)
    ensures { head.new.items ≡ head_behind step head.old.items }
{
    match step {
        ReplyStep::Line => head.clear(),
        ReplyStep::More => {}
        ReplyStep::Last { .. } => {}
    }
}

// Gives the client a line that ends a greeting, unless its code is a welcome.
fn give_head<K: Sink>(code: u16, head: &[u8], to: &mut K) -> Result<(), Failed>
    ensures { Gives result (unless_welcome code head.now) (K.sink_view to.old) (K.sink_view to.new) }
{
    if is_welcome(code) {
        return Ok(());
    }
    to.give(head)
}

// The rest of a greeting with this code.
fn pass_by<I: Source, K: Sink>(
    code: u16,
    replies: ReplyReader,
    head: ArrayVec<u8, KEPT>,
    reader: &mut LineReader,
    from: &mut I,
    to: &mut K,
) -> Result<Replied, Miss>
    requires unended { first_reply replies.fed ≡ None }
    requires few { array_vec_len head ≤ 5 }
    ensures { (outlet : SinkView) (client : Speaker) → PassesBy (is_welcome code) replies.fed head.items result
        (record { inlet = I.source_view from.old; reader = reader.old; outlet = outlet })
        (record { inlet = I.source_view from.new; reader = reader.new; outlet = outlet })
        (record client { outlet = K.sink_view to.old }) (record client { outlet = K.sink_view to.new }) }
{
    if is_welcome(code) {
        return drop_rest(replies, reader, from);
    }
    pass_rest(replies, head, reader, from, to)
}

// How a greeting came out that is whole.
fn greeted<K: Sink>(
    code: u16,
    replies: &ReplyReader,
    head: &ArrayVec<u8, KEPT>,
    to: &mut K,
) -> Result<Replied, Miss>
    ensures { GivesHead code replies.now.heard head.now.items result (K.sink_view to.old) (K.sink_view to.new) }
{
    match give_head(code, head, to) {
        Ok(()) => {
            let six = six_in(replies);
            Ok(Replied::Whole { code, six })
        }
        Err(_) => Err(Miss::Unsaid),
    }
}

/// The greeting of a server.
pub(crate) fn hear_greeting<I: Source, K: Sink>(
    reader: &mut LineReader,
    from: &mut I,
    to: &mut K,
) -> Result<Replied, Miss>
    ensures { (outlet : SinkView) (client : Speaker) → HearsBy Greeting result
        (record { inlet = I.source_view from.old; reader = reader.old; outlet = outlet })
        (record { inlet = I.source_view from.new; reader = reader.new; outlet = outlet })
        (record client { outlet = K.sink_view to.old }) (record client { outlet = K.sink_view to.new }) }
{
    let mut replies = ReplyReader::new();
    let mut head = ArrayVec::new();
    loop {
        match reader.next_byte(from) {
            Ok(byte) => {
                let step = replies.feed(byte);
                keep_head(&mut head, byte);
                match last_code(step) {
                    Some(code) => return greeted(code, &replies, &head, to),
                    None => {}
                }
                match told_by(step, &replies, &head) {
                    Some(code) => return pass_by(code, replies, head, reader, from, to),
                    None => {}
                }
                pass_line(step, &mut head);
            }
            Err(stop) => return miss_of(stop),
        }
    }
}
