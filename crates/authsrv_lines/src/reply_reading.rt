ghost use Rattle.std.specs.Prelude.{◌≡◌, IsTrue, IfSome, option_map};
ghost use Rattle.std.specs.Str.{bytes_eq};
ghost use Rattle.authsrv_lines.specs.Reply.{ReadsReply, IsReply, is_whole, reply_line};
ghost use Rattle.authsrv_lines.specs.ReplyReading.{challenge_of, denial_of, guessed, of_fields, of_other, spoken, summary_of};

use crate::denial::read_denial;
use crate::number::read_u32;
use crate::reply_writing::reply_text;
use crate::summary::{after_two_spaces, behind, field, read_summary};
use arrayvec::ArrayVec;
use auth_events::Reply;
use auth_records::Seed;

// The challenge that the text, behind `challenge `, seems to say.
#[tactic(auto, unfolding(crate::specs::ReplyReading::challenge_of))]
fn read_challenge(text: &[u8]) -> Option<Reply>
    ensures said { option_map spoken result ≡ option_map of_other (challenge_of text.now) }
    ensures whole { IfSome result (λ reply. IsTrue (is_whole reply)) }
{
    let number = read_u32(field(behind(text)))?;
    let word_seed = Seed::read(after_two_spaces(text))?;
    Some(Reply::Challenge { number, word_seed })
}

fn read_shown(text: &[u8]) -> Option<Reply>
    ensures said { option_map spoken result ≡ option_map of_fields (summary_of text.now) }
    ensures whole { IfSome result (λ reply. IsTrue (is_whole reply)) }
{
    let summary = read_summary(text)?;
    Some(Reply::Shown(summary))
}

fn read_denied(text: &[u8]) -> Option<Reply>
    ensures said { option_map spoken result ≡ option_map (λ d. of_other (Reply.Denied d)) (denial_of text.now) }
    ensures whole { IfSome result (λ reply. IsTrue (is_whole reply)) }
{
    let denial = read_denial(text)?;
    Some(Reply::Denied(denial))
}

// The reply that the line seems to say.
#[tactic(auto, unfolding(crate::specs::ReplyReading::guessed))]
fn guess(line: &[u8]) -> Option<Reply>
    ensures guess { option_map spoken result ≡ guessed line.now }
    ensures whole { IfSome result (λ reply. IsTrue (is_whole reply)) }
{
    if line == b"password".as_slice() {
        Some(Reply::Password)
    } else if line == b"ok".as_slice() {
        Some(Reply::Ok)
    } else if line.starts_with(b"challenge ") {
        read_challenge(&line[10..])
    } else if line.starts_with(b"user ") {
        read_shown(&line[5..])
    } else if line.starts_with(b"denied ") {
        read_denied(&line[7..])
    } else {
        None
    }
}

// Whether this is the reply's text.
fn has_text(reply: &Reply, line: &[u8]) -> bool
    ensures value { result ≡ bytes_eq (reply_line reply.now) line.now }
    ensures is_reply { IsReply reply.now }
{
    let mut text = ArrayVec::new();
    reply_text(reply, &mut text);
    text.as_slice() == line
}

/// The reply whose text, without the line's end, this is. Nothing where no reply has this text, and for the answer to
/// an Open, whose text doesn't hold the session's number.
pub fn read_reply(line: &[u8]) -> Option<Reply>
    ensures { ReadsReply line.now result }
{
    match guess(line) {
        Some(reply) => {
            if has_text(&reply, line) {
                Some(reply)
            } else {
                None
            }
        }
        None => None,
    }
}
