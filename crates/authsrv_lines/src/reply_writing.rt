ghost use Rattle.std.specs.Prelude.{◌≡◌, ◌≤◌, ◌++◌, codes, length, IsTrue};
ghost use Rattle.authsrv_lines.specs.Reply.{IsReply, reply_line};
ghost use Rattle.otp_md5.specs.Challenge.{challenge};
ghost use Rattle.auth_records.specs.Texts.{is_seed};

use crate::denial::denial_text;
use crate::summary::summary_text;
use arrayvec::ArrayVec;
use auth_events::Reply;
use auth_records::Seed;
use fw_types::append;
use otp_md5::challenge_text;

fn set(out: &mut ArrayVec<u8, 512>, text: &[u8])
    requires { length text.now ≤ 512 }
    ensures { out.new.items ≡ text.now }
{
    out.clear();
    append(out, text);
}

fn challenge(number: u32, word_seed: &Seed, out: &mut ArrayVec<u8, 512>)
    ensures text { out.new.items ≡ codes "challenge " ++ challenge number word_seed.now }
    ensures is_seed { IsTrue (is_seed word_seed.now) }
{
    let mut text = ArrayVec::new();
    challenge_text(number, word_seed, &mut text);
    let _ = word_seed.text();
    set(out, b"challenge ");
    append(out, text.as_slice());
}

/// Sets `out` to the reply's text, without the line's end.
pub fn reply_text(reply: &Reply, out: &mut ArrayVec<u8, 512>)
    ensures text { out.new.items ≡ reply_line reply.now }
    ensures is_reply { IsReply reply.now }
{
    match reply {
        Reply::Opened { sid } => {
            let _sid = *sid;
            set(out, b"authsrv ready")
        }
        Reply::Password => set(out, b"password"),
        Reply::Challenge { number, word_seed } => challenge(*number, word_seed, out),
        Reply::Ok => set(out, b"ok"),
        Reply::Shown(summary) => summary_text(summary, out),
        Reply::Denied(denial) => denial_text(*denial, out),
    }
}
