//! The text of a challenge (RFC 2289, 6.0, the form of inputs).
ghost use Rattle.std.specs.Prelude.{◌≡◌};
ghost use Rattle.otp_md5.specs.Challenge.{challenge};

use arrayvec::ArrayVec;
use auth_records::Seed;
use fw_types::{append, append_u32};

/// Sets `out` to the challenge for the password of this count: `otp-md5`, the count and the seed, with a space between.
#[tactic(auto, unfolding(crate::specs::Challenge::challenge))]
pub fn challenge_text(number: u32, word_seed: &Seed, out: &mut ArrayVec<u8, 64>)
    ensures { out.new.items ≡ challenge number word_seed.now }
{
    out.clear();
    append(out, b"otp-md5 ");
    append_u32(out, number);
    append(out, b" ");
    append(out, word_seed.text());
}
