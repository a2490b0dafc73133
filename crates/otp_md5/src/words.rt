//! The passwords themselves (RFC 2289, 6.0).
ghost use Rattle.std.specs.Prelude.{◌≡◌, ◌++◌};
ghost use Rattle.md5.specs.Md5.{md5};
ghost use Rattle.otp_md5.specs.Passwords.{halves, folded, initial_of, next_of};

use auth_records::Seed;
use md5::{Digest, Md5};

/// The exclusive or of the halves of a digest, the greatest byte first.
fn halves(digest: [u8; 16]) -> u64
    ensures { result ≡ halves digest }
{
    let first = u64::from_be_bytes([
        digest[0], digest[1], digest[2], digest[3], digest[4], digest[5], digest[6], digest[7],
    ]);
    let last = u64::from_be_bytes([
        digest[8], digest[9], digest[10], digest[11], digest[12], digest[13], digest[14],
        digest[15],
    ]);
    first ^ last
}

/// The MD5 digest of the bytes, folded to 64 bits (RFC 2289, 6.0 and appendix A).
#[tactic(auto, unfolding(crate::specs::Passwords::folded))]
pub fn fold(bytes: &[u8]) -> u64
    ensures { result ≡ folded bytes.now }
{
    halves(Md5::digest(bytes))
}

/// The password of count 0: the seed and then the pass phrase, folded (RFC 2289, 6.0, the initial step).
#[tactic(auto, unfolding(crate::specs::Passwords::initial_of, crate::specs::Passwords::folded))]
pub fn initial(word_seed: &Seed, phrase: &[u8]) -> u64
    ensures { result ≡ initial_of word_seed.now phrase.now }
{
    let mut hasher = Md5::new();
    hasher.update(word_seed.text());
    hasher.update(phrase);
    halves(hasher.finalize())
}

/// The password of the next count: the eight bytes of this one, folded (RFC 2289, 6.0, the computation step).
#[tactic(auto, unfolding(crate::specs::Passwords::next_of))]
pub fn next(x: u64) -> u64
    ensures { result ≡ next_of x }
{
    fold(&x.to_be_bytes())
}
