//! A word that is a destination: a host, a colon and a port.
ghost use Rattle.std.specs.Prelude.{◌≡◌};
ghost use Rattle.std.specs.List.{position};
ghost use Rattle.bastion.specs.DestWord.{dest_in, dest_of, is_colon};

use fw_types::{Dest, Host, read_port};

// The place of the first colon.
fn first_colon(word: &[u8]) -> Option<usize>
    ensures { result ≡ position is_colon word.now }
{
    word.iter().position(|byte| *byte == b':')
}

fn dest_of(host: Option<Host>, port: Option<u16>) -> Option<Dest>
    ensures { result ≡ dest_of host port }
{
    match (host, port) {
        (Some(host), Some(port)) => Some(Dest { host, port }),
        _ => None,
    }
}

/// The destination that the word is, or nothing where it is none.
#[tactic(auto, unfolding(crate::specs::DestWord::dest_in))]
pub(crate) fn dest_in(word: &[u8]) -> Option<Dest>
    ensures { result ≡ dest_in word.now }
{
    match first_colon(word) {
        Some(at) => dest_of(Host::read(&word[..at]), read_port(&word[at + 1..])),
        None => None,
    }
}
