//! Whether the body of a pattern matches a party.
ghost use Rattle.std.specs.Prelude.{◌≡◌, ◌||◌, ◌==◌, IsTrue};
ghost use Rattle.fw_types.specs.HostName.{is_address_byte};
ghost use Rattle.host_pattern.specs.Party.{is_unknown, is_stars, is_for_addresses, globs_address, globs_name, body_matches};

use crate::mask::{fits_masked, has_colon, masked_of};
use crate::walk::{globs, only_stars};
use arrayvec::ArrayVec;
use fw_types::{HostName, Peer, dotted_quad, lower_copy_of};

const UNKNOWN: &[u8; 7] = b"unknown";

/// Whether the body is `unknown`, in any case.
fn is_unknown(body: &[u8]) -> bool
    ensures { result ≡ is_unknown body.now }
{
    if body.len() != UNKNOWN.len() {
        return false;
    }
    let lower: ArrayVec<u8, 7> = lower_copy_of(body);
    lower.as_slice() == UNKNOWN.as_slice()
}

pub(crate) fn is_for_addresses(body: &[u8]) -> bool
    ensures { result ≡ is_for_addresses body.now }
{
    body.iter().all(|byte| byte.is_ascii_digit() || *byte == b'.' || *byte == b'*')
}

/// Whether there is an address, and the body matches its dotted text.
fn globs_address(body: &[u8], addr: &Option<[u8; 4]>) -> bool
    requires { IsTrue (is_for_addresses body.now) }
    ensures { result ≡ globs_address body.now addr.now }
{
    match addr {
        Some(addr) => globs(body, dotted_quad(*addr).as_slice()),
        None => false,
    }
}

/// Whether there is a name, and the body, in lower case, matches it.
fn globs_name(body: &[u8], name: &Option<HostName>) -> bool
    ensures { result ≡ globs_name body.now name.now }
{
    match name {
        Some(name) => globs(body, name.text()),
        None => false,
    }
}

/// Whether the body matches the party.
#[tactic(auto, unfolding(crate::specs::Party::body_matches))]
pub(crate) fn body_matches(body: &[u8], party: &Peer) -> bool
    ensures { result ≡ body_matches body.now party.now }
{
    if is_unknown(body) {
        party.name.is_none()
    } else if only_stars(body) {
        true
    } else if is_for_addresses(body) {
        globs_address(body, &party.addr)
    } else if has_colon(body) {
        fits_masked(masked_of(body), &party.addr)
    } else {
        globs_name(body, &party.name)
    }
}
