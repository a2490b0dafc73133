//! Bodies that are an address and a mask.
ghost use Rattle.std.specs.Prelude.{◌≡◌};
ghost use Rattle.std.specs.List.{position};
ghost use Rattle.host_pattern.specs.Mask.{agree, fits_masked, has_colon, is_colon, is_well_masked, joined, masked_of, octets_agree};

use fw_types::read_quad;

/// An address and the mask of the bits in which it is compared with a party's.
#[derive(Clone, Copy)]
pub struct Masked {
    pub address: [u8; 4],
    pub mask: [u8; 4],
}

/// Whether a colon stands in the body.
pub(crate) fn has_colon(body: &[u8]) -> bool
    ensures { result ≡ has_colon body.now }
{
    body.iter().any(|byte| *byte == b':')
}

// The place of the first colon.
fn first_colon(body: &[u8]) -> Option<usize>
    ensures { result ≡ position is_colon body.now }
{
    body.iter().position(|byte| *byte == b':')
}

fn joined(address: Option<[u8; 4]>, mask: Option<[u8; 4]>) -> Option<Masked>
    ensures { result ≡ joined address mask }
{
    match (address, mask) {
        (Some(address), Some(mask)) => Some(Masked { address, mask }),
        _ => None,
    }
}

/// The address and the mask that the body is.
#[tactic(auto, unfolding(crate::specs::Mask::masked_of))]
pub(crate) fn masked_of(body: &[u8]) -> Option<Masked>
    ensures { result ≡ masked_of body.now }
{
    match first_colon(body) {
        Some(at) => joined(read_quad(&body[..at]), read_quad(&body[at + 1..])),
        None => None,
    }
}

/// Whether the body has no colon, or is an address and a mask.
pub(crate) fn is_well_masked(body: &[u8]) -> bool
    ensures { result ≡ is_well_masked body.now }
{
    !has_colon(body) || masked_of(body).is_some()
}

// Whether two octets are equal in every bit that the mask has.
fn octets_agree(mask: u8, one: u8, other: u8) -> bool
    ensures { result ≡ octets_agree mask one other }
{
    one & mask == other & mask
}

// Whether two addresses are equal in every bit that the mask has.
fn agree(mask: [u8; 4], one: [u8; 4], other: [u8; 4]) -> bool
    ensures { result ≡ agree mask one other }
{
    let [m, n, o, p] = mask;
    let [a, b, c, d] = one;
    let [e, f, g, h] = other;
    octets_agree(m, a, e) && octets_agree(n, b, f) && octets_agree(o, c, g) && octets_agree(p, d, h)
}

/// Whether there is an address, and it agrees with the masked one.
pub(crate) fn fits_masked(masked: Option<Masked>, addr: &Option<[u8; 4]>) -> bool
    ensures { result ≡ fits_masked masked addr.now }
{
    match (masked, addr) {
        (Some(masked), Some(addr)) => agree(masked.mask, masked.address, *addr),
        _ => false,
    }
}
