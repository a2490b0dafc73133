//! Which addresses a body can match, by their first octet.
ghost use Rattle.std.specs.Prelude.{◌≡◌, ◌==◌, Some};
ghost use Rattle.std.specs.List.{position};
ghost use Rattle.fw_types.specs.Number.{number_of};
ghost use Rattle.fw_types.specs.Quad.{octet_of};
ghost use Rattle.host_pattern.specs.Bucket.{bucket_of, is_padded, octet_before, octet_masked, octet_of_body};

use crate::mask::{Masked, masked_of};
use crate::party::is_for_addresses;
use fw_types::read_number;

/// The parties that a pattern can match, by the first octet of their address.
#[derive(Clone, Copy, Debug, PartialEq, Eq)]
pub enum Bucket {
    /// Those whose address begins with this octet, and no others.
    Octet(u8),
    /// Any.
    Every,
}

// Whether a zero stands before other bytes.
fn is_padded(text: &[u8]) -> bool
    ensures { result ≡ is_padded text.now }
{
    text.len() > 1 && text[0] == b'0'
}

// The octet whose decimal the text is, which is the text of a number.
#[tactic(auto, using(crate::proofs::BucketLemmas::padded, crate::proofs::BucketLemmas::unpadded, crate::proofs::BucketLemmas::too_large))]
fn octet_written(text: &[u8], number: u64) -> Option<u8>
    requires { number_of text.now ≡ Some number }
    ensures { result ≡ octet_of text.now }
{
    if number > 255 {
        return None;
    }
    if is_padded(text) {
        return None;
    }
    Some(number as u8)
}

// The octet whose decimal the text is.
#[tactic(auto, using(crate::proofs::BucketLemmas::no_number))]
fn read_octet(text: &[u8]) -> Option<u8>
    ensures { result ≡ octet_of text.now }
{
    match read_number(text) {
        Some(number) => octet_written(text, number),
        None => None,
    }
}

// The place of the first period.
fn first_period(body: &[u8]) -> Option<usize>
    ensures { result ≡ position (λ b. b == 46) body.now }
{
    body.iter().position(|byte| *byte == b'.')
}

// The octet whose decimal stands before the first period.
fn octet_before(body: &[u8]) -> Option<u8>
    ensures { result ≡ octet_before (position (λ b. b == 46) body.now) body.now }
{
    match first_period(body) {
        Some(at) => read_octet(&body[..at]),
        None => None,
    }
}

// The first octet of the address, where the mask begins with 255.
fn octet_masked(masked: Option<Masked>) -> Option<u8>
    ensures { result ≡ octet_masked masked }
{
    let Masked { address, mask } = masked?;
    if mask[0] == 255 {
        Some(address[0])
    } else {
        None
    }
}

// The octet with which the addresses begin that the body can match.
fn octet_of_body(body: &[u8]) -> Option<u8>
    ensures { result ≡ octet_of_body body.now }
{
    if is_for_addresses(body) {
        octet_before(body)
    } else {
        octet_masked(masked_of(body))
    }
}

// The bucket to which a body belongs.
#[tactic(auto, unfolding(crate::specs::Bucket::bucket_of))]
pub(crate) fn bucket_of(body: &[u8]) -> Bucket
    ensures { result ≡ bucket_of body.now }
{
    match octet_of_body(body) {
        Some(octet) => Bucket::Octet(octet),
        None => Bucket::Every,
    }
}
