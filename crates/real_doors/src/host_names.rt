//! The names of hosts.
ghost use Rattle.std.specs.Prelude.{◌≡◌, ◌<◌, ◌≤◌, ◌∷◌, [], length, IfNone, IfSome};
ghost use Rattle.std.specs.List.{prefix_len, slice_split};
ghost use Rattle.real_doors.specs.HostNames.{before_hash, is_lf, is_no_hash, line_name, name_if, name_in};
ghost use Rattle.fw_types.specs.HostName.{host_name_of};
ghost use Rattle.fw_types.specs.Quad.{quad_of};

use authsrv_lines::next_word;
use fw_types::{HostName, Octets, read_quad};
use memchr::memchr;
use std::marker::Model;

/// The text of a hosts file: lines of an address and names of its host, of which the first one counts. `#` begins a comment.
#[derive(Drop)]
pub struct HostNames {
    text: Octets,
}

impl Model for HostNames {
    ghost use Rattle.std.specs.Prelude.{ℕ, List};

    ghost Value = { List ℕ };

    ghost view = { λ names. names.text };
}

// What stands before and behind the first LF.
fn cut(text: &[u8]) -> Option<(&[u8], &[u8])>
    ensures some { IfSome result (λ p. slice_split is_lf text.now ≡ p.0.now ∷ slice_split is_lf p.1.now) }
    ensures shorter { IfSome result (λ p. length p.1.now < length text.now) }
    ensures none { IfNone result (slice_split is_lf text.now ≡ text.now ∷ []) }
{
    let at = memchr(b'\n', text)?;
    Some((&text[..at], &text[at + 1..]))
}

fn count_to_hash(line: &[u8]) -> usize
    ensures count { result ≡ prefix_len is_no_hash line.now }
    ensures within { result ≤ length line.now }
{
    line.iter().take_while(|byte| **byte != b'#').count()
}

// What stands before the comment.
fn before_hash(line: &[u8]) -> &[u8]
    ensures { result.now ≡ before_hash line.now }
{
    line.split_at(count_to_hash(line)).0
}

// The name, where the quad is this address.
fn name_if(host: [u8; 4], quad: &[u8], name: &[u8]) -> Option<HostName>
    ensures { result ≡ name_if host (quad_of quad.now) (host_name_of name.now) }
{
    match read_quad(quad) {
        Some(found) if found == host => HostName::read(name),
        _ => None,
    }
}

// The name that a line gives this address.
fn line_name(host: [u8; 4], line: &[u8]) -> Option<HostName>
    ensures { result ≡ line_name host line.now }
{
    let (quad, rest) = next_word(before_hash(line))?;
    let (name, _) = next_word(rest)?;
    name_if(host, quad, name)
}

// The name that the first line which gives this address one gives it.
#[tactic(auto, using(crate::proofs::HostNameLemmas::names_later, crate::proofs::HostNameLemmas::names_here, crate::proofs::HostNameLemmas::names_last), unfolding(crate::specs::HostNames::name_in))]
fn name_in(host: [u8; 4], text: &[u8]) -> Option<HostName>
    ensures { result ≡ name_in host text.now }
{
    let mut rest = text;
    while let Some((line, later)) = cut(rest) {
        if let Some(name) = line_name(host, line) {
            return Some(name);
        }
        rest = later;
    }
    line_name(host, rest)
}

impl HostNames {
    /// The names that stand in the text of a hosts file.
    pub fn of(text: Octets) -> HostNames
        ensures { result ≡ text }
    {
        HostNames { text }
    }

    /// The name of the host at this address, where one stands in the file.
    pub fn name_of(&self, host: [u8; 4]) -> Option<HostName>
        ensures { result ≡ name_in host self.now }
    {
        name_in(host, self.text.bytes())
    }
}
