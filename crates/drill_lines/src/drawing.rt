//! The numbers that are drawn, and the lines and peers that they make.
ghost use Rattle.std.specs.Prelude.{◌≡◌, length, IfOk, ◌≤◌};
ghost use Rattle.drill_lines.specs.Draws.{attribute_text, draws, line_text, lines_text, next_number, peer_at};

use arrayvec::ArrayVec;
use fw_types::{NoMemory, Octets, Peer, append, append_u32};
use std::alloc::Global;

fn next_number(x: u32) -> u32
    ensures { result ≡ next_number x }
{
    ((u64::from(x) * 1_103_515_245 + 12_345) % 2_147_483_648) as u32
}

/// So many draws, from a number on.
#[tactic(auto, using(crate::proofs::DrawLemmas::one_draw, crate::proofs::DrawLemmas::last_draw, crate::proofs::DrawLemmas::all_drawn))]
pub(crate) fn draws(alloc: Global, count: u64, start: u32) -> Result<Vec<u32>, NoMemory>
    ensures draws { IfOk result (λ all. all.items ≡ draws count start) }
    ensures len { IfOk result (λ all. length all.items ≡ count) }
{
    let mut all = Vec::new(alloc);
    let mut x = start;
    let mut left = count;
    while left > 0 {
        x = next_number(x);
        all.push(x / 65_536)?;
        left -= 1;
    }
    Ok(all)
}

fn attribute(draw: u32) -> &'static [u8]
    ensures text { result.now ≡ attribute_text draw }
    ensures short { length result.now ≤ 12 }
{
    if draw % 2 == 0 {
        return b"permit-hosts";
    }
    b"deny-hosts"
}

// The line of three draws.
fn line_of(p: u32, q: u32, s: u32) -> ArrayVec<u8, 64>
    ensures { result.items ≡ line_text p q s }
{
    let mut out = ArrayVec::new();
    append(&mut out, b"tn-gw: ");
    append(&mut out, attribute(p));
    append(&mut out, b" ");
    append_u32(&mut out, 10 + q % 4);
    append(&mut out, b".");
    append_u32(&mut out, s % 8);
    append(&mut out, b".*\n");
    out
}

/// The lines of all draws, three for each.
#[tactic(auto, using(crate::proofs::DrawLemmas::one_line, crate::proofs::DrawLemmas::last_line))]
pub(crate) fn lines_of(alloc: Global, mut draws: &[u32]) -> Result<Octets, NoMemory>
    ensures { IfOk result (λ text. text ≡ lines_text draws.entry.now) }
{
    let mut out = Vec::new(alloc);
    while let [p, q, s, more @ ..] = draws {
        out.extend_from_slice(line_of(*p, *q, *s).as_slice())?;
        draws = more;
    }
    Ok(Octets::of(out))
}

/// The peer of two draws.
pub(crate) fn peer_at(q: u32, s: u32) -> Peer
    ensures { result ≡ peer_at q s }
{
    Peer {
        addr: Some([(10 + q % 4) as u8, (s % 8) as u8, 0, 1]),
        name: None,
    }
}
