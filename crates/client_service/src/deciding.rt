//! What the rules of a service decide.
ghost use Rattle.std.specs.Prelude.{◌≡◌, ◌<◌};
ghost use Rattle.gate_rules.specs.Verdict.{verdict_of};

use fw_types::Peer;
use gate_rules::{Rules, Verdict};
use host_pattern::Steps;
use std::marker::Brand;
use std::sync::ledger::{Blank, Ledger};

fn verdict_in<L: Ledger>(blank: Blank, rules: &Rules, peer: &Peer) -> Verdict
    requires name { blank.name ≡ L.name }
    requires parts { blank.parts ≡ L.parts }
    requires some { 0 < blank.parts }
    ensures { result ≡ verdict_of rules.now peer.now }
{
    rules.verdict(peer, &mut Steps::<L>::new(blank))
}

/// The verdict, whose steps nobody counts.
pub fn verdict_of(rules: &Rules, peer: &Peer) -> Verdict
    ensures { result ≡ verdict_of rules.now peer.now }
{
    verdict_in::<Brand>(Blank::new(1), rules, peer)
}
