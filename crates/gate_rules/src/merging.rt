//! The rules of a bucket, one after the other: those of every bucket and the octet's own, in the order of their lines.
ghost use Rattle.std.specs.Prelude.{◌≡◌, ◌+◌, ◌≤◌, [], None, Some, filter, find, IfSome, IfNone};
ghost use Rattle.gate_rules.specs.Bucket.{bucket, stands_in};
ghost use Rattle.gate_rules.specs.Index.{IsIndex, IsNext};
ghost use Rattle.gate_rules.specs.Verdict.{decided_by, pattern_count, rule_matches, rules_steps};

use crate::index::Index;
use crate::{Rule, Verdict};
use fw_types::Peer;
use host_pattern::Steps;
use std::sync::ledger::Ledger;

// The least of the places on two lists, and what is left of the lists.
#[derive(Drop)]
struct Next<'a> {
    at: usize,
    every: &'a [usize],
    own: &'a [usize],
}

fn next_of<'a>(every: &'a [usize], own: &'a [usize]) -> Option<Next<'a>>
    ensures some { IfSome result (λ next. IsNext every.now own.now next.at next.every.now next.own.now) }
    ensures none { IfNone result ((every.now ≡ []) × (own.now ≡ [])) }
{
    match (every, own) {
        ([], []) => None,
        ([at, later @ ..], []) => Some(Next {
            at: *at,
            every: later,
            own,
        }),
        ([], [at, later @ ..]) => Some(Next {
            at: *at,
            every,
            own: later,
        }),
        ([at, later @ ..], [other, ..]) if at < other => Some(Next {
            at: *at,
            every: later,
            own,
        }),
        (_, [at, later @ ..]) => Some(Next {
            at: *at,
            every,
            own: later,
        }),
    }
}

// What the first of the rules in an octet's bucket decides whose host list matches the peer.
fn verdict_among<L: Ledger>(
    rules: &[Rule],
    index: &Index,
    octet: u8,
    peer: &Peer,
    steps: &mut Steps<L>,
) -> Verdict
    requires { IsIndex rules.now index.now.every index.now.own.items }
    ensures answer { result ≡ decided_by (find (rule_matches peer.now) (filter (stands_in octet) rules.now)) }
    ensures steps { steps.new ≡ steps.old + rules_steps peer.now (filter (stands_in octet) rules.now) }
    ensures bound { steps.new ≤ steps.old + pattern_count (filter (stands_in octet) rules.now) }
{
    let mut every = index.every();
    let mut own = index.own(octet);
    while let Some(next) = next_of(every, own) {
        let tried = &rules[next.at];
        if tried.hosts.matches(peer, steps) {
            return tried.verdict();
        }
        every = next.every;
        own = next.own;
    }
    Verdict::Deny { line: 0 }
}

// What the first of the rules decides whose host list matches the peer.
fn verdict_in<L: Ledger>(rules: &[Rule], peer: &Peer, steps: &mut Steps<L>) -> Verdict
    ensures answer { result ≡ decided_by (find (rule_matches peer.now) rules.now) }
    ensures steps { steps.new ≡ steps.old + rules_steps peer.now rules.now }
    ensures bound { steps.new ≤ steps.old + pattern_count rules.now }
{
    for rule in rules {
        if rule.hosts.matches(peer, steps) {
            return rule.verdict();
        }
    }
    Verdict::Deny { line: 0 }
}

// What the first of the rules decides whose host list matches the peer, who has this address.
fn verdict_at<L: Ledger>(
    rules: &[Rule],
    index: &Index,
    addr: [u8; 4],
    peer: &Peer,
    steps: &mut Steps<L>,
) -> Verdict
    requires index { IsIndex rules.now index.now.every index.now.own.items }
    requires addr { peer.now.addr ≡ Some addr }
    ensures answer { result ≡ decided_by (find (rule_matches peer.now) rules.now) }
    ensures steps { steps.new ≡ steps.old + rules_steps peer.now (bucket peer.now rules.now) }
    ensures bound { steps.new ≤ steps.old + pattern_count (bucket peer.now rules.now) }
{
    let [octet, _, _, _] = addr;
    verdict_among(rules, index, octet, peer, steps)
}

// What the first of the rules decides whose host list matches the peer, who has no address.
fn verdict_of_all<L: Ledger>(rules: &[Rule], peer: &Peer, steps: &mut Steps<L>) -> Verdict
    requires { peer.now.addr ≡ None }
    ensures answer { result ≡ decided_by (find (rule_matches peer.now) rules.now) }
    ensures steps { steps.new ≡ steps.old + rules_steps peer.now (bucket peer.now rules.now) }
    ensures bound { steps.new ≤ steps.old + pattern_count (bucket peer.now rules.now) }
{
    verdict_in(rules, peer, steps)
}

/// What the first of the rules decides whose host list matches the peer. Of those outside the peer's bucket none does.
pub(crate) fn verdict_by<L: Ledger>(
    rules: &[Rule],
    index: &Index,
    peer: &Peer,
    steps: &mut Steps<L>,
) -> Verdict
    requires { IsIndex rules.now index.now.every index.now.own.items }
    ensures answer { result ≡ decided_by (find (rule_matches peer.now) rules.now) }
    ensures steps { steps.new ≡ steps.old + rules_steps peer.now (bucket peer.now rules.now) }
    ensures bound { steps.new ≤ steps.old + pattern_count (bucket peer.now rules.now) }
{
    match peer.addr {
        Some(addr) => verdict_at(rules, index, addr, peer, steps),
        None => verdict_of_all(rules, peer, steps),
    }
}
