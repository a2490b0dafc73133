//! The verdicts of a drill, and their counts.
ghost use Rattle.std.specs.Prelude.{◌≡◌, ◌≢◌, ◌<◌, ◌*◌, map, take, drop, length, IfErr, IfOk, Ok, Err};
ghost use Rattle.gate_rules.specs.Verdict.{verdict_of};
ghost use Rattle.drill_lines.specs.Draws.{lines_text, peers_of};
ghost use Rattle.drill_lines.specs.Drill.{drilled, rules_in, tallied};
ghost use Rattle.drill_lines.specs.declared.drill_fault.DrillFault.TheVariants as faults;

use crate::drawing::{draws, lines_of, peer_at};
use crate::reading::read_rules;
use crate::tally::tally_of;
use crate::{Drill, DrillFault, Tally};
use fw_types::{NoMemory, Peer};
use gate_rules::{Rules, Verdict};
use host_pattern::Steps;
use std::alloc::Global;
use std::marker::Brand;
use std::sync::ledger::{Blank, Ledger};

fn verdict_in<L: Ledger>(blank: Blank, rules: &Rules, peer: &Peer) -> Verdict
    requires name { blank.name ≡ L.name }
    requires parts { blank.parts ≡ L.parts }
    requires some { 0 < blank.parts }
    ensures { result ≡ verdict_of rules.now peer.now }
{
    rules.verdict(peer, &mut Steps::<L>::new(blank))
}

// The verdict, whose steps nobody counts.
fn verdict_of(rules: &Rules, peer: &Peer) -> Verdict
    ensures { result ≡ verdict_of rules.now peer.now }
{
    verdict_in::<Brand>(Blank::new(1), rules, peer)
}

// The verdicts of the peers of all draws, two for each.
#[tactic(auto, using(crate::proofs::DrawLemmas::one_verdict, crate::proofs::DrawLemmas::last_verdict))]
fn verdicts_of(alloc: Global, rules: &Rules, mut draws: &[u32]) -> Result<Vec<Verdict>, NoMemory>
    ensures { IfOk result (λ verdicts. verdicts.items ≡ map (verdict_of rules.now) (peers_of draws.entry.now)) }
{
    let mut verdicts = Vec::new(alloc);
    while let [q, s, more @ ..] = draws {
        verdicts.push(verdict_of(rules, &peer_at(*q, *s)))?;
        draws = more;
    }
    Ok(verdicts)
}

// The counts of the rules in a text over the peers of all draws.
fn count_in(alloc: Global, text: &[u8], draws: &[u32]) -> Result<Tally, DrillFault>
    ensures ok { IfOk result (λ tally. tallied (peers_of draws.now) (rules_in text.now) ≡ Ok tally) }
    ensures fault { IfErr result (λ e. e ≢ faults.NoMemory → tallied (peers_of draws.now) (rules_in text.now) ≡ Err e) }
{
    let rules = match read_rules(alloc, text) {
        Ok(rules) => rules,
        Err(fault) => return Err(fault),
    };
    match verdicts_of(alloc, &rules, draws) {
        Ok(verdicts) => Ok(tally_of(&verdicts)),
        Err(NoMemory) => Err(DrillFault::NoMemory),
    }
}

// The same of the lines of the first draws, over the peers of the others.
fn count_both(alloc: Global, first: &[u32], others: &[u32]) -> Result<Tally, DrillFault>
    ensures ok { IfOk result (λ tally. tallied (peers_of others.now) (rules_in (lines_text first.now)) ≡ Ok tally) }
    ensures fault { IfErr result (λ e. e ≢ faults.NoMemory →
        tallied (peers_of others.now) (rules_in (lines_text first.now)) ≡ Err e) }
{
    match lines_of(alloc, first) {
        Ok(text) => count_in(alloc, text.bytes(), others),
        Err(NoMemory) => Err(DrillFault::NoMemory),
    }
}

/// The counts of a drill: three draws for each line, and behind them two for each peer.
///
/// # Errors
///
/// The first line that can't be read, or `NoMemory`.
#[tactic(auto, unfolding(crate::specs::Drill::drilled))]
pub fn count_drill(alloc: Global, drill: Drill) -> Result<Tally, DrillFault>
    ensures ok { IfOk result (λ tally. drilled drill ≡ Ok tally) }
    ensures fault { IfErr result (λ e. e ≢ faults.NoMemory → drilled drill ≡ Err e) }
{
    let count = u64::from(drill.count);
    match draws(alloc, 5 * count, drill.start) {
        Ok(all) => {
            let (first, others) = all.split_at((3 * count) as usize);
            count_both(alloc, first, others)
        }
        Err(NoMemory) => Err(DrillFault::NoMemory),
    }
}
