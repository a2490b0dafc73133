ghost use Rattle.std.specs.Prelude.{◌≡◌, ◌+◌, ◌≤◌, ◌==◌, ◌&&◌, filter, find, is_ok, IfOk, IfErr, IsTrue};
ghost use Rattle.std.specs.Option.{option_copied};
ghost use Rattle.gate_rules.specs.Bucket.{bucket};
ghost use Rattle.gate_rules.specs.Reading.{IsFaultIn, book_of, closed, is_of, last_rules, rules_of};
ghost use Rattle.gate_rules.specs.Service.{is_smap};
ghost use Rattle.gate_rules.specs.Settings.{is_same};
ghost use Rattle.gate_rules.specs.Verdict.{options_at, pattern_count, setting_of, verdict_of, verdict_steps};

use crate::gathered::Gathered;
use crate::index::Index;
use crate::line_fault::first_fault;
use crate::merging::verdict_by;
use crate::setting::is_same;
use crate::{Options, Rule, RulesFault, Service, Setting, Verdict};
use arrayvec::ArrayVec;
use fw_types::{NoMemory, Peer};
use host_pattern::Steps;
use netperm_table::{Line, Table};
use std::alloc::Global;
use std::marker::Model;
use std::sync::ledger::Ledger;

/// What a table says to a service: its rules in the order of their lines, and its settings.
#[derive(Drop)]
pub struct Rules {
    gathered: Gathered,
    index: Index,
    none: Options,
}

impl Model for Rules {
    ghost use Rattle.std.specs.Prelude.{◌≡◌};
    ghost use Rattle.gate_rules.specs.Index.{IsIndex};
    ghost use Rattle.gate_rules.specs.Options.{no_options};
    ghost use Rattle.gate_rules.specs.Reading.{RuleBook};

    ghost Value = { RuleBook };

    ghost view = { λ rules. rules.gathered };

    ghost invariant = { λ rules. (rules.none ≡ no_options)
        × IsIndex rules.gathered.rules rules.index.every rules.index.own.items };
}

// The permit line with this number.
fn permit_line(rules: &[Rule], line: u32) -> Option<&Rule>
    ensures { option_copied result ≡ find (λ rule. rule.permits && rule.line == line) rules.entry.now }
{
    rules.iter().find(|rule| rule.permits && rule.line == line)
}

// Why there are no rules where memory ran out: the fault of the lines with the keyword, if they have one.
#[tactic(auto, using(crate::proofs::RulesLemmas::closed_fault, crate::proofs::RulesLemmas::closed_ok))]
fn cause_of_none(lines: &[Line], service: &Service, key: &[u8]) -> RulesFault
    ensures fault { IsFaultIn (closed (last_rules (is_smap service.now))
        (book_of service.now (filter (is_of key.now) lines.now))) result }
    ensures memory { result ≡ RulesFault.NoMemory →
        IsTrue (is_ok (closed (last_rules (is_smap service.now))
        (book_of service.now (filter (is_of key.now) lines.now)))) }
{
    match first_fault(lines, service, key) {
        Some(fault) => RulesFault::Rule(fault),
        None => RulesFault::NoMemory,
    }
}

impl Rules {
    /// What the table says to a service.
    ///
    /// # Errors
    ///
    /// `Rule` with the first line of the service that can't be read, and the cause of its leftmost bad word. Or
    /// `NoMemory`, only where each of the service's lines can be read.
    pub fn of(alloc: Global, table: &Table, service: &Service) -> Result<Rules, RulesFault>
        ensures ok { IfOk result (λ rules. rules_of service.now table.now ≡ Ok rules) }
        ensures fault { IfErr result (IsFaultIn (rules_of service.now table.now)) }
        ensures memory { IfErr result (λ e. e ≡ RulesFault.NoMemory →
            IsTrue (is_ok (rules_of service.now table.now))) }
    {
        let mut key = ArrayVec::new();
        service.write_keyword(&mut key);
        match Rules::read(alloc, table.lines(), service, key.as_slice()) {
            Ok(rules) => Ok(rules),
            Err(RulesFault::Rule(fault)) => Err(RulesFault::Rule(fault)),
            Err(RulesFault::NoMemory) => Err(cause_of_none(table.lines(), service, key.as_slice())),
        }
    }

    // What the lines with the keyword say to a service, with their index.
    #[tactic(auto, using(crate::proofs::RulesLemmas::closed_too))]
    fn read(
        alloc: Global,
        lines: &[Line],
        service: &Service,
        key: &[u8],
    ) -> Result<Rules, RulesFault>
        ensures ok { IfOk result (λ rules. closed (last_rules (is_smap service.now))
            (book_of service.now (filter (is_of key.now) lines.now)) ≡ Ok rules) }
        ensures fault { IfErr result (IsFaultIn (closed (last_rules (is_smap service.now))
            (book_of service.now (filter (is_of key.now) lines.now)))) }
    {
        let mut gathered = Gathered::effect_at(alloc, lines, service, key)?;
        gathered.close(alloc, service.is_smap())?;
        Ok(Rules::indexed(alloc, gathered)?)
    }

    // The rules with their index.
    fn indexed(alloc: Global, gathered: Gathered) -> Result<Rules, NoMemory>
        ensures { IfOk result (λ rules. rules ≡ gathered) }
    {
        let index = Index::of(alloc, &gathered.rules)?;
        Ok(Rules {
            gathered,
            index,
            none: Options::none(alloc),
        })
    }

    /// What they decide of a peer: the first whose host list matches decides, and none denies by line 0. It takes no
    /// memory. It tries the rules of the peer's bucket alone, and makes one step a pattern: of each of them up to that
    /// one, those up to the first whose body matches.
    #[tactic(auto, unfolding(crate::specs::Verdict::verdict_of))]
    pub fn verdict<L: Ledger>(&self, peer: &Peer, steps: &mut Steps<L>) -> Verdict
        ensures answer { result ≡ verdict_of self.now peer.now }
        ensures steps { steps.new ≡ steps.old + verdict_steps self.now peer.now }
        ensures bound { steps.new ≤ steps.old + pattern_count (bucket peer.now self.now.rules) }
    {
        verdict_by(&self.gathered.rules, &self.index, peer, steps)
    }

    /// The options of the permit line with this number, or nothing where there is no such line.
    pub fn options(&self, line: u32) -> Option<&Options>
        ensures { option_copied result ≡ options_at self.entry.now line }
    {
        match permit_line(&self.gathered.rules, line) {
            Some(rule) => Some(rule.options.get(&self.none)),
            None => None,
        }
    }

    /// The value of a setting and the number of the first line that sets it, or nothing where none does.
    pub fn setting(&self, which: Setting) -> Option<(u64, u32)>
        ensures { result ≡ setting_of self.now which }
    {
        self.gathered
            .settings
            .iter()
            .find(|assigned| is_same(assigned.which, which))
            .map(|assigned| (assigned.value, assigned.line))
    }
}
