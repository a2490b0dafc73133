//! What the lines of a service say, kept as they are read.
ghost use Rattle.std.specs.Prelude.{◌≡◌, List, ◌∷◌, ◌++◌, Result, filter, IfOk, IfErr, OnOk};
ghost use Rattle.gate_rules.specs.declared.fault.RuleFault.{RuleFault};
ghost use Rattle.gate_rules.specs.Reading.{IsFaultIn, RuleBook, and_effect, book_of, is_of, everyone, last_rules, effect_of, effect_then, with_book};
ghost use Rattle.netperm_table.specs.declared.line.Line.{Line};

use crate::line_effect::LineEffect;
use crate::reading::{effect_of, is_of};
use crate::{Assigned, Rule, RuleFault, RulesFault, Service, SharedOptions};
use host_pattern::{Pattern, PatternList};
use netperm_table::Line;
use std::alloc::Global;
use std::marker::Model;

/// The rules of a service in the order of their lines, and its settings.
#[derive(Drop)]
pub(crate) struct Gathered {
    pub(crate) rules: Vec<Rule>,
    pub(crate) settings: Vec<Assigned>,
}

impl Model for Gathered {
    ghost use Rattle.gate_rules.specs.Reading.{RuleBook};

    ghost Value = { RuleBook };

    ghost view = { λ gathered. record { rules = gathered.rules.items; settings = gathered.settings.items } };
}

// The line that permits every host.
#[tactic(auto, using(crate::proofs::RulesLemmas::star_parsed))]
fn everyone(alloc: Global) -> Result<Rule, RulesFault>
    ensures ok { IfOk result (λ rule. rule ≡ everyone) }
    ensures fault { IfErr result (λ e. e ≡ RulesFault.NoMemory) }
{
    let Ok(star) = Pattern::parse(b"*") else {
        unreachable!();
    };
    Ok(Rule {
        line: 0,
        permits: true,
        hosts: PatternList::of(alloc, &star)?,
        options: SharedOptions::none(),
    })
}

impl Gathered {
    // What the lines with the keyword say to a service.
    pub(crate) fn effect_at(
        alloc: Global,
        lines: &[Line],
        service: &Service,
        key: &[u8],
    ) -> Result<Gathered, RulesFault>
        ensures ok { IfOk result (λ gathered. book_of service.now (filter (is_of key.now) lines.now) ≡ Ok gathered) }
        ensures fault { IfErr result (IsFaultIn (book_of service.now (filter (is_of key.now) lines.now))) }
    {
        let mut gathered = Gathered {
            rules: Vec::new(alloc),
            settings: Vec::new(alloc),
        };
        for line in lines {
            gathered.add_line(alloc, line, service, key)?;
        }
        Ok(gathered)
    }

    // Adds what the line says, where it has the keyword.
    fn add_line(
        &mut self,
        alloc: Global,
        line: &Line,
        service: &Service,
        key: &[u8],
    ) -> Result<(), RulesFault>
        ensures ok { OnOk result ((lines : List Line) →
            with_book self.new (book_of service.now (filter (is_of key.now) lines))
            ≡ with_book self.old (book_of service.now (filter (is_of key.now) (line.now ∷ lines)))) }
        ensures fault { IfErr result (λ e. (lines : List Line) →
            IsFaultIn (with_book self.old (book_of service.now (filter (is_of key.now) (line.now ∷ lines)))) e) }
    {
        if !is_of(line, key) {
            return Ok(());
        }
        self.add_ours(alloc, line, service)
    }

    // Adds what a line of the service says.
    fn add_ours(&mut self, alloc: Global, line: &Line, service: &Service) -> Result<(), RulesFault>
        ensures ok { OnOk result ((more : Result RuleBook RuleFault) →
            with_book self.new more ≡ with_book self.old (effect_then line.now.number (effect_of service.now line.now)
            more)) }
        ensures fault { IfErr result (λ e. (more : Result RuleBook RuleFault) →
            IsFaultIn (with_book self.old (effect_then line.now.number (effect_of service.now line.now) more)) e) }
    {
        match effect_of(alloc, service, line)? {
            Ok(effect) => self.add(effect),
            Err(why) => Err(RulesFault::Rule(RuleFault {
                line: line.number,
                why,
            })),
        }
    }

    // Adds what a line says.
    fn add(&mut self, effect: LineEffect) -> Result<(), RulesFault>
        ensures ok { OnOk result (self.new ≡ and_effect self.old effect) }
        ensures fault { IfErr result (λ e. e ≡ RulesFault.NoMemory) }
    {
        match effect {
            LineEffect::Nothing => (),
            LineEffect::Ruled(rule) => self.rules.push(rule)?,
            LineEffect::Set(assigned) => self.settings.push(assigned)?,
        }
        Ok(())
    }

    // Adds the line that permits every host, where there is to be one.
    pub(crate) fn close(&mut self, alloc: Global, for_all: bool) -> Result<(), RulesFault>
        ensures ok { OnOk result (self.new ≡ record self.old { rules = self.old.rules ++ last_rules for_all }) }
        ensures fault { IfErr result (λ e. e ≡ RulesFault.NoMemory) }
    {
        if for_all {
            self.rules.push(everyone(alloc)?)?;
        }
        Ok(())
    }
}
