//! Where the rules stand that may match a peer, by the first octet of its address.
ghost use Rattle.std.specs.Prelude.{◌≡◌, ◌<◌, ◌==◌, ℕ, List, [], ◌∷◌, ◌++◌, get_or, length, IfOk, OnOk};
ghost use Rattle.std.specs.List.{list_any};
ghost use Rattle.gate_rules.specs.declared.rule.Rule.{Rule};
ghost use Rattle.gate_rules.specs.Index.{IsIndex, ends_in, noted, noted_if};

use crate::Rule;
use fw_types::NoMemory;
use std::alloc::Global;
use std::marker::Model;

/// The places of rules, from 0, in ascending order.
#[derive(Drop)]
pub(crate) struct Places {
    places: Vec<usize>,
}

impl Model for Places {
    ghost use Rattle.std.specs.Prelude.{ℕ, List};

    ghost Value = { List ℕ };

    ghost view = { λ places. places.places.items };
}

/// Where the rules of each bucket stand: those that stand in every bucket, once for all, and of each octet those that
/// stand in its bucket besides.
#[derive(Drop)]
pub(crate) struct Index {
    every: Places,
    own: Vec<Places>,
}

fn ends_in(places: &[usize], at: usize) -> bool
    ensures { result ≡ ends_in at places.now }
{
    !places.is_empty() && places[places.len() - 1] == at
}

impl Places {
    fn none(alloc: Global) -> Places
        ensures { result ≡ [] }
    {
        Places {
            places: Vec::new(alloc),
        }
    }

    pub(crate) fn as_slice(&self) -> &[usize]
        ensures { result.now ≡ self.now }
    {
        self.places.as_slice()
    }

    fn add(&mut self, at: usize) -> Result<(), NoMemory>
        ensures { OnOk result (self.new ≡ self.old ++ at ∷ []) }
    {
        self.places.push(at)?;
        Ok(())
    }

    // Adds a place, but where it is already the last.
    fn note(&mut self, at: usize) -> Result<(), NoMemory>
        ensures { OnOk result (self.new ≡ noted at self.old) }
    {
        if ends_in(self.as_slice(), at) {
            return Ok(());
        }
        self.add(at)
    }
}

// No places for any octet.
fn none_of_each(alloc: Global) -> Result<Vec<Places>, NoMemory>
    ensures count { IfOk result (λ own. length own.items ≡ 256) }
    ensures none { IfOk result (λ own. (octet : ℕ) → get_or own.items octet [] ≡ []) }
{
    let mut own = Vec::new(alloc);
    for _octet in 0..256_usize {
        own.push(Places::none(alloc))?;
    }
    Ok(own)
}

// Notes a place for an octet.
fn note(own: &mut Vec<Places>, octet: u8, at: usize) -> Result<(), NoMemory>
    requires { length own.old.items ≡ 256 }
    ensures count { length own.new.items ≡ 256 }
    ensures noted { OnOk result ((other : ℕ) → other < 256 →
        get_or own.new.items other [] ≡ noted_if (octet == other) at (get_or own.old.items other [])) }
{
    own[usize::from(octet)].note(at)
}

// Notes a place for each of the octets.
fn note_each(own: &mut Vec<Places>, octets: &[u8], at: usize) -> Result<(), NoMemory>
    requires { length own.old.items ≡ 256 }
    ensures count { length own.new.items ≡ 256 }
    ensures noted { OnOk result ((other : ℕ) → other < 256 →
        get_or own.new.items other []
        ≡ noted_if (list_any (λ octet. octet == other) octets.now) at (get_or own.old.items other [])) }
{
    for octet in octets {
        note(own, *octet, at)?;
    }
    Ok(())
}

impl Index {
    /// The index of these rules.
    pub(crate) fn of(alloc: Global, rules: &[Rule]) -> Result<Index, NoMemory>
        ensures { IfOk result (λ index. IsIndex rules.now index.every index.own.items) }
    {
        let mut index = Index {
            every: Places::none(alloc),
            own: none_of_each(alloc)?,
        };
        for (at, rule) in rules.iter().enumerate() {
            index.add(at, rule)?;
        }
        Ok(index)
    }

    // Adds the rule behind those that it has.
    fn add(&mut self, at: usize, rule: &Rule) -> Result<(), NoMemory>
        requires { length self.old.own.items ≡ 256 }
        ensures { OnOk result ((rules : List Rule) → length rules ≡ at →
            IsIndex rules self.old.every self.old.own.items
            → IsIndex (rules ++ rule.now ∷ []) self.new.every self.new.own.items) }
    {
        match rule.hosts.octets() {
            None => self.every.add(at),
            Some(octets) => note_each(&mut self.own, octets.as_slice(), at),
        }
    }

    /// The places of the rules that stand in every bucket.
    pub(crate) fn every(&self) -> &[usize]
        ensures { result.now ≡ self.now.every }
    {
        self.every.as_slice()
    }

    /// The places of those that stand in the octet's own.
    pub(crate) fn own(&self, octet: u8) -> &[usize]
        requires { length self.now.own.items ≡ 256 }
        ensures { result.now ≡ get_or self.now.own.items octet [] }
    {
        self.own[usize::from(octet)].as_slice()
    }
}
