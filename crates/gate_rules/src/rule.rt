ghost use Rattle.std.specs.Prelude.{◌≡◌};
ghost use Rattle.gate_rules.specs.Verdict.{decided_by};

use crate::{SharedOptions, Verdict};
use host_pattern::PatternList;

/// A line that permits or denies hosts.
#[derive(Drop)]
pub struct Rule {
    /// Its number in the table, counted from 1.
    pub line: u32,
    /// Whether it permits them.
    pub permits: bool,
    /// The hosts that it speaks of.
    pub hosts: PatternList,
    /// What else it says; nothing where it denies.
    pub options: SharedOptions,
}

impl Rule {
    /// What it decides where its host list matches.
    pub(crate) fn verdict(&self) -> Verdict
        ensures { result ≡ decided_by (Some self.now) }
    {
        if self.permits {
            Verdict::Permit { line: self.line }
        } else {
            Verdict::Deny { line: self.line }
        }
    }
}
