//! What many verdicts come to.

use gate_rules::Verdict;
use std::io;

/// How many verdicts there were, how many of them permit, and the sum of the numbers of their lines.
#[derive(Drop)]
pub(crate) struct Tally {
    verdicts: u64,
    permits: u64,
    lines: u64,
}

impl Tally {
    pub(crate) fn new() -> Tally {
        Tally {
            verdicts: 0,
            permits: 0,
            lines: 0,
        }
    }

    pub(crate) fn add(&mut self, verdict: Verdict) {
        let (permits, line) = match verdict {
            Verdict::Permit { line } => (1, line),
            Verdict::Deny { line } => (0, line),
        };
        self.verdicts = self.verdicts.wrapping_add(1);
        self.permits = self.permits.wrapping_add(permits);
        self.lines = self.lines.wrapping_add(u64::from(line));
    }

    pub(crate) fn tell(&self, rt: &HostRuntime) -> io::Result<()> {
        let Tally {
            verdicts,
            permits,
            lines,
        } = self;
        println!(rt; "{verdicts} verdicts, {permits} permits, lines {lines}")
    }
}
