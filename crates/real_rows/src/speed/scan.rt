//! Verdicts by a scan: each line in order, until the list of one matches.
ghost use Rattle.std.specs.Prelude.{◌≡◌, ◌<◌};

use fw_types::Peer;
use gate_rules::Verdict;
use host_pattern::{PatternList, Steps};
use netperm_table::{Line, Table};
use std::alloc::Global;
use std::marker::Brand;
use std::sync::ledger::{Blank, Ledger};

// A line that permits or denies hosts, without its options.
#[derive(Drop)]
struct Entry {
    line: u32,
    permits: bool,
    hosts: PatternList,
}

/// The lines of a table, for whichever service, that permit or deny hosts.
#[derive(Drop)]
pub(crate) struct Scan {
    entries: Vec<Entry>,
}

fn matches_by<L: Ledger>(hosts: &PatternList, peer: &Peer, blank: Blank) -> bool
    requires name { blank.name ≡ L.name }
    requires parts { blank.parts ≡ L.parts }
    requires some { 0 < blank.parts }
{
    let mut steps = Steps::<L>::new(blank);
    hosts.matches(peer, &mut steps)
}

fn matches(hosts: &PatternList, peer: &Peer) -> bool {
    matches_by::<Brand>(hosts, peer, Blank::new(1))
}

// Whether a line permits, or nothing where it does neither.
fn permits(line: &Line) -> Option<bool> {
    let attribute = line.attribute.bytes();
    if attribute == b"permit-hosts".as_slice() {
        Some(true)
    } else if attribute == b"deny-hosts".as_slice() {
        Some(false)
    } else {
        None
    }
}

impl Scan {
    /// The lines of the table. Nothing where the hosts of one can't be read, or there is no memory.
    pub(crate) fn of(alloc: Global, table: &Table) -> Option<Scan> {
        let mut entries = Vec::new(alloc);
        for line in table.lines() {
            if let Some(permits) = permits(line) {
                let hosts = PatternList::parse(alloc, line.words.as_slice()).ok()?;
                let line = line.number;
                let entry = Entry {
                    line,
                    permits,
                    hosts,
                };
                entries.push(entry).ok()?;
            }
        }
        Some(Scan { entries })
    }

    /// What the first line decides whose list matches the peer.
    pub(crate) fn verdict(&self, peer: &Peer) -> Verdict {
        for entry in &self.entries {
            if matches(&entry.hosts, peer) {
                let line = entry.line;
                return if entry.permits {
                    Verdict::Permit { line }
                } else {
                    Verdict::Deny { line }
                };
            }
        }
        Verdict::Deny { line: 0 }
    }
}
