//! Verdicts of generated tables, taken by the rules and by a plain scan of all lines.

use crate::decisions::{rules_of, verdict};
use crate::patterns::{list_says, party_of};
use fw_types::{NoMemory, Octets, Peer, read_number};
use gate_rules::{Rules, Verdict};
use host_pattern::{PatternList, Word};
use lines_of_rows::{Told, add, add_number, add_word, cut_word};
use std::alloc::Global;

const PEERS: u64 = 16;

/// A generated line: whether it permits, and whom.
#[derive(Drop)]
struct Ruled {
    permits: bool,
    hosts: PatternList,
}

/// A generated table: its text, and its lines.
#[derive(Drop)]
struct Generated {
    text: Vec<u8>,
    lines: Vec<Ruled>,
}

// The next of a row of numbers that look drawn.
fn drawn(seed: &mut u64) -> u64 {
    *seed = seed
        .wrapping_mul(6364136223846793005)
        .wrapping_add(1442695040888963407);
    *seed >> 33
}

fn pattern_at(number: u64) -> &'static [u8] {
    match number % 30 {
        0 => b"10.*",
        1 => b"11.*",
        2 => b"!10.0.*",
        3 => b"10.0.0.5",
        4 => b"!11.0.0.1",
        5 => b"1*",
        6 => b"!1*.7",
        7 => b"*.5",
        8 => b"10*",
        9 => b"*",
        10 => b"unknown",
        11 => b"!unknown",
        12 => b"10.relay.org",
        13 => b"*.tis.com",
        14 => b"!*.org",
        15 => b"192.33.112.*",
        16 => b"!192.33.*.7",
        17 => b"255.*.*.255",
        18 => b"0.0.0.*",
        19 => b"010.*",
        20 => b"256.*",
        21 => b"10.",
        22 => b".10.*",
        23 => b"10.0.0.0:255.0.0.0",
        24 => b"!10.1.0.0:255.255.0.0",
        25 => b"10.0.0.1:254.0.0.0",
        26 => b"0.0.0.0:0.0.0.0",
        27 => b"!192.33.112.9:255.0.255.0",
        28 => b"0.0.0.5:0.0.0.255",
        _ => b"relay.tis.com",
    }
}

fn peer_at(number: u64) -> Peer {
    match number {
        0 => party_of(b"10.0.0.5", b"-"),
        1 => party_of(b"10.0.0.5", b"relay.tis.com"),
        2 => party_of(b"10.1.0.7", b"10.relay.org"),
        3 => party_of(b"11.0.0.1", b"-"),
        4 => party_of(b"11.0.0.5", b"b.org"),
        5 => party_of(b"1.0.0.7", b"-"),
        6 => party_of(b"100.0.0.5", b"-"),
        7 => party_of(b"192.33.112.7", b"10.relay.org"),
        8 => party_of(b"192.33.1.9", b"-"),
        9 => party_of(b"255.1.1.255", b"-"),
        10 => party_of(b"0.0.0.0", b"-"),
        11 => party_of(b"5.5.5.5", b"-"),
        12 => party_of(b"7.7.7.7", b"x.tis.com"),
        13 => party_of(b"-", b"relay.tis.com"),
        14 => party_of(b"-", b"10.relay.org"),
        _ => party_of(b"-", b"-"),
    }
}

// Adds a pattern to a line's words and to its text.
fn add_pattern(
    alloc: Global,
    text: &mut Vec<u8>,
    words: &mut Vec<Word>,
    seed: &mut u64,
) -> Result<(), NoMemory> {
    let pattern = pattern_at(drawn(seed));
    text.push(b' ')?;
    text.extend_from_slice(pattern)?;
    words.push(Word {
        text: Octets::copy(alloc, pattern)?,
        quoted: false,
    })?;
    Ok(())
}

impl Generated {
    // Adds a line of one to three patterns.
    fn add_line(&mut self, alloc: Global, seed: &mut u64) -> Result<(), NoMemory> {
        let permits = drawn(seed) % 2 == 0;
        let start: &[u8] = if permits {
            b"tn-gw: permit-hosts"
        } else {
            b"tn-gw: deny-hosts"
        };
        self.text.extend_from_slice(start)?;
        let mut words = Vec::new(alloc);
        for _ in 0..drawn(seed) % 3 + 1 {
            add_pattern(alloc, &mut self.text, &mut words, seed)?;
        }
        self.text.push(b'\n')?;
        match PatternList::parse(alloc, &words) {
            Ok(hosts) => self.lines.push(Ruled { permits, hosts })?,
            Err(_) => return Err(NoMemory),
        }
        Ok(())
    }

    fn of(alloc: Global, lines: u64, seed: u64) -> Result<Generated, NoMemory> {
        let mut seed = seed;
        let mut table = Generated {
            text: Vec::new(alloc),
            lines: Vec::new(alloc),
        };
        for _ in 0..lines {
            table.add_line(alloc, &mut seed)?;
        }
        Ok(table)
    }

    // What the first line decides whose list matches, where each is tried in turn.
    fn scanned(&self, peer: &Peer) -> Verdict {
        let mut line: u32 = 0;
        for ruled in &self.lines {
            line = line.wrapping_add(1);
            if list_says(&ruled.hosts, peer) {
                return if ruled.permits {
                    Verdict::Permit { line }
                } else {
                    Verdict::Deny { line }
                };
            }
        }
        Verdict::Deny { line: 0 }
    }

    // Tells of each peer whom the rules decide otherwise than a scan.
    fn tell_others(&self, rules: &Rules, out: &mut Told) {
        for number in 0..PEERS {
            let peer = peer_at(number);
            if verdict(rules, &peer) != self.scanned(&peer) {
                add_word(out, b"otherwise peer");
                add_number(out, number);
            }
        }
    }
}

/// `sweep LINES SEED => LINES lines`, and each peer whom the rules decide otherwise than a scan of the lines.
pub(crate) fn tell_sweep(alloc: Global, asked: &[u8], out: &mut Told) -> Result<(), NoMemory> {
    let (lines, seed) = cut_word(asked);
    let (Some(lines), Some(seed)) = (read_number(lines), read_number(seed)) else {
        add(out, b"no numbers");
        return Ok(());
    };
    let table = Generated::of(alloc, lines, seed)?;
    if let Some(rules) = rules_of(alloc, b"tn-gw", &table.text, out) {
        add_number(out, lines);
        add_word(out, b"lines");
        table.tell_others(&rules, out);
    }
    Ok(())
}
