//! Asks one loaded table for many verdicts, by its rules or by a scan of all its lines, and tells what they come to.
//! `bench/table` measures how long that takes.
//!
//! The words `WAY TABLE LABEL ADDRESSES ROUNDS` load the table for the label of a daemon, and ask for each address of
//! the other file, one a line, so many times over. WAY is `rules` or `scan`.

ghost use Rattle.std.specs.Prelude.{◌≡◌, ◌<◌};

mod scan;
mod tally;

use fw_outside::Files;
use fw_real::Paths;
use fw_types::{Peer, read_quad};
use gate_rules::{Rules, Service, Verdict};
use host_pattern::Steps;
use netperm_table::Table;
use scan::Scan;
use std::fs;
use std::io::{self, ErrorKind};
use std::marker::Brand;
use std::sync::ledger::{Blank, Ledger};
use tally::Tally;

fn failure() -> io::Error {
    io::Error::from(ErrorKind::InvalidInput)
}

fn verdict_by<L: Ledger>(rules: &Rules, peer: &Peer, blank: Blank) -> Verdict
    requires name { blank.name ≡ L.name }
    requires parts { blank.parts ≡ L.parts }
    requires some { 0 < blank.parts }
{
    let mut steps = Steps::<L>::new(blank);
    rules.verdict(peer, &mut steps)
}

fn verdict(rules: &Rules, peer: &Peer) -> Verdict {
    verdict_by::<Brand>(rules, peer, Blank::new(1))
}

// The table in a file, read as `netacl` reads it.
fn read_table(rt: &HostRuntime, name: &str) -> io::Result<Table> {
    let mut files = Paths::new(*rt);
    let Some(mut source) = files.source(name.as_bytes()) else {
        return Err(failure());
    };
    match Table::read(rt.alloc(), &mut source) {
        Ok(table) => Ok(table),
        Err(_) => Err(failure()),
    }
}

// The peers with the addresses of a file.
fn read_peers(rt: &HostRuntime, name: &str) -> io::Result<Vec<Peer>> {
    let text = fs::read_to_string(rt, name)?;
    let mut peers = Vec::new(rt.alloc());
    for line in text.lines() {
        let addr = read_quad(line.as_bytes());
        peers.push(Peer { addr, name: None })?;
    }
    Ok(peers)
}

fn ask_rules(rules: &Rules, peers: &[Peer], rounds: u64, tally: &mut Tally) {
    for _ in 0..rounds {
        for peer in peers {
            tally.add(verdict(rules, peer));
        }
    }
}

fn ask_scan(scan: &Scan, peers: &[Peer], rounds: u64, tally: &mut Tally) {
    for _ in 0..rounds {
        for peer in peers {
            tally.add(scan.verdict(peer));
        }
    }
}

fn load_rules(rt: &HostRuntime, table: &Table, label: &str) -> io::Result<Rules> {
    let name = format!(in rt.alloc(); "netacl-{label}")?;
    let Some(service) = Service::read(name.as_bytes()) else {
        return Err(failure());
    };
    match Rules::of(rt.alloc(), table, &service) {
        Ok(rules) => Ok(rules),
        Err(_) => Err(failure()),
    }
}

/// Asks for verdicts, and prints what they come to. The words are the way, the table's file, the label of a daemon, the file of
/// addresses, and how many rounds.
///
/// # Errors
///
/// `InvalidInput` for other words, and for a table that can't be read; what standard output answers, or the other file.
pub(crate) fn ask_by_words(rt: &HostRuntime, words: &[String]) -> io::Result<()> {
    let [way, table, label, addresses, rounds] = words else {
        return Err(failure());
    };
    let table = read_table(rt, table.as_str())?;
    let peers = read_peers(rt, addresses.as_str())?;
    let rounds: u64 = rounds.parse().ok().ok_or(failure())?;
    let mut tally = Tally::new();
    match way.as_str() {
        "rules" => {
            let rules = load_rules(rt, &table, label.as_str())?;
            ask_rules(&rules, &peers, rounds, &mut tally);
        }
        "scan" => {
            let scan = Scan::of(rt.alloc(), &table).ok_or(failure())?;
            ask_scan(&scan, &peers, rounds, &mut tally);
        }
        _ => return Err(failure()),
    }
    tally.tell(rt)
}
