//! Reading the lines about operations, and what they decide.
ghost use Rattle.std.specs.Prelude.{◌≡◌, ◌<◌, List, ◌∷◌, filter, IfOk};
ghost use Rattle.fw_types.specs.Dest.{party_at};
ghost use Rattle.gate_rules.specs.Hours.{is_open};
ghost use Rattle.auth_machine.specs.declared.operation.OperationLine.{OperationLine};
ghost use Rattle.auth_machine.specs.Operations.{first_decides, fits, holder_of, is_about_user, is_through, is_whose, line_by, operation_line_with, operation_line, operation_lines, operation_verdict, line_service_of, service_place};

use crate::operation::{Holder, OperationLine};
use auth_events::OpService;
use fw_types::{Dest, Host, Name, NoMemory, Peer};
use gate_rules::{Hours, Verdict, hosts_of_operation, hours_of_operation};
use host_pattern::{PatternList, Steps, Word};
use netperm_table::Line;
use std::alloc::Global;
use std::marker::Brand;
use std::sync::ledger::{Blank, Ledger};

fn holder_of(text: &[u8]) -> Holder
    ensures { result ≡ holder_of text.now }
{
    if text == b"group".as_slice() {
        Holder::Group
    } else {
        Holder::User
    }
}

fn line_service_of(text: &[u8]) -> Option<OpService>
    ensures { result ≡ line_service_of text.now }
{
    if text == b"tn-gw".as_slice() {
        return Some(OpService::Telnet);
    }
    if text == b"rlogin-gw".as_slice() {
        return Some(OpService::Rlogin);
    }
    if text == b"ftp-gw".as_slice() {
        return Some(OpService::Ftp);
    }
    None
}

// The line with these words, this host list and these hours.
fn operation_line_with(
    number: u32,
    permits: bool,
    words: &[Word],
    hosts: PatternList,
    hours: Option<Hours>,
) -> Option<OperationLine>
    ensures { result ≡ operation_line_with number permits words.now hosts hours }
{
    match words {
        [holder, name, service, ..] => Some(OperationLine {
            number,
            permits,
            holder: holder_of(holder.text.bytes()),
            name: Name::read(name.text.bytes()),
            service: line_service_of(service.text.bytes()),
            hosts,
            hours,
        }),
        _ => None,
    }
}

// What a line with these words says, where it has a host list.
fn line_by(
    number: u32,
    permits: bool,
    words: &[Word],
    hosts: Option<PatternList>,
    hours: Option<Hours>,
) -> Option<OperationLine>
    ensures { result ≡ line_by number permits words.now hosts hours }
{
    match hosts {
        Some(hosts) => operation_line_with(number, permits, words, hosts, hours),
        None => None,
    }
}

// What a line says of operations, where it does.
fn operation_line(alloc: Global, line: &Line) -> Result<Option<OperationLine>, NoMemory>
    ensures { IfOk result (λ said. said ≡ operation_line line.now) }
{
    let hosts = hosts_of_operation(alloc, line)?;
    let hours = hours_of_operation(line);
    let permits = line.attribute.bytes() == b"permit-operation".as_slice();
    Ok(line_by(line.number, permits, line.words.as_slice(), hosts, hours))
}

// The lines about operations, in order.
pub(crate) fn operation_lines(alloc: Global, lines: &[Line]) -> Result<Vec<OperationLine>, NoMemory>
    ensures { IfOk result (λ said. said.items ≡ operation_lines lines.now) }
{
    let mut said = Vec::new(alloc);
    for line in lines {
        if let Some(operation) = operation_line(alloc, line)? {
            said.push(operation)?;
        }
    }
    Ok(said)
}

fn is_about_user(holder: Holder, name: &Name, user: &Name, group: &Option<Name>) -> bool
    ensures { result ≡ is_about_user holder name.now user.now group.now }
{
    match holder {
        Holder::User => name.text() == user.text(),
        Holder::Group => match group {
            Some(its) => name.text() == its.text(),
            None => false,
        },
    }
}

fn is_whose(holder: Holder, name: &Option<Name>, user: &Name, group: &Option<Name>) -> bool
    ensures { result ≡ is_whose holder name.now user.now group.now }
{
    match name {
        Some(name) => is_about_user(holder, name, user, group),
        None => true,
    }
}

fn service_place(service: OpService) -> u8
    ensures { result ≡ service_place service }
{
    match service {
        OpService::Telnet => 0,
        OpService::Rlogin => 1,
        OpService::Ftp => 2,
    }
}

fn is_through(one: Option<OpService>, service: OpService) -> bool
    ensures { result ≡ is_through one service }
{
    match one {
        Some(one) => service_place(one) == service_place(service),
        None => true,
    }
}

fn is_open(hours: &Option<Hours>, moment: u64) -> bool
    ensures { result ≡ is_open hours.now moment }
{
    match hours {
        Some(hours) => hours.is_open(moment),
        None => true,
    }
}

// Whether the line fits user, group, service and destination, and is open.
fn fits<L: Ledger>(
    line: &OperationLine,
    user: &Name,
    group: &Option<Name>,
    service: OpService,
    party: &Peer,
    moment: u64,
    steps: &mut Steps<L>,
) -> bool
    ensures { result ≡ fits user.now group.now service party.now moment line.now }
{
    is_whose(line.holder, &line.name, user, group)
        && is_through(line.service, service)
        && line.hosts.matches(party, steps)
        && is_open(&line.hours, moment)
}

// What a line decides where it is the first that fits.
fn verdict_by(line: &OperationLine) -> Verdict
    ensures { (lines : List OperationLine) → result ≡ first_decides (line.now ∷ lines) }
{
    if line.permits {
        Verdict::Permit { line: line.number }
    } else {
        Verdict::Deny { line: line.number }
    }
}

// What the first line that fits decides.
fn verdict_in<L: Ledger>(
    blank: Blank,
    lines: &[OperationLine],
    user: &Name,
    group: &Option<Name>,
    service: OpService,
    party: &Peer,
    moment: u64,
) -> Verdict
    requires name { blank.name ≡ L.name }
    requires parts { blank.parts ≡ L.parts }
    requires some { 0 < blank.parts }
    ensures { result ≡ first_decides (filter (fits user.now group.now service party.now moment) lines.now) }
{
    let mut steps = Steps::<L>::new(blank);
    for line in lines {
        if fits(line, user, group, service, party, moment, &mut steps) {
            return verdict_by(line);
        }
    }
    Verdict::Deny { line: 0 }
}

// The party that patterns are tested against.
fn party_at(host: &Host) -> Peer
    ensures { result ≡ party_at host.now }
{
    let dest = Dest {
        host: host.twin(),
        port: 0,
    };
    dest.party()
}

/// What the lines decide of an operation at this moment, in seconds.
#[tactic(auto, unfolding(crate::specs::Operations::operation_verdict))]
pub(crate) fn operation_verdict(
    lines: &[OperationLine],
    user: &Name,
    group: &Option<Name>,
    service: OpService,
    host: &Host,
    moment: u64,
) -> Verdict
    ensures { result ≡ operation_verdict lines.now user.now group.now service host.now moment }
{
    let party = party_at(host);
    verdict_in::<Brand>(Blank::new(1), lines, user, group, service, &party, moment)
}
