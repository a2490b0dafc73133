//! Rows whose words are read and not run.

use arrayvec::ArrayVec;
use bastion::{
    Authorities, Caller, Command, GatewayKind, Job, Order, Query, Spelling, places, read_order,
    table_named,
};
use format_of_rows::{Row, TABLE};
use fw_types::{Dest, NoMemory, Octets, Peer};
use gate_rules::Service;
use runs_of_rows::Difference;
use std::alloc::Global;

/// The name of the records' file where the command line names none.
const RECORDS: &str = "authdb";

/// What is told where the command line names no server elsewhere.
const NONE: &str = "none";

fn add_service(out: &mut Vec<u8>, service: &Service) -> Result<(), NoMemory> {
    let mut text = ArrayVec::new();
    service.write(&mut text);
    out.extend_from_slice(text.as_slice())?;
    out.push(b' ')?;
    Ok(())
}

fn add_peer(out: &mut Vec<u8>, peer: &Peer) -> Result<(), NoMemory> {
    let mut text = ArrayVec::new();
    peer.write(&mut text);
    out.extend_from_slice(text.as_slice())?;
    Ok(())
}

fn add_query(out: &mut Vec<u8>, word: &[u8], query: &Query) -> Result<(), NoMemory> {
    out.extend_from_slice(word)?;
    add_service(out, &query.service)?;
    add_peer(out, &query.peer)
}

fn add_client(out: &mut Vec<u8>, word: &[u8], peer: &Peer) -> Result<(), NoMemory> {
    out.extend_from_slice(word)?;
    add_peer(out, peer)
}

fn add_caller(alloc: Global, out: &mut Vec<u8>, caller: &Caller) -> Result<(), NoMemory> {
    let port = caller.port;
    let word = format!(in alloc; "plug-gw {port} ")?;
    add_client(out, word.as_bytes(), &caller.peer)
}

// The command of a gateway, with `-a` where a server elsewhere knows its users.
fn gateway_word(kind: GatewayKind, authorities: Authorities) -> &'static [u8] {
    match (kind, authorities) {
        (GatewayKind::Telnet, Authorities::Records) => b"tn-gw ",
        (GatewayKind::Telnet, Authorities::Remote) => b"tn-gw -a ",
        (GatewayKind::Ftp, Authorities::Records) => b"ftp-gw ",
        (GatewayKind::Ftp, Authorities::Remote) => b"ftp-gw -a ",
    }
}

// A destination, or `none`.
fn add_dest(alloc: Global, out: &mut Vec<u8>, dest: &Option<Dest>) -> Result<(), NoMemory> {
    let Some(dest) = dest else {
        out.extend_from_slice(b"none")?;
        return Ok(());
    };
    let mut text = ArrayVec::new();
    dest.host.write(&mut text);
    out.extend_from_slice(text.as_slice())?;
    let port = dest.port;
    let port = format!(in alloc; " {port}")?;
    out.extend_from_slice(port.as_bytes())?;
    Ok(())
}

// What a command asks for, with the service and the peer.
fn add_command(alloc: Global, out: &mut Vec<u8>, command: &Command) -> Result<(), NoMemory> {
    match command {
        Command::Netacl(query) => add_query(out, b"netacl ", query),
        Command::NetaclRun(query) => add_query(out, b"netacl -run ", query),
        Command::Table(query) => add_query(out, b"table ", query),
        Command::Authsrv(client) if client.console => add_client(out, b"console ", &client.peer),
        Command::PlugGw(caller) => add_caller(alloc, out, caller),
        Command::Gateway {
            kind,
            authorities,
            peer,
        } => add_client(out, gateway_word(*kind, *authorities), peer),
        Command::Smap(peer) => add_client(out, b"smap ", peer),
        Command::Authsrv(client) => add_client(out, b"authsrv ", &client.peer),
    }
}

// The dictionary and the six words, with a blank before each.
fn add_spelling(out: &mut Vec<u8>, spelling: &Spelling) -> Result<(), NoMemory> {
    let words = &spelling.words;
    out.extend_from_slice(b"otp-hex")?;
    for word in [
        spelling.file,
        words.first,
        words.second,
        words.third,
        words.fourth,
        words.fifth,
        words.last,
    ] {
        out.push(b' ')?;
        out.extend_from_slice(word)?;
    }
    Ok(())
}

fn add_job(alloc: Global, out: &mut Vec<u8>, job: &Job) -> Result<(), NoMemory> {
    match job {
        Job::Drill(drill) => {
            let (start, count) = (drill.start, drill.count);
            let text = format!(in alloc; "drill {start} {count}")?;
            out.extend_from_slice(text.as_bytes())?;
        }
        Job::SpoolInit => out.extend_from_slice(b"spool-init")?,
        Job::Smapd => out.extend_from_slice(b"smapd")?,
        Job::OtpCalc(file) => {
            out.extend_from_slice(b"otp-calc ")?;
            out.extend_from_slice(file.bytes)?;
        }
        Job::OtpHex(spelling) => add_spelling(out, spelling)?,
    }
    Ok(())
}

// What the words ask for.
fn told_of(alloc: Global, words: &[Octets]) -> Result<Vec<u8>, NoMemory> {
    let mut out = Vec::new(alloc);
    match read_order(words) {
        None => out.extend_from_slice(b"none")?,
        Some(Order::ByTable(command)) => add_command(alloc, &mut out, &command)?,
        Some(Order::Alone(job)) => add_job(alloc, &mut out, &job)?,
    }
    Ok(out)
}

// The name that the row gives, or the one that holds where the words give none.
fn name_or<'a>(name: &'a Option<Vec<u8>>, other: &'static str) -> &'a [u8] {
    match name {
        Some(name) => name,
        None => other.as_bytes(),
    }
}

/// Looks for the first thing in which the words are read otherwise than the row says.
pub(crate) fn misread(
    alloc: Global,
    row: &Row,
    command: &[u8],
    difference: &mut Difference,
) -> Result<(), NoMemory> {
    let words = &row.setting.words;
    let reading = &row.wanted.reading;
    let told = told_of(alloc, words)?;
    difference.text_of(b"the command", command, &told);
    let table = name_or(&reading.table, TABLE);
    difference.text_of(b"the table's name", table, table_named(words));
    let records = name_or(&reading.records, RECORDS);
    difference.text_of(b"the records' name", records, places(words).db);
    let remote = name_or(&reading.remote, NONE);
    let mut told = Vec::new(alloc);
    add_dest(alloc, &mut told, &places(words).remote)?;
    difference.text_of(b"the server elsewhere", remote, &told);
    Ok(())
}
