ghost use Rattle.std.specs.Prelude.{◌≡◌};
ghost use Rattle.std.specs.Option.{option_copied, option_map};
ghost use Rattle.std.specs.Str.{bytes_eq};
ghost use Rattle.fw_types.specs.Number.{in_range, number_of};
ghost use Rattle.gate_rules.specs.Label.{label_of};
ghost use Rattle.bastion.specs.DestWord.{dest_in};
ghost use Rattle.bastion.specs.Places.{places_of};
ghost use Rattle.bastion.specs.declared.words.Job.TheVariants as jobs;
ghost use Rattle.bastion.specs.declared.words.Order.TheVariants as orders;
ghost use Rattle.bastion.specs.Words.{after_options, any_twice, authorities_in, calc_in, caller_in, caller_of, command_in, gateway_of, drill_by, drill_in, hex_in, is_option_pair, is_option_name, is_option_word, is_remote, line_of, order_in, order_of, places_in, remote_of, slots_in, slots_or, lone_in, name_in, netacl_by, netacl_in, peer_by, peer_in, query_of, run_in, stands, table_in, table_named, client_in, client_of, word_after, word_or};

use crate::Places;
use crate::dest_word::dest_in;
use crate::spelling::{FileName, Spelling, calc_in, hex_in};
use drill_lines::Drill;
use fw_types::{
    Dest, HostName, Octets, Peer, in_range, read_number, read_numbered_port, read_quad,
};
use gate_rules::{Label, Service};
use std::marker::Model;

/// Who asks for which service.
#[derive(Drop)]
pub struct Query {
    pub service: Service,
    pub peer: Peer,
}

/// Who speaks to the service that knows the users.
#[derive(Drop)]
pub struct Client {
    /// Whether the words are of the console, and not of a program.
    pub console: bool,
    pub peer: Peer,
}

/// Who speaks to a port of the plug.
#[derive(Drop)]
pub struct Caller {
    /// From 1 on.
    pub port: u16,
    pub peer: Peer,
}

/// A gateway to the servers that its clients name.
#[derive(Clone, Copy, Debug, PartialEq, Eq)]
pub enum GatewayKind {
    /// `tn-gw`, to servers of Telnet.
    Telnet,
    /// `ftp-gw`, to servers of FTP.
    Ftp,
}

/// Who knows the users that a gateway asks for.
#[derive(Clone, Copy, Debug, PartialEq, Eq)]
pub enum Authorities {
    /// The records of this host.
    Records,
    /// A server elsewhere, which `-a` names.
    Remote,
}

/// What the words of a command line ask for that goes by the table.
#[derive(Drop)]
pub enum Command {
    /// `netacl DAEMON ADDR [NAME]`: log and print what the table decides.
    Netacl(Query),
    /// `netacl -run DAEMON ADDR [NAME]`: the same, and then start the program of the line that permits.
    NetaclRun(Query),
    /// `table SERVICE ADDR [NAME]`: print what the table decides and sets.
    Table(Query),
    /// `authsrv [-console] ADDR [NAME]`: answer a peer's questions about users.
    Authsrv(Client),
    /// `plug-gw PORT ADDR [NAME]`: link a peer to the server that the table names for this port.
    PlugGw(Caller),
    /// `tn-gw ADDR [NAME]` or `ftp-gw ADDR [NAME]`: link a peer to the destination that it asks for, where the table permits it.
    Gateway {
        kind: GatewayKind,
        authorities: Authorities,
        peer: Peer,
    },
    /// `smap ADDR [NAME]`: take a peer's mail into the slots.
    Smap(Peer),
}

/// What the words of a command line ask for that needs no table.
#[derive(Drop)]
pub enum Job<'a> {
    /// `drill START N`: draw the lines of a table and as many peers, and print how many of them it permits.
    Drill(Drill),
    /// `spool-init`: make a free slot of each disk.
    SpoolInit,
    /// `smapd`: hand on the messages of the slots, in one round.
    Smapd,
    /// `otp-calc FILE`: print the password that the input asks for, in words of this dictionary and in digits.
    OtpCalc(FileName<'a>),
    /// `otp-hex FILE W1 W2 W3 W4 W5 W6`: print the password that these words of the dictionary are, in digits.
    OtpHex(Spelling<'a>),
}

/// What the words of a command line ask for.
#[derive(Drop)]
pub enum Order<'a> {
    /// It goes by the table.
    ByTable(Command),
    /// It needs no table.
    Alone(Job<'a>),
}

impl<'a> Order<'a> {
    /// Whether it is that of a gateway whose users a server elsewhere knows.
    pub fn is_remote(&self) -> bool
        ensures { result ≡ is_remote self.now }
    {
        matches!(
            self,
            Order::ByTable(Command::Gateway {
                authorities: Authorities::Remote,
                ..
            })
        )
    }
}

const DEFAULT_TABLE: &[u8] = b"/usr/local/etc/netperm-table";

const DEFAULT_DB: &[u8] = b"authdb";

const DEFAULT_SPOOL: &[u8] = b"spool";

const DEFAULT_SLOTS: u32 = 8;

const DEFAULT_MAILER: &[u8] = b"/usr/lib/sendmail";

fn is_word(word: &Octets, text: &[u8]) -> bool
    ensures { result ≡ bytes_eq word.now text.now }
{
    word.bytes() == text
}

fn is_option_name(word: &Octets) -> bool
    ensures { result ≡ is_option_name word.now }
{
    is_word(word, b"-t")
        || is_word(word, b"-r")
        || is_word(word, b"-s")
        || is_word(word, b"-n")
        || is_word(word, b"-m")
        || is_word(word, b"-a")
}

fn slots_in(word: &[u8]) -> Option<u32>
    ensures { result ≡ slots_in word.now }
{
    match in_range(1, 64, read_number(word)) {
        Some(slots) => Some(slots as u32),
        None => None,
    }
}

fn is_option_word(option: &Octets, word: &Octets) -> bool
    ensures { result ≡ is_option_word option.now word.now }
{
    if is_word(option, b"-n") {
        return slots_in(word.bytes()).is_some();
    }
    if is_word(option, b"-a") {
        return dest_in(word.bytes()).is_some();
    }
    !word.bytes().is_empty()
}

fn is_option_pair(option: &Octets, word: &Octets) -> bool
    ensures { result ≡ is_option_pair option.now word.now }
{
    is_option_name(option) && is_option_word(option, word)
}

fn word_after<'a>(name: &[u8], mut words: &'a [Octets]) -> Option<&'a [u8]>
    ensures { option_copied result ≡ word_after name.now words.entry.now }
{
    while let [option, word, rest @ ..] = words
        && is_option_pair(option, word)
    {
        if is_word(option, name) {
            return Some(word.bytes());
        }
        words = rest;
    }
    None
}

#[tactic(auto, unfolding(crate::specs::Words::stands))]
fn is_named(name: &[u8], words: &[Octets]) -> bool
    ensures { result ≡ stands name.now words.now }
{
    match word_after(name, words) {
        Some(_) => true,
        None => false,
    }
}

fn stands(option: &Octets, words: &[Octets]) -> bool
    ensures { result ≡ stands option.now words.now }
{
    is_named(option.bytes(), words)
}

/// Whether an option stands twice before the command.
pub fn any_twice(mut words: &[Octets]) -> bool
    ensures { result ≡ any_twice words.now }
{
    while let [option, word, rest @ ..] = words
        && is_option_pair(option, word)
    {
        if stands(option, rest) {
            return true;
        }
        words = rest;
    }
    false
}

/// The words after the options: the command and its arguments.
pub fn after_options(mut words: &[Octets]) -> &[Octets]
    ensures { result.now ≡ after_options words.entry.now }
{
    while let [option, word, rest @ ..] = words
        && is_option_pair(option, word)
    {
        words = rest;
    }
    words
}

fn name_in(names: &[Octets]) -> Option<Option<HostName>>
    ensures { result ≡ name_in names.now }
{
    match names {
        [] => Some(None),
        [name] => HostName::read(name.bytes()).map(Some),
        _ => None,
    }
}

fn peer_by(addr: Option<[u8; 4]>, name: Option<Option<HostName>>) -> Option<Peer>
    ensures { result ≡ peer_by addr name }
{
    let addr = addr?;
    let name = name?;
    Some(Peer {
        addr: Some(addr),
        name,
    })
}

fn peer_in(words: &[Octets]) -> Option<Peer>
    ensures { result ≡ peer_in words.now }
{
    match words {
        [addr, names @ ..] => peer_by(read_quad(addr.bytes()), name_in(names)),
        [] => None,
    }
}

fn query_of(service: Option<Service>, peer: Option<Peer>) -> Option<Query>
    ensures { result ≡ query_of service peer }
{
    let service = service?;
    let peer = peer?;
    Some(Query { service, peer })
}

fn daemon(label: &Octets) -> Option<Service>
    ensures { result ≡ option_map Service.Netacl (label_of label.now) }
{
    Label::read(label.bytes()).map(Service::Netacl)
}

fn netacl_in(words: &[Octets]) -> Option<Query>
    ensures { result ≡ netacl_in words.now }
{
    match words {
        [label, words @ ..] => query_of(daemon(label), peer_in(words)),
        [] => None,
    }
}

fn run_in(words: &[Octets]) -> Option<Query>
    ensures { result ≡ run_in words.now }
{
    match words {
        [word, words @ ..] => {
            if is_word(word, b"-run") {
                return netacl_in(words);
            }
            None
        }
        [] => None,
    }
}

fn netacl_by(decided: Option<Query>, started: Option<Query>) -> Option<Command>
    ensures { result ≡ netacl_by decided started }
{
    match decided {
        Some(query) => Some(Command::Netacl(query)),
        None => started.map(Command::NetaclRun),
    }
}

fn table_in(words: &[Octets]) -> Option<Query>
    ensures { result ≡ table_in words.now }
{
    match words {
        [service, words @ ..] => query_of(Service::read(service.bytes()), peer_in(words)),
        [] => None,
    }
}

fn client_of(console: bool, peer: Option<Peer>) -> Option<Client>
    ensures { result ≡ client_of console peer }
{
    let peer = peer?;
    Some(Client { console, peer })
}

fn client_in(words: &[Octets]) -> Option<Client>
    ensures { result ≡ client_in words.now }
{
    match words {
        [word, peer @ ..] => {
            if is_word(word, b"-console") {
                return client_of(true, peer_in(peer));
            }
            client_of(false, peer_in(words))
        }
        [] => None,
    }
}

fn caller_of(port: Option<u16>, peer: Option<Peer>) -> Option<Caller>
    ensures { result ≡ caller_of port peer }
{
    let port = port?;
    let peer = peer?;
    Some(Caller { port, peer })
}

fn caller_in(words: &[Octets]) -> Option<Caller>
    ensures { result ≡ caller_in words.now }
{
    match words {
        [port, words @ ..] => caller_of(read_numbered_port(port.bytes()), peer_in(words)),
        [] => None,
    }
}

fn gateway_of(kind: GatewayKind, authorities: Authorities, peer: Option<Peer>) -> Option<Command>
    ensures { result ≡ gateway_of kind authorities peer }
{
    let peer = peer?;
    Some(Command::Gateway {
        kind,
        authorities,
        peer,
    })
}

fn command_in(authorities: Authorities, words: &[Octets]) -> Option<Command>
    ensures { result ≡ command_in authorities words.now }
{
    match words {
        [name, words @ ..] => {
            if is_word(name, b"netacl") {
                return netacl_by(netacl_in(words), run_in(words));
            }
            if is_word(name, b"table") {
                return table_in(words).map(Command::Table);
            }
            if is_word(name, b"authsrv") {
                return client_in(words).map(Command::Authsrv);
            }
            if is_word(name, b"plug-gw") {
                return caller_in(words).map(Command::PlugGw);
            }
            if is_word(name, b"tn-gw") {
                return gateway_of(GatewayKind::Telnet, authorities, peer_in(words));
            }
            if is_word(name, b"ftp-gw") {
                return gateway_of(GatewayKind::Ftp, authorities, peer_in(words));
            }
            if is_word(name, b"smap") {
                return peer_in(words).map(Command::Smap);
            }
            None
        }
        [] => None,
    }
}

// A number of 32 bits in a range.
fn short_in(lowest: u32, highest: u32, word: &[u8]) -> Option<u32>
    ensures { result ≡ in_range lowest highest (number_of word.now) }
{
    match in_range(u64::from(lowest), u64::from(highest), read_number(word)) {
        Some(number) => Some(number as u32),
        None => None,
    }
}

fn drill_by(start: Option<u32>, count: Option<u32>) -> Option<Drill>
    ensures { result ≡ drill_by start count }
{
    let start = start?;
    let count = count?;
    Some(Drill { start, count })
}

fn drill_in(words: &[Octets]) -> Option<Drill>
    ensures { result ≡ drill_in words.now }
{
    match words {
        [start, count] => drill_by(
            short_in(0, 2_147_483_647, start.bytes()),
            short_in(1, 10_000, count.bytes()),
        ),
        _ => None,
    }
}

// A job that has no further words.
fn lone_in<'a>(job: Job<'a>, words: &[Octets]) -> Option<Job<'a>>
    ensures { result ≡ lone_in job.entry words.now }
{
    match words {
        [] => Some(job),
        _ => None,
    }
}

fn drill_job(words: &[Octets]) -> Option<Job<'_>>
    ensures { result ≡ option_map jobs.Drill (drill_in words.entry.now) }
{
    match drill_in(words) {
        Some(drill) => Some(Job::Drill(drill)),
        None => None,
    }
}

fn calc_job(words: &[Octets]) -> Option<Job<'_>>
    ensures { result ≡ option_map jobs.OtpCalc (calc_in words.entry.now) }
{
    match calc_in(words) {
        Some(file) => Some(Job::OtpCalc(file)),
        None => None,
    }
}

fn hex_job(words: &[Octets]) -> Option<Job<'_>>
    ensures { result ≡ option_map jobs.OtpHex (hex_in words.entry.now) }
{
    match hex_in(words) {
        Some(spelling) => Some(Job::OtpHex(spelling)),
        None => None,
    }
}

fn alone(job: Option<Job<'_>>) -> Option<Order<'_>>
    ensures { result ≡ option_map orders.Alone job.entry }
{
    match job {
        Some(job) => Some(Order::Alone(job)),
        None => None,
    }
}

fn by_table(authorities: Authorities, words: &[Octets]) -> Option<Order<'_>>
    ensures { result ≡ option_map orders.ByTable (command_in authorities words.entry.now) }
{
    match command_in(authorities, words) {
        Some(command) => Some(Order::ByTable(command)),
        None => None,
    }
}

fn order_in(authorities: Authorities, words: &[Octets]) -> Option<Order<'_>>
    ensures { result ≡ order_in authorities words.entry.now }
{
    match words {
        [name, more @ ..] => {
            if is_word(name, b"drill") {
                return alone(drill_job(more));
            }
            if is_word(name, b"spool-init") {
                return alone(lone_in(Job::SpoolInit, more));
            }
            if is_word(name, b"smapd") {
                return alone(lone_in(Job::Smapd, more));
            }
            if is_word(name, b"otp-calc") {
                return alone(calc_job(more));
            }
            if is_word(name, b"otp-hex") {
                return alone(hex_job(more));
            }
            by_table(authorities, words)
        }
        [] => None,
    }
}

// Who knows the users, by the options.
fn authorities_in(words: &[Octets]) -> Authorities
    ensures { result ≡ authorities_in words.now }
{
    if is_named(b"-a", words) {
        Authorities::Remote
    } else {
        Authorities::Records
    }
}

/// The order that the words are, or nothing where they are no command.
#[tactic(auto, unfolding(crate::specs::Words::order_of))]
pub fn read_order(words: &[Octets]) -> Option<Order<'_>>
    ensures { result ≡ order_of words.entry.now }
{
    if any_twice(words) {
        return None;
    }
    order_in(authorities_in(words), after_options(words))
}

/// The word after an option. Another text where it isn't there.
#[tactic(auto, unfolding(crate::specs::Words::word_or))]
pub fn word_or<'a>(option: &[u8], other: &'a [u8], words: &'a [Octets]) -> &'a [u8]
    ensures { result.now ≡ word_or option.now other.entry.now words.entry.now }
{
    match word_after(option, words) {
        Some(word) => word,
        None => other,
    }
}

fn slots_or(other: u32, word: Option<&[u8]>) -> u32
    ensures { result ≡ slots_or other (option_copied word.entry) }
{
    match word {
        Some(word) => slots_in(word).unwrap_or(other),
        None => other,
    }
}

// The server that the word after `-a` names, if there is one.
fn remote_of(word: Option<&[u8]>) -> Option<Dest>
    ensures { result ≡ remote_of (option_copied word.entry) }
{
    match word {
        Some(word) => dest_in(word),
        None => None,
    }
}

/// What the options name, whatever the command is.
pub fn places_in(words: &[Octets]) -> Places<'_>
    ensures { result ≡ places_in words.entry.now }
{
    Places {
        db: word_or(b"-r", DEFAULT_DB, words),
        spool: word_or(b"-s", DEFAULT_SPOOL, words),
        slots: slots_or(DEFAULT_SLOTS, word_after(b"-n", words)),
        mailer: word_or(b"-m", DEFAULT_MAILER, words),
        remote: remote_of(word_after(b"-a", words)),
    }
}

/// A command line, read.
#[derive(Drop)]
pub struct CommandLine<'a> {
    pub order: Order<'a>,
    /// The table's name: the word after `-t`, or the place where it stands when no word says so.
    pub table: &'a [u8],
    /// What the other options name.
    pub places: Places<'a>,
}

impl<'a> Model for CommandLine<'a> {
    ghost use Rattle.bastion.specs.Words.{LineView};

    ghost Value = { LineView };

    ghost view = { λ line. record { order = line.order; table = line.table.now; places = line.places } };
}

impl<'a> CommandLine<'a> {
    /// The command line that the words are, or nothing where they are none.
    pub fn read(words: &'a [Octets]) -> Option<CommandLine<'a>>
        ensures { result ≡ line_of words.entry.now }
    {
        match read_order(words) {
            Some(order) => Some(CommandLine {
                order,
                table: word_or(b"-t", DEFAULT_TABLE, words),
                places: places_in(words),
            }),
            None => None,
        }
    }
}

/// The name of the table: the word after `-t`, or the place where it stands when no word says so.
pub fn table_named(words: &[Octets]) -> &[u8]
    ensures { result.now ≡ table_named words.entry.now }
{
    match CommandLine::read(words) {
        Some(line) => line.table,
        None => DEFAULT_TABLE,
    }
}

/// What the words name: the word after the option, or what holds where no word says so.
pub fn places(words: &[Octets]) -> Places<'_>
    ensures { result ≡ places_of words.entry.now }
{
    match CommandLine::read(words) {
        Some(line) => line.places,
        None => Places {
            db: DEFAULT_DB,
            spool: DEFAULT_SPOOL,
            slots: DEFAULT_SLOTS,
            mailer: DEFAULT_MAILER,
            remote: None,
        },
    }
}
