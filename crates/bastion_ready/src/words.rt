ghost use Rattle.std.specs.Prelude.{◌≡◌, ◌*◌, ◌+◌, ◌≤◌, codes, drop, length, nat_le, is_some, true, All, IfOk, IfErr, IfSome, Some};
ghost use Rattle.std.specs.List.{list_any, position_or_len};
ghost use Rattle.std.specs.Str.{bytes_eq};
ghost use Rattle.bastion_ready.specs.Words.{any_port_twice, door_by, door_in, doors_in, is_at, is_for_server, is_port, names_port, names_remote, plan_by, plan_in, port_in, server_of, workers_in};

use bastion::{Places, after_options, any_twice, places_in, word_or};
use fw_types::{NoMemory, Octets, in_range, read_number, read_numbered_port};
use gate_rules::Service;
use memchr::memchr;
use std::alloc::Global;
use std::marker::Model;

/// A service, and the port at which its clients come.
pub type Door = (Service, u16);

/// So many workers for each service at its port.
#[derive(Drop)]
pub struct Plan {
    /// From 1 to 64.
    pub workers: u32,
    /// The services at their ports, in the order of the words.
    pub posts: Vec<Door>,
}

impl Model for Plan {
    ghost use Rattle.bastion_ready.specs.Words.{Plan as PlanView};

    ghost Value = { PlanView };

    ghost view = { λ plan. record { workers = plan.workers; posts = plan.posts.items } };
}

/// The words of a server, read.
#[derive(Drop)]
pub struct ServerLine<'a> {
    pub plan: Plan,
    /// The table's name: the word after `-t`, or the place where it stands when no word says so.
    pub table: &'a [u8],
    /// What the other options name.
    pub places: Places<'a>,
}

impl<'a> Model for ServerLine<'a> {
    ghost use Rattle.bastion_ready.specs.Words.{ServerLine as LineView};

    ghost Value = { LineView };

    ghost view = { λ line. record { plan = line.plan; table = line.table.now; places = line.places } };
}

const DEFAULT_TABLE: &[u8] = b"/usr/local/etc/netperm-table";

/// So many workers a server has at most.
const MOST_WORKERS: u64 = 64;

fn is_serve(word: &Octets) -> bool
    ensures { result ≡ bytes_eq word.now (codes "serve") }
{
    word.bytes() == b"serve".as_slice()
}

fn is_for_server(service: &Service) -> bool
    ensures { result ≡ is_for_server service.now }
{
    match service {
        Service::Netacl(_) => false,
        Service::TnGw => true,
        Service::FtpGw => true,
        Service::PlugGw(_) => true,
        Service::Smap => true,
        Service::Authsrv => true,
    }
}

// The place of the first `@`, or the word's length.
fn at_place(word: &[u8]) -> usize
    ensures place { result ≡ position_or_len is_at word.now }
    ensures within { result ≤ length word.now }
{
    match memchr(b'@', word) {
        Some(at) => at,
        None => word.len(),
    }
}

// What stands behind a place, if it is one.
fn behind(word: &[u8], at: usize) -> &[u8]
    ensures { result.now ≡ drop (at + 1) word.now }
{
    if at < word.len() {
        &word[at + 1..]
    } else {
        &[]
    }
}

fn door_by(service: Option<Service>, port: Option<u16>) -> Option<Door>
    ensures { result ≡ door_by service port }
{
    let service = service?;
    let port = port?;
    if is_for_server(&service) {
        return Some((service, port));
    }
    None
}

fn read_port(word: &[u8]) -> Option<u16>
    ensures { result ≡ port_in word.now }
{
    read_numbered_port(behind(word, at_place(word)))
}

fn read_door(word: &[u8]) -> Option<Door>
    ensures { result ≡ door_in word.now }
{
    door_by(Service::read(&word[..at_place(word)]), read_port(word))
}

fn is_port(port: u16, word: &Octets) -> bool
    ensures { result ≡ is_port port (port_in word.now) }
{
    match read_port(word.bytes()) {
        Some(other) => other == port,
        None => false,
    }
}

fn any_of_port(port: u16, words: &[Octets]) -> bool
    ensures { result ≡ list_any (λ word. is_port port (port_in word)) words.now }
{
    words.iter().any(|word| is_port(port, word))
}

fn names_port(port: Option<u16>, words: &[Octets]) -> bool
    ensures { result ≡ names_port port words.now }
{
    match port {
        Some(port) => any_of_port(port, words),
        None => false,
    }
}

// Whether two of the words name one port.
fn any_port_twice(mut words: &[Octets]) -> bool
    ensures { result ≡ any_port_twice words.now }
{
    while let [word, more @ ..] = words {
        if names_port(read_port(word.bytes()), more) {
            return true;
        }
        words = more;
    }
    false
}

// Whether each word is a service at a port.
fn are_doors(mut words: &[Octets]) -> bool
    ensures { result ≡ is_some (doors_in words.now) }
{
    while let [word, more @ ..] = words {
        match read_door(word.bytes()) {
            Some(_) => words = more,
            None => return false,
        }
    }
    true
}

// The services at their ports, which the words are.
fn read_doors(alloc: Global, mut words: &[Octets]) -> Result<Vec<Door>, NoMemory>
    requires { is_some (doors_in words.now) ≡ true }
    ensures { IfOk result (λ doors. doors_in words.now ≡ Some doors.items) }
{
    let mut doors = Vec::new(alloc);
    while let [word, more @ ..] = words {
        let Some(door) = read_door(word.bytes()) else {
            unreachable!()
        };
        doors.push(door)?;
        words = more;
    }
    Ok(doors)
}

fn workers_in(word: &[u8]) -> Option<u32>
    ensures { result ≡ workers_in word.now }
{
    match in_range(1, MOST_WORKERS, read_number(word)) {
        Some(workers) => Some(workers as u32),
        None => None,
    }
}

// Whether there are at most 64 workers in all.
fn fits(workers: u32, words: &[Octets]) -> bool
    ensures { result ≡ nat_le (workers * length words.now) 64 }
{
    match (workers as usize).checked_mul(words.len()) {
        Some(all) => all <= 64,
        None => false,
    }
}

// So many workers for each of these words.
fn read_plan_by(alloc: Global, workers: u32, words: &[Octets]) -> Result<Option<Plan>, NoMemory>
    ensures plan { IfOk result (λ plan. plan ≡ plan_by (Some workers) words.now) }
    ensures lacks { IfErr result (λ _. is_some (plan_by (Some workers) words.now) ≡ true) }
{
    if any_port_twice(words) {
        return Ok(None);
    }
    if !fits(workers, words) {
        return Ok(None);
    }
    if !are_doors(words) {
        return Ok(None);
    }
    match read_doors(alloc, words) {
        Ok(posts) => Ok(Some(Plan { workers, posts })),
        Err(NoMemory) => Err(NoMemory),
    }
}

// The plan that the words are, behind the options.
fn read_plan(alloc: Global, words: &[Octets]) -> Result<Option<Plan>, NoMemory>
    ensures plan { IfOk result (λ plan. plan ≡ plan_in words.now) }
    ensures lacks { IfErr result (λ _. is_some (plan_in words.now) ≡ true) }
{
    match words {
        [name, workers, posts @ ..] => {
            if posts.is_empty() {
                return Ok(None);
            }
            if !is_serve(name) {
                return Ok(None);
            }
            match workers_in(workers.bytes()) {
                Some(workers) => read_plan_by(alloc, workers, posts),
                None => Ok(None),
            }
        }
        _ => Ok(None),
    }
}

// Whether the options name a server elsewhere that knows the users.
fn names_remote(words: &[Octets]) -> bool
    ensures { result ≡ names_remote words.now }
{
    places_in(words).remote.is_some()
}

// The server that the words ask for, if they ask for one.
fn read_line<'a>(alloc: Global, words: &'a [Octets]) -> Result<Option<ServerLine<'a>>, NoMemory>
    ensures line { IfOk result (λ line. line ≡ server_of words.entry.now) }
    ensures lacks { IfErr result (λ _. is_some (server_of words.entry.now) ≡ true) }
{
    if any_twice(words) {
        return Ok(None);
    }
    if names_remote(words) {
        return Ok(None);
    }
    match read_plan(alloc, after_options(words)) {
        Ok(Some(plan)) => Ok(Some(ServerLine {
            plan,
            table: word_or(b"-t", DEFAULT_TABLE, words),
            places: places_in(words),
        })),
        Ok(None) => Ok(None),
        Err(NoMemory) => Err(NoMemory),
    }
}

impl<'a> ServerLine<'a> {
    /// The server that the words ask for, or nothing where they ask for none.
    ///
    /// # Errors
    ///
    /// `NoMemory`, only where the words ask for one.
    pub fn read(alloc: Global, words: &'a [Octets]) -> Result<Option<ServerLine<'a>>, NoMemory>
        ensures line { IfOk result (λ line. line ≡ server_of words.entry.now) }
        ensures lacks { IfErr result (λ _. is_some (server_of words.entry.now) ≡ true) }
        // Its services may be served.
        ensures served { IfOk result (λ read. IfSome read (λ line. All (λ post. is_for_server post.0 ≡ true) line.plan.posts)) }
    {
        read_line(alloc, words)
    }
}
