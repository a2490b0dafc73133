//! The options `-b ADDRESS` and `-p LOW-HIGH`: where the process listens. They are for the process alone: what is run goes by
//! the other words.

use bastion::Outcome;
use fw_types::{NoMemory, Octets, read_numbered_port, read_quad};
use real_doors::Site;
use real_links::{ClientHosts, DoorPorts};
use std::alloc::Global;

/// Where the process listens, as far as the words say it.
#[derive(Clone, Copy, Debug, PartialEq, Eq)]
pub struct Binding {
    host: Option<[u8; 4]>,
    ports: Option<DoorPorts>,
}

/// A command line in two parts.
#[derive(Drop)]
pub struct Parted {
    pub binding: Binding,
    /// The other words, in their order.
    pub words: Vec<Octets>,
}

// What the next word is.
#[derive(Clone, Copy, Debug, PartialEq, Eq)]
enum Next {
    /// An option, or the command.
    Option,
    /// The value of another option.
    Value,
    Address,
    Ports,
    /// A word of the command.
    Argument,
}

// What follows a word that stands where an option may.
fn behind(word: &[u8]) -> Next {
    match word {
        b"-b" => Next::Address,
        b"-p" => Next::Ports,
        b"-t" | b"-r" | b"-s" | b"-n" | b"-m" | b"-a" => Next::Value,
        _ => Next::Argument,
    }
}

// Two numbers with a dash between, the first no greater than the second.
fn read_ports(word: &[u8]) -> Option<DoorPorts> {
    let dash = word.iter().position(|byte| *byte == b'-')?;
    let first = read_numbered_port(word.get(..dash)?)?;
    let last = read_numbered_port(word.get(dash.saturating_add(1)..)?)?;
    if first <= last {
        Some(DoorPorts { first, last })
    } else {
        None
    }
}

impl Binding {
    // The word after `-b`, which stands once at most.
    fn note_address(&mut self, word: &[u8]) -> Result<(), Outcome> {
        match (self.host, read_quad(word)) {
            (None, Some(host)) => {
                self.host = Some(host);
                Ok(())
            }
            _ => Err(Outcome::Usage),
        }
    }

    // The word after `-p`, which stands once at most.
    fn note_ports(&mut self, word: &[u8]) -> Result<(), Outcome> {
        match (self.ports, read_ports(word)) {
            (None, Some(ports)) => {
                self.ports = Some(ports);
                Ok(())
            }
            _ => Err(Outcome::Usage),
        }
    }

    /// The ports of the doors for data links; any without `-p`.
    pub fn ports(&self) -> DoorPorts {
        match self.ports {
            Some(ports) => ports,
            None => DoorPorts::any(),
        }
    }

    /// Where a server listens; at all addresses without `-b`.
    pub fn site(&self) -> Site {
        Site {
            host: self.host.unwrap_or([0; 4]),
            ports: self.ports(),
        }
    }

    /// The ends of the client's connection, ours at the address of `-b`, at which its doors are then.
    pub fn hosts(&self, hosts: Option<ClientHosts>) -> Option<ClientHosts> {
        let ClientHosts { here, there } = hosts?;
        Some(ClientHosts {
            here: self.host.unwrap_or(here),
            there,
        })
    }
}

// Takes the next word, and tells what follows it.
fn take(parted: &mut Parted, next: Next, word: Octets) -> Result<Next, Outcome> {
    let follows = match next {
        Next::Option => behind(word.bytes()),
        Next::Argument => Next::Argument,
        Next::Value | Next::Address | Next::Ports => Next::Option,
    };
    match next {
        Next::Address => parted.binding.note_address(word.bytes())?,
        Next::Ports => parted.binding.note_ports(word.bytes())?,
        _ => {
            if !matches!(follows, Next::Address | Next::Ports) {
                keep(&mut parted.words, word)?;
            }
        }
    }
    Ok(follows)
}

fn keep(words: &mut Vec<Octets>, word: Octets) -> Result<(), NoMemory> {
    words.push(word)?;
    Ok(())
}

/// Takes both options out of the words. One that stands twice, lacks its value or has one out of form is a faulty command
/// line.
pub fn part(alloc: Global, words: Vec<Octets>) -> Result<Parted, Outcome> {
    let mut parted = Parted {
        binding: Binding {
            host: None,
            ports: None,
        },
        words: Vec::new(alloc),
    };
    let mut next = Next::Option;
    for word in words {
        next = take(&mut parted, next, word)?;
    }
    match next {
        Next::Address | Next::Ports => Err(Outcome::Usage),
        _ => Ok(parted),
    }
}
