//! What a server did.
use acceptors::Acceptor;
use auth_events::Entry;
use fw_disk::Disk;
use fw_outside::Keeper;
use fw_types::{Ending, Peer};
use gate_rules::Service;
use smapd_queue::Round;
use spool_pool::PoolPass;
use spool_rack::Rack;
use std::marker::Model;

/// A session: whose it was, how it ended, and the places of its entries in the history.
#[derive(Drop)]
pub struct Served {
    pub service: Service,
    pub peer: Peer,
    pub ending: Ending,
    pub places: Vec<u64>,
}

impl Model for Served {
    ghost use Rattle.fwtk_serve.specs.Sessions.{ServedView};

    ghost Value = { ServedView };

    ghost view = { λ s. record {
      service = s.service;
      peer = s.peer;
      ending = s.ending;
      places = s.places.items;
    } };
}

/// What a server did: the keeper of the book and its whole history; the sessions of each door, and the doors, in order; and
/// how many workers ended before their door did, for want of memory. Of its mail: the slots, what the rounds came to, each number
/// up to its last value, in how many of them memory was wanting, and the pass that tells what was done with the slots.
#[derive(Drop)]
pub struct Report<K: Keeper, A: Acceptor, D: Disk> {
    pub keeper: K,
    pub history: Vec<Entry>,
    pub sessions: Vec<Vec<Served>>,
    pub doors: Vec<A>,
    pub short: u32,
    pub starved: u32,
    pub rack: Rack<D>,
    pub round: Round,
    pub mail: PoolPass<D>,
}
