use crate::Door;
use auth_machine::Book;
use fw_disk::Disk;
use fw_outside::Keeper;
use gate_rules::{Rules, Service};
use spool_rack::Rack;

/// What a server begins with.
#[derive(Drop)]
pub struct Ready<K: Keeper, D: Disk> {
    /// One for each worker, in the order of the words.
    pub doors: Vec<Door>,
    /// The rules of each service, in the order of the words.
    pub rules: Vec<(Service, Rules)>,
    /// The book of the users' records, with their keeper.
    pub book: Book<K>,
    /// The slots of all disks.
    pub rack: Rack<D>,
}
