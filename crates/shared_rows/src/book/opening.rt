//! A book without records under a lock.
ghost use Rattle.std.specs.Prelude.{◌≡◌, IfOk};
ghost use Rattle.turn_lock.specs.Known.{IsPassOf};

use auth_machine::{Book, Policy};
use auth_port::{Pass, Turns};
use fw_memory::{Calls, MemKeeper, MemSource};
use fw_types::{NoMemory, Octets};
use netperm_table::{Table, TableFault};
use std::alloc::Global;

/// The book, with its records in memory.
pub(crate) type Users = Book<MemKeeper>;

fn read_table(alloc: Global, text: &[u8]) -> Result<Table, TableFault> {
    let bytes = Octets::copy(alloc, text)?;
    let mut source = MemSource::new(bytes, 64, Calls::none(), Calls::none());
    Table::read(alloc, &mut source)
}

// The policy of a table by which a user who was wrong five times in a row waits.
fn policy(alloc: Global) -> Option<Policy> {
    match read_table(alloc, b"authsrv: badsleep 1200\n") {
        Ok(table) => Policy::of(alloc, &table).ok(),
        Err(_) => None,
    }
}

fn book(alloc: Global, limit: u64) -> Option<Users> {
    let policy = policy(alloc)?;
    let keeper = MemKeeper::new(alloc, Vec::new(alloc), Calls::none());
    match Book::open(alloc, keeper, policy, limit) {
        Ok(book) => Some(book),
        Err(_) => None,
    }
}

/// The lock and its first pass, where so many entries fit.
pub(crate) fn open(alloc: Global, limit: u64) -> Result<(Turns<Users>, Pass<Users>), NoMemory>
    ensures { IfOk result (λ made. IsPassOf made.0 made.1) }
{
    let Some(book) = book(alloc, limit) else {
        return Err(NoMemory);
    };
    match Turns::new(alloc, book) {
        Ok(made) => Ok(made),
        Err((_, NoMemory)) => Err(NoMemory),
    }
}
