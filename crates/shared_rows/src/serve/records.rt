//! A book of two users, and rules that let every client of `authsrv` or of `smap` in.
ghost use Rattle.std.specs.Prelude.{IfSome};
ghost use Rattle.fwtk_serve.specs.RulesFor.{MayServe};

use auth_machine::{Book, Policy};
use fw_memory::{Calls, MemKeeper, MemSource};
use fw_types::{Name, NoMemory, Octets};
use gate_rules::{Rules, Service};
use lines_of_rows::from_hex;
use netperm_table::{Table, TableFault};
use std::alloc::Global;

const TABLE: &[u8] = b"authsrv: badsleep 1200\nauthsrv: permit-hosts *\n";

// The record of `mjr`, whose password is `secret`.
const PLAIN: &str =
    "01030100000000000000000000036d6a7200000000000000000000a32ecd31455883e6b950de172f76e304";

// The record of `otp1`, who has one one-time password left (RFC 2289, appendix C: the seed `test`).
const OTP: &str = "01050200000000000000000000046f74703100000000000104746573747965e05436f5029f";

fn read_table(alloc: Global, text: &[u8]) -> Result<Table, TableFault> {
    let bytes = Octets::copy(alloc, text)?;
    let mut source = MemSource::new(bytes, 64, Calls::none(), Calls::none());
    Table::read(alloc, &mut source)
}

fn record(alloc: Global, name: &[u8], digits: &str) -> Result<(Name, Octets), NoMemory> {
    let bytes = from_hex(alloc, digits)?;
    match Name::read(name) {
        Some(name) => Ok((name, Octets::of(bytes))),
        None => Err(NoMemory),
    }
}

fn keeper(alloc: Global) -> Result<MemKeeper, NoMemory> {
    let mjr = record(alloc, b"mjr", PLAIN)?;
    let otp1 = record(alloc, b"otp1", OTP)?;
    let records = Vec::from_array(alloc, [mjr, otp1])?;
    Ok(MemKeeper::new(alloc, records, Calls::none()))
}

/// The book.
pub(crate) fn book(alloc: Global) -> Option<Book<MemKeeper>> {
    let table = read_table(alloc, TABLE).ok()?;
    let policy = Policy::of(alloc, &table).ok()?;
    let keeper = keeper(alloc).ok()?;
    match Book::open(alloc, keeper, policy, 1000) {
        Ok(book) => Some(book),
        Err(_) => None,
    }
}

/// The rules of `authsrv`.
pub(crate) fn rules(alloc: Global) -> Option<(Service, Rules)>
    ensures { IfSome result MayServe }
{
    let table = read_table(alloc, TABLE).ok()?;
    let rules = Rules::of(alloc, &table, &Service::Authsrv).ok()?;
    Some((Service::Authsrv, rules))
}

/// The rules of `smap`.
pub(crate) fn mail_rules(alloc: Global) -> Option<(Service, Rules)>
    ensures { IfSome result MayServe }
{
    let table = read_table(alloc, TABLE).ok()?;
    let rules = Rules::of(alloc, &table, &Service::Smap).ok()?;
    Some((Service::Smap, rules))
}
