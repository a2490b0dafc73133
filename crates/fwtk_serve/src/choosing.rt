//! By which rules a client is served.
ghost use Rattle.std.specs.Prelude.{◌≡◌, [], All, IfOk};
ghost use Rattle.std.specs.Option.{option_copied};
ghost use Rattle.acceptors.specs.AcceptorView.{HasSessions};
ghost use Rattle.client_service.specs.Conn.{IsServed};
ghost use Rattle.fwtk_serve.specs.RulesFor.{MayServe, first_for, is_ftp, is_plug_at, is_same_service, is_tn, no_rules, rules_for};
ghost use Rattle.gate_rules.specs.Service.{is_authsrv, is_smap};

use fw_memory::{Calls, MemSource};
use fw_types::{NoMemory, Octets};
use gate_rules::{Rules, Service};
use netperm_table::Table;
use std::alloc::Global;

fn is_tn(service: &Service) -> bool
    ensures { result ≡ is_tn service.now }
{
    matches!(service, Service::TnGw)
}

fn is_ftp(service: &Service) -> bool
    ensures { result ≡ is_ftp service.now }
{
    matches!(service, Service::FtpGw)
}

fn is_smap(service: &Service) -> bool
    ensures { result ≡ is_smap service.now }
{
    matches!(service, Service::Smap)
}

fn is_authsrv(service: &Service) -> bool
    ensures { result ≡ is_authsrv service.now }
{
    matches!(service, Service::Authsrv)
}

fn is_plug_at(port: u16, service: &Service) -> bool
    ensures { result ≡ is_plug_at port service.now }
{
    match service {
        Service::PlugGw(other) => *other == port,
        _ => false,
    }
}

/// Whether two services are the same, with their ports where they are plugs; the access wrapper is like none.
pub fn is_same_service(one: &Service, other: &Service) -> bool
    ensures { result ≡ is_same_service one.now other.now }
{
    match one {
        Service::Netacl(_) => false,
        Service::TnGw => is_tn(other),
        Service::FtpGw => is_ftp(other),
        Service::PlugGw(port) => is_plug_at(*port, other),
        Service::Smap => is_smap(other),
        Service::Authsrv => is_authsrv(other),
    }
}

// A table without lines.
fn no_table(alloc: Global) -> Result<Table, NoMemory>
    ensures { IfOk result (λ table. table ≡ []) }
{
    let nothing = Octets::copy(alloc, b"")?;
    let mut source = MemSource::new(nothing, 1, Calls::none(), Calls::none());
    match Table::read(alloc, &mut source) {
        Ok(table) => Ok(table),
        Err(_) => Err(NoMemory),
    }
}

/// What an empty table says to a service.
pub(crate) fn no_rules(alloc: Global) -> Result<Rules, NoMemory>
    ensures { IfOk result (λ rules. rules ≡ no_rules) }
{
    let table = no_table(alloc)?;
    match Rules::of(alloc, &table, &Service::Authsrv) {
        Ok(rules) => Ok(rules),
        Err(_) => Err(NoMemory),
    }
}

// The first of these that are the service's.
fn first_for<'a>(rules: &'a [(Service, Rules)], service: &Service) -> Option<&'a (Service, Rules)>
    ensures { option_copied result ≡ first_for service.now rules.entry.now }
{
    rules
        .iter()
        .find(|ruled| is_same_service(&ruled.0, service))
}

/// The first rules of the service, or else none.
pub(crate) fn rules_for<'a>(
    rules: &'a [(Service, Rules)],
    none: &'a Rules,
    service: &Service,
) -> &'a Rules
    requires none { none.now ≡ no_rules }
    requires may { All MayServe rules.now }
    requires asked { HasSessions service.now }
    ensures is { result.now ≡ rules_for service.now rules.entry.now }
    ensures served { IsServed service.now result.now }
{
    match first_for(rules, service) {
        Some(ruled) => &ruled.1,
        None => none,
    }
}
