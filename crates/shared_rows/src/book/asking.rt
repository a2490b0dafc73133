//! Asking a port.
ghost use Rattle.std.specs.Prelude.{◌≡◌};

use auth_events::{AuthPort, PortFault, Reply, Request};
use auth_port::SharedBook;
use fw_memory::MemKeeper;
use std::sync::Wait;

/// What a port answers.
pub(crate) type Answer = Result<Reply, PortFault>;

/// Asks the port this.
pub(crate) fn ask<H: Wait>(
    port: &mut SharedBook<'_, H, MemKeeper>,
    sid: u64,
    at: u64,
    request: Request,
) -> Answer
    ensures { port.new.origin ≡ port.old.origin }
{
    port.ask(sid, at, request)
}

/// Opens a session at the console, and asks this in it.
pub(crate) fn ask_at_console<H: Wait>(
    port: &mut SharedBook<'_, H, MemKeeper>,
    request: Request,
) -> Answer
    ensures { port.new.origin ≡ port.old.origin }
{
    match ask(port, 0, 0, Request::Open { console: true }) {
        Ok(Reply::Opened { sid }) => ask(port, sid, 0, request),
        answer => answer,
    }
}
