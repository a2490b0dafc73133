//! A client of a server.
use fw_types::Peer;
use gate_rules::Service;

/// Which service a client asks, and who it is. Contracts alone name it.
#[derive(Drop)]
pub struct Guest {
    pub service: Service,
    pub peer: Peer,
}

/// A client of a service, with the devices of its session: what comes from it, what goes to it, the log, the dialer, the
/// clock and the dice.
#[derive(Drop)]
pub struct Caller<F, T, L, D, C, R> {
    pub service: Service,
    pub peer: Peer,
    pub from: F,
    pub to: T,
    pub logs: L,
    pub dialer: D,
    pub clock: C,
    pub dice: R,
}

/// What came.
#[derive(Drop)]
pub enum Knock<C> {
    Session(C),
    /// No client comes any more.
    End,
    /// Waiting failed.
    Failed,
}
