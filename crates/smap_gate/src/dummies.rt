//! Devices that stand in for those which a session of mail doesn't have.
ghost use Rattle.smap_gate.specs.Dummies.{no_clock, no_dice, no_port};

use auth_events::{AuthPort, PortFault, Reply, Request};
use fw_outside::{Clock, Dice};

/// A port at which nobody can be asked: there is never memory.
#[derive(Drop)]
pub struct NoPort;

impl AuthPort for NoPort {
    type Origin = ();

    ghost port = { λ port. no_port };

    fn ask(&mut self, _sid: u64, _at: u64, _request: Request) -> Result<Reply, PortFault> {
        Err(PortFault::NoMemory)
    }
}

/// A clock that tells nothing of what it gave.
#[derive(Drop)]
pub struct NoClock;

impl Clock for NoClock {
    ghost clock_view = { λ clock. no_clock };

    fn now(&mut self) -> u64 {
        0
    }
}

/// Dice that tell nothing of what they gave.
#[derive(Drop)]
pub struct NoDice;

impl Dice for NoDice {
    ghost dice_view = { λ dice. no_dice };

    fn salt(&mut self) -> [u8; 8] {
        [0; 8]
    }
}
