//! Passes that are split off, meet and end.
ghost use Rattle.turn_lock.specs.Known.{IsPassOf};

use crate::book::opening::Users;
use auth_events::Entry;
use auth_port::{Pass, Turns};
use fw_types::NoMemory;
use std::sync::Wait;

/// A pass of the same lock.
pub(crate) fn another(turns: &Turns<Users>, pass: &mut Pass<Users>) -> Pass<Users>
    requires { IsPassOf turns.now pass.old }
    ensures own { IsPassOf turns.now pass.new }
    ensures given { IsPassOf turns.now result }
{
    match turns.split(pass) {
        Ok(other) => other,
        Err(NoMemory) => unreachable!(),
    }
}

/// Closes the lock. The history.
pub(crate) fn history_of<H: Wait>(rt: &H, turns: Turns<Users>, pass: Pass<Users>) -> Vec<Entry>
    requires { IsPassOf turns pass }
{
    let (_, history) = turns.close(rt, pass).close();
    history
}
