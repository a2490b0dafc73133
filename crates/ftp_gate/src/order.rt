//! A command of the client.
ghost use Rattle.std.specs.Prelude.{◌≡◌, ◌≤◌, length};
ghost use Rattle.ftp_gate.specs.Order.{order_of};

use ftp_lines::read_command;
use fw_types::Verb;
use std::marker::Model;

/// A command of the client: its verb, its argument, and the line as it came, without its end.
#[derive(Drop)]
pub struct Order<'a> {
    verb: Verb,
    arg: &'a [u8],
    line: &'a [u8],
}

impl<'a> Model for Order<'a> {
    ghost use Rattle.ftp_gate.specs.Order.{IsShort, Order};

    ghost Value = { Order };

    ghost view = { λ order. record { verb = order.verb; arg = order.arg.now; line = order.line.now } };

    ghost invariant = { λ order.
        IsShort (record { verb = order.verb; arg = order.arg.now; line = order.line.now }) };
}

impl<'a> Order<'a> {
    /// The command that a line is, if it is one.
    #[tactic(auto, unfolding(crate::specs::Order::order_of))]
    pub fn read(line: &'a [u8]) -> Option<Order<'a>>
        ensures { result ≡ order_of line.now }
    {
        let command = read_command(line)?;
        Some(Order {
            verb: command.verb,
            arg: command.arg,
            line,
        })
    }

    /// Its verb, in upper case.
    pub fn verb(&self) -> &Verb
        ensures { result.now ≡ self.now.verb }
    {
        &self.verb
    }

    /// What stands behind the verb and a space.
    pub fn arg(&self) -> &'a [u8]
        ensures is { result.now ≡ self.now.arg }
        ensures short { length result.now ≤ 512 }
    {
        self.arg
    }

    /// All of it.
    pub fn line(&self) -> &'a [u8]
        ensures is { result.now ≡ self.now.line }
        ensures short { length result.now ≤ 512 }
    {
        self.line
    }
}
