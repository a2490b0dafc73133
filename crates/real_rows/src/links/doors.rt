//! A door of 127.0.0.1 that waits for one client.

use crate::links::linking::dialer_for;
use fw_outside::{Dialed, Dialer, Sink};
use lines_of_rows::number_of;
use std::io;

/// Opens a door for the client of this address, prints its port, and waits so many seconds. Who comes up is told `up`.
pub(crate) fn wait_at_door(
    rt: HostRuntime,
    client: &str,
    seconds: &str,
) -> io::Result<&'static str> {
    let mut dialer = dialer_for(rt, client.as_bytes());
    dialer.patience(number_of(seconds.as_bytes()).min(3600) as u32);
    let Some((mut door, _, port)) = dialer.door() else {
        return Ok("no door");
    };
    println!(&rt; "{port}")?;
    match dialer.accept(&mut door) {
        Dialed::Up(from, mut to) => {
            let told = to.give(b"up").is_ok();
            dialer.let_go(from, to);
            Ok(if told { "up" } else { "failed" })
        }
        Dialed::Refused => Ok("refused"),
    }
}
