//! Doors at a port that is free.

use crate::doors::names::names;
use gate_rules::Service;
use real_doors::{Doors, Site, open_doors};
use real_links::DoorPorts;
use std::io::{self, ErrorKind};

const FIRST_PORT: u16 = 20100;

const LAST_PORT: u16 = 20199;

/// Two doors of two services at this port.
pub(crate) fn doors_at(rt: HostRuntime, port: u16) -> io::Result<Doors> {
    let places = [(Service::TnGw, port), (Service::Authsrv, port)];
    let site = Site {
        host: [0; 4],
        ports: DoorPorts::any(),
    };
    match open_doors(rt, site, &places, names(rt)?) {
        Ok(doors) => Ok(doors),
        Err(_) => Err(io::Error::from(ErrorKind::OutOfMemory)),
    }
}

/// Two doors at a port that was free, and the port.
pub(crate) fn free_doors(rt: HostRuntime) -> io::Result<(Doors, u16)> {
    for port in FIRST_PORT..LAST_PORT {
        let made = doors_at(rt, port)?;
        if made.doors.iter().all(|door| door.is_open()) {
            return Ok((made, port));
        }
    }
    Err(io::Error::from(ErrorKind::AddrInUse))
}
