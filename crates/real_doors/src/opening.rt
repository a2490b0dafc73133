//! The doors of a server.
ghost use Rattle.std.specs.Prelude.{◌≡◌, All, IfOk, IfSome, map};
ghost use Rattle.std.specs.Arc.{arc_value};
ghost use Rattle.real_doors.specs.Doors.{IsAtItsPort, place_of};

use crate::entrance::Entrance;
use crate::{Closer, HostNames, TcpAcceptor};
use fw_types::NoMemory;
use gate_rules::Service;
use real_links::DoorPorts;
use std::alloc::Global;
use std::sync::Arc;

/// The doors of a server, and who ends them.
#[derive(Drop)]
pub struct Doors {
    pub doors: Vec<TcpAcceptor>,
    pub closer: Closer,
}

/// Where a server listens: at which address of this host, with zeros at all, and at which ports the doors for data links
/// are.
#[derive(Clone, Copy, Debug, PartialEq, Eq)]
pub struct Site {
    pub host: [u8; 4],
    pub ports: DoorPorts,
}

// The listeners of a server, and the names of hosts.
#[derive(Drop)]
struct Building {
    rt: HostRuntime,
    site: Site,
    names: Arc<HostNames, Global>,
    entrances: Vec<Arc<Entrance, Global>>,
}

// A door for a service at a port, of which it has this listener.
fn door_at(
    building: &Building,
    service: &Service,
    port: u16,
    entrance: Option<Arc<Entrance, Global>>,
) -> Result<TcpAcceptor, NoMemory>
    requires { IfSome entrance (λ entrance. (arc_value entrance).port ≡ port) }
    ensures place { IfOk result (λ door. place_of door ≡ (service.now, port)) }
    ensures at { IfOk result IsAtItsPort }
{
    let names = Arc::try_clone(&building.names)?;
    Ok(TcpAcceptor::new(
        building.rt,
        service.twin(),
        port,
        building.site.ports,
        entrance,
        names,
    ))
}

// Another handle of the listener, if it is at this port.
fn handle_at(
    entrance: &Arc<Entrance, Global>,
    port: u16,
) -> Result<Option<Arc<Entrance, Global>>, NoMemory>
    ensures { IfOk result (λ found. IfSome found (λ entrance. (arc_value entrance).port ≡ port)) }
{
    if entrance.port() == port {
        Ok(Some(Arc::try_clone(entrance)?))
    } else {
        Ok(None)
    }
}

impl Building {
    // The listener at this port, if it is open.
    fn open_at(&self, port: u16) -> Result<Option<Arc<Entrance, Global>>, NoMemory>
        ensures { IfOk result (λ found. IfSome found (λ entrance. (arc_value entrance).port ≡ port)) }
    {
        for entrance in self.entrances.iter() {
            if let Some(found) = handle_at(entrance, port)? {
                return Ok(Some(found));
            }
        }
        Ok(None)
    }

    // A listener that is opened at this port, if that can be done.
    fn open_new(&mut self, port: u16) -> Result<Option<Arc<Entrance, Global>>, NoMemory>
        ensures { IfOk result (λ found. IfSome found (λ entrance. (arc_value entrance).port ≡ port)) }
    {
        let Ok(entrance) = Entrance::open(&self.rt, self.site.host, port) else {
            return Ok(None);
        };
        let entrance = Arc::new(self.rt.alloc(), entrance)?;
        self.entrances.push(Arc::try_clone(&entrance)?)?;
        Ok(Some(entrance))
    }

    fn door(&mut self, service: &Service, port: u16) -> Result<TcpAcceptor, NoMemory>
        ensures place { IfOk result (λ door. place_of door ≡ (service.now, port)) }
        ensures at { IfOk result IsAtItsPort }
    {
        let entrance = match self.open_at(port)? {
            Some(entrance) => Some(entrance),
            None => self.open_new(port)?,
        };
        door_at(self, service, port, entrance)
    }
}

/// A door for each place, which is a service and a port of this host, in their order, at the site's address. Those of one
/// port share a listener. One whose port can't be opened fails at each call.
pub fn open_doors(
    rt: HostRuntime,
    site: Site,
    places: &[(Service, u16)],
    names: HostNames,
) -> Result<Doors, NoMemory>
    ensures places { IfOk result (λ made. map place_of made.doors.items ≡ places.now) }
    ensures ports { IfOk result (λ made. All IsAtItsPort made.doors.items) }
{
    let mut building = Building {
        rt,
        site,
        names: Arc::new(rt.alloc(), names)?,
        entrances: Vec::new(rt.alloc()),
    };
    let mut doors = Vec::new(rt.alloc());
    for place in places {
        let door = building.door(&place.0, place.1)?;
        doors.push(door)?;
    }
    let Building { entrances, .. } = building;
    Ok(Doors {
        doors,
        closer: Closer::new(entrances),
    })
}
