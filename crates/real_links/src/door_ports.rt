ghost use Rattle.std.specs.Prelude.{◌≡◌};

/// The ports at which doors for a client's data links are opened: those from the first to the last, the lowest first that
/// is free, or with two zeros one that the system picks.
#[derive(Clone, Copy, Debug, PartialEq, Eq)]
pub struct DoorPorts {
    pub first: u16,
    pub last: u16,
}

impl DoorPorts {
    /// Any port, which the system picks.
    pub fn any() -> DoorPorts
        ensures { result ≡ record { first = 0; last = 0 } }
    {
        DoorPorts { first: 0, last: 0 }
    }
}
