use crate::{Octets, OctetsList};

/// A message of mail: whom it is from, to whom it goes, and what it says.
#[derive(Drop)]
pub struct Message {
    pub from: Octets,
    pub rcpts: OctetsList,
    pub body: Octets,
}
