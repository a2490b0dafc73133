ghost use Rattle.std.specs.Prelude.{◌≡◌, IfOk};

use crate::NoMemory;
use crate::short::{ROOM, Short};
use std::alloc::Global;
use std::marker::Model;

/// Where the bytes of an `Octets` are kept.
#[derive(Drop)]
pub enum Storage {
    Short(Short),
    Long(Vec<u8>),
}

/// A list of bytes. Up to 30 are kept in the value itself, and more in memory of their own.
#[derive(Drop)]
pub struct Octets {
    storage: Storage,
}

impl Model for Octets {
    ghost use Rattle.std.specs.Prelude.{ℕ, List};
    ghost use Rattle.fw_types.specs.Octets.{stored_bytes};

    ghost Value = { List ℕ };

    ghost view = { λ octets. stored_bytes octets.storage };
}

impl Octets {
    /// The bytes of a vector, which takes no memory.
    pub fn of(bytes: Vec<u8>) -> Octets
        ensures { result ≡ bytes.items }
    {
        Octets {
            storage: Storage::Long(bytes),
        }
    }

    /// A copy of the bytes.
    pub fn copy(alloc: Global, bytes: &[u8]) -> Result<Octets, NoMemory>
        ensures { IfOk result (λ octets. octets ≡ bytes.now) }
    {
        let storage = if bytes.len() <= ROOM {
            Storage::Short(Short::copy(bytes))
        } else {
            Storage::Long(Vec::from_slice(alloc, bytes)?)
        };
        Ok(Octets { storage })
    }

    /// The bytes.
    pub fn bytes(&self) -> &[u8]
        ensures { result.now ≡ self.now }
    {
        match &self.storage {
            Storage::Short(short) => short.bytes(),
            Storage::Long(bytes) => bytes.as_slice(),
        }
    }
}
