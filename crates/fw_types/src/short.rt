ghost use Rattle.std.specs.Prelude.{◌≡◌, ◌≤◌, length, take};

/// The most bytes that need no memory of their own.
pub(crate) const ROOM: usize = 30;

/// A few bytes: the first of an array.
#[derive(Clone, Copy)]
pub struct Short {
    len: u8,
    bytes: [u8; 30],
    ghost fits: { len ≤ 30 },
}

impl Short {
    /// A copy of the bytes.
    pub(crate) fn copy(bytes: &[u8]) -> Short
        requires { length bytes.now ≤ 30 }
        ensures { take result.len result.bytes ≡ bytes.now }
    {
        let mut room = [0; 30];
        room[..bytes.len()].copy_from_slice(bytes);
        Short {
            len: bytes.len() as u8,
            bytes: room,
        }
    }

    /// The bytes.
    pub(crate) fn bytes(&self) -> &[u8]
        ensures { result.now ≡ take self.now.len self.now.bytes }
    {
        &self.bytes[..usize::from(self.len)]
    }
}
