ghost use Rattle.std.specs.Prelude.{◌≡◌, true, false};

use fw_disk::Disk;
use std::marker::Model;

/// A slot whose disk failed, or which wasn't opened.
#[derive(Drop)]
pub struct Broken<D: Disk> {
    number: u32,
    disk: D,
    from_full: bool,
    from_fault: bool,
}

impl<D: Disk> Model for Broken<D> {
    ghost use Rattle.spool_slots.specs.States.{BrokenView};

    ghost Value = { BrokenView };

    ghost view = { λ s. record {
      number = s.number;
      disk = D.disk_view s.disk;
      from_full = s.from_full;
      from_fault = s.from_fault;
    } };
}

impl<D: Disk> Broken<D> {
    // A slot whose disk failed, and which came from a `Full` or not.
    pub(crate) fn by_fault(number: u32, disk: D, from_full: bool) -> Broken<D>
        ensures { result ≡ record {
          number = number;
          disk = D.disk_view disk;
          from_full = from_full;
          from_fault = true;
        } }
    {
        Broken {
            number,
            disk,
            from_full,
            from_fault: true,
        }
    }

    // A slot that wasn't read, though its disk didn't fail.
    pub(crate) fn unread(number: u32, disk: D) -> Broken<D>
        ensures { result ≡ record {
          number = number;
          disk = D.disk_view disk;
          from_full = false;
          from_fault = false;
        } }
    {
        Broken {
            number,
            disk,
            from_full: false,
            from_fault: false,
        }
    }

    /// The slot's number.
    pub fn number(&self) -> u32
        ensures { result ≡ self.now.number }
    {
        self.number
    }

    /// Whether it came from a [`Full`](crate::Full).
    pub fn is_from_full(&self) -> bool
        ensures { result ≡ self.now.from_full }
    {
        self.from_full
    }

    /// Whether its disk failed. Else it wasn't opened: its bytes are bad, or there was no memory.
    pub fn is_from_fault(&self) -> bool
        ensures { result ≡ self.now.from_fault }
    {
        self.from_fault
    }

    /// The slot's disk.
    pub fn into_disk(self) -> D
        ensures { D.disk_view result ≡ self.disk }
    {
        let Broken {
            number: _,
            disk,
            from_full: _,
            from_fault: _,
        } = self;
        disk
    }
}
