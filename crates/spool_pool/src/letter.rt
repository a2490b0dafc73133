ghost use Rattle.std.specs.Prelude.{◌≡◌, false};

use fw_disk::Disk;
use spool_rack::Full;
use std::marker::Model;

/// A slot with a message that can be read, as it stands in the pool.
#[derive(Drop)]
pub(crate) struct Letter<D: Disk> {
    slot: Full<D>,
}

impl<D: Disk> Model for Letter<D> {
    ghost use Rattle.std.specs.Prelude.{◌≡◌, false};
    ghost use Rattle.spool_slots.specs.States.{FullView};

    ghost Value = { FullView };

    ghost view = { λ l. l.slot };

    ghost invariant = { λ l. l.slot.unread ≡ false };
}

impl<D: Disk> Letter<D> {
    pub(crate) fn of(slot: Full<D>) -> Letter<D>
        requires { slot.unread ≡ false }
        ensures { result ≡ slot }
    {
        Letter { slot }
    }

    pub(crate) fn into_slot(self) -> Full<D>
        ensures same { result ≡ self }
        ensures read { result.unread ≡ false }
    {
        let Letter { slot } = self;
        slot
    }
}
