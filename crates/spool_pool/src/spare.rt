ghost use Rattle.std.specs.Prelude.{◌≡◌, ◌*◌, ◌≤◌, IfOk};
ghost use Rattle.spool_rack.specs.Stock.{no_slots};

use fw_disk::Disk;
use fw_types::NoMemory;
use spool_rack::Stock;
use std::alloc::Global;
use std::marker::Model;

/// Room for the slots of three queues, none of which has come yet. Contracts see it as how many each queue can hold.
#[derive(Drop)]
pub(crate) struct Spare<D: Disk> {
    stock: Stock<D>,
    room: usize,
}

impl<D: Disk> Model for Spare<D> {
    ghost use Rattle.std.specs.Prelude.{◌≡◌, ℕ, ◌*◌, ◌≤◌};
    ghost use Rattle.spool_rack.specs.Stock.{no_slots};

    ghost Value = { ℕ };

    ghost view = { λ s. s.room };

    ghost invariant = { λ s. (s.stock.queues ≡ no_slots) × (s.room * 3 ≤ s.stock.room) };
}

impl<D: Disk> Spare<D> {
    pub(crate) fn with_room(alloc: Global, room: usize) -> Result<Spare<D>, NoMemory>
        ensures { IfOk result (λ spare. spare ≡ room) }
    {
        let Some(most) = room.checked_mul(3) else {
            return Err(NoMemory);
        };
        match Stock::with_room(alloc, most) {
            Ok(stock) => Ok(Spare { stock, room }),
            Err(NoMemory) => Err(NoMemory),
        }
    }

    pub(crate) fn room(&self) -> usize
        ensures { result ≡ self.now }
    {
        self.room
    }

    pub(crate) fn into_stock(self) -> Stock<D>
        ensures none { result.queues ≡ no_slots }
        ensures room { self * 3 ≤ result.room }
    {
        let Spare { stock, room: _ } = self;
        stock
    }
}
