ghost use Rattle.std.specs.Prelude.{◌≡◌, ◌<◌, ◌^◌};
ghost use Rattle.fw_memory.specs.MemDiceView.{salt_of, dice_view_of};
ghost use Rattle.fw_memory.specs.CallCounter.{no_calls, one_call};
ghost use Rattle.fw_outside.specs.DiceView.{GaveSalt};

use crate::call_counter::CallCounter;
use fw_outside::Dice;
use std::marker::Model;

/// Dice in memory.
#[derive(Drop)]
pub struct MemDice {
    first: u64,
    counter: CallCounter,
}

impl Model for MemDice {
    ghost use Rattle.fw_memory.specs.MemDiceView.{MemDiceView};

    ghost Value = { MemDiceView };

    ghost view = { λ d. record { first = d.first; counter = d.counter } };
}

impl MemDice {
    /// Dice that give the eight bytes of this number, the highest first, then those of the next one, and so on; after
    /// 2^64 - 1 comes 0.
    pub fn new(first: u64) -> MemDice
        ensures { result ≡ record { first = first; counter = no_calls } }
    {
        MemDice {
            first,
            counter: CallCounter::new(),
        }
    }

    fn next_salt(&mut self) -> [u8; 8]
        ensures answer { result ≡ salt_of self.old.first self.old.counter.calls }
        ensures once { self.new ≡ record self.old { counter = one_call self.old.counter } }
        ensures fits { self.old.counter.calls < 2 ^ 64 }
    {
        let number = self.first.wrapping_add(self.counter.calls());
        self.counter.count();
        number.to_be_bytes()
    }
}

impl Dice for MemDice {
    ghost dice_view = { dice_view_of };

    fn salt(&mut self) -> [u8; 8]
        ensures gave_salt { GaveSalt result (dice_view_of self.old) (dice_view_of self.new) }
        ensures answer { result ≡ salt_of self.old.first self.old.counter.calls }
        ensures once { self.new ≡ record self.old { counter = one_call self.old.counter } }
    {
        self.next_salt()
    }
}
