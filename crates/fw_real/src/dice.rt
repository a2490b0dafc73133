ghost use Rattle.std.specs.Prelude.{◌≡◌, ◌+◌, ◌%◌, ◌^◌, None, IfOk};
ghost use Rattle.fw_outside.specs.DiceView.{GaveSalt};
ghost use Rattle.fw_real.specs.Salts.{hashed_salt, untold_throws};

use fw_outside::Dice;
use std::hash::{BuildHasher, RandomState};
use std::io;
use std::random::RandomSource;

/// Salts of a process: the hashes of 0, 1, 2 and so on, under keys that the system drew at random.
#[derive(Drop)]
pub struct Salts {
    keys: RandomState,
    next: u64,
}

impl Salts {
    /// Salts under new keys. Where the system gives no random bytes, its error.
    pub fn new(system: &impl RandomSource) -> io::Result<Salts>
        ensures { IfOk result (λ salts. salts.next ≡ 0) }
    {
        let keys = RandomState::new(system)?;
        Ok(Salts { keys, next: 0 })
    }
}

impl Dice for Salts {
    ghost dice_view = { λ _. untold_throws };

    fn salt(&mut self) -> [u8; 8]
        ensures gave_salt { GaveSalt result untold_throws untold_throws }
        ensures answer { result ≡ hashed_salt self.old.keys self.old.next }
        ensures once { self.new ≡ record self.old { next = (self.old.next + 1) % 2 ^ 64 } }
    {
        let number = self.next;
        self.next = number.wrapping_add(1);
        self.keys.hash_one(number).to_be_bytes()
    }
}
