ghost use Rattle.fw_outside.specs.DiceView.{GaveSalt, DiceView};

/// Bytes that nobody can guess.
pub trait Dice: Drop {
    /// The salts that they gave.
    ghost dice_view: { Self → DiceView };

    /// A new salt. Dice that tell what they gave may stop telling.
    fn salt(&mut self) -> [u8; 8]
        ensures { GaveSalt result (dice_view self.old) (dice_view self.new) };
}
