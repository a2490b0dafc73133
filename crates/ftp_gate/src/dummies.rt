//! A device that stands in for one which a session of the FTP gateway doesn't have.
ghost use Rattle.ftp_gate.specs.Dummies.{no_dice};

use fw_outside::Dice;

/// Dice that tell nothing of what they gave: no new password is asked for.
#[derive(Drop)]
pub struct NoDice;

impl Dice for NoDice {
    ghost dice_view = { λ dice. no_dice };

    fn salt(&mut self) -> [u8; 8] {
        [0; 8]
    }
}
