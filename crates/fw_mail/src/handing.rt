ghost use Rattle.std.specs.Prelude.{◌<◌, length, map};
ghost use Rattle.fw_mail.specs.MailerView.{Hands, HandsFirst};

use crate::{Handed, Mailer, Message};

// Hands a message to one mailer.
fn hand_to(mailer: &mut Box<dyn Mailer>, message: &Message) -> Handed
    ensures { Hands result message.now (mailer_view mailer.old) (mailer_view mailer.new) }
{
    mailer.hand(message)
}

/// Hands a message to the first of some mailers.
#[tactic(auto, using(crate::proofs::MailersLemmas::hands_first))]
pub fn hand_to_first(mailers: &mut Vec<Box<dyn Mailer>>, message: &Message) -> Handed
    requires { 0 < length mailers.old.items }
    ensures { HandsFirst result message.now (map (λ m. mailer_view m) mailers.old.items)
        (map (λ m. mailer_view m) mailers.new.items) }
{
    hand_to(&mut mailers[0], message)
}
