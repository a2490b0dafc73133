ghost use Rattle.std.specs.Prelude.{◌≡◌};
ghost use Rattle.fw_mail.specs.MailerView.{MailerView, Hands, shown_of};

use crate::{Handed, Message};

/// Who takes messages on.
pub trait Mailer: Send + Drop {
    /// The messages that were accepted, for a proof always and for a program where the mailer tells them, and the counts of
    /// refusals and of failures.
    ghost mailer_view: { Self → MailerView };

    /// Hands a message over.
    fn hand(&mut self, message: &Message) -> Handed
        ensures { Hands result message.now (mailer_view self.old) (mailer_view self.new) };

    /// The messages that were accepted, in order, where the mailer tells them; else none. It takes no memory.
    fn shown(&self) -> &[Message]
        ensures { result.now ≡ shown_of (mailer_view self.now) };
}
