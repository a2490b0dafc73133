ghost use Rattle.std.specs.Prelude.{◌≡◌, ◌++◌, ◌∷◌, []};

use fw_mail::Message;
use std::marker::Model;
use std::snapshot::Snapshot;

#[derive(Drop)]
#[cycle(taken)]
struct Link {
    latest: Snapshot<Message>,
    older: Snapshot<Taken>,
}

/// The messages that were accepted, in order. It has no bytes at run time beyond whether there were any.
#[derive(Drop)]
#[cycle(taken)]
pub(crate) struct Taken {
    link: Option<Link>,
}

impl Model for Taken {
    ghost use Rattle.std.specs.Prelude.{List, length};
    ghost use Rattle.fw_types.specs.declared.message.Message.{Message};

    ghost Value = { List Message };

    ghost use Rattle.real_links.specs.Takings.{messages_of};

    ghost view = { λ taken. messages_of taken.link };

    ghost size = { length };
}

impl Taken {
    pub(crate) fn none() -> Taken
        ensures { result ≡ [] }
    {
        Taken { link: None }
    }

    /// What was accepted once this message was too.
    pub(crate) fn with(message: &Message, older: &Taken) -> Taken
        ensures { result ≡ older.now ++ message.now ∷ [] }
    {
        let link = Link {
            latest: Snapshot::of(message),
            older: Snapshot::of(older),
        };
        Taken { link: Some(link) }
    }
}
