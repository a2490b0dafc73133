ghost use Rattle.std.specs.Prelude.{◌≡◌, ◌∷◌, []};

use crate::medium::HeldMedium;
use std::marker::Model;
use std::snapshot::Snapshot;

#[derive(Drop)]
#[cycle(past)]
struct Link {
    latest: Snapshot<HeldMedium>,
    older: Snapshot<Past>,
}

/// The media before now, the latest first. It has no bytes at run time beyond whether there were any.
#[derive(Drop)]
#[cycle(past)]
pub(crate) struct Past {
    link: Option<Link>,
}

impl Model for Past {
    ghost use Rattle.std.specs.Prelude.{List, length};
    ghost use Rattle.fw_disk.specs.Medium.{Medium};

    ghost Value = { List Medium };

    ghost use Rattle.fw_memory.specs.Past.{media_of};

    ghost view = { λ past. media_of past.link };

    ghost size = { length };
}

impl Past {
    pub(crate) fn none() -> Past
        ensures { result ≡ [] }
    {
        Past { link: None }
    }

    /// The past after one more moment, at which this is the medium.
    pub(crate) fn after(medium: &HeldMedium, older: &Past) -> Past
        ensures { result ≡ medium.now ∷ older.now }
    {
        let link = Link {
            latest: Snapshot::of(medium),
            older: Snapshot::of(older),
        };
        Past { link: Some(link) }
    }
}
