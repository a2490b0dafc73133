ghost use Rattle.std.specs.Prelude.{◌≡◌};
ghost use Rattle.spool_pool.specs.Shelf.{is_aside, is_broken, shelved_view};

use fw_disk::Disk;
use spool_rack::{Aside, Broken};
use std::marker::Model;

#[derive(Drop)]
pub(crate) enum Kind<D: Disk> {
    Aside(Aside<D>),
    Broken(Broken<D>),
}

/// A slot that was set aside or broke, as it stands in the pool.
#[derive(Drop)]
pub(crate) struct Shelved<D: Disk> {
    kind: Kind<D>,
}

impl<D: Disk> Model for Shelved<D> {
    ghost use Rattle.spool_pool.specs.Shelf.{ShelvedView, shelved_view};

    ghost Value = { ShelvedView };

    ghost view = { λ s. shelved_view s.kind };
}

impl<D: Disk> Shelved<D> {
    pub(crate) fn aside(slot: Aside<D>) -> Shelved<D>
        ensures { result ≡ is_aside slot }
    {
        Shelved {
            kind: Kind::Aside(slot),
        }
    }

    pub(crate) fn broken(slot: Broken<D>) -> Shelved<D>
        ensures { result ≡ is_broken slot }
    {
        Shelved {
            kind: Kind::Broken(slot),
        }
    }

    pub(crate) fn into_kind(self) -> Kind<D>
        ensures { shelved_view result ≡ self }
    {
        let Shelved { kind } = self;
        kind
    }
}
