//! What each step tells the seat that takes it. These types are for the proofs alone.
ghost use Rattle.turn_lock.specs.Steps.{Claims, Enters, Frees, Loads, Looks};

use crate::StandsFor;
use crate::view::View;
use atomic_table::Play;

pub(crate) struct Claim;

impl<V: StandsFor> Play<Option<V>, View<V::Entry, V::Origin>> for Claim {
    ghost then = { Claims V.entries V.limit V.origin };
}

pub(crate) struct Load;

impl<V: StandsFor> Play<Option<V>, View<V::Entry, V::Origin>> for Load {
    ghost then = { λ _ old _ new. Loads old new };
}

pub(crate) struct Enter;

impl<V: StandsFor> Play<Option<V>, View<V::Entry, V::Origin>> for Enter {
    ghost then = { λ _ old _ new. Enters V.entries old new };
}

pub(crate) struct Free;

impl<V: StandsFor> Play<Option<V>, View<V::Entry, V::Origin>> for Free {
    ghost then = { λ _ old _ new. Frees old new };
}

pub(crate) struct Look;

impl<V: StandsFor> Play<Option<V>, View<V::Entry, V::Origin>> for Look {
    ghost then = { λ _ old _ new. Looks old new };
}
