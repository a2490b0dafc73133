ghost use Rattle.std.specs.Prelude.{◌≡◌, option_map, refl};
ghost use Rattle.spool_slots.specs.States.{SlotView, FullView, BrokenView};
ghost use Rattle.spool_rack.specs.Store.{StoreView, IsOut, MayPutAside, MayPutBroken, MayPutFull, PutsBroken};
ghost use Rattle.spool_rack.specs.Store.{TakesFree, TakesFull, put_aside, put_free, put_full};

use crate::Rack;
use fw_disk::Disk;
use spool_slots::{Aside, Broken, Free, Full};

/// A store, from which slots are taken and to which they are put back. Takes come from the front, and puts go to the
/// back. None of its calls takes memory. It names the types of its slots, each of which it sees as data.
pub trait SlotStore {
    type Free;

    type Full;

    type Aside;

    type Broken;

    /// The slots that stand in it, those that are out, and what was counted.
    ghost store_view: { Self → StoreView };

    /// Its slots as data.
    ghost free_view: { Self.Free → SlotView };

    ghost full_view: { Self.Full → FullView };

    ghost aside_view: { Self.Aside → SlotView };

    ghost broken_view: { Self.Broken → BrokenView };

    /// A free slot, if there is one.
    fn take_free(&mut self) -> Option<Self::Free>
        ensures { TakesFree (option_map free_view result) (store_view self.old) (store_view self.new) };

    /// A slot with a message, if there is one.
    fn take_full(&mut self) -> Option<Self::Full>
        ensures { TakesFull (option_map full_view result) (store_view self.old) (store_view self.new) };

    /// Puts back a slot that was taken, and is free.
    fn put_free(&mut self, slot: Self::Free)
        requires { IsOut (free_view slot).number (store_view self.old).out }
        ensures { store_view self.new ≡ put_free (free_view slot) (store_view self.old) };

    /// Puts back a slot that was taken, and has a message.
    fn put_full(&mut self, slot: Self::Full)
        requires { MayPutFull (full_view slot) (store_view self.old).out }
        ensures { store_view self.new ≡ put_full (full_view slot) (store_view self.old) };

    /// Puts back a slot that was taken full, and whose message was set aside.
    fn put_aside(&mut self, slot: Self::Aside)
        requires { MayPutAside (aside_view slot) (store_view self.old).out }
        ensures { store_view self.new ≡ put_aside (aside_view slot) (store_view self.old) };

    /// Puts back a slot that was taken, and whose disk failed.
    fn put_broken(&mut self, slot: Self::Broken)
        requires { MayPutBroken (broken_view slot) (store_view self.old).out }
        ensures { PutsBroken (broken_view slot) (store_view self.old) (store_view self.new) };
}

/// A store of slots on disks of one type, which it sees as they are.
pub trait MailStore: SlotStore<
    Free = Free<Self::D>,
    Full = Full<Self::D>,
    Aside = Aside<Self::D>,
    Broken = Broken<Self::D>,
> {
    type D: Disk;

    ghost sees_free: { (slot : SlotView) → Self.free_view slot ≡ slot };

    ghost sees_full: { (slot : FullView) → Self.full_view slot ≡ slot };

    ghost sees_aside: { (slot : SlotView) → Self.aside_view slot ≡ slot };

    ghost sees_broken: { (slot : BrokenView) → Self.broken_view slot ≡ slot };
}

impl<D: Disk> SlotStore for Rack<D> {
    type Free = Free<D>;

    type Full = Full<D>;

    type Aside = Aside<D>;

    type Broken = Broken<D>;

    ghost store_view = { λ rack. rack };

    ghost free_view = { λ slot. slot };

    ghost full_view = { λ slot. slot };

    ghost aside_view = { λ slot. slot };

    ghost broken_view = { λ slot. slot };

    fn take_free(&mut self) -> Option<Free<D>> {
        match Rack::take_free(self) {
            Some(slot) => Some(slot),
            None => None,
        }
    }

    fn take_full(&mut self) -> Option<Full<D>> {
        match Rack::take_full(self) {
            Some(slot) => Some(slot),
            None => None,
        }
    }

    fn put_free(&mut self, slot: Free<D>) {
        Rack::put_free(self, slot);
    }

    fn put_full(&mut self, slot: Full<D>) {
        Rack::put_full(self, slot);
    }

    fn put_aside(&mut self, slot: Aside<D>) {
        Rack::put_aside(self, slot);
    }

    fn put_broken(&mut self, slot: Broken<D>) {
        Rack::put_broken(self, slot);
    }
}

impl<T: Disk> MailStore for Rack<T> {
    type D = T;

    ghost sees_free = { λ slot. refl };

    ghost sees_full = { λ slot. refl };

    ghost sees_aside = { λ slot. refl };

    ghost sees_broken = { λ slot. refl };
}
