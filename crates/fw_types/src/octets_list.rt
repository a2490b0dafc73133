ghost use Rattle.std.specs.Prelude.{◌≡◌, ◌<◌, ◌==◌, [], ◌∷◌, ◌++◌, length, slice_get, OnOk, OnErr, IfOk, IfErr};

use crate::{NoMemory, Octets};
use std::alloc::Global;
use std::marker::Model;
use std::{mem, slice};

/// Where the members of an `OctetsList` are kept.
#[derive(Drop)]
pub enum Items {
    None,
    One(Octets),
    More(Vec<Octets>),
}

/// A list of lists of bytes. A single one is kept in the value itself.
#[derive(Drop)]
pub struct OctetsList {
    alloc: Global,
    items: Items,
}

impl Model for OctetsList {
    ghost use Rattle.std.specs.Prelude.{ℕ, List};
    ghost use Rattle.fw_types.specs.OctetsList.{stored_items};

    ghost Value = { List (List ℕ) };

    ghost view = { λ list. stored_items list.items };
}

// The two, or the second given back.
fn two(alloc: Global, first: Octets, second: Octets) -> Result<Vec<Octets>, (Octets, Octets)>
    ensures ok { IfOk result (λ items. items.items ≡ first ∷ second ∷ []) }
    ensures back { IfErr result (λ e. e ≡ (first, second)) }
{
    let Ok(mut items) = Vec::with_capacity(alloc, 2) else {
        return Err((first, second));
    };
    items.push_reserved(first);
    items.push_reserved(second);
    Ok(items)
}

// One more behind a vector's members, or it is given back.
fn more(mut items: Vec<Octets>, one: Octets) -> Result<Vec<Octets>, (Vec<Octets>, Octets)>
    ensures ok { IfOk result (λ longer. longer.items ≡ items.items ++ one ∷ []) }
    ensures back { IfErr result (λ e. (e.0.items ≡ items.items) × (e.1 ≡ one)) }
{
    match items.push(one) {
        Ok(()) => Ok(items),
        Err(failed) => Err((items, failed.value)),
    }
}

impl OctetsList {
    /// An empty list, which takes no memory. What is pushed later is kept in memory of `alloc`.
    pub fn new(alloc: Global) -> OctetsList
        ensures { result ≡ [] }
    {
        OctetsList {
            alloc,
            items: Items::None,
        }
    }

    /// Adds one at the end, or gives it back.
    pub fn push(&mut self, one: Octets) -> Result<(), (Octets, NoMemory)>
        ensures ok { OnOk result (self.new ≡ self.old ++ one ∷ []) }
        ensures err { OnErr result (self.new ≡ self.old) }
        ensures back { IfErr result (λ e. e.0 ≡ one) }
    {
        match mem::replace(&mut self.items, Items::None) {
            Items::None => {
                self.items = Items::One(one);
                Ok(())
            }
            Items::One(first) => self.push_second(first, one),
            Items::More(items) => self.push_more(items, one),
        }
    }

    // Sets the list to these two, or to the first.
    fn push_second(&mut self, first: Octets, one: Octets) -> Result<(), (Octets, NoMemory)>
        ensures ok { OnOk result (self.new ≡ first ∷ one ∷ []) }
        ensures err { OnErr result (self.new ≡ first ∷ []) }
        ensures back { IfErr result (λ e. e.0 ≡ one) }
    {
        match two(self.alloc, first, one) {
            Ok(items) => {
                self.items = Items::More(items);
                Ok(())
            }
            Err((first, one)) => {
                self.items = Items::One(first);
                Err((one, NoMemory))
            }
        }
    }

    // Sets the list to these and one more, or to these.
    fn push_more(&mut self, items: Vec<Octets>, one: Octets) -> Result<(), (Octets, NoMemory)>
        ensures ok { OnOk result (self.new ≡ items.items ++ one ∷ []) }
        ensures err { OnErr result (self.new ≡ items.items) }
        ensures back { IfErr result (λ e. e.0 ≡ one) }
    {
        match more(items, one) {
            Ok(items) => {
                self.items = Items::More(items);
                Ok(())
            }
            Err((items, one)) => {
                self.items = Items::More(items);
                Err((one, NoMemory))
            }
        }
    }

    /// How many there are.
    pub fn len(&self) -> usize
        ensures { result ≡ length self.now }
    {
        self.as_slice().len()
    }

    /// Whether there is none.
    pub fn is_empty(&self) -> bool
        ensures { result ≡ (length self.now == 0) }
    {
        self.as_slice().is_empty()
    }

    /// The one at a place, counted from 0.
    pub fn get(&self, at: usize) -> &Octets
        requires { at < length self.now }
        ensures { slice_get self.now at ≡ Some result.now }
    {
        &self.as_slice()[at]
    }

    /// All of them, in order.
    pub fn as_slice(&self) -> &[Octets]
        ensures { result.now ≡ self.now }
    {
        match &self.items {
            Items::None => &[],
            Items::One(one) => slice::from_ref(one),
            Items::More(items) => items.as_slice(),
        }
    }
}
