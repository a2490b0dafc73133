//! Putting an item, again until it is in.
ghost use Rattle.std.specs.Prelude.{◌≡◌, ◌<◌, ◌^◌};
ghost use Rattle.crossbeam_queue.specs.Passes.{IsPassOf, IsSamePass, view};
ghost use Rattle.shared_queue.specs.Steps.{begun, putting};

use crate::log::Log;
use crate::rule::{Balance, Begins, Puts};
use crossbeam_queue::{Pass, RuledArrayQueue};
use std::sync::Wait;

pub(crate) type Ring<T> = RuledArrayQueue<T, Log<T>, Balance>;

/// Puts an item that the queue begins with.
pub(crate) fn begin_in<T: Drop, R: Wait>(
    rt: &R,
    ring: &Ring<T>,
    pass: &mut Pass<T, Log<T>>,
    item: T,
)
    requires queue { IsPassOf ring.now pass.old }
    requires all { (view pass.old).parts ≡ 2 ^ 64 }
    ensures same { IsSamePass pass.old pass.new }
    ensures begun { view pass.new ≡ begun (view pass.old) item }
{
    let mut item = item;
    for _ in rt.forever() {
        match ring.push_as::<Begins, R>(rt, pass, item) {
            Ok(()) => return,
            Err(back) => item = back,
        }
    }
    unreachable!()
}

/// Puts an item at the back.
pub(crate) fn put_in<T: Drop, R: Wait>(rt: &R, ring: &Ring<T>, pass: &mut Pass<T, Log<T>>, item: T)
    requires queue { IsPassOf ring.now pass.old }
    requires part { 0 < (view pass.old).parts }
    ensures same { IsSamePass pass.old pass.new }
    ensures put { view pass.new ≡ putting (view pass.old) item }
{
    let mut item = item;
    for _ in rt.forever() {
        match ring.push_as::<Puts, R>(rt, pass, item) {
            Ok(()) => return,
            Err(back) => item = back,
        }
    }
    unreachable!()
}
