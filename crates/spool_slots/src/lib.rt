//! Slots: files on disks, each of which holds one message or none.
//!
//! Each state of a slot is a type that owns the slot's disk. [`format()`] makes a [`Free`] slot of any disk, and
//! [`open`] says what stands on one. A message is begun by [`Free::start`], added to by [`Filling::add`], and stands
//! once [`Filling::finish`] answers Ok; [`Full::message`] reads it. A [`Full`] slot is released or set [`Aside`], and a
//! slot whose disk failed, or which wasn't opened, is [`Broken`]. What every image of the disk is read as, which is what a crash may leave, is
//! said by the definitions of `specs/Images.antt`.
#![tactic(auto)]

mod adding;
mod aside;
mod broken;
mod clearing;
mod filling;
mod finishing;
mod free;
mod full;
mod looking;
mod messages;
mod opening;
mod pen;
mod read_back;
mod slot_why;
mod start_fault;
mod starting;

pub use aside::Aside;
pub use broken::Broken;
pub use clearing::{format, format_in_place};
pub use filling::Filling;
pub use free::Free;
pub use full::Full;
pub use opening::{Opened, open};
pub use read_back::ReadBack;
pub use slot_why::SlotWhy;
pub use spool_law::laws;
pub use start_fault::StartFault;
