//! Stores of slots: slots are taken from them and put back.
//!
//! [`SlotStore`] says what a store is, and [`MailStore`] that its slots are those of this spool. [`Rack`] is the store of
//! one thread.
#![tactic(auto)]

mod bare;
mod closing;
pub mod laws;
mod loans;
mod mail_store;
mod opening;
mod queue;
mod rack;
mod shelving;
mod slots;
mod stock;

pub use mail_store::{MailStore, SlotStore};
pub use opening::RackFault;
pub use rack::Rack;
pub use slots::RackSlots;
pub use spool_slots::{
    Aside, Broken, Filling, Free, Full, Opened, ReadBack, SlotWhy, StartFault, format, open,
};
pub use stock::Stock;
