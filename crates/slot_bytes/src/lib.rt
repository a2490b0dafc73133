//! The bytes of a slot file, in both versions, and what they are read as.
//!
//! A slot file holds one message or none. [`read_slot`] says what a whole file is read as: free, a message, a message
//! that was set aside, or bad bytes with the first bad one. A message comes with the places of the recipients that are
//! done, which version 2 marks. [`read_head`] reads what stands in front of the body, from
//! a front of the file; [`head_bytes`] writes it. The layout is `slot_bytes` of `specs/Layout.antt`, what a file is
//! read as is `reads` of `specs/Reading.antt`, and `laws` says that these two fit together.
#![tactic(auto)]

mod fault;
mod fields;
mod head;
mod kept;
pub mod laws;
mod slot;
mod writing;

pub use fault::{HeadFault, SlotFault};
pub use fw_types::Message;
pub use head::{Head, read_head};
pub use kept::{Kept, Places, done_of};
pub use slot::{Slot, read_slot};
pub use writing::{head_bytes, length_bytes};
