//! What a disk is to the firewall's programs, and what a crash may leave of it.
//!
//! [`Disk`] is a file that can be read, written, cut and synced. Its one ghost member tells, for a disk that tells,
//! the medium as it is now and all that it was before: the bytes as read, the bytes of the last sync, the ranges
//! written since, and the least and the greatest length since. From these it follows which bytes a crash at any of
//! these moments may leave, the images of the medium. Every call that changes the medium adds the one before it to
//! the past, so what holds at each moment of a call is said of the media that it added.
#![tactic(auto)]

mod disk;
pub mod laws;
mod setting;

pub use disk::Disk;
pub use fw_outside::Failed;
pub use setting::set_byte;
