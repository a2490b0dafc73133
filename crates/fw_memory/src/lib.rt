//! Devices in memory, for tests and for runs that are told beforehand what each device does.
//!
//! They tell all that they hold, but for lists for which there is no more room or number: those of [`MemDialer`] past
//! its room, and those of [`MemClock`] and [`MemDice`] once their calls can't be counted in 64 bits.
//!
//! [`MemSource`] and [`MemKeeper`] fail exactly at the calls that they are told, and so do the sources that
//! [`MemFiles`] gives. [`MemSink`] fails at those and at a gift for which there is no room, and at no other.
//! [`MemFiles`] gives no source for a name that it lacks; that it gives one for each other name, if there is memory, is
//! said by no clause. [`MemClock`] gives the moments that it was made with, then the last one again, and 0 if it has
//! none. [`MemDice`] count up from the number that they were made with. [`MemDialer`] brings up the links and opens the
//! doors that it was given, in order, and refuses exactly the calls that it is told, those past its room, and those for
//! which no link or door is left. [`MemLauncher`] starts nothing: it fails at the calls that it is told, and if it has no memory to note a
//! program, and answers as it is told at each other. [`MemMailer`] hands nothing on: each call answers as it is told, and past
//! that it accepts; what it accepts it keeps, and where there is no memory for that it answers so. [`MemDisk`] fails at the calls that it is told, and if it has no
//! memory for a change; a crash of it leaves an image of its medium, which a number picks.
#![tactic(auto)]

mod call_counter;
mod calls;
mod medium;
mod mem_clock;
mod mem_dialer;
mod mem_dice;
mod mem_disk;
mod mem_files;
mod mem_keeper;
mod mem_launcher;
mod mem_mailer;
mod mem_sink;
mod mem_source;
mod past;
mod picking;
mod tape;

pub use calls::Calls;
pub use mem_clock::MemClock;
pub use mem_dialer::{MemDialer, MemDoor};
pub use mem_dice::MemDice;
pub use mem_disk::MemDisk;
pub use mem_files::MemFiles;
pub use mem_keeper::MemKeeper;
pub use mem_launcher::MemLauncher;
pub use mem_mailer::MemMailer;
pub use mem_sink::MemSink;
pub use mem_source::MemSource;
