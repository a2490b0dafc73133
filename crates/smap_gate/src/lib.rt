//! The mail gateway: a session of `smap`, which takes messages and puts each in a slot of a store, whole or not at all.
//!
//! Its rows stand in `specs/Dialogue.antt`. [`smap_session`] holds a session over the devices that it needs, as
//! `session_acts` says it of all sessions; [`SmapScript`] has the rows, for whoever runs them over other devices. [`laws`]
//! says what a session comes to in the subject's words. How paths and bodies are read stands in `smap_lines`, and is handed
//! on here.
#![tactic(auto)]

mod dummies;
pub mod laws;
mod log_lines;
mod mail;
mod paths;
mod place;
mod rows;
mod script;
mod session;
mod texts;

pub use dummies::{NoClock, NoDice, NoPort};
pub use place::Place;
pub use script::SmapScript;
pub use session::smap_session;
pub use smap_lines::{BodyStep, MailBody, Path, PathFault, read_path};
