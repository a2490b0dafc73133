//! What a client of mail says, line by line (RFC 821): its commands (sections 2 and 4.1.1), the paths in them (section
//! 4.1.2), and the body of a mail (sections 4.1.1 and 4.5.2).
//!
//! [`read_mail_command`] reads one line, [`read_path`] what follows the colon of `MAIL FROM:` and `RCPT TO:`, and
//! [`MailBody::feed`] the data of a mail byte by byte. The first two are equations with the definitions of `specs/`.
//! The contract of the third speaks of whole texts, however they go on: the body of what is still to be read, the byte
//! and the rest is what the step gives, and then the body of what is still to be read and the rest. Nothing takes
//! memory. `laws` says what the definitions come to: which lines and texts are read as what, and what steps over a text
//! give.
#![tactic(auto)]

mod blank;
mod body;
mod command;
pub mod laws;
mod path;
mod place;
mod verb;

pub use body::{BodyStep, MailBody};
pub use command::{MailCommand, read_mail_command};
pub use path::{Path, PathFault, read_path};
pub use verb::Verb;
