//! Who takes messages on from the firewall: a mailer.
//!
//! [`Mailer`] is a trait with one ghost member, a plain record that says what a mailer means: the messages that it
//! accepted, which a proof is told of every mailer and a program only of one that keeps them, and how often it refused one
//! or failed. Its clauses say what each answer does to that record. Only a mailer itself can change it: of code that keeps
//! the mailers that it was handed, a refusal or a failure that it reports has its cause in one of them. A program has its
//! mailers as `Box<dyn Mailer>`, since which they are is known only where it is started.
//!
//! That a mailer which accepted a message delivers it is said by no clause.
#![tactic(auto)]

mod handed;
mod handing;
mod mailer;

pub use fw_types::Message;
pub use handed::Handed;
pub use handing::hand_to_first;
pub use mailer::Mailer;
