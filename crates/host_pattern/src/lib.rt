//! Host patterns: which parties, known by an address, a name or both, a line of the table speaks of.
//!
//! `Pattern::parse` gives the pattern that a text is, or the first fault of it. `Pattern::matches` answers whether a
//! body matches a party, by its kind: `unknown`, stars alone, one for addresses, an address and a mask, one for names.
//! `PatternList::matches` answers what the first pattern whose body matches says. Their contracts are equations with the definitions of
//! `specs/`, where a glob is defined by its three cases and not by the walk that computes it, and they count each test
//! of a pattern in `Steps`. `laws` says what these definitions come to.
#![tactic(auto)]

mod bucket;
mod fault;
pub mod laws;
mod list;
mod mask;
mod party;
mod pattern;
mod steps;
mod walk;
mod word;

pub use bucket::Bucket;
pub use fault::{ListFault, PatternFault};
pub use list::PatternList;
pub use pattern::Pattern;
pub use steps::Steps;
pub use word::Word;
