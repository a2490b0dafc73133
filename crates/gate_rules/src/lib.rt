//! What a permission table says to a service: who may use it, with which options, and its settings.
//!
//! [`Rules::of`] reads the lines of one service, exactly as `rules_of` of `specs/Reading` does, or answers the first
//! line that can't be read with the cause of its leftmost bad word. [`Rules::verdict`] is decided by the first line
//! whose host list matches the peer. [`Rules::options`] gives the options of a permit line, [`destination`] whether
//! they let a client go to a destination, and [`Rules::setting`] the value and the line of the first line that sets a
//! setting. Of a line about operations [`hosts_of_operation`] gives the hosts, and [`hours_of_operation`] the hours in
//! which it is open.
#![tactic(auto)]

mod attribute;
pub mod bucket_laws;
mod fault;
mod gathered;
mod hours;
mod index;
mod label;
pub mod laws;
mod line_effect;
mod line_fault;
mod lists;
mod merging;
mod operation;
mod operation_hosts;
mod operation_hours;
mod option_check;
mod option_kind;
mod options;
mod options_builder;
mod parsed_option;
mod reading;
mod rule;
mod rules;
mod service;
mod setting;
mod shared_options;
mod verdict;
mod words;

pub use fault::{RuleFault, RulesFault, Why};
pub use hours::Hours;
pub use label::Label;
pub use operation_hosts::hosts_of_operation;
pub use operation_hours::hours_of_operation;
pub use options::{Options, destination};
pub use rule::Rule;
pub use rules::Rules;
pub use service::Service;
pub use setting::{Assigned, Setting};
pub use shared_options::SharedOptions;
pub use verdict::Verdict;
