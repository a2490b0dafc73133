//! Lines about operations, one by one.
use auth_events::OpService;
use fw_types::Name;
use gate_rules::Hours;
use host_pattern::PatternList;

/// Whose name a line about operations has.
#[derive(Clone, Copy, Debug, PartialEq, Eq)]
pub enum Holder {
    User,
    Group,
}

/// A line that permits or denies an operation.
#[derive(Drop)]
pub struct OperationLine {
    /// Its number in the table, counted from 1.
    pub number: u32,
    /// Whether it permits the operation.
    pub permits: bool,
    /// Whether the name is a user's or a group's.
    pub holder: Holder,
    /// For whom it is, or nothing where it is for all.
    pub name: Option<Name>,
    /// For which gateway it is, or nothing where it is for all.
    pub service: Option<OpService>,
    /// The destinations that it speaks of.
    pub hosts: PatternList,
    /// When it is open, or nothing where it always is.
    pub hours: Option<Hours>,
}
