use fw_types::Name;

/// Over which records a session has power.
#[derive(Drop)]
pub enum Power {
    /// None.
    Nobody,
    /// Those of a group, if any.
    Members(Option<Name>),
    /// All.
    Everybody,
}
