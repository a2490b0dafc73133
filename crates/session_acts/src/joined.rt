/// Whether two data links came up.
#[derive(Clone, Copy, Debug, PartialEq, Eq)]
pub enum Joined {
    /// Both did.
    Up,
    /// The one to the server was refused.
    NoSide,
    /// The client's was refused.
    NoNear,
    /// None was asked for: no main link is up, or no door stands where one is wanted.
    Unready,
}
