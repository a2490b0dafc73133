/// What became of a call.
#[derive(Drop)]
pub enum Dialed<I, O> {
    /// The two ends of the link that came up.
    Up(I, O),
    /// No link came up.
    Refused,
}
