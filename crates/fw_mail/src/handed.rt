/// What became of a message that was handed to a mailer.
#[derive(Clone, Copy, Debug, PartialEq, Eq)]
pub enum Handed {
    /// The mailer took it on.
    Accepted,
    /// The mailer doesn't take this message.
    Refused,
    /// The mailer couldn't take it now.
    Failed,
    /// There was no memory to hand it over.
    NoMemory,
}
