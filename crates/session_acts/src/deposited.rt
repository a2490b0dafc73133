/// How it went with a message that was to be kept.
#[derive(Clone, Copy, Debug, PartialEq, Eq)]
pub enum Deposited {
    /// No slot is free. The client was told nothing.
    NoSlot,
    /// The disk of the slot failed before the message was begun. The client was told nothing.
    NotBegun,
    /// The message stands in the slot of this number, and so many bytes has its body.
    Kept { slot: u32, bytes: u32 },
    /// The body has more bytes than may be. The slot is free again.
    TooLarge,
    /// The disk of the slot failed behind the words. The slot is broken.
    Faulted,
    /// The client came to its end before its data did.
    Ended,
}
