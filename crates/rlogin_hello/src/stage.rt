//! Where the reading of a hello stands.

#[derive(Clone, Copy)]
pub(crate) enum Stage {
    /// Nothing has come.
    Start,
    /// In the client's user.
    Client,
    /// In the server's user.
    Server,
    /// In the terminal and its speed.
    Terminal,
    /// The hello is whole.
    Ready,
    /// It is no hello.
    Bad,
}

/// What a byte does to a text of a hello.
#[derive(Clone, Copy)]
pub(crate) enum Heard {
    /// It is one byte more.
    More,
    /// It is the zero byte at the end.
    Ended,
    /// It is one byte too many.
    TooLong,
}
