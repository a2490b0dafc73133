/// What the bytes of a client are, as far as they have come.
#[derive(Clone, Copy, Debug, PartialEq, Eq)]
pub enum HelloStep {
    /// The hello isn't whole yet.
    More,
    /// The hello is whole.
    Ready,
    /// They are no hello, however they go on.
    Bad,
}
