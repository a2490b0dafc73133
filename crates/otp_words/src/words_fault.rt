use thiserror::Error;

/// Why a text isn't six words of a password.
#[derive(Clone, Copy, Debug, PartialEq, Eq, Error)]
pub enum WordsFault {
    /// There aren't six words.
    #[error("there aren't six words")]
    Count,
    /// This word, counted from 1, isn't in the dictionary.
    #[error("word {at} isn't in the dictionary")]
    NoWord { at: u8 },
    /// The check bits aren't those of the password.
    #[error("the check bits differ")]
    Check,
}
