use fw_types::Octets;

/// A word of a line, without its quotes if it stood in quotes.
#[derive(Drop)]
pub struct Word {
    pub text: Octets,
    pub quoted: bool,
}
