use crate::keywords::Keywords;
use crate::words::Words;
use fw_types::Octets;

/// A line of the table that isn't skipped: its number in the text, counted from 1, the keywords before its colon, the
/// attribute, which is the first word after it, and the other words.
#[derive(Drop)]
pub struct Line {
    pub number: u32,
    pub keywords: Keywords,
    pub attribute: Octets,
    pub words: Words,
}
