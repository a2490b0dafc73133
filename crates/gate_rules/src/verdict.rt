/// What the table decides of a peer, with the number of the line that decided, or 0 where none did.
#[derive(Clone, Copy, Debug, PartialEq, Eq)]
pub enum Verdict {
    Permit { line: u32 },
    Deny { line: u32 },
}
