/// From which number a drill draws, and how many lines and peers.
#[derive(Clone, Copy, Debug, PartialEq, Eq)]
pub struct Drill {
    pub start: u32,
    pub count: u32,
}
