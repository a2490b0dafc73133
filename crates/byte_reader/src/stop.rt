/// Where reading stopped.
#[derive(Clone, Copy, Debug, PartialEq, Eq)]
pub struct Stop {
    /// How many bytes there are from the first bad one on: 0 where the bytes end too early.
    pub left: usize,
}
