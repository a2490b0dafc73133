/// How the log tells a turn.
#[derive(Clone, Copy)]
pub(crate) enum Word {
    Accepted,
    Refused,
    Failed,
    Broken,
}
