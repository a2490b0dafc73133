/// Whom data go to.
#[derive(Clone, Copy, Debug, PartialEq, Eq)]
pub enum Toward {
    Client,
    Server,
}
