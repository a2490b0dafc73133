/// Two data links: one to the server, and one to the client.
#[derive(Drop)]
pub(crate) struct DataPair<A, B> {
    pub(crate) far_from: A,
    pub(crate) far_to: B,
    pub(crate) near_from: A,
    pub(crate) near_to: B,
}
