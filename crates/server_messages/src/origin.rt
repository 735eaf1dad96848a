//! Whose request it is.

/// Where a request came from, and how its client knows the answer.
#[derive(Clone, Copy, Debug, Drop)]
pub struct Origin {
    /// The number of the connection that it came by, and that the answer is sent on.
    pub conn: u64,
    /// The request's number on that connection, chosen by the client.
    pub id: u32,
    /// The handle in the request's header, 0 where the header can't be read.
    pub handle: u32,
}
