//! What a frame gives.

use bytes::Bytes;

/// What a frame that was accepted asks of the server.
#[derive(Debug, Drop)]
pub enum Taken {
    /// Nothing yet: the frame is a chunk of a message of which more is to come.
    Nothing,

    /// A request is whole.
    Request {
        /// The number by which the client knows the request. The answer has it too.
        id: u32,

        /// The request's type id and fields, joined of all its chunks.
        body: Bytes,
    },

    /// The client asks for the channel to be opened, or for a new token of the open one. The answer
    /// goes out by `send_opening`, once `grant` has made the token.
    Opening {
        /// The number by which the client knows the request. The answer has it too.
        id: u32,

        /// The handle in the request's header, which the answer's header repeats.
        handle: u32,

        /// Whether the channel is open, and gets a new token.
        renew: bool,
    },

    /// The client closed the channel. Nothing is sent, and the connection is closed.
    Closed,

    /// The client gave up the request of which chunks had come. There is no answer to it.
    Aborted {
        /// The number by which the client knew the request.
        id: u32,
    },
}
