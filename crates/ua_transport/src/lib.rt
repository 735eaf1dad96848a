//! What carries messages (IEC 62541-6): the frames of a byte stream, and the chunks and messages of a secure channel.
//!
//! - **OPC UA Connection Protocol** (7.1). A server over TCP receives bytes in pieces of any size. [`Framer`] is fed the pieces and
//!   gives the [`Frame`]s that are whole by then, and at the first bad header a [`FrameFault`]. Where the stream is cut makes no
//!   difference: [`laws::any_cut`] states it. The first frame is a Hello: [`hello`] takes or refuses it, [`ack`] and [`err`] make
//!   the answers, and what was settled is [`Agreed`].
//! - **OPC UA Secure Conversation** (6.7), with SecurityPolicy None. A [`Channel`] is driven from both sides. What comes from the client
//!   goes in frame by frame: [`Channel::take`] judges the frame, joins the chunks of a message, and gives what the server is to do about
//!   it, a [`Taken`], or refuses the frame, after which the connection is closed. What the server answers goes out by [`Channel::send`]
//!   and [`Channel::send_opening`], which cut it into chunks. A request to open or renew the channel is answered by
//!   [`Channel::grant`], which gives the token. The other side's requests are cut by the same [`cut`], and given up by a [`chunk`] of
//!   type `A`.
//!
//! Here is no clock, no socket and no connection: tokens don't end by time, bytes come in as they were read, and go out as values. What
//! a request says is not looked at, but for the one that opens the channel.
//!
//! What a contract sees: of a [`Framer`] its limit and the bytes held, or none once it failed; of a [`Channel`] what is agreed, the
//! tokens, the sequence numbers, the unfinished message, and the status that it was refused with.
//!
//! Read [`Framer`], [`Frame`], [`Channel`] and [`Taken`] first. `specs/` defines what the frames of a stream are (`Header`, `Frames`,
//! `Feeding`), how a frame is written (`Encoding`), what is agreed (`Agreements`), what a server of any kind does with the pieces of a
//! stream (`Pieces`), what a channel is (`ChannelStates`), which frames it accepts (`Acceptance`), which messages chunks join to
//! (`Messages`), and how an answer is cut (`Cutting`).
#![tactic(auto)]

mod channel;
mod cutting;
mod frame;
mod framer;
mod handshake;
mod headers;
mod hello_message;
pub mod laws;
mod limits;
mod messages;
mod openings;
mod send_fault;
mod sequence_numbers;
mod taken;

pub use channel::Channel;
pub use cutting::{chunk, cut, opening_chunk};
pub use frame::{ChunkType, Frame, FrameFault, MessageType};
pub use framer::{Fed, Framer};
pub use handshake::{Agreed, ack, err, hello};
pub use headers::{ChunkHeader, OpeningHeader};
pub use hello_message::Hello;
pub use limits::Limits;
pub use send_fault::SendFault;
pub use sequence_numbers::sequence_number_after;
pub use taken::Taken;
