//! Sessions: what a server keeps of the clients that it talks with, beyond their connections.
//!
//! [`Sessions`] makes sessions and ends them, moves them between connections, and judges by the
//! authentication token in a request's header whether a session may be used (IEC 62541-4, "Session Service
//! Set"). It reads no clock and makes no random number: moments come by [`Sessions::tick`], and what is
//! secret comes from the keys of the connections. The services and their structures are not known here.
//!
//! ```text
//! let created = sessions.create(alloc, conn, &key)?;             // CreateSession
//! sessions.activate(&created.token, conn, &key, true)?;          // ActivateSession, an anonymous user
//! let number = sessions.find(&request_header.authentication_token, conn)?;   // every later request
//! let ended = sessions.tick(alloc, now)?;                        // their numbers
//! ```
//!
//! What a contract sees: a record of the sessions by their numbers (`specs/Sessions`). docs/SERVICES.md
//! has a session's life as a picture. Read [`Sessions`] first, then [`Points`].
#![tactic(auto)]

pub mod laws;
mod nonces;
mod points;
mod session;
mod session_points;
mod session_table;
mod sessions;
mod tokens;

pub use nonces::nonce;
pub use points::{BrowsePoint, HistoryPoint, Point, Points, point_bytes, point_serial};
pub use session::Session;
pub use sessions::{Created, Sessions};
pub use tokens::{session_id, session_secret, session_token};
