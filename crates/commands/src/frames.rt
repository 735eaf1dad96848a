//! What the frames that the server sends tell of what is served, as far as their headers show it.

use server_core::Out;
use ua_types::Status;

// How a chunk of a message begins: any, one that more follow, and one that is a whole message or its end (IEC 62541-6, 6.7.2). The
// body of a message lies behind 24 bytes of headers: the id of its type in 4 bytes, its response header of 24 (IEC 62541-4,
// ResponseHeader), and then its fields.
const CHUNK: &[u8] = b"MSG";

const BEFORE_THE_LAST: &[u8] = b"MSGC";

const LAST: &[u8] = b"MSGF";

// The ids of types in the binary encoding (IEC 62541-6, 5.2.2.9): i=397, 634, 676, 829 and 811.
const SERVICE_FAULT: &[u8] = &[1, 0, 0x8D, 1];

const READ_RESPONSE: &[u8] = &[1, 0, 0x7A, 2];

const WRITE_RESPONSE: &[u8] = &[1, 0, 0xA4, 2];

const PUBLISH_RESPONSE: &[u8] = &[1, 0, 0x3D, 3];

const DATA_CHANGES: &[u8] = &[1, 0, 0x2B, 3];

// The number of 32 bits that stands there, least byte first.
fn number_at(frame: &[u8], place: usize) -> Option<u32> {
    match frame.get(place..place.saturating_add(4))? {
        [a, b, c, d] => Some(u32::from_le_bytes([*a, *b, *c, *d])),
        _ => None,
    }
}

// The length of the list that stands there; a null list has none.
fn length_at(frame: &[u8], place: usize) -> Option<u32> {
    match number_at(frame, place)? {
        u32::MAX => Some(0),
        count => Some(count),
    }
}

fn has_at(frame: &[u8], place: usize, id: &[u8]) -> bool {
    frame.get(place..place.saturating_add(4)) == Some(id)
}

// How many data changes a PublishResponse notifies of: behind its subscription and the numbers that are available stand a flag, the
// message's number and time, and its first notification.
fn notified_in(frame: &[u8]) -> Option<u32> {
    let available = length_at(frame, 56)? as usize;
    let behind = available.saturating_mul(4).saturating_add(77);
    if has_at(frame, behind, DATA_CHANGES) {
        number_at(frame, behind.saturating_add(9))
    } else {
        None
    }
}

// How many values the first chunk of an answer says that it has.
fn values_in(frame: &[u8]) -> Option<u32> {
    if has_at(frame, 24, READ_RESPONSE) || has_at(frame, 24, WRITE_RESPONSE) {
        length_at(frame, 52)
    } else if has_at(frame, 24, PUBLISH_RESPONSE) {
        notified_in(frame)
    } else {
        None
    }
}

/// How much was served.
#[derive(Clone, Copy, Debug, PartialEq, Eq)]
pub(crate) struct Counts {
    /// The requests that were answered.
    pub(crate) requests: u64,
    /// The values that were read, written or notified of.
    pub(crate) values: u64,
}

impl Counts {
    pub(crate) const NONE: Counts = Counts {
        requests: 0,
        values: 0,
    };

    /// Counts what answers an event. The chunks of a message come one behind the other.
    pub(crate) fn count(&mut self, outs: &[Out]) {
        let mut begins = true;
        for out in outs {
            if let Out::Send { conn: _, bytes } = out {
                let frame = bytes.as_slice();
                if frame.starts_with(CHUNK) {
                    if begins {
                        let values = values_in(frame).unwrap_or(0);
                        self.values = self.values.saturating_add(values as u64);
                    }
                    begins = !frame.starts_with(BEFORE_THE_LAST);
                    if begins {
                        self.requests = self.requests.saturating_add(1);
                    }
                }
            }
        }
    }
}

/// A session or a user that the server refused.
#[derive(Clone, Copy, Debug, PartialEq, Eq)]
pub(crate) struct Refusal {
    pub(crate) number: u64,
    pub(crate) status: Status,
}

// The status of a fault that CreateSession or ActivateSession alone answers (IEC 62541-4, 5.6.2 and 5.6.3), if this frame is one.
fn refusal_in(frame: &[u8]) -> Option<Status> {
    if !frame.starts_with(LAST) || !has_at(frame, 24, SERVICE_FAULT) {
        return None;
    }
    let status = Status(number_at(frame, 40)?);
    if status == Status::BAD_TOO_MANY_SESSIONS || status == Status::BAD_IDENTITY_TOKEN_REJECTED {
        Some(status)
    } else {
        None
    }
}

/// The first refusal of a session or a user among what the server sends at an event.
pub(crate) fn refusal_among(outs: &[Out]) -> Option<Refusal> {
    for out in outs {
        if let Out::Send { conn, bytes } = out
            && let Some(status) = refusal_in(bytes.as_slice())
        {
            return Some(Refusal {
                number: *conn,
                status,
            });
        }
    }
    None
}
