//! A message's body, as it is written.

ghost use Rattle.std.specs.Prelude.{◌≡◌, ◌≤◌, ◌<◌, ◌^◌, [], ◌++◌, Some, drop, length, IfOk, OnOk};
ghost use Rattle.ua_binary.specs.Arrays.{array_encoding};
ghost use Rattle.ua_binary.specs.ExtensionObjects.{extension_object_encoding};
ghost use Rattle.ua_binary.specs.Reading.{IsReadAgain};
ghost use Rattle.ua_messages.specs.Structures.{object_around};

use crate::structures_in_place::write_structure;
use bytes::Bytes;
use std::alloc::{AllocError, Global};
use std::marker::Model;
use ua_binary::{Written, write_list};

/// How many bytes stand before the body in a MSG frame of one chunk: the first eight of each frame, and a chunk's header
/// (IEC 62541-6, "MessageChunk structure").
pub const HEAD_SIZE: usize = 24;

// How many bytes a body has room for at first. Most responses have fewer.
const FIRST_ROOM: usize = 256;

/// The body of a message: its type id and fields, one written behind the other.
///
/// It lies behind room for the head of the frame that carries it. So a body that fits one chunk is sent from where it was
/// written ([`MessageBody::into_frame`]), and no byte of it is copied. Contracts see the bytes of the body.
#[derive(Debug, Drop)]
pub struct MessageBody {
    // The room, and then the body.
    bytes: Vec<u8>,
}

impl Model for MessageBody {
    ghost use Rattle.std.specs.Prelude.{ℕ, List, drop, length, ◌≤◌};

    ghost Value = { List ℕ };

    ghost view = { λ b. drop 24 b.bytes.items };

    ghost invariant = { λ b. 24 ≤ length b.bytes.items };
}

impl MessageBody {
    /// A body of which nothing is written yet.
    pub fn new(alloc: Global) -> Result<MessageBody, AllocError>
        ensures { IfOk result (λ body. body ≡ []) }
    {
        let mut bytes = Vec::with_capacity(alloc, FIRST_ROOM)?;
        bytes.extend_from_slice(&[0; HEAD_SIZE])?;
        Ok(MessageBody { bytes })
    }

    /// How many bytes are written.
    pub fn len(&self) -> usize
        ensures { result ≡ length self.now }
    {
        self.bytes.len() - HEAD_SIZE
    }

    /// What is written.
    pub fn as_slice(&self) -> &[u8]
        ensures { result.now ≡ self.now }
    {
        &self.bytes[HEAD_SIZE..]
    }

    /// Writes a value behind what is written. At an `Err`, which is want of memory, a part of it may be written.
    #[tactic(auto, using(crate::proofs::RoomLemmas::appended))]
    pub fn write<W: Written>(&mut self, value: &W) -> Result<(), AllocError>
        ensures written { OnOk result (self.new ≡ self.old ++ W.encoding value.now) }
        ensures again { OnOk result (IsReadAgain W.reading W.encoding value.now) }
    {
        value.write(&mut self.bytes)
    }

    /// Writes a list of values behind what is written. At an `Err`, which is want of memory, a part of it may be written.
    #[tactic(auto, using(crate::proofs::RoomLemmas::appended))]
    pub fn write_list<W: Written>(&mut self, values: &[W]) -> Result<(), AllocError>
        requires { length values.now < 2 ^ 31 }
        ensures { OnOk result (self.new ≡ self.old ++ array_encoding W.encoding (Some values.now)) }
    {
        write_list(values, &mut self.bytes)
    }

    /// Writes what is encoded already behind what is written. At an `Err`, which is want of memory, nothing of it is written.
    #[tactic(auto, using(crate::proofs::RoomLemmas::appended))]
    pub fn write_bytes(&mut self, bytes: &[u8]) -> Result<(), AllocError>
        ensures { OnOk result (self.new ≡ self.old ++ bytes.now) }
    {
        self.bytes.extend_from_slice(bytes)
    }

    /// Writes an object that holds this structure ([`crate::write_structure`]) behind what is written. At an `Err`, which is
    /// want of memory, a part of it may be written.
    #[tactic(auto, using(crate::proofs::RoomLemmas::appended))]
    pub fn write_structure<W: Written>(&mut self, type_id: u32, value: &W) -> Result<(), AllocError>
        ensures { OnOk result (self.new ≡ self.old ++ extension_object_encoding (object_around type_id (W.encoding value.now))) }
    {
        write_structure(type_id, value, &mut self.bytes)
    }

    /// The frame of this head and the body, which stays where it is.
    pub fn into_frame(self, head: &[u8; HEAD_SIZE]) -> Result<Bytes, AllocError>
        ensures { IfOk result (λ frame. frame ≡ head.now ++ self) }
    {
        let mut bytes = self.bytes;
        fill(&mut bytes, head);
        Ok(Bytes::from_vec(bytes)?)
    }
}

// Puts a head into the room before a body.
fn fill(bytes: &mut [u8], head: &[u8; HEAD_SIZE])
    requires { 24 ≤ length bytes.old }
    ensures { bytes.new ≡ head.now ++ drop 24 bytes.old }
{
    bytes[..HEAD_SIZE].copy_from_slice(head);
}
