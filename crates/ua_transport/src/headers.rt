//! What stands before a chunk's part of the message.

ghost use Rattle.std.specs.Prelude.{◌≡◌, ◌≢◌, ⊤, Ok, Err, IfOk, IfErr};
ghost use Rattle.ua_binary.specs.declared.fault.TakeFault.TheVariants.{Memory};
ghost use Rattle.ua_transport.specs.Cutting.{opening_header_by};
ghost use Rattle.ua_transport.specs.Headers.{chunk_header_reading, chunk_header_encoding, opening_header_reading, opening_header_encoding};

use std::alloc::{AllocError, Global};
use ua_binary::{Cursor, TakeFault, Wire};
use ua_messages::SECURITY_POLICY_NONE;
use ua_types::{ByteString, Text};

/// How many bytes a [`ChunkHeader`] has.
pub(crate) const HEADER_SIZE: usize = 16;

/// How many bytes stand before the part of the message in a MSG frame, the first eight of each frame
/// counted too.
pub(crate) const FRAME_HEADER_SIZE: u32 = 24;

/// How many bytes stand before the body in an OPN frame that is sent: the first eight of each frame,
/// three numbers, the policy's URI of 47 bytes behind its length, and two nulls.
pub(crate) const OPENING_FRAME_HEADER_SIZE: u32 = 79;

/// What stands between the first eight bytes of a MSG or CLO frame and its part of the message:
/// the symmetric security header and the sequence header of IEC 62541-6, "MessageChunk structure".
#[derive(Clone, Copy, Debug, PartialEq, Eq)]
pub struct ChunkHeader {
    /// The number of the secure channel.
    pub channel_id: u32,
    /// The number of the token under which the chunk is sent.
    pub token_id: u32,
    /// The number of the chunk, counted over all that one side sends by the channel.
    pub sequence_number: u32,
    /// The number of the request, which all chunks of it and of its answer have.
    pub request_id: u32,
}

impl ChunkHeader {
    /// Reads a header, without memory. At an `Err` the cursor stands where the fault is.
    #[tactic(auto, unfolding(crate::specs::Headers::chunk_header_reading))]
    pub fn read(cursor: &mut Cursor<'_>) -> Result<ChunkHeader, TakeFault>
        ensures ok { IfOk result (λ header. chunk_header_reading cursor.old ≡ Ok (header, cursor.new)) }
        ensures err { IfErr result (λ e. chunk_header_reading cursor.old ≡ Err e) }
        ensures no_memory { IfErr result (λ e. e ≢ Memory) }
    {
        Ok(ChunkHeader {
            channel_id: cursor.number()?,
            token_id: cursor.number()?,
            sequence_number: cursor.number()?,
            request_id: cursor.number()?,
        })
    }
}

#[tactic(auto, using(ua_binary::proofs::Fields::fields4), unfolding(crate::specs::Headers::chunk_header_reading, crate::specs::Headers::chunk_header_encoding))]
impl Wire for ChunkHeader {
    ghost reading = { chunk_header_reading };

    ghost encoding = { chunk_header_encoding };

    ghost spares_memory = { λ _. ⊤ };

    fn decode(_alloc: Global, cursor: &mut Cursor<'_>) -> Result<ChunkHeader, TakeFault> {
        ChunkHeader::read(cursor)
    }

    fn encode(&self, out: &mut Vec<u8>) -> Result<(), AllocError> {
        self.channel_id.encode(out)?;
        self.token_id.encode(out)?;
        self.sequence_number.encode(out)?;
        self.request_id.encode(out)?;
        Ok(())
    }
}

/// What stands between the first eight bytes of an OPN frame and its part of the message: the
/// asymmetric security header and the sequence header of IEC 62541-6, "MessageChunk structure".
#[derive(Debug, Drop)]
pub struct OpeningHeader {
    /// The number of the secure channel, 0 where there is none yet.
    pub channel_id: u32,
    /// By which algorithms messages are signed and encrypted.
    pub security_policy_uri: Text,
    /// The sender's certificate, null where messages aren't signed.
    pub sender_certificate: ByteString,
    /// Which of the receiver's certificates the message is encrypted for, null where it isn't.
    pub receiver_certificate_thumbprint: ByteString,
    /// The number of the chunk, counted over all that one side sends by the channel.
    pub sequence_number: u32,
    /// The number of the request, which its answer has too.
    pub request_id: u32,
}

impl OpeningHeader {
    /// The header of an OPN whose messages are neither signed nor encrypted.
    pub fn unsecured(
        alloc: Global,
        channel_id: u32,
        sequence_number: u32,
        request_id: u32,
    ) -> Result<OpeningHeader, AllocError>
        ensures { IfOk result (λ header. header ≡ opening_header_by channel_id sequence_number request_id) }
    {
        Ok(OpeningHeader {
            channel_id,
            security_policy_uri: Text::from_str(alloc, SECURITY_POLICY_NONE)?,
            sender_certificate: ByteString::null(),
            receiver_certificate_thumbprint: ByteString::null(),
            sequence_number,
            request_id,
        })
    }
}

#[tactic(auto, using(ua_binary::proofs::Fields::fields6), unfolding(crate::specs::Headers::opening_header_reading, crate::specs::Headers::opening_header_encoding))]
impl Wire for OpeningHeader {
    ghost reading = { opening_header_reading };

    ghost encoding = { opening_header_encoding };

    fn decode(alloc: Global, cursor: &mut Cursor<'_>) -> Result<OpeningHeader, TakeFault> {
        Ok(OpeningHeader {
            channel_id: u32::decode(alloc, cursor)?,
            security_policy_uri: Text::decode(alloc, cursor)?,
            sender_certificate: ByteString::decode(alloc, cursor)?,
            receiver_certificate_thumbprint: ByteString::decode(alloc, cursor)?,
            sequence_number: u32::decode(alloc, cursor)?,
            request_id: u32::decode(alloc, cursor)?,
        })
    }

    fn encode(&self, out: &mut Vec<u8>) -> Result<(), AllocError> {
        self.channel_id.encode(out)?;
        self.security_policy_uri.encode(out)?;
        self.sender_certificate.encode(out)?;
        self.receiver_certificate_thumbprint.encode(out)?;
        self.sequence_number.encode(out)?;
        self.request_id.encode(out)?;
        Ok(())
    }
}
