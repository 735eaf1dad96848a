//! A secure channel.

ghost use Rattle.std.specs.Prelude.{◌≡◌, ◌≤◌, length, true, Err, IfErr, IfOk};
ghost use Rattle.ua_types.specs.Answers.{Takes, step};
ghost use Rattle.ua_types.specs.Refusals.{TakesOrRefuses};
ghost use Rattle.ua_types.specs.declared.refusal.Refusal.TheVariants.{Memory};
ghost use Rattle.ua_transport.specs.declared.send_fault.SendFault.TheVariants as send_fault;
ghost use Rattle.ua_transport.specs.Messages.{AreWithinLimits, brings_part};
ghost use Rattle.ua_transport.specs.ChannelStates.{new_channel, token_after, granted_of};
ghost use Rattle.ua_transport.specs.Acceptance.{admission_of, comes_by_channel as comes_by_channel_spec, acceptance_of, take_of, message_taken, close_taken, opening_taken};
ghost use Rattle.ua_transport.specs.Cutting.{send_of, send_opening_of};

use crate::cutting::{cut_up, is_opening_too_large, is_too_large, opening_chunk, room};
use crate::frame::{ChunkType, Frame, MessageType};
use crate::handshake::Agreed;
use crate::headers::ChunkHeader;
use crate::messages::{Unfinished, join};
use crate::openings::{judged_header, opening_request, renewal};
use crate::send_fault::SendFault;
use crate::sequence_numbers::{may_follow, sequence_number_after};
use crate::taken::Taken;
use bytes::Bytes;
use collections::ShortList;
use std::alloc::Global;
use std::marker::Model;
use ua_binary::{Cursor, Wire};
use ua_messages::MessageBody;
use ua_types::{Refusal, Status};

/// The secure channel of a connection, as the server has it (IEC 62541-6, "OPC UA Secure
/// Conversation").
///
/// Give it each frame that comes after the Hello, in order, by [`Channel::take`], and do what the
/// [`Taken`] says. Answer a request by [`Channel::send`]. Answer an opening by [`Channel::grant`],
/// which opens the channel or renews its token, and then by [`Channel::send_opening`]. Where `take`
/// refuses a frame with a status, tell it to the client in an Error frame and close the connection:
/// the channel takes no further frame.
///
/// Contracts see a record of what is agreed, the channel's number, its last used and its newest
/// token, the last sequence numbers in and out, the unfinished message and the refusal. What of a
/// message has come is always within the server's `max_message` and `max_chunks`.
#[derive(Debug, Drop)]
pub struct Channel {
    // What the Hello and its Acknowledge settled, for good.
    agreed: Agreed,
    // The channel's number, once it is open.
    channel_id: Option<u32>,
    // The token that the client used last, which answers have too. 0 before the first.
    used_token: u32,
    // The token that was granted last, which the client may use from then on. 0 before the first.
    newest_token: u32,
    // The sequence number of the last chunk that was taken.
    received: Option<u32>,
    // The sequence number of the last chunk that was sent, 0 before the first.
    sent: u32,
    // What has come of a message, until its last chunk comes.
    unfinished: Option<Unfinished>,
    // With what a frame was refused. Every later frame is refused with it.
    refused: Option<Status>,
}

impl Model for Channel {
    ghost use Rattle.ua_transport.specs.ChannelStates.{ChannelState, IsChannel};

    ghost Value = { ChannelState };

    ghost view = { λ c. record {
      agreed = c.agreed;
      channel_id = c.channel_id;
      used_token = c.used_token;
      newest_token = c.newest_token;
      received = c.received;
      sent = c.sent;
      unfinished = c.unfinished;
      refused = c.refused;
    } };

    ghost invariant = { λ c. IsChannel (view c) };
}

impl Channel {
    /// A channel that isn't open yet, on a connection where this was agreed.
    pub fn new(agreed: Agreed) -> Channel
        ensures { result ≡ new_channel agreed }
    {
        Channel {
            agreed,
            channel_id: None,
            used_token: 0,
            newest_token: 0,
            received: None,
            sent: 0,
            unfinished: None,
            refused: None,
        }
    }

    /// The channel's number, once it is open.
    pub fn number(&self) -> Option<u32>
        ensures { result ≡ self.now.channel_id }
    {
        self.channel_id
    }

    /// Takes a frame that the client sent, and says what it asks of the server.
    ///
    /// A frame of type `ERR` closes the channel and isn't judged. Any other is refused with the
    /// first of these that holds, and from then on every frame is refused with the same status:
    ///
    /// - `BAD_TCP_MESSAGE_TYPE_INVALID`: it is `HEL` or `ACK`, or an `OPN` or `CLO` that isn't `F`;
    /// - `BAD_TCP_MESSAGE_TOO_LARGE`: it is longer than the agreed receive size;
    /// - `BAD_DECODING_ERROR`: its header can't be read.
    ///
    /// Then for `MSG` and `CLO`:
    ///
    /// - `BAD_TCP_SECURE_CHANNEL_UNKNOWN`: no channel is open, or another one;
    /// - `BAD_SECURE_CHANNEL_TOKEN_UNKNOWN`: its token is neither the last used nor the newest.
    ///
    /// For `OPN`:
    ///
    /// - `BAD_SECURITY_POLICY_REJECTED`: its security policy isn't None.
    ///
    /// For all three:
    ///
    /// - `BAD_SEQUENCE_NUMBER_INVALID`: its sequence number doesn't follow the last one.
    ///
    /// Then for `OPN`:
    ///
    /// - `BAD_DECODING_ERROR`: its body isn't an OpenSecureChannelRequest whose request type is Issue
    ///   or Renew;
    /// - `BAD_SECURITY_MODE_REJECTED`: its mode isn't None;
    /// - `BAD_SECURE_CHANNEL_ID_INVALID`: it is an Issue, and the channel is open;
    /// - `BAD_TCP_SECURE_CHANNEL_UNKNOWN`: it is a Renew, and no channel is open, or another one.
    ///
    /// For `MSG`:
    ///
    /// - `BAD_DECODING_ERROR`: it is of another request than the unfinished message;
    /// - `BAD_TCP_MESSAGE_TOO_LARGE`: with it the message has more bytes than the server's
    ///   `max_message`, or more chunks than its `max_chunks`.
    ///
    /// `Memory` comes only where an allocation failed, at a chunk that brings a part of a message and isn't
    /// refused: nothing else needs memory, no refusal, opening, close or ERR, and not the chunk that aborts a
    /// message. The channel is then as it was, and the same frame may be taken again. `Exhausted` never
    /// comes.
    pub fn take(&mut self, alloc: Global, frame: &Frame) -> Result<Taken, Refusal>
        ensures taken { TakesOrRefuses result self.old self.new (take_of self.old frame.now) }
        ensures limits { AreWithinLimits self.new.agreed.limits self.new.unfinished }
        ensures memory { result ≡ Err Memory → brings_part (take_of self.old frame.now).answer ≡ true }
    {
        if let Some(status) = self.refused {
            return Err(Refusal::Service(status));
        }
        let taken = self.accept(alloc, frame);
        if let Err(Refusal::Service(status)) = &taken {
            self.refused = Some(*status);
        }
        taken
    }

    // Judges the frame where none was refused before. A refusal leaves the channel as it was.
    fn accept(&mut self, alloc: Global, frame: &Frame) -> Result<Taken, Refusal>
        ensures accepts { TakesOrRefuses result self.old self.new (acceptance_of self.old frame.now) }
        ensures memory { result ≡ Err Memory → brings_part (acceptance_of self.old frame.now).answer ≡ true }
    {
        if frame.message_type == MessageType::Error {
            return Ok(Taken::Closed);
        }
        if !comes_by_channel(frame.message_type, frame.chunk_type) {
            return Err(Refusal::Service(Status::BAD_TCP_MESSAGE_TYPE_INVALID));
        }
        if frame.body.len() + 8 > self.agreed.receive_size as usize {
            return Err(Refusal::Service(Status::BAD_TCP_MESSAGE_TOO_LARGE));
        }
        match frame.message_type {
            MessageType::OpenSecureChannel => Ok(self.accept_opening(frame)?),
            MessageType::CloseSecureChannel => Ok(self.accept_close(frame)?),
            // MSG is all that is left.
            _ => self.accept_chunk(alloc, frame),
        }
    }

    #[tactic(auto, unfolding(crate::specs::Acceptance::opening_taken))]
    fn accept_opening(&mut self, frame: &Frame) -> Result<Taken, Status>
        ensures { opening_taken self.old frame.now.body ≡ step result self.new }
    {
        let mut cursor = Cursor::new(frame.body.as_slice());
        let Ok(header) = judged_header(&mut cursor) else {
            return Err(Status::BAD_DECODING_ERROR);
        };
        if !header.is_policy_none {
            return Err(Status::BAD_SECURITY_POLICY_REJECTED);
        }
        if !may_follow(self.received, header.sequence_number) {
            return Err(Status::BAD_SEQUENCE_NUMBER_INVALID);
        }
        let request = opening_request(cursor.rest())?;
        let renew = renewal(self.channel_id, header.channel_id, &request)?;
        self.received = Some(header.sequence_number);
        Ok(Taken::Opening {
            id: header.request_id,
            handle: request.handle,
            renew,
        })
    }

    fn accept_close(&mut self, frame: &Frame) -> Result<Taken, Status>
        ensures { close_taken self.old (admission_of self.old frame.now.body) ≡ step result self.new }
    {
        let header = self.admit(frame)?;
        self.used_token = header.token_id;
        self.received = Some(header.sequence_number);
        Ok(Taken::Closed)
    }

    fn accept_chunk(&mut self, alloc: Global, frame: &Frame) -> Result<Taken, Refusal>
        ensures accepts { TakesOrRefuses result self.old self.new
            (message_taken self.old frame.now (admission_of self.old frame.now.body)) }
        ensures memory { result ≡ Err Memory → brings_part (message_taken self.old frame.now (admission_of self.old frame.now.body)).answer ≡ true }
    {
        let header = self.admit(frame)?;
        let taken = join(
            alloc,
            &self.agreed.limits,
            &mut self.unfinished,
            header.request_id,
            frame,
        )?;
        self.used_token = header.token_id;
        self.received = Some(header.sequence_number);
        Ok(taken)
    }

    // The header of a MSG or a CLO, once it is judged.
    #[tactic(auto, using(crate::proofs::HeaderLemmas::header_length), unfolding(crate::specs::Acceptance::admission_of))]
    fn admit(&self, frame: &Frame) -> Result<ChunkHeader, Status>
        ensures header { result ≡ admission_of self.now frame.now.body }
        ensures long { IfOk result (λ _. 16 ≤ length frame.now.body) }
    {
        let mut cursor = Cursor::new(frame.body.as_slice());
        let Ok(header) = ChunkHeader::read(&mut cursor) else {
            return Err(Status::BAD_DECODING_ERROR);
        };
        if self.channel_id != Some(header.channel_id) {
            return Err(Status::BAD_TCP_SECURE_CHANNEL_UNKNOWN);
        }
        if header.token_id != self.used_token && header.token_id != self.newest_token {
            return Err(Status::BAD_SECURE_CHANNEL_TOKEN_UNKNOWN);
        }
        if !may_follow(self.received, header.sequence_number) {
            return Err(Status::BAD_SEQUENCE_NUMBER_INVALID);
        }
        Ok(header)
    }

    /// Grants the next token, and gives its number. Tokens count from 1, and after 4294967295 comes 1.
    ///
    /// A channel that isn't open is opened under `number`, and the token counts as used. An open one
    /// keeps its number; its last used token holds until the new one is used, which takes the place
    /// of a token that was granted before and not used. Takes no memory.
    pub fn grant(&mut self, number: u32) -> u32
        ensures token { result ≡ token_after self.old.newest_token }
        ensures channel { self.new ≡ granted_of self.old number }
    {
        let token = if self.newest_token == u32::MAX {
            1
        } else {
            self.newest_token + 1
        };
        self.newest_token = token;
        if self.channel_id.is_none() {
            self.channel_id = Some(number);
            self.used_token = token;
        }
        token
    }

    /// The chunks of the answer to the request `id`: MSG frames of the agreed send size, the last of
    /// which is `F` and may be shorter. An empty body has one chunk.
    ///
    /// A body that one chunk holds is sent from where it was written; one that is cut is copied once.
    ///
    /// The fault is `TooLarge` where the body is longer than the client's largest message, or has
    /// more chunks than the client takes, and `Memory` where an allocation failed. The channel is
    /// then as it was.
    pub fn send(
        &mut self,
        alloc: Global,
        id: u32,
        body: MessageBody,
    ) -> Result<ShortList<Bytes>, SendFault>
        ensures taken { Takes send_fault.Memory result self.old self.new (send_of self.old id body) }
        ensures refused { IfErr (send_of self.old id body).answer (λ fault. result ≡ Err fault) }
    {
        if is_too_large(&self.agreed, body.len()) {
            return Err(SendFault::TooLarge);
        }
        let header = ChunkHeader {
            channel_id: self.channel_id.unwrap_or(0),
            token_id: self.used_token,
            sequence_number: sequence_number_after(self.sent),
            request_id: id,
        };
        let (chunks, sent) = cut_up(alloc, header, room(&self.agreed), body)?;
        self.sent = sent;
        Ok(chunks)
    }

    /// The one chunk of the answer to the opening `id`: an OPN frame with the security policy None, no
    /// certificate and no thumbprint.
    ///
    /// The fault is `TooLarge` where the body is longer than the client's largest message, or the
    /// frame is longer than the agreed send size, and `Memory` where an allocation failed. The channel
    /// is then as it was.
    pub fn send_opening(
        &mut self,
        alloc: Global,
        id: u32,
        body: &[u8],
    ) -> Result<ShortList<Bytes>, SendFault>
        ensures taken { Takes send_fault.Memory result self.old self.new (send_opening_of self.old id body.now) }
        ensures refused { IfErr (send_opening_of self.old id body.now).answer (λ fault. result ≡ Err fault) }
    {
        if is_opening_too_large(&self.agreed, body) {
            return Err(SendFault::TooLarge);
        }
        let sent = sequence_number_after(self.sent);
        let channel_id = self.channel_id.unwrap_or(0);
        let mut chunks = ShortList::new(alloc);
        chunks.push(opening_chunk(alloc, channel_id, sent, id, body)?)?;
        self.sent = sent;
        Ok(chunks)
    }
}

// MSG comes in chunks of any type, OPN and CLO in one, and nothing else but ERR comes by a channel.
fn comes_by_channel(message_type: MessageType, chunk_type: ChunkType) -> bool
    ensures { result ≡ comes_by_channel_spec message_type chunk_type }
{
    match message_type {
        MessageType::Message => true,
        MessageType::OpenSecureChannel | MessageType::CloseSecureChannel => {
            chunk_type == ChunkType::Final
        }
        MessageType::Hello | MessageType::Acknowledge | MessageType::Error => false,
    }
}
