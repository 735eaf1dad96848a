//! What holds of the frames of every stream, of every channel and of every answer. The laws have no code: their contracts state
//! them.

ghost use Rattle.std.specs.Prelude.{◌≡◌, ◌<◌, ◌^◌, ◌++◌, ℕ, List, All, ◌≤◌, ◌+◌, [], ◌∷◌, length, Some, None, Ok, Err, IsOk};
ghost use Rattle.std.specs.List.{concat};
ghost use Rattle.ua_transport.specs.Frames.{End, frames, Rest};
ghost use Rattle.ua_transport.specs.Feeding.{Framing, unfed, feeding_of, feeding_of_two, feeding_of_all};
ghost use Rattle.ua_transport.specs.Encoding.{Splits};
ghost use Rattle.ua_types.specs.Answers.{step};
ghost use Rattle.ua_types.specs.declared.status.Status.{Status};
ghost use Rattle.ua_transport.specs.Agreements.{IsAgreement};
ghost use Rattle.ua_transport.specs.declared.frame.Frame.{Frame};
ghost use Rattle.ua_transport.specs.Headers.{IsWritable};
ghost use Rattle.ua_transport.specs.ChannelStates.{ChannelState};
ghost use Rattle.ua_transport.specs.Messages.{AreWithinLimits};
ghost use Rattle.ua_transport.specs.Acceptance.{take_of};
ghost use Rattle.ua_transport.specs.Chunks.{joins, requests, answers, come, AreAccepted};
ghost use Rattle.ua_transport.specs.Cutting.{send_of, send_opening_of, header_of, room_of, chunk_count_of};

use crate::frame::Frame;

/// Feeding two pieces one after the other brings what feeding both at once does: the same frames,
/// joined, the same first fault, and the same framer after it.
pub fn any_cut()
    ensures { (framing : Framing) (a b : List ℕ) → feeding_of framing (a ++ b) ≡ feeding_of_two framing a b }
{}

/// A stream that is fed to a new framer brings the same in any pieces as in one.
pub fn any_pieces()
    ensures { (limit : ℕ) (pieces : List (List ℕ)) →
        feeding_of_all (unfed limit) pieces ≡ feeding_of (unfed limit) (concat pieces) }
{}

/// A stream that is these frames in order, and then this end, is read as these frames and this end.
pub fn reads_what_is_encoded()
    ensures { (limit : ℕ) (stream : List ℕ) (fs : List Frame) (tail : List ℕ) (end : End) → limit < 2 ^ 32 →
        Splits limit stream fs tail end → frames limit stream ≡ record { frames = fs; end = end } }
{}

/// Every stream of bytes is the frames that are read of it, in order, and then the end that is read.
pub fn encodes_what_is_read()
    ensures { (limit : ℕ) (stream : List ℕ) → All (λ byte. byte < 256) stream →
        (tail : List ℕ) × Splits limit stream (frames limit stream).frames tail (frames limit stream).end }
{}

/// The requests that a channel gives are those that the chunks join to, where it refuses none.
pub fn gives_what_chunks_join_to()
    ensures { (s : ChannelState) (chunks : List Frame) → AreAccepted s chunks →
        joins (come s.unfinished) chunks ≡ Some (requests (answers s chunks)) }
{}

/// Once a frame was refused, every later one is refused with the same status.
pub fn refuses_for_good()
    ensures { (s : ChannelState) (status : Status) (frame : Frame) → s.refused ≡ Some status →
        take_of s frame ≡ step (Err status) s }
{}

/// An unfinished message is always within the server's limits.
pub fn keeps_within_limits()
    ensures { (s : ChannelState) (frame : Frame) → AreWithinLimits s.agreed.limits s.unfinished →
        AreWithinLimits s.agreed.limits (take_of s frame).state.unfinished }
{}

/// An answer has as many chunks as its body has parts of 24 bytes less than the send size, and one
/// where it has none.
pub fn chunk_count_is_exact()
    ensures { (s : ChannelState) (request_id : ℕ) (body : List ℕ) (chunks : List (List ℕ)) → 24 < s.agreed.send_size →
        (send_of s request_id body).answer ≡ Ok chunks → length chunks ≡ chunk_count_of (room_of s.agreed) (length body) }
{}

/// The stream of an answer's chunks is read as frames within the send size, which join to the one
/// message of that request.
pub fn is_read_again()
    ensures { (s : ChannelState) (request_id : ℕ) (body : List ℕ) (chunks : List (List ℕ)) → 24 < s.agreed.send_size →
        s.agreed.send_size < 2 ^ 32 → IsWritable (header_of s request_id) →
        (send_of s request_id body).answer ≡ Ok chunks →
        let read = frames s.agreed.send_size (concat chunks) in
        (read.end ≡ Rest []) × (joins None read.frames ≡ Some ((request_id, body) ∷ [])) }
{}

/// An answer of at most 1000 bytes is never too large, whatever was agreed.
pub fn small_answers_fit()
    ensures { (s : ChannelState) (request_id : ℕ) (body : List ℕ) → IsAgreement s.agreed → length body ≤ 1000 →
        IsOk (send_of s request_id body).answer }
{}

/// An answer of at most 945 bytes to an OPN is never too large, whatever was agreed.
pub fn small_openings_fit()
    ensures { (s : ChannelState) (request_id : ℕ) (body : List ℕ) → IsAgreement s.agreed → length body ≤ 945 →
        IsOk (send_opening_of s request_id body).answer }
{}
