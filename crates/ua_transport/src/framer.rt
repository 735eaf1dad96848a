//! Frames out of pieces.

ghost use Rattle.std.specs.Prelude.{◌≡◌, ◌+◌, ◌<◌, ◌≤◌, ◌++◌, ℕ, List, [], length, max, IfOk, OnOk, OnErr, IsOk, IfSome, None, Some};
ghost use Rattle.ua_transport.specs.Frames.{frames, end_of, held_at};
ghost use Rattle.ua_transport.specs.Feeding.{feeding, feeding_by, feeding_of, unfed};
ghost use Rattle.ua_transport.specs.Header.{judgement_of};
ghost use Rattle.ua_transport.specs.declared.frame.Judgement.TheVariants.{Incomplete};

use crate::frame::{Frame, FrameFault, Judgement, judge, read_header};
use bytes::Bytes;
use collections::ShortList;
use std::alloc::{AllocError, Global};
use std::marker::Model;
use ua_types::Memory;

// The start of a frame. It grows by what comes of it, so that a large frame in small pieces costs
// no more than the frame's size; no room is taken before the bytes are there.
#[derive(Debug, Drop)]
struct Held {
    // None in a new framer, which is made without an allocator.
    bytes: Option<Vec<u8>>,
}

impl Model for Held {
    ghost use Rattle.std.specs.Prelude.{ℕ, List, []};
    ghost use Rattle.std.specs.Option.{option_map_or};

    ghost Value = { List ℕ };

    ghost view = { λ h. option_map_or (λ bytes. bytes.items) h.bytes [] };
}

impl Held {
    fn new() -> Held
        ensures { result ≡ [] }
    {
        Held { bytes: None }
    }

    fn from_slice(alloc: Global, bytes: &[u8]) -> Result<Held, AllocError>
        ensures { IfOk result (λ held. held ≡ bytes.now) }
    {
        Ok(Held {
            bytes: Some(Vec::from_slice(alloc, bytes)?),
        })
    }

    fn as_slice(&self) -> &[u8]
        ensures { result.now ≡ self.now }
    {
        match &self.bytes {
            Some(bytes) => bytes.as_slice(),
            None => &[],
        }
    }

    fn append(&mut self, alloc: Global, piece: &[u8]) -> Result<(), AllocError>
        ensures ok { OnOk result (self.new ≡ self.old ++ piece.now) }
        ensures err { OnErr result (self.new ≡ self.old) }
    {
        match &mut self.bytes {
            Some(bytes) => bytes.extend_from_slice(piece)?,
            None => self.bytes = Some(Vec::from_slice(alloc, piece)?),
        }
        Ok(())
    }
}

/// What a piece of the stream brought.
#[derive(Debug, Drop)]
pub struct Fed {
    /// The frames that are whole with this piece, in the order of the stream.
    pub frames: ShortList<Frame>,
    /// What stands behind them, where it can begin no frame.
    pub fault: Option<FrameFault>,
}

impl Fed {
    fn without_frames(alloc: Global, fault: Option<FrameFault>) -> Fed
        ensures { result ≡ record { frames = []; fault = fault } }
    {
        Fed {
            frames: ShortList::new(alloc),
            fault,
        }
    }
}

/// Cuts a stream that comes in pieces into frames.
///
/// Feed it the bytes of one direction of a connection as they come, in pieces of any size. It keeps
/// what is not yet a whole frame, fewer bytes than the limit (or than the eight of a header, at a
/// limit below that). A frame is judged by its first eight bytes, as soon as these are there: first
/// its letters, then its size. After a fault nothing is kept, and each further feed answers
/// [`FrameFault::Failed`].
///
/// Contracts see the limit, and the bytes held, or none after a fault.
#[derive(Debug, Drop)]
pub struct Framer {
    // How long a frame may be, its first eight bytes included. It never changes.
    limit: u32,
    // The start of a frame, until the rest of it comes. None for good once a header was at fault.
    held: Option<Held>,
}

impl Model for Framer {
    ghost use Rattle.ua_transport.specs.Feeding.{Framing};

    ghost Value = { Framing };

    ghost view = { λ f. record { limit = f.limit; held = f.held } };
}

impl Framer {
    /// A framer that lets frames of up to `limit` bytes through, their first eight included. The
    /// limit never changes.
    pub fn new(limit: u32) -> Framer
        ensures { result ≡ unfed limit }
    {
        Framer {
            limit,
            held: Some(Held::new()),
        }
    }

    /// Takes the next piece of the stream, and gives the frames that are whole with it, in order.
    ///
    /// ```text
    ///  held from before    the piece
    /// ├──────────────────┼────────────────────────────────────────────┤
    /// │ MSGF size body ..│.. body │ MSGC size body │ MSGF size body ..│
    /// ├───────────────────────────┼────────────────┼──────────────────┤
    ///  first frame given           second one       held from now on
    ///  (copied)                    (in place)       (copied)
    /// ```
    ///
    /// A frame that stands whole in the piece stays where it is: its body shares the piece's buffer. Of a
    /// frame that was begun before, what is held and what completes it are copied into a buffer of its own;
    /// where less than a header is held, the whole piece is. What is held from now on is a copy, so that no
    /// piece is kept for the sake of it.
    ///
    /// The error is want of memory, and the framer is then as it was: the same piece may be fed again.
    /// A feed after a fault takes no memory. `bounded` says how little is held between two feeds.
    pub fn feed(&mut self, alloc: Global, piece: &Bytes) -> Result<Fed, Memory>
        ensures fed { IfOk result (λ fed. feeding fed self.new ≡ feeding_of self.old piece.now) }
        ensures failed { self.old.held ≡ None → IsOk result }
        ensures err { OnErr result (self.new ≡ self.old) }
        ensures bounded { OnOk result (IfSome self.new.held (λ held. length held < max self.old.limit 8)) }
    {
        let Some(held) = &mut self.held else {
            return Ok(Fed::without_frames(alloc, Some(FrameFault::Failed)));
        };
        let missing = missing(self.limit, held.as_slice());
        if piece.len() < missing {
            held.append(alloc, piece.as_slice())?;
            return Ok(Fed::without_frames(alloc, None));
        }
        let mut behind = piece.clone()?;
        let completing = behind.split_to(missing)?;
        let front = joined(alloc, held.as_slice(), completing)?;
        let (fed, held) = cut_frames(alloc, self.limit, front, behind)?;
        self.held = held;
        Ok(fed)
    }
}

// How many bytes must be there before more can be said of the frame that these begin.
#[tactic(auto, unfolding(crate::specs::Header::judgement_of))]
fn needed(limit: u32, held: &[u8]) -> usize
    ensures { (piece : List ℕ) → length held.now + length piece < result
        → judgement_of limit (held.now ++ piece) ≡ Incomplete }
{
    match held.first_chunk::<8>() {
        None => 8,
        Some(head) => match read_header(limit, head) {
            Ok(header) => header.size as usize,
            Err(_) => 0,
        },
    }
}

// How many bytes the frame that these begin lacks, or its header. None where nothing is held.
fn missing(limit: u32, held: &[u8]) -> usize
    ensures { (piece : List ℕ) → length piece < result
        → judgement_of limit (held.now ++ piece) ≡ Incomplete }
{
    if held.is_empty() {
        return 0;
    }
    needed(limit, held).saturating_sub(held.len())
}

// Both in one buffer, which is the back's own where nothing stands before it.
fn joined(alloc: Global, front: &[u8], back: Bytes) -> Result<Bytes, AllocError>
    ensures { IfOk result (λ all. all ≡ front.now ++ back) }
{
    if front.is_empty() {
        return Ok(back);
    }
    let mut all = Vec::with_capacity(alloc, front.len().saturating_add(back.len()))?;
    all.extend_from_slice(front)?;
    all.extend_from_slice(back.as_slice())?;
    Ok(Bytes::from_vec(all)?)
}

// The frames of both, and the bytes left behind them where no fault stands there.
fn cut_frames(
    alloc: Global,
    limit: u32,
    front: Bytes,
    behind: Bytes,
) -> Result<(Fed, Option<Held>), AllocError>
    ensures fed { IfOk result (λ cut. feeding cut.0 (record { limit = limit; held = cut.1 })
        ≡ feeding_by limit (frames limit (front ++ behind))) }
    ensures bounded { IfOk result (λ cut. IfSome cut.1 (λ held. length held < max limit 8)) }
{
    let mut frames = ShortList::new(alloc);
    let (rest, fault) = split_both(alloc, limit, front, behind, &mut frames)?;
    let held = kept(alloc, rest.as_slice(), fault)?;
    Ok((Fed { frames, fault }, held))
}

// The bytes, where no fault stands behind them.
fn kept(alloc: Global, rest: &[u8], fault: Option<FrameFault>) -> Result<Option<Held>, AllocError>
    ensures { IfOk result (λ held. held ≡ held_at (end_of rest.now fault)) }
{
    match fault {
        None => Ok(Some(Held::from_slice(alloc, rest)?)),
        Some(_) => Ok(None),
    }
}

// Takes the whole frames off both, the one behind the other, and gives what is left of them and the fault
// that stands there. Nothing is copied where the front ends with a frame.
#[tactic(auto, using(crate::proofs::FramesLemmas::behind_fault))]
fn split_both(
    alloc: Global,
    limit: u32,
    front: Bytes,
    behind: Bytes,
    taken: &mut ShortList<Frame>,
) -> Result<(Bytes, Option<FrameFault>), AllocError>
    ensures taken { OnOk result (taken.new ≡ taken.old ++ (frames limit (front ++ behind)).frames) }
    ensures end { IfOk result (λ left. (frames limit (front ++ behind)).end ≡ end_of left.0 left.1) }
{
    let mut begun = front;
    if let Some(fault) = split_frames(limit, &mut begun, taken)? {
        return Ok((begun, Some(fault)));
    }
    let mut rest = joined(alloc, begun.as_slice(), behind)?;
    let fault = split_frames(limit, &mut rest, taken)?;
    Ok((rest, fault))
}

// Takes the whole frames off the front, and says which fault stands behind them.
fn split_frames(
    limit: u32,
    rest: &mut Bytes,
    taken: &mut ShortList<Frame>,
) -> Result<Option<FrameFault>, AllocError>
    ensures taken { OnOk result (taken.new ≡ taken.old ++ (frames limit rest.old).frames) }
    ensures end { IfOk result (λ fault. (frames limit rest.old).end ≡ end_of rest.new fault) }
{
    'frames: loop {
        match judge(limit, rest.as_slice()) {
            Judgement::Incomplete => return Ok(None),
            Judgement::Faulty(fault) => return Ok(Some(fault)),
            Judgement::Whole(header) => {
                let mut body = rest.split_to(header.size as usize)?;
                body.advance(8);
                taken.push(Frame {
                    message_type: header.message_type,
                    chunk_type: header.chunk_type,
                    body,
                })?;
            }
        }
    }
}
