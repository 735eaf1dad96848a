//! Continuation points: where a long answer goes on.

ghost use Rattle.std.specs.Prelude.{◌≡◌, true, false, Err, IfOk, option_map};
ghost use Rattle.std.specs.FinMap as map;
ghost use Rattle.std.specs.Int.{w64, to_le_bytes};
ghost use Rattle.std.specs.Option.{option_copied};
ghost use Rattle.ua_types.specs.declared.refusal.Refusal.TheVariants.{Service, Exhausted};
ghost use Rattle.ua_types.specs.declared.status.TheConstants.Status as status;
ghost use Rattle.ua_session.specs.Points.{TakesSerial, is_full, is_at_last, no_points, hold_of, put_of, replace_of, without_point, serial_of};

use std::alloc::{AllocError, Global};
use std::collections::BTreeMap;
use std::marker::Model;
use ua_service_messages::BrowseDescription;
use ua_types::{ByteString, Moment, NodeId, Refusal, Status};

/// Where the references of a node go on.
#[derive(Debug, Drop)]
pub struct BrowsePoint {
    /// Which references are wanted, and what of them.
    pub description: BrowseDescription,
    /// How many references a page has at most.
    pub size: u32,
    /// The place of the next one among all references of the node.
    pub next: usize,
}

/// Where the history of a node goes on.
#[derive(Debug, Drop)]
pub struct HistoryPoint {
    pub node_id: NodeId,
    /// One end of the interval, or 0 where it isn't given.
    pub start: Moment,
    /// The other end of the interval, or 0 where it isn't given.
    pub end: Moment,
    /// How many values a page has at most.
    pub count: u32,
    /// The time of the last value that was given.
    pub last: Moment,
}

/// Where an answer goes on that was too long for one page (ContinuationPoint, IEC 62541-4, section 7).
#[derive(Debug)]
pub enum Point {
    Browse(BrowsePoint),
    History(HistoryPoint),
}

// Written out, so that a proof sees a drop as one call and not as its cases.
impl Drop for Point {
    fn drop(self) {
        match self {
            Point::Browse(_) => {}
            Point::History(_) => {}
        }
    }
}

/// The continuation points of a session.
///
/// Each has a serial, by which its client names it. Serials count from 1 over the session and are never
/// used again. Contracts see a record of the points by their serials.
#[derive(Debug, Drop)]
pub struct Points {
    // How many are held at once at most.
    most: u32,
    // The serial of the last one that was made, 0 before the first.
    made: u64,
    held: BTreeMap<u64, Point>,
}

impl Model for Points {
    ghost use Rattle.std.specs.FinMap as map;
    ghost use Rattle.ua_session.specs.Points.{PointsState};
    ghost use Rattle.ua_session.specs.PointCodes.{points_code};

    ghost Value = { PointsState };

    ghost coded = { points_code };

    ghost view = { λ p. record { most = p.most; made = p.made; held = map.from_entries p.held.entries } };
}

impl Points {
    /// None yet, with room for so many at once. Takes no memory.
    pub fn new(alloc: Global, most: u32) -> Points
        ensures { result ≡ no_points most }
    {
        Points {
            most,
            made: 0,
            held: BTreeMap::new(alloc),
        }
    }

    // How many are held.
    fn len(&self) -> usize
        ensures { result ≡ map.len self.now.held }
    {
        self.held.len()
    }

    /// Keeps a point, and says its serial.
    ///
    /// `BAD_NO_CONTINUATION_POINTS` where as many are held as may be. `Exhausted` where no serial is left. Both come
    /// however little memory there is; else `Memory`. At an `Err` nothing changed.
    #[tactic(auto, unfolding(crate::specs::Points::hold_of))]
    pub fn hold(&mut self, point: Point) -> Result<u64, Refusal>
        ensures taken { TakesSerial result self.old self.new (hold_of self.old point) }
        ensures full { is_full self.old ≡ true → result ≡ Err (Service status.BAD_NO_CONTINUATION_POINTS) }
        ensures spent { is_full self.old ≡ false → is_at_last self.old ≡ true → result ≡ Err Exhausted }
    {
        if self.len() >= self.most as usize {
            return Err(Refusal::Service(Status::BAD_NO_CONTINUATION_POINTS));
        }
        self.put(point)
    }

    // Keeps a point under the next serial.
    fn put(&mut self, point: Point) -> Result<u64, Refusal>
        ensures taken { TakesSerial result self.old self.new (put_of self.old point) }
        ensures spent { is_at_last self.old ≡ true → result ≡ Err Exhausted }
    {
        if self.made == u64::MAX {
            return Err(Refusal::Exhausted);
        }
        let serial = self.made + 1;
        self.held.insert(serial, point)?;
        self.made = serial;
        Ok(serial)
    }

    /// The point with this serial, if it is held.
    pub fn get(&self, serial: u64) -> Option<&Point>
        ensures { option_copied result ≡ map.get self.now.held serial }
    {
        self.held.get(&serial)
    }

    /// Takes the point with this serial out, if it is held. Takes no memory.
    pub fn give_up(&mut self, serial: u64) -> Option<Point>
        ensures point { result ≡ map.get self.old.held serial }
        ensures rest { self.new ≡ without_point self.old serial }
    {
        self.held.remove(&serial)
    }

    /// Puts a point in the place of the one with this serial, and says its serial, which is a new one. Where none
    /// has the serial, the point is added.
    ///
    /// `Exhausted` where no serial is left, however little memory there is, and `Memory`. At an `Err` nothing
    /// changed.
    #[tactic(auto, unfolding(crate::specs::Points::replace_of))]
    pub fn replace(&mut self, serial: u64, point: Point) -> Result<u64, Refusal>
        ensures taken { TakesSerial result self.old self.new (replace_of self.old serial point) }
        ensures spent { is_at_last self.old ≡ true → result ≡ Err Exhausted }
    {
        let next = self.put(point)?;
        self.held.remove(&serial);
        Ok(next)
    }
}

/// A point as its client knows it: the 8 bytes of its serial, the lowest first, or null where there is none.
pub fn point_bytes(alloc: Global, serial: Option<u64>) -> Result<ByteString, AllocError>
    ensures { IfOk result (λ bytes. bytes ≡ option_map (to_le_bytes w64) serial) }
{
    match serial {
        None => Ok(ByteString::null()),
        Some(serial) => ByteString::from_slice(alloc, &serial.to_le_bytes()[..]),
    }
}

/// The serial of the one point that these bytes may name. None where they aren't 8 bytes.
pub fn point_serial(bytes: Option<&[u8]>) -> Option<u64>
    ensures { result ≡ serial_of (option_copied bytes.entry) }
{
    let bytes = bytes?;
    if bytes.len() != 8 {
        return None;
    }
    Some(u64::from_le_bytes([
        bytes[0], bytes[1], bytes[2], bytes[3], bytes[4], bytes[5], bytes[6], bytes[7],
    ]))
}
