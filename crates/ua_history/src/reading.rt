//! Pages of a node's history, and the points between them.

ghost use Rattle.std.specs.Prelude.{◌≡◌, None, Some, Err, IfErr, IfOk};
ghost use Rattle.std.specs.FinMap as map;
ghost use Rattle.std.specs.Option.{option_copied};
ghost use Rattle.std.specs.Result.{result_map_both};
ghost use Rattle.ua_types.specs.Answers.{step};
ghost use Rattle.ua_types.specs.declared.refusal.Refusal.TheVariants.{Service};
ghost use Rattle.ua_types.specs.declared.status.TheConstants.Status as status;
ghost use Rattle.ua_session.specs.Points.{TakesSerial, serial_of};
ghost use Rattle.ua_history.specs.Pages.{IsCut};
ghost use Rattle.ua_history.specs.Reading.{node_judged, page_of, page_seen, begun, history_point, left_at, judged_at, point_named, point_past as point_past_spec, at_point, read_raw_of, release_of};

use crate::history::History;
use crate::intervals::Interval;
use crate::kept_values::KeptValues;
use crate::pages::Cut;
use std::alloc::{AllocError, Global};
use ua_service_messages::HistoryReadValueIdView;
use ua_session::{HistoryPoint, Point, Points, point_serial};
use ua_space::{Node, NodeDetails, Space};
use ua_types::{Copyable, Moment, NodeId, Refusal, Status};
use ua_views::{ByteStringView, TextView};

/// Which values of nodes are asked for, of ReadRawModifiedDetails (IEC 62541-11, section 6).
#[derive(Clone, Copy, Debug)]
pub struct RawRange {
    /// One end of the interval, which it has, or 0 where it isn't given.
    pub start: Moment,
    /// The other end, which it has only where it is given alone, or 0 where it isn't given.
    pub end: Moment,
    /// How many values a page has at most, at least 1.
    pub size: u32,
}

/// Values of a node, and the serial of the point by which more of them are read.
#[derive(Debug, Drop)]
pub struct Page<'a> {
    /// `GOOD`, or `GOOD_NO_DATA` where there is no value.
    pub status: Status,
    /// None where no more are left.
    pub point: Option<u64>,
    /// The values, each where it stands in the history.
    pub values: KeptValues<'a>,
}

// Whether the history of a node may be read, or why not.
fn judged(node: &Node, index_range: &TextView<'_>) -> Result<(), Status>
    ensures { result ≡ node_judged index_range.now (Some node.now) }
{
    let NodeDetails::Variable(variable) = &node.details else {
        return Err(Status::BAD_HISTORY_OPERATION_UNSUPPORTED);
    };
    if variable.access / 4 % 2 != 1 {
        return Err(Status::BAD_HISTORY_OPERATION_UNSUPPORTED);
    }
    if index_range.is_given() {
        return Err(Status::BAD_INDEX_RANGE_INVALID);
    }
    Ok(())
}

fn page_with(values: KeptValues<'_>, point: Option<u64>) -> Page<'_>
    ensures { page_seen result ≡ page_of values.entry point }
{
    let status = if values.is_empty() {
        Status::GOOD_NO_DATA
    } else {
        Status::GOOD
    };
    Page {
        status,
        point,
        values,
    }
}

// The page that goes on at a point, where one could be held.
fn paged(values: KeptValues<'_>, point: Result<u64, Refusal>) -> Result<Page<'_>, Refusal>
    ensures { result_map_both page_seen (λ refusal. refusal) result ≡ result_map_both (λ serial. page_of values.entry (Some serial)) (λ refusal. refusal) point }
{
    match point {
        Ok(serial) => Ok(page_with(values, Some(serial))),
        Err(refusal) => Err(refusal),
    }
}

// The first page of an interval.
fn begin<'a>(
    alloc: Global,
    history: &'a History,
    points: &mut Points,
    range: RawRange,
    node: &NodeId,
) -> Result<Page<'a>, Refusal>
    ensures { TakesSerial (result_map_both page_seen (λ refusal. refusal) result) points.old points.new (begun history.now points.old range node.now) }
{
    let interval = Interval::new(range.start, range.end);
    let cut = history.read(alloc, node, interval, range.size)?;
    match cut.last_given {
        None => Ok(page_with(cut.values, None)),
        Some(last) => {
            let point = HistoryPoint {
                node_id: node.copy(alloc)?,
                start: range.start,
                end: range.end,
                count: range.size,
                last,
            };
            paged(cut.values, points.hold(Point::History(point)))
        }
    }
}

// The point of HistoryRead with this serial, if it is one for this node.
fn point_for<'a>(points: &'a Points, node: &NodeId, serial: u64) -> Option<&'a HistoryPoint>
    ensures { option_copied result ≡ history_point node.now (map.get points.now.held serial) }
{
    match points.get(serial) {
        Some(Point::History(point)) if point.node_id == *node => Some(point),
        _ => None,
    }
}

// The values past those that were given before the point.
fn next_cut<'a>(
    alloc: Global,
    history: &'a History,
    point: &HistoryPoint,
) -> Result<Cut<'a>, AllocError>
    ensures { IfOk result (λ cut. IsCut cut point.now.count (left_at history.now point.now)) }
{
    let interval = Interval::new(point.start, point.end).past(point.last);
    history.read(alloc, &point.node_id, interval, point.count)
}

// The point for the page after one that ended at this time.
fn point_past(alloc: Global, point: &HistoryPoint, last: Moment) -> Result<Point, AllocError>
    ensures { IfOk result (λ further. further ≡ point_past_spec point.now last) }
{
    Ok(Point::History(HistoryPoint {
        node_id: point.node_id.copy(alloc)?,
        start: point.start,
        end: point.end,
        count: point.count,
        last,
    }))
}

// The page after the one that left this point.
fn go_on<'a>(
    alloc: Global,
    history: &'a History,
    points: &mut Points,
    node: &NodeId,
    named: &ByteStringView<'_>,
) -> Result<Page<'a>, Refusal>
    ensures taken { TakesSerial (result_map_both page_seen (λ refusal. refusal) result) points.old points.new (at_point history.now points.old node.now (serial_of named.now)) }
    ensures held { point_named points.old node.now named.now ≡ None → result ≡ Err (Service status.BAD_CONTINUATION_POINT_INVALID) }
{
    let Some(serial) = point_serial(named.as_slice()) else {
        return Err(Refusal::Service(Status::BAD_CONTINUATION_POINT_INVALID));
    };
    let Some(point) = point_for(points, node, serial) else {
        return Err(Refusal::Service(Status::BAD_CONTINUATION_POINT_INVALID));
    };
    let cut = next_cut(alloc, history, point)?;
    match cut.last_given {
        None => {
            points.give_up(serial);
            Ok(page_with(cut.values, None))
        }
        Some(last) => {
            let further = point_past(alloc, point, last)?;
            paged(cut.values, points.replace(serial, further))
        }
    }
}

/// Raw values of a node, from the beginning of an interval or from where a point says (HistoryRead, IEC 62541-4;
/// reading of raw values, IEC 62541-11, section 6).
///
/// A point keeps its node, interval, size and the last time that was given, which hold in place of `range`. It is used
/// up by the page that it leads to, which has the values past that time as the history then is. Where more are left
/// there is another point. Of what is asked nothing is copied: a point keeps the node's own id.
///
/// It refuses in this order: no node has the id, `BAD_NODE_ID_UNKNOWN`; it isn't a Variable whose AccessLevel lets its
/// history be read, `BAD_HISTORY_OPERATION_UNSUPPORTED`; an index range is given, `BAD_INDEX_RANGE_INVALID`; a point
/// is given that isn't held, or is one of Browse or of another node, `BAD_CONTINUATION_POINT_INVALID`, which uses up
/// none; there are more values than the page has, and no room for a point, `BAD_NO_CONTINUATION_POINTS`. `Exhausted`
/// where no serial is left for the point. The first four come however little memory there is: nothing grows before
/// them. At an `Err` the points are as they were.
#[tactic(auto, unfolding(crate::specs::Reading::read_raw_of, crate::specs::Reading::judged))]
pub fn read_raw<'a>(
    alloc: Global,
    history: &'a History,
    space: &Space,
    points: &mut Points,
    range: RawRange,
    asked: &HistoryReadValueIdView<'_>,
) -> Result<Page<'a>, Refusal>
    ensures taken { TakesSerial (result_map_both page_seen (λ refusal. refusal) result) points.old points.new (read_raw_of history.now space.now.nodes range points.old asked.now) }
    ensures judged { IfErr (judged_at points.old space.now.nodes asked.now) (λ code. result ≡ Err (Service code)) }
{
    let Some(node) = space.find(&asked.node_id) else {
        return Err(Refusal::Service(Status::BAD_NODE_ID_UNKNOWN));
    };
    if let Err(status) = judged(node, &asked.index_range) {
        return Err(Refusal::Service(status));
    }
    if asked.continuation_point.is_given() {
        go_on(alloc, history, points, &node.id, &asked.continuation_point)
    } else {
        begin(alloc, history, points, range, &node.id)
    }
}

/// Gives a point of HistoryRead up. Takes no memory.
///
/// `BAD_CONTINUATION_POINT_INVALID` where none is held under these bytes; then nothing changed.
pub fn release(points: &mut Points, named: &ByteStringView<'_>) -> Result<(), Status>
    ensures { step result points.new ≡ release_of points.old named.now }
{
    let Some(serial) = point_serial(named.as_slice()) else {
        return Err(Status::BAD_CONTINUATION_POINT_INVALID);
    };
    if !matches!(points.get(serial), Some(Point::History(_))) {
        return Err(Status::BAD_CONTINUATION_POINT_INVALID);
    }
    points.give_up(serial);
    Ok(())
}
