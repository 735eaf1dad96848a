//! Continuation points as a session holds them, and as a client knows them.

use crate::holding::holds;
use std::test::*;
use ua_session::{HistoryPoint, Point, Sessions, point_bytes, point_serial};
use ua_types::{Config, Moment, NodeId};

// A point of the history of the node `ns=1;i=11`.
fn point() -> Point {
    Point::History(HistoryPoint {
        node_id: NodeId::numeric(1, 11),
        start: Moment(100),
        end: Moment(0),
        count: 2,
        last: Moment(100),
    })
}

// Keeps a point of session 1, where it has a place for points. Says whether it has.
fn hold_first(sessions: &mut Sessions) -> Result<bool, Fail> {
    let Some(points) = sessions.points_mut(1) else {
        return Ok(false);
    };
    points.hold(point())?;
    Ok(true)
}

// Whether session 1 holds the first point that was held.
fn has_first(sessions: &mut Sessions) -> bool {
    let Some(points) = sessions.points_mut(1) else {
        return false;
    };
    matches!(points.get(1), Some(Point::History(point)) if point.last.0 == 100)
}

#[test]
fn points_of_a_session(rt: HostRuntime) -> Result<(), Fail> {
    let alloc = rt.alloc();
    let mut sessions = Sessions::new(alloc, &Config::standard(alloc)?);
    let is_there = hold_first(&mut sessions)?;
    holds(&rt, "no place yet", !is_there);
    sessions.open_points(alloc, 1)?;
    let is_there = hold_first(&mut sessions)?;
    holds(&rt, "a place", is_there);
    holds(&rt, "held", has_first(&mut sessions));
    sessions.open_points(alloc, 1)?;
    holds(&rt, "held still", has_first(&mut sessions));
    Ok(())
}

#[test]
fn points_as_bytes(rt: HostRuntime) -> Result<(), Fail> {
    let bytes = point_bytes(rt.alloc(), Some(0x0201))?;
    let expected: &[u8] = &[1, 2, 0, 0, 0, 0, 0, 0];
    holds(&rt, "lowest first", bytes.as_slice() == Some(expected));
    holds(
        &rt,
        "read again",
        point_serial(bytes.as_slice()) == Some(0x0201),
    );
    Ok(())
}
