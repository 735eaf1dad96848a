//! Intervals of times.

ghost use Rattle.std.specs.Prelude.{◌≡◌};
ghost use Rattle.ua_history.specs.Intervals.{interval_of, past as past_spec};

use std::ops::Bound;
use ua_types::Moment;

/// An interval of times, and which way it is read (startTime and endTime of ReadRawModifiedDetails,
/// IEC 62541-11).
#[derive(Debug, Drop)]
pub struct Interval {
    /// Its least times.
    pub low: Bound<i64>,
    /// Its greatest times.
    pub high: Bound<i64>,
    /// Whether the greatest time is read first.
    pub is_falling: bool,
}

impl Interval {
    /// The interval from a start to an end, each of which isn't given where it is 0.
    ///
    /// With both it has the start and not the end, and falls where the end lies before the start; where they are
    /// the same it is that one time. From a start alone it rises, and from an end alone it falls, with that time.
    /// With neither it has all times, and rises.
    pub fn new(start: Moment, end: Moment) -> Interval
        ensures { result ≡ interval_of start end }
    {
        let (start, end) = (start.0, end.0);
        if start == 0 {
            if end == 0 {
                return Interval {
                    low: Bound::Unbounded,
                    high: Bound::Unbounded,
                    is_falling: false,
                };
            }
            return Interval {
                low: Bound::Unbounded,
                high: Bound::Included(end),
                is_falling: true,
            };
        }
        if end == 0 {
            return Interval {
                low: Bound::Included(start),
                high: Bound::Unbounded,
                is_falling: false,
            };
        }
        if start < end {
            Interval {
                low: Bound::Included(start),
                high: Bound::Excluded(end),
                is_falling: false,
            }
        } else if end < start {
            Interval {
                low: Bound::Excluded(end),
                high: Bound::Included(start),
                is_falling: true,
            }
        } else {
            Interval {
                low: Bound::Included(start),
                high: Bound::Included(start),
                is_falling: false,
            }
        }
    }

    /// The part of it past the time that was given last.
    pub fn past(self, last: Moment) -> Interval
        ensures { result ≡ past_spec self last }
    {
        if self.is_falling {
            Interval {
                low: self.low,
                high: Bound::Excluded(last.0),
                is_falling: true,
            }
        } else {
            Interval {
                low: Bound::Excluded(last.0),
                high: self.high,
                is_falling: false,
            }
        }
    }
}
