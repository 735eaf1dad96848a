//! Moments.

ghost use Rattle.std.specs.Prelude.{◌≡◌};
ghost use Rattle.ua_types.specs.Moments.{later as later_spec};

/// A moment: 100 ns steps since 1601-01-01 00:00 UTC (DateTime, IEC 62541-6, 5.2.2.5). 0 stands for
/// a moment that isn't given.
#[derive(Clone, Copy, Debug, PartialEq, Eq, PartialOrd, Ord)]
pub struct Moment(pub i64);

impl Moment {
    /// The later of two moments.
    pub fn later(self, other: Moment) -> Moment
        ensures { result ≡ later_spec self other }
    {
        if self.0 < other.0 { other } else { self }
    }
}
