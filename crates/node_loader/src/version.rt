//! The versions of node files, and what a version says of ranges.

ghost use Rattle.std.specs.Prelude.{◌≡◌};
ghost use Rattle.node_loader.specs.Versions.{IsPartOf, range_of};

use ua_types::NumberRange;

/// A version of the format of node files.
#[derive(Clone, Copy, Debug, PartialEq, Eq)]
pub(crate) enum Version {
    /// A variable has one value, and none from before the server began.
    One,
    /// A variable may have a list, and values from before.
    Two,
}

/// The range of `connections` in version 1.
pub(crate) const FIRST_CONNECTIONS: NumberRange = NumberRange {
    least: 1,
    most: 10_000,
};

/// The range of `sessions` in version 1.
pub(crate) const FIRST_SESSIONS: NumberRange = NumberRange {
    least: 1,
    most: 10_000,
};

/// The range of `queue` in version 1.
pub(crate) const FIRST_QUEUE: NumberRange = NumberRange {
    least: 1,
    most: 100_000,
};

/// The range of `history` in version 1.
pub(crate) const FIRST_HISTORY: NumberRange = NumberRange {
    least: 1,
    most: 1_000_000,
};

impl Version {
    /// The range that a number has, where version 1 has a part of the later one.
    pub(crate) fn range(self, first: NumberRange, later: NumberRange) -> NumberRange
        requires { IsPartOf first later }
        ensures range { result ≡ range_of self first later }
        ensures part { IsPartOf result later }
        ensures wide { IsPartOf first result }
    {
        match self {
            Version::One => first,
            Version::Two => later,
        }
    }
}
