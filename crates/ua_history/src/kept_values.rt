//! Values of a history in the order of an interval, read where they stand.

ghost use Rattle.std.specs.Prelude.{◌≡◌, ◌==◌, [], length};
ghost use Rattle.ua_history.specs.Runs.{told, runs_seen};

use std::alloc::Global;
use std::marker::Model;
use ua_types::DataValue;

/// Values of a history under their times, one behind the other in memory, by rising time.
pub type Run<'a> = &'a [(i64, DataValue)];

/// Values in the order of an interval, each where it stands in the history: in runs, at most two of a segment. Contracts
/// see the list of them, under their times.
#[derive(Debug, Drop)]
pub struct KeptValues<'a> {
    // Whether each run is told from its last value to its first.
    is_falling: bool,
    // In the order in which they are told.
    runs: Vec<Run<'a>>,
    // How many values they have.
    len: usize,
}

impl<'a> Model for KeptValues<'a> {
    ghost use Rattle.std.specs.Prelude.{◌≡◌, length};
    ghost use Rattle.ua_history.specs.Histories.{Values};
    ghost use Rattle.ua_history.specs.Runs.{told};

    ghost Value = { Values };

    ghost view = { λ v. told v.is_falling v.runs.items };

    ghost invariant = { λ v. v.len ≡ length (told v.is_falling v.runs.items) };
}

/// Runs of values, one behind the other in the order in which they are told.
#[derive(Clone, Copy)]
pub enum KeptRuns<'v, 'a> {
    /// Each from its first value to its last.
    Rising(&'v [Run<'a>]),
    /// Each from its last value to its first.
    Falling(&'v [Run<'a>]),
}

impl<'a> KeptValues<'a> {
    /// No value. Takes no memory.
    pub(crate) fn none(alloc: Global) -> KeptValues<'a>
        ensures { result ≡ [] }
    {
        KeptValues {
            is_falling: false,
            runs: Vec::new(alloc),
            len: 0,
        }
    }

    /// The values of these runs, so many.
    pub(crate) fn in_runs(is_falling: bool, runs: Vec<Run<'a>>, len: usize) -> KeptValues<'a>
        requires { len ≡ length (told is_falling runs.items) }
        ensures { result ≡ told is_falling runs.entry.items }
    {
        KeptValues {
            is_falling,
            runs,
            len,
        }
    }

    /// How many values there are.
    pub fn len(&self) -> usize
        ensures { result ≡ length self.now }
    {
        self.len
    }

    /// Whether there is none.
    pub fn is_empty(&self) -> bool
        ensures { result ≡ (length self.now == 0) }
    {
        self.len == 0
    }

    /// The runs in which they stand.
    pub fn runs(&self) -> KeptRuns<'_, 'a>
        ensures { runs_seen result ≡ self.now }
    {
        if self.is_falling {
            KeptRuns::Falling(self.runs.as_slice())
        } else {
            KeptRuns::Rising(self.runs.as_slice())
        }
    }
}
