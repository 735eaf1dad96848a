//! A row of the table: its name, where it stands, what it asks and where it leads.

ghost use Rattle.std.specs.Prelude.{◌≡◌};
ghost use Rattle.ua_state_table.specs.StateTable.{includes, concerns, next_of};
ghost use Rattle.ua_state_table.specs.Rows.{row_of};
ghost use Rattle.ua_state_table.specs.Texts.{row_text};

use crate::condition::Condition;
use crate::event::{EventKind, TableEvent};
use crate::state::State;
use crate::table::TABLE;
use std::fmt;

/// The name of a row, in the order of the table: C for a subscription that isn't there yet, N, L and K
/// for the states Normal, Late and KeepAlive, and G for every live state.
#[derive(Clone, Copy, Debug, PartialEq, Eq)]
pub enum RowId {
    /// A subscription is refused: its session has as many as it may have.
    C1,
    /// A subscription begins, and its timer with it.
    C2,
    /// A Publish request waits until there is something to send.
    N1,
    /// A Publish request fetches the values that the last message had no room for.
    N2,
    /// The timer finds values and a request: they are sent.
    N3,
    /// The timer finds a request and no value, and no message was sent yet: the first keep-alive.
    N4,
    /// The timer finds something to send and no request: the subscription is late.
    N5,
    /// The timer finds nothing to tell: from now on it counts to the next keep-alive.
    N6,
    /// A late subscription gets its request, and sends its values.
    L1,
    /// A late subscription gets its request and has no values (any more): it sends a keep-alive.
    L2,
    /// Another timer passes while a late subscription waits for a request.
    L3,
    /// A Publish request waits until there is something to send.
    K1,
    /// The timer finds values and a request: they are sent, and the counting ends.
    K2,
    /// A keep-alive is due and there is a request: it is sent, and the counting starts again.
    K3,
    /// One more timer with nothing to tell.
    K4,
    /// Values have come or a keep-alive is due, and there is no request: the subscription is late.
    K5,
    /// The client changes the counts, the size of messages or the priority.
    G1,
    /// The client switches publishing on or off.
    G2,
    /// The client asks for a message that it missed, and gets it.
    G3,
    /// The client asks for a message that isn't kept (any more).
    G4,
    /// The client deletes the subscription.
    G5,
    /// The client gave no sign of life for too long: the subscription times out, and its session is told.
    G6,
    /// The client creates, changes or deletes monitored items, or sets their mode.
    G7,
    /// The session ends and takes its subscriptions with it.
    G8,
    /// The session ends and leaves its subscriptions behind, until they time out.
    G9,
    /// The server shuts down, and nothing of the subscription is left.
    G10,
}

impl RowId {
    /// The row of this name, an entry of [`TABLE`].
    pub fn row(self) -> Row
        ensures { result ≡ row_of self }
    {
        let table = TABLE;
        table[self as usize]
    }

    /// Its text, as the table and a trace have it: `N3`.
    pub fn text(self) -> &'static str
        ensures { result.now ≡ row_text self }
    {
        match self {
            RowId::C1 => "C1",
            RowId::C2 => "C2",
            RowId::N1 => "N1",
            RowId::N2 => "N2",
            RowId::N3 => "N3",
            RowId::N4 => "N4",
            RowId::N5 => "N5",
            RowId::N6 => "N6",
            RowId::L1 => "L1",
            RowId::L2 => "L2",
            RowId::L3 => "L3",
            RowId::K1 => "K1",
            RowId::K2 => "K2",
            RowId::K3 => "K3",
            RowId::K4 => "K4",
            RowId::K5 => "K5",
            RowId::G1 => "G1",
            RowId::G2 => "G2",
            RowId::G3 => "G3",
            RowId::G4 => "G4",
            RowId::G5 => "G5",
            RowId::G6 => "G6",
            RowId::G7 => "G7",
            RowId::G8 => "G8",
            RowId::G9 => "G9",
            RowId::G10 => "G10",
        }
    }
}

/// Writes its text.
impl fmt::Display for RowId {
    fn fmt<W: fmt::Write>(&self, f: &mut fmt::Formatter<W>) -> Result<(), fmt::Error> {
        write!(f, "{}", self.text())
    }
}

/// The states in which a row stands.
#[derive(Clone, Copy, Debug, PartialEq, Eq)]
pub enum Scope {
    /// One state.
    In(State),
    /// All but Closed.
    Live,
}

impl Scope {
    /// Whether this state is one of them.
    pub fn includes(self, state: State) -> bool
        ensures { result ≡ includes self state }
    {
        match self {
            Scope::In(only) => only == state,
            Scope::Live => state != State::Closed,
        }
    }
}

/// Where a row leads.
#[derive(Clone, Copy, Debug, PartialEq, Eq)]
pub enum Next {
    /// To this state.
    To(State),
    /// It leaves the subscription where it stands.
    Same,
}

/// A row of the table. What it does is [`actions_of`](crate::actions_of) its name.
#[derive(Clone, Copy, Debug, PartialEq, Eq)]
pub struct Row {
    pub id: RowId,

    pub scope: Scope,

    pub event: EventKind,

    /// The conditions that must all hold for the row to fire, in the order in which the trace looks for
    /// the first false one.
    pub conditions: [Option<Condition>; 4],

    pub next: Next,
}

impl Row {
    /// Whether it is one of the rows of this state and event, whatever its conditions say.
    pub fn concerns(&self, state: State, event: TableEvent) -> bool
        ensures { result ≡ concerns self.now.scope self.now.event state event }
    {
        self.scope.includes(state) && self.event == event.kind()
    }
}

/// The state that a row leads to from this one.
pub fn next_of(row: RowId, state: State) -> State
    ensures { result ≡ next_of row state }
{
    match row.row().next {
        Next::To(next) => next,
        Next::Same => state,
    }
}
