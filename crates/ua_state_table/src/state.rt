//! Where a subscription stands.

ghost use Rattle.std.specs.Prelude.{◌≡◌};
ghost use Rattle.ua_state_table.specs.Texts.{state_text};

use std::fmt;

/// Where a subscription stands.
#[derive(Clone, Copy, Debug, PartialEq, Eq)]
pub enum State {
    /// There is no such subscription: not yet, or no more.
    Closed,

    /// It is up to date with its client: its last timer found nothing that it couldn't do.
    Normal,

    /// It owes its client a message and has no Publish request to answer it by. The next Publish
    /// request is answered at once.
    Late,

    /// It has nothing to tell, and counts down to the next keep-alive.
    KeepAlive,
}

impl State {
    /// Its text, as the table and a trace have it: `keepalive`.
    pub fn text(self) -> &'static str
        ensures { result.now ≡ state_text self }
    {
        match self {
            State::Closed => "closed",
            State::Normal => "normal",
            State::Late => "late",
            State::KeepAlive => "keepalive",
        }
    }
}

/// Writes its text.
impl fmt::Display for State {
    fn fmt<W: fmt::Write>(&self, f: &mut fmt::Formatter<W>) -> Result<(), fmt::Error> {
        write!(f, "{}", self.text())
    }
}
