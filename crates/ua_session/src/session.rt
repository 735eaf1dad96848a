//! A session.

ghost use Rattle.std.specs.Prelude.{◌≡◌};
ghost use Rattle.ua_session.specs.SessionTables.{is_due as is_due_spec};

use ua_types::Moment;

/// What is kept of a session, beside its number.
#[derive(Clone, Copy, Debug, PartialEq, Eq)]
pub struct Session {
    /// The first 16 bytes of the key of the connection on which it was created. They make its
    /// authentication token hard to guess.
    pub secret: [u8; 16],

    /// The number of the connection that may use it. It changes by ActivateSession alone.
    pub conn: u64,

    /// Whether ActivateSession was served for it. Before, nothing else is.
    pub is_activated: bool,

    /// The moment at which it ends, unless a request comes before.
    pub deadline: Moment,
}

impl Session {
    /// Whether it ends, the clock showing this moment.
    pub fn is_due(&self, clock: Moment) -> bool
        ensures { result ≡ is_due_spec clock self.now }
    {
        self.deadline.0 <= clock.0
    }
}
