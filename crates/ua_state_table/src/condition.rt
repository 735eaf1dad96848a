//! The conditions of the table.

ghost use Rattle.std.specs.Prelude.{◌≡◌};
ghost use Rattle.ua_state_table.specs.Conditions.{holds};
ghost use Rattle.ua_state_table.specs.Texts.{condition_text};

use crate::event::TableEvent;
use crate::vars::Vars;
use std::fmt;

/// A condition of a row, as the table prints it.
#[derive(Clone, Copy, Debug, PartialEq, Eq)]
pub enum Condition {
    /// `full`: the session may have no further subscription.
    Full,
    /// `room`: it may.
    Room,
    /// `EM`: publishing is enabled, and values were left over by the last message.
    EnabledMore,
    /// `!EM`
    NotEnabledMore,
    /// `EA`: publishing is enabled, and a value waits to be sent.
    EnabledAvailable,
    /// `!EA`
    NotEnabledAvailable,
    /// `Q`: the session has a queued Publish request.
    Queued,
    /// `!Q`
    NotQueued,
    /// `S`: a first message was sent.
    Sent,
    /// `!S`
    NotSent,
    /// `!S|EA`: there is something to send, the first message or values.
    NotSentOrEnabledAvailable,
    /// `K=1`: a keep-alive is due.
    KeepOne,
    /// `K>1`
    KeepAboveOne,
    /// `K=1|EA`: there is something to send, a keep-alive or values.
    KeepOneOrEnabledAvailable,
    /// `L=1`: this timer ends the subscription.
    LifeOne,
    /// `L>1`
    LifeAboveOne,
    /// `kept`: the message that Republish asks for is kept.
    Kept,
    /// `!kept`
    NotKept,
    /// `deleting`: the client wants its subscriptions deleted with the session.
    Deleting,
    /// `keeping`: the subscriptions outlive the session.
    Keeping,
}

impl Condition {
    /// Whether it holds as a subscription with these variables meets the event. A condition on an
    /// event of another kind is judged as if that event's flag were false.
    pub fn holds(self, vars: &Vars, event: TableEvent) -> bool
        ensures { result ≡ holds vars.now event self }
    {
        match self {
            Condition::Full => event.is_full(),
            Condition::Room => !event.is_full(),
            Condition::EnabledMore => vars.enabled && vars.more,
            Condition::NotEnabledMore => !(vars.enabled && vars.more),
            Condition::EnabledAvailable => vars.enabled && vars.available,
            Condition::NotEnabledAvailable => !(vars.enabled && vars.available),
            Condition::Queued => vars.queued,
            Condition::NotQueued => !vars.queued,
            Condition::Sent => vars.sent,
            Condition::NotSent => !vars.sent,
            Condition::NotSentOrEnabledAvailable => !vars.sent || vars.enabled && vars.available,
            Condition::KeepOne => vars.keep_alive == 1,
            Condition::KeepAboveOne => vars.keep_alive > 1,
            Condition::KeepOneOrEnabledAvailable => vars.keep_alive == 1
                || vars.enabled && vars.available,
            Condition::LifeOne => vars.lifetime == 1,
            Condition::LifeAboveOne => vars.lifetime > 1,
            Condition::Kept => event.is_kept(),
            Condition::NotKept => !event.is_kept(),
            Condition::Deleting => event.is_deleting(),
            Condition::Keeping => !event.is_deleting(),
        }
    }

    /// Its text, as the table and a trace have it: `!S|EA`.
    pub fn text(self) -> &'static str
        ensures { result.now ≡ condition_text self }
    {
        match self {
            Condition::Full => "full",
            Condition::Room => "room",
            Condition::EnabledMore => "EM",
            Condition::NotEnabledMore => "!EM",
            Condition::EnabledAvailable => "EA",
            Condition::NotEnabledAvailable => "!EA",
            Condition::Queued => "Q",
            Condition::NotQueued => "!Q",
            Condition::Sent => "S",
            Condition::NotSent => "!S",
            Condition::NotSentOrEnabledAvailable => "!S|EA",
            Condition::KeepOne => "K=1",
            Condition::KeepAboveOne => "K>1",
            Condition::KeepOneOrEnabledAvailable => "K=1|EA",
            Condition::LifeOne => "L=1",
            Condition::LifeAboveOne => "L>1",
            Condition::Kept => "kept",
            Condition::NotKept => "!kept",
            Condition::Deleting => "deleting",
            Condition::Keeping => "keeping",
        }
    }
}

/// Writes its text.
impl fmt::Display for Condition {
    fn fmt<W: fmt::Write>(&self, f: &mut fmt::Formatter<W>) -> Result<(), fmt::Error> {
        write!(f, "{}", self.text())
    }
}
