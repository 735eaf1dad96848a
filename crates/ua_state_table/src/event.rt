//! What may happen to a subscription.

ghost use Rattle.std.specs.Prelude.{◌≡◌};
ghost use Rattle.ua_state_table.specs.Events.{kind_of, is_full, is_kept, is_deleting};

/// What happens to a subscription, with what the table has to know of it.
#[derive(Clone, Copy, Debug, PartialEq, Eq)]
pub enum TableEvent {
    /// CreateSubscription. `full`: its session has as many subscriptions as it may have, or there are no
    /// numbers left.
    Create { full: bool },

    /// A Publish request of its session comes that is this subscription's to answer or to queue.
    Publish,

    /// Its publishing timer is due.
    Timer,

    /// ModifySubscription names it.
    Modify,

    /// SetPublishingMode names it.
    SetMode,

    /// Republish names it. `kept`: the message that is asked for is still kept.
    Republish { kept: bool },

    /// DeleteSubscriptions names it.
    Delete,

    /// A request for its monitored items names it: to create, modify or delete them, or to set their mode.
    Items,

    /// Its session ends. `deleting`: its client closed the session and wants its subscriptions deleted.
    SessionEnd { deleting: bool },

    /// Its server shuts down.
    Shutdown,
}

impl TableEvent {
    /// What kind of event it is, by which the rows of the table go.
    pub fn kind(self) -> EventKind
        ensures { result ≡ kind_of self }
    {
        match self {
            TableEvent::Create { .. } => EventKind::Create,
            TableEvent::Publish => EventKind::Publish,
            TableEvent::Timer => EventKind::Timer,
            TableEvent::Modify => EventKind::Modify,
            TableEvent::SetMode => EventKind::SetMode,
            TableEvent::Republish { .. } => EventKind::Republish,
            TableEvent::Delete => EventKind::Delete,
            TableEvent::Items => EventKind::Items,
            TableEvent::SessionEnd { .. } => EventKind::SessionEnd,
            TableEvent::Shutdown => EventKind::Shutdown,
        }
    }

    pub(crate) fn is_full(self) -> bool
        ensures { result ≡ is_full self }
    {
        match self {
            TableEvent::Create { full } => full,
            _ => false,
        }
    }

    pub(crate) fn is_kept(self) -> bool
        ensures { result ≡ is_kept self }
    {
        match self {
            TableEvent::Republish { kept } => kept,
            _ => false,
        }
    }

    pub(crate) fn is_deleting(self) -> bool
        ensures { result ≡ is_deleting self }
    {
        match self {
            TableEvent::SessionEnd { deleting } => deleting,
            _ => false,
        }
    }
}

/// The kind of an event, as the table's second column has it.
#[derive(Clone, Copy, Debug, PartialEq, Eq)]
pub enum EventKind {
    Create,
    Publish,
    Timer,
    Modify,
    SetMode,
    Republish,
    Delete,
    Items,
    SessionEnd,
    Shutdown,
}
