//! What comes to a subscription.

ghost use Rattle.std.specs.Prelude.{◌≡◌};
ghost use Rattle.ua_subscriptions.specs.Calls.{event_of, settings_of, asks_enabled};

use crate::settings::Settings;
use ua_state_table::{TableEvent, Vars};

/// What comes to a subscription, with what its client asks of it.
#[derive(Clone, Copy, Debug, PartialEq, Eq)]
pub enum Call {
    /// CreateSubscription. `full`: its session has as many subscriptions as it may have, or no number is left.
    Create {
        full: bool,
        settings: Settings,
        enabled: bool,
    },

    /// A Publish request of its session that is this subscription's to answer or to queue.
    Publish,

    /// Its timer is due.
    Timer,

    /// ModifySubscription names it.
    Modify {
        settings: Settings,
    },

    /// SetPublishingMode names it.
    SetMode {
        enabled: bool,
    },

    /// Republish names it. `kept`: the message that is asked for is still kept.
    Republish {
        kept: bool,
    },

    /// DeleteSubscriptions names it.
    Delete,

    /// A request for its monitored items names it, and was served. `before`: its variables before that.
    Items {
        before: Vars,
    },

    /// Its session ends. `deleting`: its client closed the session and wants its subscriptions deleted.
    SessionEnd {
        deleting: bool,
    },

    /// The server shuts down.
    Shutdown,
}

impl Call {
    /// The event of the state table.
    pub fn event(self) -> TableEvent
        ensures { result ≡ event_of self }
    {
        match self {
            Call::Create { full, .. } => TableEvent::Create { full },
            Call::Publish => TableEvent::Publish,
            Call::Timer => TableEvent::Timer,
            Call::Modify { .. } => TableEvent::Modify,
            Call::SetMode { .. } => TableEvent::SetMode,
            Call::Republish { kept } => TableEvent::Republish { kept },
            Call::Delete => TableEvent::Delete,
            Call::Items { .. } => TableEvent::Items,
            Call::SessionEnd { deleting } => TableEvent::SessionEnd { deleting },
            Call::Shutdown => TableEvent::Shutdown,
        }
    }

    // The settings that are asked for, nothing where none are.
    pub(crate) fn settings(self) -> Settings
        ensures { result ≡ settings_of self }
    {
        match self {
            Call::Create { settings, .. } => settings,
            Call::Modify { settings } => settings,
            _ => Settings::NONE,
        }
    }

    // Whether notifications are asked for.
    pub(crate) fn enabled(self) -> bool
        ensures { result ≡ asks_enabled self }
    {
        match self {
            Call::Create { enabled, .. } => enabled,
            Call::SetMode { enabled } => enabled,
            _ => false,
        }
    }
}
