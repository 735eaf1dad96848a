//! How many of each thing a server has at most, and what time it is.

ghost use Rattle.std.specs.Prelude.{List};
ghost use Rattle.ua_types.specs.Configuration.{Configuration, IsConfigured};
ghost use Rattle.ua_space.specs.Nodes.{SpaceState};
ghost use Rattle.server_core.specs.Coherent.{reached, IfRuns};
ghost use Rattle.server_core.specs.declared.event.Event.{Event};
ghost use Rattle.server_laws.specs.Bounds.{KeepsFewSubscriptions, SessionsAreFew, PointsAreFew, HistoriesAreFew, HasOneClock, KeepsItsConfiguration};

/// Whatever happens, a server has no more of anything than its configuration says, which lies in its ranges: in an item no
/// more values wait than its queue's size, which is at most `queue`; a subscription has at most `items` items, and keeps at
/// most `kept` messages; and a session has at most `publish_queue` queued Publish requests and `subscriptions` subscriptions. Over
/// all there are at most `items_in_all` items, and `subscriptions_in_all` subscriptions live, whether their sessions do or not.
/// At most `sessions` sessions are there, each with at most `points` continuation points, and at most `history` values of a
/// node are kept.
pub fn bounds_hold()
    ensures subscriptions { (config : Configuration) → IsConfigured config → (space : SpaceState) (events : List Event) →
        IfRuns (KeepsFewSubscriptions config) (reached config space events).server }
    ensures sessions { (config : Configuration) (space : SpaceState) (events : List Event) → IfRuns (SessionsAreFew config) (reached config space events).server }
    ensures points { (config : Configuration) (space : SpaceState) (events : List Event) → IfRuns (PointsAreFew config) (reached config space events).server }
    ensures histories { (config : Configuration) (space : SpaceState) (events : List Event) → IfRuns (HistoriesAreFew config) (reached config space events).server }
{}

/// Whatever happens, the moment that the services are handed is that of the sessions' clock: the two clocks are one. It is the
/// latest of the configured start and what the ticks brought, which is changed by ticks alone; and the configuration stays as it was.
pub fn clocks_are_one()
    ensures clock { (config : Configuration) (space : SpaceState) (events : List Event) → IfRuns HasOneClock (reached config space events).server }
    ensures configuration { (config : Configuration) (space : SpaceState) (events : List Event) → IfRuns (KeepsItsConfiguration config) (reached config space events).server }
{}
