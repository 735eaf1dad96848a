//! How many of each thing there are at most.

ghost use Rattle.std.specs.Prelude.{List};
ghost use Rattle.subscription_laws.specs.Bounds.{QueuesAreWithin, ItemsAreWithin, AllItemsAreWithin, RequestsAreWithin, SubscriptionsAreWithin, AllSubscriptionsAreWithin, KeptAreWithin};
ghost use Rattle.subscription_laws.specs.Runs.{Move, run};
ghost use Rattle.ua_types.specs.Configuration.{Configuration, IsConfigured};

/// Whatever is called, there is no more of anything than the configuration says, which lies in its ranges: in an item no more
/// values wait than its queue's size, which is at most `queue`; a subscription has at most `items` items, and keeps at most
/// `kept` messages; and a session has at most `publish_queue` queued Publish requests and `subscriptions` subscriptions. Over
/// all there are at most `items_in_all` items, and `subscriptions_in_all` subscriptions live, whether their sessions do or not.
pub fn bounds_hold()
    ensures queues { (config : Configuration) → IsConfigured config → (moves : List Move) → let r = run config moves in QueuesAreWithin config r.items.items }
    ensures items { (config : Configuration) → IsConfigured config → (moves : List Move) → let r = run config moves in ItemsAreWithin config r.items.items }
    ensures all_items { (config : Configuration) → IsConfigured config → (moves : List Move) → let r = run config moves in AllItemsAreWithin config r.items.items }
    ensures requests { (config : Configuration) → IsConfigured config → (moves : List Move) → let r = run config moves in RequestsAreWithin config r.subscriptions.table }
    ensures subscriptions { (config : Configuration) → IsConfigured config → (moves : List Move) → let r = run config moves in SubscriptionsAreWithin config r.subscriptions.table }
    ensures all_subscriptions { (config : Configuration) → IsConfigured config → (moves : List Move) → let r = run config moves in AllSubscriptionsAreWithin config r.subscriptions.table }
    ensures kept { (config : Configuration) → IsConfigured config → (moves : List Move) → let r = run config moves in KeptAreWithin config r.subscriptions.table }
{}
