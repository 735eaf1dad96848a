//! What comes of a call, as maps of one list of encounters.

ghost use Rattle.std.specs.Prelude.{◌≡◌, ℕ, ◌++◌, List, None};
ghost use Rattle.subscription_laws.specs.Encounters.{rows_of};
ghost use Rattle.subscription_laws.specs.OwnRequests.{AreOwnAnswers};
ghost use Rattle.ua_types.specs.Configuration.{Configuration};
ghost use Rattle.ua_types.specs.declared.moment.Moment.{Moment};
ghost use Rattle.ua_monitored_items.specs.ItemTables.{item_at};
ghost use Rattle.subscription_laws.specs.LiveItems.{AreOfLive};
ghost use Rattle.subscription_laws.specs.Runs.{Move, Ran, moved, run};

/// One row fires for each subscription that is met, in their order, and no other.
pub fn one_row_fires_at_each()
    ensures { (r : Ran) (m : Move) → (moved r m).rows ≡ r.rows ++ rows_of r m }
{}

/// Whatever is called, each monitored item is of a live subscription; so after a shutdown there is none.
pub fn items_are_of_live_subscriptions()
    ensures live { (config : Configuration) (moves : List Move) → let r = run config moves in AreOfLive r.subscriptions.table.subscriptions r.items.items }
    ensures shut { (config : Configuration) (moves : List Move) (clock : Moment) (number : ℕ) →
        item_at number (moved (run config moves) (Move.Shutdown clock)).items.items ≡ None }
{}

/// Whatever is called, each answer that a row gives, be it about its subscription or that too many requests wait, is given to a
/// Publish request that came in that subscription's own session; and the note of a time-out to one that came in the session that
/// its subscription had.
pub fn answers_stay_in_their_sessions()
    ensures { (config : Configuration) (moves : List Move) (m : Move) → AreOwnAnswers config moves m }
{}
