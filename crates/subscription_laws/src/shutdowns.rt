//! What a server's shutdown leaves.

ghost use Rattle.std.specs.Prelude.{◌≡◌, List, ◌++◌, map};
ghost use Rattle.std.specs.Map.{keys_of, values_of};
ghost use Rattle.subscription_laws.specs.Concern.{concerned as concerned_spec, subscription_of};
ghost use Rattle.subscription_laws.specs.Runs.{Move, run, moved};
ghost use Rattle.ua_subscriptions.specs.Answers.{refused_of};
ghost use Rattle.ua_subscriptions.specs.Ending.{all_requests};
ghost use Rattle.ua_subscriptions.specs.Tables.{no_table};
ghost use Rattle.ua_types.specs.Configuration.{Configuration};
ghost use Rattle.ua_types.specs.declared.moment.Moment.{Moment};
ghost use Rattle.ua_types.specs.declared.status.TheConstants.Status as status;

/// Whatever was called, at a server's shutdown each Publish request that waits is answered with the fault `BAD_SHUTDOWN`, once,
/// by the rising number of its session, the oldest of a session first, and nothing else is answered. And nothing is left: no
/// subscription, and no session with a request or a note. It concerns the subscriptions that lived, each once, by their rising
/// numbers.
pub fn a_shutdown_leaves_nothing()
    ensures answered { (config : Configuration) (moves : List Move) (clock : Moment) → let r = run config moves in
        (moved r (Move.Shutdown clock)).replies ≡ r.replies
        ++ map (refused_of clock status.BAD_SHUTDOWN) (all_requests (values_of r.subscriptions.table.sessions)) }
    ensures nothing { (config : Configuration) (moves : List Move) (clock : Moment) →
        (moved (run config moves) (Move.Shutdown clock)).subscriptions.table ≡ no_table }
    ensures concerned { (config : Configuration) (moves : List Move) (clock : Moment) → let r = run config moves in
        map subscription_of (concerned_spec r (Move.Shutdown clock)) ≡ keys_of r.subscriptions.table.subscriptions }
{}
