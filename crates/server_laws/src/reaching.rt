//! How values reach their clients.

ghost use Rattle.std.specs.Prelude.{ℕ, List};
ghost use Rattle.server_core.specs.Coherent.{reached, IfRuns};
ghost use Rattle.server_core.specs.declared.event.Event.{Event};
ghost use Rattle.server_laws.specs.Reaching.{ValuesHaveCome};
ghost use Rattle.ua_space.specs.Nodes.{SpaceState};
ghost use Rattle.ua_types.specs.Configuration.{Configuration};

/// What has come of each value that an item queued, whatever happens: all that [`losses`](crate::losses) says of one, in one clause.
///
/// The account of an item has each value that it queued, in the order of sampling. Those that wait are its queue. Those that
/// were sent are what answers brought, in order, each with its mark, in a message whose bytes are the notes of what the items gave
/// for it; the answer is posted to the Publish request that it answers, and what is posted goes out (`answers_go_out` of `losses`); and
/// while the message is kept, those bytes are what [`Server::kept`](server_core::Server::kept) and Republish give. Each that was lost
/// was driven out by a newer one of a full queue, and where that holds more than one value, a later one carried the mark at once; and
/// as long as it does and nothing of the item becomes cleared, the first one behind it that is left carries it. Each that was cleared
/// was so by a call that clears, which stands among those of the run.
pub fn values_reach_their_clients()
    ensures { (config : Configuration) (space : SpaceState) (events : List Event) (number : ℕ) →
        IfRuns (ValuesHaveCome config space events number) (reached config space events).server }
{}
