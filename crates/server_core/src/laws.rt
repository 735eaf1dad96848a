//! What holds of every server. The laws have no code: their contracts state them. That a configuration
//! `IsConfigured` is the invariant of every [`ua_types::Config`].
//!
//! A run ends at the first event that is refused. Such an event changes nothing, so a server that goes on
//! after it is as one that never met it.

ghost use Rattle.std.specs.Prelude.{◌≡◌, ◌++◌, ℕ, List, [], Option, true};
ghost use Rattle.std.specs.List.{AllByRecursion};
ghost use Rattle.ua_types.specs.Configuration.{Configuration, IsConfigured};
ghost use Rattle.ua_space.specs.Nodes.{SpaceState};
ghost use Rattle.server_core.specs.Apart.{KeepsOthers, KeepsAllElse, IsAlikeTo, heard, completes_none};
ghost use Rattle.server_core.specs.Coherent.{IsCoherent, LosesNone, AnswersFit, reached, IfRuns};
ghost use Rattle.server_core.specs.declared.event.Event.{Event};
ghost use Rattle.server_core.specs.Running.{run_of, joined_run, uncut};
ghost use Rattle.server_core.specs.Stepping.{fed, fed_twice};
ghost use Rattle.server_core.specs.World.{World};

/// A piece of a connection's stream that is cut in two leaves the same world, and has the same
/// effects, joined.
pub fn any_cut()
    ensures { (world : World) (conn : ℕ) (a b : List ℕ) → fed world conn (a ++ b) ≡ fed_twice world conn a b }
{}

/// Two lists of events that are the same but for where the bytes of a connection are cut come to the
/// same: the same effects, joined, the same fault and the same server.
pub fn any_recut()
    ensures { (server : Option World) (events others : List Event) → uncut events ≡ uncut others →
        joined_run (run_of server events) ≡ joined_run (run_of server others) }
{}

/// Whatever happens, every channel is agreed on within the server's limits, no two channels have one
/// number, every request that waits for its answer came by a connection that is open, there is a framer
/// exactly where a connection is open, no more are open at once than the configuration allows, and none
/// is once the server was shut down.
pub fn is_coherent()
    ensures { (config : Configuration) (space : SpaceState) (events : List Event) → IsConfigured config →
        IfRuns IsCoherent (reached config space events).server }
{}

/// Whatever happens, every reply has a channel to go by.
pub fn loses_no_reply()
    ensures { (config : Configuration) (space : SpaceState) (events : List Event) → IsConfigured config →
        AllByRecursion LosesNone (reached config space events).steps }
{}

/// The bytes of one connection change nothing of another, whatever they say, but what is sent on it.
pub fn keeps_other_connections()
    ensures { (world : World) (conn : ℕ) (bytes : List ℕ) → KeepsOthers conn world (fed world conn bytes).world }
{}

/// Bytes that complete no message and meet no refusal change that connection's own part alone, and
/// have no effects.
pub fn keeps_all_but_the_part()
    ensures world { (world : World) (conn : ℕ) (bytes : List ℕ) → completes_none world conn bytes ≡ true →
        KeepsAllElse conn world (fed world conn bytes).world }
    ensures effects { (world : World) (conn : ℕ) (bytes : List ℕ) → completes_none world conn bytes ≡ true →
        (fed world conn bytes).effects ≡ [] }
{}

/// Whatever happens, a fault is never too large for a client, and so one can always be sent in the place
/// of an answer that is; nor is the answer that opens a channel or renews its token.
pub fn faults_fit()
    ensures { (config : Configuration) (space : SpaceState) (events : List Event) → IsConfigured config →
        IfRuns AnswersFit (reached config space events).server }
{}

/// What the bytes of a connection do, and what they leave of it, depends on nothing of the other
/// connections: in two worlds that are alike in its framer, its own part, the setting, the number of
/// channels and the services, they have the same effects, but for what is sent on others, and leave
/// worlds that are alike again.
pub fn hears_its_own_stream()
    ensures worlds { (a b : World) (conn : ℕ) (bytes : List ℕ) → IsAlikeTo conn a b →
        IsAlikeTo conn (fed a conn bytes).world (fed b conn bytes).world }
    ensures effects { (a b : World) (conn : ℕ) (bytes : List ℕ) → IsAlikeTo conn a b →
        heard conn (fed a conn bytes).effects ≡ heard conn (fed b conn bytes).effects }
{}
