//! Laws of the server: what holds of its sessions and subscriptions after every list of events.
//!
//! The laws have no code: their contracts state them, over the definitions of the crate [`server_core`] and those below it.
//! What a run did is a function of its configuration, its nodes and its events: `Dealings` has what it asks of the services, one thing
//! after the other; `EventMoves` the calls of subscriptions and items that each comes to, and [`subscriptions_come_by_moves`] says
//! that they lead to what the server holds; `Postings` what goes out for each. All that is said of a run is said over that one list.
//!
//! What a contract sees: the runs of a server, and the calls that they come to.
//!
//! Read first [`table`], the laws of the state table, and [`losses`], that nothing is lost in silence; docs/PROMISES.md tells both
//! with an example. `Concern` has which subscriptions an event concerns, `Apart` what a request leaves of other sessions; `Tables`,
//! `Messages`, `Replying`, `Fates`, `SessionsApart` and `Bounds` have what is said of the runs of a server. What follows of calls
//! alone, the crate `subscription_laws` says.
#![tactic(auto)]

pub mod bounds;
pub mod reaching;
pub mod stories;
pub mod storing;
pub mod tellings;

ghost use Rattle.std.specs.Prelude.{ℕ, List, []};
ghost use Rattle.ua_types.specs.Configuration.{Configuration, IsConfigured};
ghost use Rattle.server_messages.specs.declared.request.Request.{Request};
ghost use Rattle.server_messages.specs.declared.setting.Setting.{Setting};
ghost use Rattle.ua_space.specs.Nodes.{SpaceState};
ghost use Rattle.subscription_laws.specs.Answering.{AreBrought};
ghost use Rattle.subscription_laws.specs.Calm.{NoneWaitsBesideARequest, NoKeepAliveIsSkipped};
ghost use Rattle.subscription_laws.specs.Runs.{run};
ghost use Rattle.subscription_laws.specs.Tellings.{AreInSequence};
ghost use Rattle.ua_services.specs.Services.{serving_of, ticking_of, forgotten};
ghost use Rattle.ua_services.specs.declared.services.Services.{Services};
ghost use Rattle.server_core.specs.Coherent.{reached, IfRuns};
ghost use Rattle.server_core.specs.declared.event.Event.{Event};
ghost use Rattle.server_core.specs.declared.parts.Core.{Core};
ghost use Rattle.server_laws.specs.EventMoves.{serving_moves, ticking_moves, forgetting_moves, moves_of};
ghost use Rattle.server_laws.specs.Fates.{HaveOneFate, StandInMessages, MarksItsLosses};
ghost use Rattle.server_laws.specs.Messages.{made_by, NumbersItsMessages, GivesTheFirstBytes};
ghost use Rattle.server_laws.specs.Moving.{ComesOn, ComesOnBy};
ghost use Rattle.server_laws.specs.Postings.{AnswersAreSent, AnswersGoOut};
ghost use Rattle.server_laws.specs.Replying.{BringsMessages, SendsReplies};
ghost use Rattle.server_laws.specs.SessionsApart.{SessionsStayApart};
ghost use Rattle.server_laws.specs.Tellings.{told_by};
ghost use Rattle.server_laws.specs.Tables.{rows_of_run, IfShown, LeadTo, FiresOneRow, TimesOutExactly, NoneTimesOutBesideARequest, ItemsHaveSubscriptions, AnswersStayInSessions, ServesTheBestFirst};

/// What the services do is a function of what is asked: each request, served or refused, each tick, and each connection that is
/// gone comes to the calls of the subscriptions and their items that `EventMoves` lists for it. The subscriptions and items after
/// it, the rows that it fires and the Publish requests that it answers are those of these calls, one after the other, and the
/// answers are among its replies, in order.
pub fn services_go_on_by_moves()
    ensures serves { (setting : Setting) (request : Request) (state : Services) → ComesOnBy state (serving_moves setting request state) (serving_of setting request state) }
    ensures ticks { (setting : Setting) (state : Services) → ComesOnBy state (ticking_moves setting state) (ticking_of setting state) }
    ensures forgets { (state : Services) (conn : ℕ) → ComesOn state (forgetting_moves conn) (forgotten state conn) [] }
{}

/// Whatever happens, the subscriptions and items of a server are where the calls of its run lead from none on, and the rows of all
/// events are those that these calls fire. So what `subscription_laws` says of any calls holds of every server.
pub fn subscriptions_come_by_moves()
    ensures { (config : Configuration) (space : SpaceState) (events : List Event) → let r = reached config space events in
        IfRuns (LeadTo config (moves_of config space events) (rows_of_run r)) r.server }
{}

/// The laws of the state table, after every list of events.
///
/// - `one_row`: for each subscription that the events concern one row fires, in order, at what comes to it and at the variables at
///   which it is met, and no other row; so it is with the next event, whatever it is. It is the only row that the table allows
///   there, and the variables are sound. Each live subscription is steady, with the counts that the rows tell, and its variables are
///   sound.
/// - `no_waiting_beside_a_request`: a session with a queued request has no subscription that waits.
/// - `exact_time_out`: a subscription times out at the timer that finds as many timers started, this one included, as its life
///   counter was last set to, and at no other; and the counter lacks one of that for each timer that was started since.
/// - `no_time_out_beside_a_request`: one that times out is late, and no request of its session is queued.
/// - `no_keep_alive_skipped`: the timers of a subscription that found a request, since it sent a message, or one of them found
///   none, or its counts were set, are fewer than its keep-alive count.
/// - `sessions_apart`: the next request, served or refused, leaves what is of other sessions than the one that its header names:
///   those sessions with their continuation points, queued requests and notes, the subscriptions that aren't its own with all
///   variables, kept messages and numbers, and the items of those; and none appears under another session. A Write changes of
///   items, its own and others, only that they see the values that it accepts. A request is what a frame completes.
/// - `answers_in_their_sessions`: each answer about a subscription is given to a Publish request that came in that subscription's
///   session, the note that it has timed out, too: in the session that it had.
/// - `best_first`: a Publish request is answered by the best of the subscriptions of its session that wait, and by no other, unless its
///   answer is the note of a time-out; a tick comes to those that are due, the best first. The best has the highest priority, then the
///   least recent message, then the least number.
/// - `items_have_subscriptions`: each monitored item is of a live subscription, and once the server was shut down, there is none.
pub fn table()
    ensures one_row { (config : Configuration) (space : SpaceState) (events : List Event) → FiresOneRow config space events }
    ensures no_waiting_beside_a_request { (config : Configuration) (space : SpaceState) (events : List Event) →
        IfShown NoneWaitsBesideARequest (reached config space events).server }
    ensures exact_time_out { (config : Configuration) (space : SpaceState) (events : List Event) → TimesOutExactly config space events }
    ensures no_time_out_beside_a_request { (config : Configuration) (space : SpaceState) (events : List Event) →
        NoneTimesOutBesideARequest (rows_of_run (reached config space events)) }
    ensures no_keep_alive_skipped { (config : Configuration) (space : SpaceState) (events : List Event) → let r = reached config space events in
        IfShown (NoKeepAliveIsSkipped (rows_of_run r)) r.server }
    ensures sessions_apart { (config : Configuration) (space : SpaceState) (events : List Event) → SessionsStayApart config space events }
    ensures answers_in_their_sessions { (config : Configuration) (space : SpaceState) (events : List Event) → AnswersStayInSessions config space events }
    ensures best_first { (config : Configuration) (space : SpaceState) (events : List Event) → ServesTheBestFirst config space events }
    ensures items_have_subscriptions { (config : Configuration) (space : SpaceState) (events : List Event) → ItemsHaveSubscriptions config space events }
{}

/// Nothing is lost in silence, after every list of events. The account of an item, and the messages that were made, are folds over
/// the run.
///
/// - `fates`: each value that an item queued has exactly one fate: it waits, was sent, was lost where the queue was full, or was
///   cleared by a call or row that clears. Those that wait are what the queue in the server holds; they are sent in the order of
///   sampling; and a fate is final, whatever events come.
/// - `each_in_one_message`: each value that was sent stands in one message, with its mark, and the bytes of a message are the
///   notes of what the items gave and nothing else.
/// - `overflow_marks`: where the queue holds more than one value, a later value that waits carries the mark at once, and keeps it;
///   and behind each value that was lost the first one that was neither lost nor cleared carries it, until something of the item is
///   cleared, or its queue holds one value only. A call that finds nothing to clear changes nothing of that.
/// - `message_numbers`: the messages of a subscription are numbered from 1 without a gap, after the last of 32 bits comes 1, also
///   once it is no more; more events only add messages. A note of a time-out has the number that would have come next.
/// - `answers_numbered`: each answer to a Publish request has the number that comes next of its subscription: a message with
///   notifications, a keep-alive and the note of a time-out, of which the first alone uses it up. Beside it stand numbers of messages
///   that were made.
/// - `republish_gives_the_first_bytes`: what Republish and [`Server::kept`](server_core::Server::kept) give is, byte for byte, the
///   message that was made under that number, and under each number that is shown there is one.
/// - `answers_go_out`: each answer to a Publish request is posted, in order, and what is posted is among what the run sends, in order.
/// - `answers_are_sent`: what is posted goes out by the channel of the connection that its request came by, in its chunks; or, where
///   that channel finds it too large for its client, the fault Bad_ResponseTooLarge does in its place, at the server's time. None
///   goes out as nothing. (That a configuration `IsConfigured` is the invariant of every [`ua_types::Config`].)
pub fn losses()
    ensures fates { (config : Configuration) (space : SpaceState) (events : List Event) (number : ℕ) → HaveOneFate config space events number }
    ensures each_in_one_message { (config : Configuration) (space : SpaceState) (events : List Event) (number : ℕ) → StandInMessages config space events number }
    ensures overflow_marks { (config : Configuration) (space : SpaceState) (events : List Event) (number : ℕ) → MarksItsLosses config space events number }
    ensures message_numbers { (config : Configuration) (space : SpaceState) (events : List Event) → NumbersItsMessages config space events }
    ensures answers_numbered { (config : Configuration) (space : SpaceState) (events : List Event) → AreInSequence [] (told_by config space events) }
    ensures republish_gives_the_first_bytes { (config : Configuration) (space : SpaceState) (events : List Event) → GivesTheFirstBytes config space events }
    ensures answers_go_out { (config : Configuration) (space : SpaceState) (events : List Event) → AnswersGoOut config space events }
    ensures answers_are_sent { (config : Configuration) (space : SpaceState) (events : List Event) → IsConfigured config → AnswersAreSent config space events }
{}

/// Whatever happens, each message that a row makes answers a Publish request, one message a request, in the
/// order in which they are made, and the answer brings it byte for byte, under its subscription's number.
///
/// It goes out when it is made: the calls of the next request, served or refused, and of the next tick answer
/// among the replies, and each message that they make is in one of its own. What is replied is what is sent,
/// each reply on the connection that its request came by, which has a channel
/// ([`loses_no_reply`](server_core::laws::loses_no_reply)); a reply that is too large for its client is a fault there.
pub fn messages_are_answers()
    ensures answers { (config : Configuration) (space : SpaceState) (events : List Event) →
        AreBrought (run config (moves_of config space events)).replies (made_by config space events) }
    ensures replies { (config : Configuration) (space : SpaceState) (events : List Event) →
        IfRuns (BringsMessages (run config (moves_of config space events))) (reached config space events).server }
    ensures sent { (core : Core) → SendsReplies core }
{}
