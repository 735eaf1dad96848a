//! Laws of subscriptions: what follows from what the rows do, and from any calls, one after the other.
//!
//! The laws have no code: their contracts state them, over the definitions of the crate [`ua_subscriptions`]. `Runs` has the
//! list of calls and what it comes to, from no subscription on; `Standings` how a subscription stands, and `Histories` what
//! the rows that fired count; `Precedence` which subscription comes first. `Encounters` has the one list of what comes of a call:
//! the subscriptions that are met, each at a scene, and what is done beside. Maps of it are the rows (`Concern`), the messages that
//! are made (`Messaging`, by the numbers of `Numbering`), the calls of the items (`ItemCalls`) and the answers (`Tellings`); `Actions`
//! has what comes of a row's actions, one after the other.
//! `Answering` has the answers that bring messages, `Requests` and `OwnRequests` the requests that are answered, `Calm` what always
//! holds, `Apartness` what is of other sessions, `LiveItems` whose the items are; `Fates`, `Marks` and `MessageContents` what becomes
//! of values and which messages tell them, and `Bounds` how many there are of each thing. The module [`shutdowns`] says what is left
//! of all that when the server shuts down: nothing.
//!
//! What a contract sees: the list of calls, and what it comes to.
//!
//! Read docs/SUBSCRIPTIONS.md first, then `specs/Runs`.
#![tactic(auto)]

pub mod bounds;
pub mod encounters;
pub mod shutdowns;
pub mod tellings;

ghost use Rattle.std.specs.Prelude.{◌≡◌, ◌≤◌, ◌+◌, ℕ, Bool, true, false, List, [], ◌∷◌, ◌++◌, map, is_some, Some, Ok};
ghost use Rattle.ua_item_queue.specs.Fates.{waiting, GoesOn, IsInOrder, LossesAreMarked};
ghost use Rattle.ua_item_queue.specs.Sendings.{values_of, sampled_by, sent_of};
ghost use Rattle.ua_monitored_items.specs.Moves.{queue_at};
ghost use Rattle.ua_state_table.specs.Doing.{enqueues};
ghost use Rattle.ua_state_table.specs.Events.{fits, is_closed};
ghost use Rattle.ua_state_table.specs.StateTable.{fires};
ghost use Rattle.ua_state_table.specs.Steady.{IsSteady};
ghost use Rattle.ua_state_table.specs.declared.row.RowId.{RowId};
ghost use Rattle.subscription_laws.specs.Answering.{sends, sends_keep_alive, answering, AreBrought};
ghost use Rattle.subscription_laws.specs.Apartness.{IsRequestOf, OthersStay};
ghost use Rattle.ua_subscriptions.specs.Answers.{number_of, published_of};
ghost use Rattle.ua_subscriptions.specs.Calls.{event_of};
ghost use Rattle.subscription_laws.specs.Calm.{is_listed, IsListed, ListsItsOwn, AreLists, AreSteady, NoneWaitsBesideARequest, LivesCountTimers, NoKeepAliveIsSkipped};
ghost use Rattle.ua_subscriptions.specs.Firing.{fired, before_of, vars_in, row_of};
ghost use Rattle.subscription_laws.specs.Concern.{concern_of, concerned, all_concerned, AreTheRowsFor};
ghost use Rattle.subscription_laws.specs.Fates.{queue_moves_at, account_at, AreCaused, HaveTheirCauses, EachLossIsMarked};
ghost use Rattle.subscription_laws.specs.Histories.{AreLawful};
ghost use Rattle.subscription_laws.specs.ItemCalls.{ItemsComeByTheirCalls, item_calls};
ghost use Rattle.ua_subscriptions.specs.Making.{kept_at, republished};
ghost use Rattle.ua_subscriptions.specs.Messages.{number_after, keep_alive_message};
ghost use Rattle.subscription_laws.specs.Messaging.{messages_for, run_made, IsAmong, AllAreNumbered, NotesComeNext, AreItsMessages};
ghost use Rattle.subscription_laws.specs.Numbering.{IsMade, messages_of, begins_or_ends};
ghost use Rattle.subscription_laws.specs.Precedence.{precedence, ComesToTheBest, ComesBestFirst};
ghost use Rattle.ua_subscriptions.specs.Ranks.{number_of as rank_number, is_waiting, waiting_of, is_due, rank_cmp, due_numbers};
ghost use Rattle.server_messages.specs.declared.origin.Origin.{Origin};
ghost use Rattle.subscription_laws.specs.Requests.{such_answers, such_waiting, such_came};
ghost use Rattle.subscription_laws.specs.Runs.{Move, run, moved, start};
ghost use Rattle.ua_subscriptions.specs.Scenes.{Scene, row_done};
ghost use Rattle.ua_subscriptions.specs.SubscriptionCalls.{stage_of};
ghost use Rattle.subscription_laws.specs.Standings.{Counts, standing_in, row_counts, IsAsked};
ghost use Rattle.ua_subscriptions.specs.Tables.{subscription_at};
ghost use Rattle.subscription_laws.specs.Marks.{MarksWhatFollows};
ghost use Rattle.subscription_laws.specs.MessageContents.{all_taken, AreMadeOf, entries_sent};
ghost use Rattle.ua_subscription_messages.specs.declared.publishing.SubscriptionAcknowledgement.{SubscriptionAcknowledgement};
ghost use Rattle.ua_subscriptions.specs.declared.call.Call.TheVariants.{Publish};
ghost use Rattle.ua_subscriptions.specs.declared.publish_call.PublishCall.{PublishCall};
ghost use Rattle.ua_subscriptions.specs.declared.ranks.Rank.{Rank};
ghost use Rattle.ua_subscriptions.specs.declared.subscription.Subscription.{Subscription};
ghost use Rattle.ua_types.specs.Configuration.{Configuration};
ghost use Rattle.ua_types.specs.declared.moment.Moment.{Moment};

/// Of the subscriptions that wait, or are due, the one with the highest priority comes first; among equals the one whose last
/// message is the least recent, one that has sent none before any; and among those the one with the least number.
pub fn the_highest_priority_comes_first()
    ensures { (a b : Rank) → rank_cmp a b ≡ precedence a b }
{}

/// The timers that are due stand in that order, and each of them is among them. Whatever was called, time comes to all subscriptions
/// that are due, to the best first, and to no other.
pub fn the_due_come_best_first()
    ensures none_passed_over { (clock : Moment) (subscriptions : List (ℕ × Subscription)) (number : ℕ) (s : Subscription) →
        subscription_at number subscriptions ≡ Some s → is_due clock s ≡ true → is_listed number (due_numbers clock subscriptions) ≡ true }
    ensures each_fires { (config : Configuration) (moves : List Move) (clock : Moment) → ComesBestFirst (run config moves) clock }
{}

/// The subscriptions of a session that wait for a Publish request stand in that order, too, and each of them is among them. Whatever was
/// called, where some wait, a request comes to the best of them, and to no other, and that one answers it; unless its answer is the note
/// of a time-out.
pub fn the_waiting_come_best_first()
    ensures none_passed_over { (subscriptions : List (ℕ × Subscription)) (numbers : List ℕ) (number : ℕ) (s : Subscription) →
        is_listed number numbers ≡ true → subscription_at number subscriptions ≡ Some s → is_waiting s ≡ true → is_listed number (map rank_number (waiting_of subscriptions numbers)) ≡ true }
    ensures asked { (config : Configuration) (moves : List Move) (clock : Moment) (session : ℕ) (asked : PublishCall) (acks : List SubscriptionAcknowledgement) →
        ComesToTheBest (run config moves) clock session asked acks }
{}

/// Exactly one row fires of what comes to a steady subscription, the one that is chosen.
pub fn one_row_fires()
    ensures { (c : Scene) (counts : Counts) → before_of c ≡ vars_in c → fits c.subscription.state (event_of c.round.call) ≡ true →
        IsSteady (standing_in c.round.own c counts) → fires (before_of c) (event_of c.round.call) ≡ row_of c ∷ [] }
{}

/// What comes to a steady subscription leaves it steady, unless it is closed: the counters are within their bounds, values
/// are left over only where they are there, and it doesn't wait beside a request. A request is there, or waits already,
/// where the row is one that queues it.
pub fn rows_keep_subscriptions_steady()
    ensures { (c : Scene) (counts : Counts) → before_of c ≡ vars_in c → fits c.subscription.state (event_of c.round.call) ≡ true →
        IsSteady (standing_in c.round.own c counts) → (enqueues (row_of c) ≡ true → IsAsked c) →
        is_closed (fired c).subscription.state ≡ false → IsSteady (standing_in c.round.own (fired c) (row_counts (row_of c) c counts)) }
{}

/// The messages that a row makes are numbered without a gap from the subscription's last number on, after the last of 32
/// bits comes 1; what is kept after it is what was kept and those messages, the oldest going where there are more than may
/// be. A keep-alive uses no number and isn't kept.
pub fn rows_number_messages()
    ensures { (r : RowId) (c : Scene) → begins_or_ends r ≡ false →
        IsMade c.round.bounds.kept c.subscription (row_done r c).subscription (messages_of r c) }
{}

/// A row that sends, be it notifications or a keep-alive, has a request to answer: at a timer the oldest that is queued, and
/// at a Publish request the one that came, as long as it is there.
pub fn rows_that_send_have_a_request()
    ensures { (c : Scene) → (c.round.call ≡ Publish → is_some c.round.asked ≡ true) → sends (row_of c) ≡ true →
        is_some (answering (row_of c) c) ≡ true }
{}

/// A keep-alive answers one request: the oldest that is queued where the row takes that, or else the one that came. It has
/// the number that the subscription's next message with notifications will have, and doesn't use it up.
pub fn keep_alives_have_the_next_number()
    ensures answers { (r : RowId) (c : Scene) → sends_keep_alive r ≡ true → (call : PublishCall) → answering r c ≡ Some call →
        (row_done r c).round.replies ≡ c.round.replies ++ published_of c.round.clock call c.round.own (map number_of c.subscription.kept) false
        (keep_alive_message (number_after c.subscription.number) c.round.clock) ∷ [] }
    ensures unused { (r : RowId) (c : Scene) → sends_keep_alive r ≡ true →
        (row_done r c).subscription.number ≡ c.subscription.number }
{}

/// Whatever is called, one row fires for each subscription that the call concerns, at what comes to it and at the variables at
/// which it is met, in their order, and no other. What a call concerns is written in `Concern`, a case for each kind of call;
/// each subscription is met by the stage that those before it left.
pub fn one_row_fires_for_each()
    ensures step { (config : Configuration) (moves : List Move) (move : Move) → let r = run config moves in
        map concern_of (moved r move).rows ≡ map concern_of r.rows ++ concerned r move }
    ensures all { (config : Configuration) (moves : List Move) → AreTheRowsFor (all_concerned config moves) (run config moves).rows }
{}

/// Whatever is called, each row that fires is the only one that the table allows at its variables, which are sound.
///
/// A subscription times out at exactly the timer that finds as many timers started, this one included, as its life counter
/// was last set to; it is late then, and no request of its session is queued: nobody times out beside a request.
pub fn all_rows_are_lawful()
    ensures { (config : Configuration) (moves : List Move) → AreLawful (run config moves).rows }
{}

/// Whatever is called, each live subscription is steady, with the counts that the rows tell.
pub fn subscriptions_stay_steady()
    ensures { (config : Configuration) (moves : List Move) → let r = run config moves in AreSteady r.subscriptions.table r.items r.rows }
{}

/// Whatever is called, a session lists the number of each live subscription of its own and no other, by rising number, and
/// none that wasn't given yet.
pub fn sessions_list_their_subscriptions()
    ensures listed { (config : Configuration) (moves : List Move) → IsListed (run config moves).subscriptions.table }
    ensures own { (config : Configuration) (moves : List Move) (session : ℕ) → ListsItsOwn (run config moves).subscriptions.table session }
    ensures lists { (config : Configuration) (moves : List Move) → let subscriptions = (run config moves).subscriptions in AreLists subscriptions.made subscriptions.table }
{}

/// Whatever is called, a session with a subscription that waits has no queued request.
pub fn none_waits_beside_a_request()
    ensures { (config : Configuration) (moves : List Move) → NoneWaitsBesideARequest (run config moves).subscriptions.table }
{}

/// Whatever is called, the life counter of a subscription was last set to its lifetime count, and lacks of it one for each
/// timer that was started since.
pub fn life_counters_count_timers()
    ensures { (config : Configuration) (moves : List Move) → let r = run config moves in LivesCountTimers r.rows r.subscriptions.table }
{}

/// Whatever is called, no keep-alive is skipped: the timers of a subscription that found a request, since it sent a message,
/// or one of them found none, or its counts were set, are fewer than its keep-alive count.
pub fn no_keep_alive_is_skipped()
    ensures { (config : Configuration) (moves : List Move) → let r = run config moves in NoKeepAliveIsSkipped r.rows r.subscriptions.table }
{}

/// Whatever is called, the messages of a subscription are numbered from 1 without a gap, after the last of 32 bits comes 1,
/// also once it is no more. The last has the number of a live one, and what that one keeps was made. What Republish and
/// [`ua_subscriptions::Subscriptions::kept`] give is, byte for byte, a message that was made, under the number that is wanted. The note of a
/// time-out has the number that would have come next.
pub fn all_messages_are_numbered()
    ensures numbered { (config : Configuration) (moves : List Move) → AllAreNumbered (run_made (start config) moves) }
    ensures live { (config : Configuration) (moves : List Move) (number : ℕ) (s : Subscription) →
        subscription_at number (run config moves).subscriptions.table.subscriptions ≡ Some s →
        AreItsMessages s (messages_for number (run_made (start config) moves)) }
    ensures kept { (config : Configuration) (moves : List Move) (number wanted : ℕ) (bytes : List ℕ) →
        kept_at number wanted (run config moves).subscriptions.table ≡ Some bytes →
        IsAmong (record { number = wanted; bytes = bytes }) (messages_for number (run_made (start config) moves)) }
    ensures republished { (config : Configuration) (moves : List Move) (clock : Moment) (session number wanted : ℕ) (bytes : List ℕ) → let r = run config moves in
        (republished session number wanted (stage_of r.subscriptions r.items clock)).answer ≡ Ok bytes →
        IsAmong (record { number = wanted; bytes = bytes }) (messages_for number (run_made (start config) moves)) }
    ensures notes { (config : Configuration) (moves : List Move) → NotesComeNext (run_made (start config) moves) (run config moves).subscriptions.table }
{}

/// Whatever is called, each message that a row makes goes out: it answers a Publish request, one message a request, in the
/// order in which they are made, and the answer brings it byte for byte, under its subscription's number.
pub fn messages_are_answers()
    ensures { (config : Configuration) (moves : List Move) → AreBrought (run config moves).replies (run_made (start config) moves) }
{}

/// Whatever is called, no Publish request is answered that didn't come, none twice, and none that waits was answered: of
/// requests of any kind, told by their connections, their numbers there and their handles, the answers and those that wait
/// are together no more than those that came.
pub fn requests_are_answered_once()
    ensures { (config : Configuration) (moves : List Move) (such : Origin → Bool) → let r = run config moves in
        such_answers such r.replies + such_waiting such r.subscriptions.table.sessions ≤ such_came such moves }
{}

/// Whatever was called, a request of a session leaves what is of other sessions, or of none, as it was: their queued
/// requests and notes, their subscriptions with all counters, messages and numbers, and the items of those. And none
/// appears under another session: a subscription that isn't the session's was there before, or was its own and is now of
/// none, and an item of a subscription that the session didn't have was there before.
pub fn sessions_stay_apart()
    ensures { (config : Configuration) (moves : List Move) (move : Move) (session : ℕ) → let r = run config moves in
        IsRequestOf session r.subscriptions.table move →
        OthersStay session r.subscriptions.table r.items (moved r move).subscriptions.table (moved r move).items }
{}

/// Whatever is called, the items come by their own calls, from no items on: by what clients ask of them, by what the rows of
/// subscriptions take of them and end, and by the values that they are shown. So what `ua_monitored_items::laws` says of any calls
/// of the items holds of those of a server.
#[tactic(auto, using(crate::proofs::ItemsCalled::items_come_by_their_calls))]
pub fn items_come_by_their_calls()
    ensures { ItemsComeByTheirCalls }
{}

/// Whatever is called, each value that an item ever queued has one fate: it waits, was sent, was lost where the queue was full,
/// or was cleared. The item's account has each of them once, in the order of sampling; those that wait are what its queue holds;
/// none is sent before an older one that waits; once a value doesn't wait, its fate and its mark are final; and each call of the
/// items gives a value no fate but its own: a row's message sends values, only another value of the item drives one out, and only
/// a smaller queue, a disabled or deleted item, or the end of the subscription clears any. Nothing is driven out while the queue
/// has room, and nothing is cleared that a smaller queue holds.
pub fn values_have_one_fate()
    ensures all { (config : Configuration) (moves : List Move) (number : ℕ) →
        values_of (account_at config moves number) ≡ sampled_by (queue_moves_at config moves number) }
    ensures waiting { (config : Configuration) (moves : List Move) (number : ℕ) →
        waiting (account_at config moves number) ≡ queue_at number (run config moves).items.items }
    ensures ordered { (config : Configuration) (moves : List Move) (number : ℕ) → IsInOrder (account_at config moves number) }
    ensures for_good { (config : Configuration) (moves more : List Move) (number : ℕ) →
        GoesOn (account_at config moves number) (account_at config (moves ++ more) number) }
    ensures caused { (config : Configuration) (moves : List Move) (number : ℕ) → AreCaused config (item_calls config moves) number }
    ensures within { (config : Configuration) (moves : List Move) (number : ℕ) → HaveTheirCauses (queue_moves_at config moves number) }
{}

/// Whatever is called, no value of an item is lost in silence. Where the queue holds more than one value, each loss is told of
/// at once: behind the value that is lost a later one waits with the mark of an overflow, which it keeps, also when it is sent.
/// And behind each value that was lost the first one that was neither lost nor cleared carries the mark, until something of the
/// item is cleared, or its queue holds one value only: a call that finds nothing to clear changes nothing of that.
pub fn no_value_is_lost_in_silence()
    ensures told { (config : Configuration) (moves : List Move) (number : ℕ) → LossesAreMarked (account_at config moves number) }
    ensures at_once { (config : Configuration) (moves : List Move) (number : ℕ) → EachLossIsMarked (queue_moves_at config moves number) }
    ensures from_then_on { (config : Configuration) (moves : List Move) (number : ℕ) → MarksWhatFollows (queue_moves_at config moves number) }
{}

/// Whatever is called, each value that was sent stands in one message that a row made, with its mark. The messages are those
/// of what the items gave, one for each time that values were taken, in order: their bytes are the notes of that and nothing
/// else. And what an item gave, message after message, are the values of its account that were sent, in the order of sampling.
pub fn sent_values_stand_in_messages()
    ensures told { (config : Configuration) (moves : List Move) → AreMadeOf (run_made (start config) moves) (all_taken config moves) }
    ensures sent { (config : Configuration) (moves : List Move) (number : ℕ) →
        entries_sent number (all_taken config moves) ≡ sent_of (account_at config moves number) }
{}
