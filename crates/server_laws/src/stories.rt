//! Runs that no server has: small stories, each refused by one clause of the laws.
//!
//! A body calls the law and does nothing else, so what is proved follows from the law's contract. If a clause said nothing, its
//! story would be let through, and this module wouldn't be proved.

ghost use Rattle.std.specs.Prelude.{◌≡◌, ◌≢◌, ℕ, true, false, List, [], ◌∷◌, ◌++◌, map, Some, None, Ok};
ghost use Rattle.std.specs.declared.cmp.Ordering.TheVariants.{Less};
ghost use Rattle.ua_types.specs.Configuration.{Configuration, IsConfigured};
ghost use Rattle.ua_types.specs.declared.moment.Moment.{Moment};
ghost use Rattle.ua_types.specs.declared.node_id.NodeId.{NodeId};
ghost use Rattle.ua_space.specs.Nodes.{SpaceState};
ghost use Rattle.ua_space.specs.Values.{value_at};
ghost use Rattle.ua_types.specs.declared.data_value.DataValue.{DataValue};
ghost use Rattle.ua_read_write.specs.declared.writing.Change.{Change};
ghost use Rattle.ua_transport.specs.ChannelStates.{ChannelState};
ghost use Rattle.ua_transport.specs.Cutting.{send_of};
ghost use Rattle.server_messages.specs.Kept.{Kept, with_all_stored};
ghost use Rattle.server_messages.specs.declared.fired.Fired.{Fired};
ghost use Rattle.server_messages.specs.declared.request.Request.{Request};
ghost use Rattle.ua_state_table.specs.declared.event.TableEvent.TheVariants.{Timer};
ghost use Rattle.ua_state_table.specs.declared.row.RowId.TheVariants.{G6};
ghost use Rattle.ua_subscriptions.specs.declared.subscription.Subscription.{Subscription};
ghost use Rattle.ua_subscriptions.specs.declared.messages.KeptMessage.{KeptMessage};
ghost use Rattle.ua_subscriptions.specs.declared.publish_call.PublishCall.{PublishCall};
ghost use Rattle.ua_subscription_messages.specs.declared.publishing.SubscriptionAcknowledgement.{SubscriptionAcknowledgement};
ghost use Rattle.ua_subscriptions.specs.Publishing.{note_of};
ghost use Rattle.ua_subscriptions.specs.Ranks.{rank_of, is_due, is_waiting};
ghost use Rattle.ua_subscriptions.specs.Scenes.{Scene};
ghost use Rattle.ua_subscriptions.specs.Tables.{part_at, subscription_at};
ghost use Rattle.subscription_laws.specs.Calm.{is_listed};
ghost use Rattle.subscription_laws.specs.Concern.{Concern, subscription_of, concerned, all_concerned};
ghost use Rattle.subscription_laws.specs.Encounters.{Meets, encounters};
ghost use Rattle.subscription_laws.specs.Histories.{counts_at, life_at};
ghost use Rattle.subscription_laws.specs.Messaging.{messages_for};
ghost use Rattle.subscription_laws.specs.OwnRequests.{CameIn};
ghost use Rattle.subscription_laws.specs.Precedence.{precedence, WaitsIn};
ghost use Rattle.subscription_laws.specs.Runs.{Move, run};
ghost use Rattle.subscription_laws.specs.Tellings.{Telling, told_at};
ghost use Rattle.subscription_laws.specs.Tellings.Told.{KeepAlive};
ghost use Rattle.server_connections.specs.Reactions.{sends};
ghost use Rattle.ua_services.specs.Services.{serving_of};
ghost use Rattle.ua_services.specs.ServicesState.{no_services_used};
ghost use Rattle.ua_services.specs.Write.{sampled};
ghost use Rattle.server_core.specs.Coherent.{reached};
ghost use Rattle.server_core.specs.Subscriptions.{kept_on};
ghost use Rattle.server_core.specs.declared.event.Event.{Event};
ghost use Rattle.server_core.specs.declared.world.World.{World};
ghost use Rattle.server_laws.specs.Apart.{NamesOnly, accepted, is_write};
ghost use Rattle.server_laws.specs.EventMoves.{moves_of};
ghost use Rattle.server_laws.specs.Fates.{account_after};
ghost use Rattle.server_laws.specs.Messages.{made_by};
ghost use Rattle.server_laws.specs.Postings.{Posting, posted};
ghost use Rattle.server_laws.specs.Storing.{stored_in};
ghost use Rattle.server_laws.specs.Stories.{lost, sent, waiting};
ghost use Rattle.server_laws.specs.Tables.{rows_of_run};
ghost use Rattle.server_laws.specs.Tellings.{told_by};

use crate::storing::store_has_what_changed;
use crate::{losses, table};

/// A value was lost, and the next one that waits carries no mark.
pub fn a_loss_without_its_mark()
    ensures { (config : Configuration) (space : SpaceState) (events : List Event) (number : ℕ) (first next : DataValue) →
        account_after config space events number ≡ lost first ∷ waiting next ∷ [] → ⊥ }
{
    losses();
}

/// A value that was sent waits again.
pub fn a_fate_that_changes_back()
    ensures { (config : Configuration) (space : SpaceState) (events more : List Event) (number : ℕ) (value : DataValue) →
        account_after config space events number ≡ sent value ∷ [] → account_after config space (events ++ more) number ≡ waiting value ∷ [] → ⊥ }
{
    losses();
}

/// A keep-alive used a number: behind the message 1 the next one is 3.
pub fn a_number_passed_over()
    ensures { (config : Configuration) (space : SpaceState) (events : List Event) (number : ℕ) (first next : KeptMessage) →
        messages_for number (made_by config space events) ≡ first ∷ next ∷ [] → first.number ≡ 1 → next.number ≡ 3 → ⊥ }
{
    losses();
}

/// The first answer to a Publish request is a keep-alive, and its number isn't 1.
pub fn a_keep_alive_with_another_number()
    ensures { (config : Configuration) (space : SpaceState) (events : List Event) (first : Telling) (subscription number : ℕ) →
        told_by config space events ≡ first ∷ [] → first.told ≡ KeepAlive subscription number → number ≢ 1 → ⊥ }
{
    losses();
}

/// A message is kept, and so sent again, with other bytes than those with which it was made: with today's time, for instance.
pub fn other_bytes_sent_again()
    ensures { (config : Configuration) (space : SpaceState) (events : List Event) (number : ℕ) (world : World) (made : KeptMessage) (bytes : List ℕ) →
        messages_for number (made_by config space events) ≡ made ∷ [] → (reached config space events).server ≡ Some world →
        kept_on (Some world) number made.number ≡ Some bytes → bytes ≢ made.bytes → ⊥ }
{
    losses();
}

/// Two subscriptions are due, and the row of one of them fires alone.
pub fn a_due_subscription_passed_over()
    ensures { (config : Configuration) (space : SpaceState) (events : List Event) (first second : Concern) (row : Fired) →
        all_concerned config (moves_of config space events) ≡ first ∷ second ∷ [] → rows_of_run (reached config space events) ≡ row ∷ [] → ⊥ }
{
    table();
}

/// A subscription times out one timer late: as many timers were started before as its life counter was set to.
pub fn a_time_out_one_timer_late()
    ensures { (config : Configuration) (space : SpaceState) (events : List Event) (before : List Fired) (row : Fired) (rest : List Fired) →
        before ++ row ∷ rest ≡ rows_of_run (reached config space events) → row.row ≡ G6 →
        (counts_at row.subscription before).started ≡ life_at row.subscription before → ⊥ }
{
    table();
}

/// A request waits in a session beside a subscription that waits for one.
pub fn a_request_left_beside_a_waiting_subscription()
    ensures { (config : Configuration) (space : SpaceState) (events : List Event) (world : World) (number session : ℕ) (s : Subscription) →
        (reached config space events).server ≡ Some world → subscription_at number world.core.services.subscriptions.table.subscriptions ≡ Some s →
        s.session ≡ Some session → is_waiting s ≡ true → (part_at session world.core.services.subscriptions.table.sessions).requests ≢ [] → ⊥ }
{
    table();
}

/// A row answers a request that didn't come in the session of its subscription.
pub fn an_answer_across_sessions()
    ensures { (config : Configuration) (space : SpaceState) (events : List Event) (before : List Move) (m : Move) (rest : List Move) (c : Scene) (answer : Telling) →
        before ++ m ∷ rest ≡ moves_of config space events → encounters (run config before) m ≡ Meets c ∷ [] → told_at (Meets c) ≡ answer ∷ [] →
        ((session : ℕ) → c.subscription.session ≡ Some session → CameIn session answer.call.origin (before ++ m ∷ []) → ⊥) → ⊥ }
{
    table();
}

/// The time of a subscription has come, and it isn't met as the server is told.
pub fn a_timer_passed_over()
    ensures { (config : Configuration) (space : SpaceState) (events : List Event) (before : List Move) (clock : Moment) (rest : List Move) (number : ℕ) (s : Subscription) →
        before ++ Move.Timers clock ∷ rest ≡ moves_of config space events → let r = run config before in
        subscription_at number r.subscriptions.table.subscriptions ≡ Some s → is_due clock s ≡ true → is_listed number (map subscription_of (concerned r (Move.Timers clock))) ≡ false → ⊥ }
{
    table();
}

/// Two subscriptions of a session wait, and a Publish request comes to the one that comes second.
pub fn the_second_best_answers()
    ensures { (config : Configuration) (space : SpaceState) (events : List Event) (before : List Move) (clock : Moment) (session : ℕ) (asked : PublishCall) (acks : List SubscriptionAcknowledgement) (rest : List Move) (first second : ℕ) (s t : Subscription) (c : Concern) →
        before ++ Move.Publish clock session asked acks ∷ rest ≡ moves_of config space events → let r = run config before in let live = r.subscriptions.table.subscriptions in
        note_of session r.subscriptions.table.sessions ≡ None → subscription_at first live ≡ Some s → WaitsIn session first s → subscription_at second live ≡ Some t →
        precedence (rank_of first s) (rank_of second t) ≡ Less → first ≢ second → concerned r (Move.Publish clock session asked acks) ≡ c ∷ [] → c.subscription ≡ second → ⊥ }
{
    table();
}

/// An answer is given, and nothing is posted.
pub fn an_answer_that_is_not_posted()
    ensures { (config : Configuration) (space : SpaceState) (events : List Event) (answer : Telling) →
        told_by config space events ≡ answer ∷ [] → posted config space events ≡ [] → ⊥ }
{
    losses();
}

/// An answer is posted, and nothing goes out for it.
pub fn an_answer_that_is_swallowed()
    ensures { (config : Configuration) (space : SpaceState) (events : List Event) (p : Posting) → IsConfigured config →
        posted config space events ≡ p ∷ [] → p.outs ≡ [] → ⊥ }
{
    losses();
}

/// An answer fits by the channel of its client, and something else goes out: the fault for one that is too large, for instance.
pub fn an_answer_that_fits_is_refused()
    ensures { (config : Configuration) (space : SpaceState) (events : List Event) (p : Posting) (channel : ChannelState) (chunks : List (List ℕ)) → IsConfigured config →
        posted config space events ≡ p ∷ [] → p.channel ≡ Some channel → (send_of channel p.reply.origin.id p.reply.body).answer ≡ Ok chunks →
        p.outs ≢ sends p.reply.origin.conn chunks → ⊥ }
{
    losses();
}

/// A Write accepts two values, and the items see the first alone.
pub fn a_second_value_unseen()
    ensures { (config : Configuration) (space : SpaceState) (events : List Event) (world : World) (request : Request) (session : ℕ) (first second : Change) →
        let before = world.core.services in let after = (serving_of world.core.setting request before).state in
        (reached config space events).server ≡ Some world → is_write request ≡ true → NamesOnly session before request →
        accepted world.core.setting request before ≡ first ∷ second ∷ [] → after.items ≡ sampled before.items (first ∷ []) →
        sampled before.items (first ∷ []) ≢ sampled before.items (first ∷ second ∷ []) → ⊥ }
{
    table();
}

/// A variable's value changed, and a store that kept what the steps say has another one.
pub fn a_change_that_is_not_kept()
    ensures { (config : Configuration) (space : SpaceState) (events : List Event) (world : World) (kept : Kept) (id : NodeId) (value other : DataValue) → config.has_store ≡ true →
        (reached config space events).server ≡ Some world → value_at id world.core.services.space.nodes ≡ Some value → value_at id (no_services_used config space).space.nodes ≢ Some value →
        (with_all_stored kept (stored_in (reached config space events))).values id ≡ Some other → other ≢ value → ⊥ }
{
    store_has_what_changed();
}
