//! What the answers to Publish requests tell.

ghost use Rattle.std.specs.Prelude.{◌≡◌, ℕ, false, nat_lt, length, List, [], ◌∷◌, map, Some};
ghost use Rattle.server_core.specs.declared.event.Event.{Event};
ghost use Rattle.server_laws.specs.EventMoves.{moves_of};
ghost use Rattle.server_laws.specs.Messages.{made_by};
ghost use Rattle.server_laws.specs.Tellings.{told_by};
ghost use Rattle.server_messages.specs.declared.setting.Setting.{Setting};
ghost use Rattle.subscription_laws.specs.Runs.{run};
ghost use Rattle.subscription_laws.specs.Tellings.{answer_of, messages_in};
ghost use Rattle.ua_services.specs.Publish.{publish_acknowledged, publish_call};
ghost use Rattle.ua_services.specs.declared.caller.Caller.{Caller};
ghost use Rattle.ua_services.specs.declared.services.Services.{Services};
ghost use Rattle.ua_space.specs.Nodes.{SpaceState};
ghost use Rattle.ua_subscription_messages.specs.declared.publishing.SubscriptionAcknowledgement.{SubscriptionAcknowledgement};
ghost use Rattle.ua_types.specs.Configuration.{Configuration};
ghost use Rattle.ua_subscriptions.specs.Answers.{published_of};
ghost use Rattle.ua_subscriptions.specs.Messages.{timeout_message};
ghost use Rattle.ua_subscriptions.specs.Publishing.{acknowledged_all, note_of, with_results};
ghost use Rattle.ua_subscriptions.specs.declared.session_part.TimeoutNote.{TimeoutNote};

/// Whatever happens, what a server answers to Publish requests are these answers, in order, and no others: each tells of a message
/// that was made, of a keep-alive, of a time-out, or is a fault, on the connection and under the number that its request came by.
///
/// The messages that they bring are those that were made, each once.
///
/// How they are numbered says [`losses`](crate::losses), and that these answers stand among the replies to the request or tick that
/// gives them [`messages_are_answers`](crate::messages_are_answers).
pub fn answers_are_told()
    ensures answers { (config : Configuration) (space : SpaceState) (events : List Event) →
        (run config (moves_of config space events)).replies ≡ map answer_of (told_by config space events) }
    ensures messages { (config : Configuration) (space : SpaceState) (events : List Event) → messages_in (told_by config space events) ≡ made_by config space events }
{}

/// Where a session has a note of a time-out, its next Publish request, unless it has too many acknowledgements, is answered on
/// the connection that it came by, and nothing else is: by a StatusChangeNotification with `BAD_TIMEOUT` under the number of the
/// oldest note, of the subscription that timed out, beside what became of the acknowledgements, with no more to come.
pub fn time_outs_are_noted()
    ensures { (setting : Setting) (caller : Caller) (session : ℕ) (acks : List SubscriptionAcknowledgement) (state : Services) (note : TimeoutNote) →
        nat_lt setting.config.operations (length acks) ≡ false → note_of session state.subscriptions.table.sessions ≡ Some note →
        (publish_acknowledged setting caller session state acks).replies
        ≡ published_of setting.clock (with_results (publish_call caller) (acknowledged_all session state.subscriptions.table.subscriptions acks).results) note.subscription [] false (timeout_message note.number setting.clock) ∷ [] }
{}
