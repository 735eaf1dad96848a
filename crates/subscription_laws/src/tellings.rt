//! What the answers to Publish requests tell.

ghost use Rattle.std.specs.Prelude.{◌≡◌, ℕ, false, List, [], ◌∷◌, ◌++◌, drop, map, Some};
ghost use Rattle.subscription_laws.specs.Messaging.{run_made};
ghost use Rattle.subscription_laws.specs.Runs.{Move, moved, run, start};
ghost use Rattle.subscription_laws.specs.Tellings.{answer_of, messages_in, run_told, AreInSequence};
ghost use Rattle.ua_subscription_messages.specs.declared.publishing.SubscriptionAcknowledgement.{SubscriptionAcknowledgement};
ghost use Rattle.ua_subscriptions.specs.Answers.{published_of};
ghost use Rattle.ua_subscriptions.specs.Messages.{timeout_message};
ghost use Rattle.ua_subscriptions.specs.Publishing.{acknowledged_all, note_of, with_results};
ghost use Rattle.ua_subscriptions.specs.Tables.{part_at};
ghost use Rattle.ua_subscriptions.specs.declared.publish_call.PublishCall.{PublishCall};
ghost use Rattle.ua_subscriptions.specs.declared.session_part.TimeoutNote.{TimeoutNote};
ghost use Rattle.ua_types.specs.Configuration.{Configuration};
ghost use Rattle.ua_types.specs.declared.moment.Moment.{Moment};

/// Whatever is called, what is answered to Publish requests are these answers and no others: each brings a message that was
/// made, or a keep-alive, or the note of a time-out, or a fault. The messages that they bring are those that were made, in
/// order.
pub fn answers_are_told()
    ensures answers { (config : Configuration) (moves : List Move) → (run config moves).replies ≡ map answer_of (run_told (start config) moves) }
    ensures messages { (config : Configuration) (moves : List Move) → messages_in (run_told (start config) moves) ≡ run_made (start config) moves }
{}

/// Whatever is called, each answer has the number that comes next of its subscription: a message with notifications has
/// it, and so does a keep-alive, and the note of a time-out, which use none up. Beside its message an answer lists the numbers
/// of messages that were made: those that its subscription keeps then, and none beside the note of a time-out.
pub fn keep_alives_are_numbered()
    ensures { (config : Configuration) (moves : List Move) → AreInSequence [] (run_told (start config) moves) }
{}

/// Whatever was called, where a session has a note of a time-out, its next Publish request is answered by the oldest note and
/// by nothing else: a StatusChangeNotification with `BAD_TIMEOUT` under the number of the note, of the subscription that timed
/// out, beside what became of the request's acknowledgements, with nothing kept and no more to come. The note is gone then.
pub fn time_outs_are_noted()
    ensures answer { (config : Configuration) (moves : List Move) (clock : Moment) (session : ℕ) (asked : PublishCall) (acks : List SubscriptionAcknowledgement) (note : TimeoutNote) → let r = run config moves in
        note_of session r.subscriptions.table.sessions ≡ Some note →
        (moved r (Move.Publish clock session asked acks)).replies
        ≡ r.replies ++ published_of clock (with_results asked (acknowledged_all session r.subscriptions.table.subscriptions acks).results) note.subscription [] false (timeout_message note.number clock) ∷ [] }
    ensures taken { (config : Configuration) (moves : List Move) (clock : Moment) (session : ℕ) (asked : PublishCall) (acks : List SubscriptionAcknowledgement) (note : TimeoutNote) → let r = run config moves in
        note_of session r.subscriptions.table.sessions ≡ Some note →
        (part_at session (moved r (Move.Publish clock session asked acks)).subscriptions.table.sessions).notes ≡ drop 1 (part_at session r.subscriptions.table.sessions).notes }
{}
