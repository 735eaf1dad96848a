//! What becomes of the values that the items queue, whatever is called. The laws have no code: their
//! contracts state them, over lists of calls (`specs/Moves`).

ghost use Rattle.ua_monitored_items.specs.Moves.{QueuesAreTheirMoves, QueuesAreWhatWaits, FatesAreFinal, AccountsAreInOrder, AccountsMarkLosses, SubscriptionsStayApart, LinksStayInside, NotesAreTheFirst};
ghost use Rattle.ua_monitored_items.specs.Causes.{FatesHaveTheirCauses};
ghost use Rattle.ua_monitored_items.specs.Givings.{NotesAreOfGivings, GivingsAreWhatWasSent};

/// After any calls each item's queue is what its own moves made of it, from the empty queue on: the moves
/// that the calls' definitions list leave nothing out, and no call changes the queue of an item on which it
/// lists none.
#[tactic(auto, using(crate::proofs::Runs::queues_are_their_moves))]
pub fn queues_are_their_moves()
    ensures { QueuesAreTheirMoves }
{}

/// After any calls the values that wait in an item are those of its account that wait, in the order in
/// which they were sampled.
#[tactic(auto, using(crate::proofs::Runs::queues_are_what_waits))]
pub fn queues_are_what_waits()
    ensures { QueuesAreWhatWaits }
{}

/// Each value that an item queued has one fate: it keeps its place in the item's account, and once it was
/// sent, lost or cleared, no later call changes it or its mark.
#[tactic(auto, using(crate::proofs::Runs::fates_are_final))]
pub fn fates_are_final()
    ensures { FatesAreFinal }
{}

/// The values of an item are sent in the order in which they were sampled.
#[tactic(auto, using(crate::proofs::Runs::accounts_are_in_order))]
pub fn sends_in_order()
    ensures { AccountsAreInOrder }
{}

/// No value of an item is lost in silence: behind each that was lost where the queue was full, the first
/// one that was neither lost nor cleared carries a mark, until something of the item is cleared, or its
/// queue holds one value only.
#[tactic(auto, using(crate::proofs::Runs::accounts_mark_losses))]
pub fn losses_are_marked()
    ensures { AccountsMarkLosses }
{}

/// A call of one subscription leaves each item of another as it is, with its queue, and none appears under
/// another subscription.
pub fn subscriptions_stay_apart()
    ensures { SubscriptionsStayApart }
{}

/// After any calls, whatever is linked to an item is the number of one that was made before, and is of the item's own
/// subscription, where that one lives yet. No number is given twice, so no link leads into another subscription later either.
#[tactic(auto, using(crate::proofs::Inside::links_stay_inside))]
pub fn links_stay_inside()
    ensures { LinksStayInside }
{}

/// What [`crate::Items::send`] writes, and [`crate::Items::take_notes`] gives, is the first of all that the subscription's items
/// that report or are released have to tell: the items by rising number, the values of each oldest first.
#[tactic(auto, using(crate::proofs::FirstNotes::notes_are_the_first))]
pub fn notes_are_the_first()
    ensures { NotesAreTheFirst }
{}

/// What items gave to messages, call after call, are the values of their accounts that were sent, with the
/// marks that they had then: each in one message, in the order in which they were sampled. What
/// [`crate::Items::send`] writes, or [`crate::Items::take_notes`] gives, are the notes of what the items give with it, and
/// nothing else.
pub fn messages_take_what_is_sent()
    ensures notes { NotesAreOfGivings }
    ensures sent { GivingsAreWhatWasSent }
{}

/// A call gives a value no fate but its own. A value is sent only by a message that takes it; it is lost only
/// where its item takes another one, when it is made or enabled, or one that was written; and it is cleared
/// only where the item gets a smaller queue, is disabled or deleted, or its subscription ends. That its queue
/// is full then, or too long for its new size, `ua_item_queue::laws::each_fate_has_its_cause` says of each move.
#[tactic(auto, using(crate::proofs::Causing::fates_have_their_causes))]
pub fn fates_have_their_causes()
    ensures { FatesHaveTheirCauses }
{}
