//! What becomes of the values that an item queues, whatever is done with it.

ghost use Rattle.std.specs.Prelude.{◌≡◌, ◌<◌, ℕ, Bool, List, [], fold};
ghost use Rattle.ua_item_queue.specs.ItemQueue.{QueueMove, queue};
ghost use Rattle.ua_item_queue.specs.ItemQueue.QueueMove.{Sample};
ghost use Rattle.ua_item_queue.specs.Fates.{account, account_after, waiting, GoesOn, IsInOrder, LossesAreMarked, NewLossesAreMarked};
ghost use Rattle.ua_item_queue.specs.Causes.{may_give, GetsOnly};
ghost use Rattle.ua_item_queue.specs.Marks.{AllAboveOne, MarksTheNextLeft};
ghost use Rattle.ua_item_queue.specs.Sendings.{values_of, sampled_by, sent_of, given_by};

/// The queue is those values of the account that wait, in the order in which they were queued.
#[tactic(auto, using(crate::proofs::QueueLemmas::queue_is_what_waits))]
pub fn queue_is_what_waits<T>()
    ensures { (queue_moves : List (QueueMove T)) → waiting (account queue_moves) ≡ queue queue_moves }
{}

/// Each value that was ever queued keeps its place in the account, and once it doesn't wait, nothing of
/// it changes: it has one fate, and its mark is final. A mark is never taken back.
#[tactic(auto, using(crate::proofs::KeptLemmas::queue_moves_go))]
pub fn each_value_has_one_fate<T>()
    ensures { (queue_moves more : List (QueueMove T)) → GoesOn (account queue_moves) (fold account_after (account queue_moves) more) }
{}

/// Values are sent in the order in which they were queued: none is sent before an older one that waits.
#[tactic(auto, using(crate::proofs::AccountLemmas::account_in_order))]
pub fn sends_in_order<T>()
    ensures { (queue_moves : List (QueueMove T)) → IsInOrder (account queue_moves) }
{}

/// No value is lost in silence: behind each value that was lost where the queue was full, the first one
/// that was neither lost nor cleared carries a mark. This holds until something is cleared, or the
/// queue holds one value only.
#[tactic(auto, using(crate::proofs::AccountLemmas::account_marks))]
pub fn losses_are_marked<T>()
    ensures { (queue_moves : List (QueueMove T)) → LossesAreMarked (account queue_moves) }
{}

/// A value that is lost where the queue is full, of a size above 1, has a mark behind it at once: a
/// later value that waits carries one.
#[tactic(auto, using(crate::proofs::MarkLemmas::marks_losses))]
pub fn marks_losses_at_once<T>()
    ensures { (queue_moves : List (QueueMove T)) (size : ℕ) (discard_oldest : Bool) (value : T) → 1 < size →
        NewLossesAreMarked (account queue_moves) (account_after (account queue_moves) (Sample size discard_oldest value)) }
{}

/// Where the queue loses the value at a place, its size is above 1 from then on, and no value becomes cleared, the first later value that
/// was neither lost nor cleared carries a mark, whatever else is done.
#[tactic(auto, using(crate::proofs::NextMarked::marks_the_next))]
pub fn marks_the_next_left<T>()
    ensures { (queue_moves more : List (QueueMove T)) (size : ℕ) (discard_oldest : Bool) (value : T) → 1 < size → AllAboveOne more →
        MarksTheNextLeft (account queue_moves) (account_after (account queue_moves) (Sample size discard_oldest value)) more }
{}

/// The account has each value that was ever queued, in the order in which they were, and no other.
#[tactic(auto, using(crate::proofs::ValueLemmas::values_are_sent))]
pub fn each_value_is_told<T>()
    ensures { (queue_moves : List (QueueMove T)) → values_of (account queue_moves) ≡ sampled_by queue_moves }
{}

/// The values of the account that were sent are those that the sendings took from the front of the queue,
/// one after the other, with the marks that they had then: each once, and in the order in which they were
/// queued.
#[tactic(auto, using(crate::proofs::SentLemmas::sent_are_given))]
pub fn sends_from_the_front<T>()
    ensures { (queue_moves : List (QueueMove T)) → sent_of (account queue_moves) ≡ given_by [] queue_moves }
{}

/// A move gives a value no fate but its own: a value is lost only where another is queued while as many wait
/// as the queue's size says, sent only by a sending, and cleared only with the whole queue or where more
/// wait than its new size says.
#[tactic(auto, using(crate::proofs::CauseLemmas::own_fates))]
pub fn each_fate_has_its_cause<T>()
    ensures { (queue_moves : List (QueueMove T)) (queue_move : QueueMove T) → GetsOnly (may_give (account queue_moves) queue_move) (account queue_moves) (account_after (account queue_moves) queue_move) }
{}
