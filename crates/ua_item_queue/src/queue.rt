//! The queue of a monitored item.

ghost use Rattle.std.specs.Prelude.{◌≡◌, ◌≤◌, ◌<◌, ◌+◌, ◌-◌, IfOk, IsOk, OnOk, OnErr, length, [], ◌∷◌, ◌++◌, None, take, drop, true, IsTrue, ◌↔◌, slice_get};
ghost use Rattle.std.specs.Option.{option_copied};
ghost use Rattle.circular_buffer.specs.Buffer.{buffer};
ghost use Rattle.ua_item_queue.specs.ItemQueue.{QueueState, queue_after, marked_front, newest as newest_spec, waiting_of, sampled, sent, cleared, resized};
ghost use Rattle.ua_item_queue.specs.ItemQueue.QueueMove.{Sample, Resize};

use crate::entry::Entry;
use crate::queue_size::QueueSize;
use circular_buffer::HeapCircularBuffer;
use std::alloc::{AllocError, Global};
use std::marker::Model;

/// How many places of a ring stay where all of its values were sent or cleared.
const PLACES_KEPT: usize = 4;

/// The values of a monitored item that wait to be sent, oldest first: at most as many as its size; and the value
/// that was queued last, with which the next one is compared.
///
/// They stand in a ring, which begins with one place and doubles as it fills, up to the queue's size: so an idle queue takes
/// little memory, and one that is full, or in which none waits, wants none for a value that comes in.
pub struct ItemQueue<T> {
    // The values that wait, the oldest first, and behind them the one that was queued last, where it waits no more.
    ring: HeapCircularBuffer<Entry<T>>,
    // How many values may wait: at least 1.
    size: u32,
    // Whether the newest value of the ring waits no more, and is only kept.
    keeps_last: bool,
    // Which value is lost where the queue is full: the oldest one, or the newest.
    discard_oldest: bool,
}

impl<T> Model for ItemQueue<T> {
    ghost Value = { QueueState T };

    ghost view = { λ q. record { entries = waiting_of q.keeps_last q.ring.items; size = q.size; discard_oldest = q.discard_oldest; last = newest_spec q.ring.items } };

    ghost invariant = { λ q. (1 ≤ q.size) × (1 ≤ q.ring.capacity) };
}

impl<T: Drop> ItemQueue<T> {
    /// An empty queue of this size, at least 1, which loses its oldest value where it is full, or else
    /// its newest. It has one place.
    pub fn new(alloc: Global, size: u32, discard_oldest: bool) -> Result<ItemQueue<T>, AllocError>
        requires { 1 ≤ size }
        ensures { IfOk result (λ queue. queue ≡ record { entries = []; size = size; discard_oldest = discard_oldest; last = None }) }
    {
        let ring = HeapCircularBuffer::with_capacity(alloc, 1)?;
        Ok(ItemQueue {
            ring,
            size,
            keeps_last: false,
            discard_oldest,
        })
    }

    /// How many values wait.
    pub fn len(&self) -> usize
        ensures { result ≡ length self.now.entries }
    {
        waiting(&self.ring, self.keeps_last)
    }

    /// Whether no value waits.
    pub fn is_empty(&self) -> bool
        ensures { IsTrue result ↔ (self.now.entries ≡ []) }
    {
        self.len() == 0
    }

    /// The value that waits behind so many others.
    #[tactic(auto, using(crate::proofs::LastLemmas::waits_at))]
    pub fn get(&self, index: usize) -> Option<&Entry<T>>
        ensures { option_copied result ≡ slice_get self.now.entries index }
    {
        if index < self.len() {
            self.ring.get(index)
        } else {
            None
        }
    }

    /// The value that was queued last, without a mark, whatever became of it since.
    pub fn last(&self) -> Option<&T>
        ensures { option_copied result ≡ self.now.last }
    {
        newest(&self.ring)
    }

    /// Takes in a value. Where the queue is full, a value is lost: the oldest, and the new oldest is
    /// marked; or the newest, and the value that comes in is marked. A queue of size 1 marks nothing.
    /// Wants memory only where the ring has no place for it, and never where the queue is full, or where nothing waits. At an
    /// `Err` nothing changed.
    #[tactic(auto, using(crate::proofs::LastLemmas::newest_sampled))]
    pub fn sample(&mut self, value: T) -> Result<(), AllocError>
        ensures ok { OnOk result (self.new ≡ sampled self.old value) }
        ensures err { OnErr result (self.new ≡ self.old) }
        ensures full { self.old.size ≤ length self.old.entries → IsOk result }
        ensures empty { self.old.entries ≡ [] → IsOk result }
    {
        make_place(&mut self.ring, self.keeps_last, self.size as usize)?;
        forget_kept(&mut self.ring, self.keeps_last);
        self.keeps_last = false;
        sample_into(
            &mut self.ring,
            self.size as usize,
            self.discard_oldest,
            value,
        );
        Ok(())
    }

    /// The oldest values are sent, so many or all, and wait no more.
    #[tactic(auto, using(crate::proofs::LastLemmas::waiting_dropped))]
    pub fn send(&mut self, count: usize)
        ensures { self.new ≡ sent self.old count }
    {
        if count >= self.len() {
            self.clear();
        } else {
            drop_front(&mut self.ring, count);
        }
    }

    /// All values are cleared. A ring of more than 4 places goes back to one, where there is memory
    /// for that.
    #[tactic(auto, using(crate::proofs::LastLemmas::newest_kept, crate::proofs::LastLemmas::none_waits))]
    pub fn clear(&mut self)
        ensures { self.new ≡ cleared self.old }
    {
        self.ring.truncate_front(1);
        self.keeps_last = true;
        give_back(&mut self.ring, PLACES_KEPT);
    }

    /// Gives the queue another size, at least 1, and another choice of what is lost. Where more values wait than that, the
    /// oldest or newest of them are cleared, and nothing is marked. Wants no memory: a ring that is larger than the size is
    /// made smaller where there is memory for that.
    pub fn resize(&mut self, size: QueueSize, discard_oldest: bool)
        ensures { self.new ≡ resized self.old size discard_oldest }
    {
        let size = size.places();
        cut(
            &mut self.ring,
            &mut self.keeps_last,
            size as usize,
            discard_oldest,
        );
        give_back(&mut self.ring, size as usize);
        self.size = size;
        self.discard_oldest = discard_oldest;
    }
}

// A place more, where a value that comes in needs one: twice as many as there are, and at most so many.
fn make_place<T>(
    ring: &mut HeapCircularBuffer<Entry<T>>,
    keeps_last: bool,
    size: usize,
) -> Result<(), AllocError>
    requires { 1 ≤ ring.old.capacity }
    ensures items { ring.new.items ≡ ring.old.items }
    ensures err { OnErr result (ring.new ≡ ring.old) }
    ensures place { OnOk result (length (waiting_of keeps_last ring.new.items) < size → length (waiting_of keeps_last ring.new.items) < ring.new.capacity) }
    ensures some { 1 ≤ ring.new.capacity }
    ensures full { size ≤ length (waiting_of keeps_last ring.old.items) → IsOk result }
    ensures empty { waiting_of keeps_last ring.old.items ≡ [] → IsOk result }
{
    let places = ring.capacity();
    if waiting(ring, keeps_last) < places || places >= size {
        return Ok(());
    }
    ring.resize(places.saturating_mul(2).min(size))
}

// Makes a ring of more than so many places as small as its values allow, where there is memory for the smaller one.
fn give_back<T>(ring: &mut HeapCircularBuffer<Entry<T>>, most: usize)
    requires { 1 ≤ ring.old.capacity }
    ensures items { ring.new.items ≡ ring.old.items }
    ensures some { 1 ≤ ring.new.capacity }
{
    let places = ring.len().max(1);
    if ring.capacity() > most && places < ring.capacity() {
        let _ = ring.resize(places);
    }
}

// How many values of a ring wait.
fn waiting<T>(ring: &HeapCircularBuffer<Entry<T>>, keeps_last: bool) -> usize
    ensures count { result ≡ length (waiting_of keeps_last ring.now.items) }
    ensures within { length ring.now.items ≤ ring.now.capacity }
{
    if keeps_last {
        ring.len().saturating_sub(1)
    } else {
        ring.len()
    }
}

// The newest value of a ring.
fn newest<T>(ring: &HeapCircularBuffer<Entry<T>>) -> Option<&T>
    ensures { option_copied result ≡ newest_spec ring.now.items }
{
    match ring.back() {
        Some(entry) => Some(&entry.value),
        None => None,
    }
}

// Takes out the oldest values, so many and not all.
#[tactic(auto, using(crate::proofs::LastLemmas::newest_after))]
fn drop_front<T: Drop>(ring: &mut HeapCircularBuffer<Entry<T>>, count: usize)
    requires { count < length ring.old.items }
    ensures items { ring.new ≡ buffer (drop count ring.old.items) ring.old.capacity }
    ensures newest { newest_spec ring.new.items ≡ newest_spec ring.old.items }
{
    ring.truncate_front(ring.len() - count);
}

// The newest value leaves a ring that only keeps it.
fn forget_kept<T: Drop>(ring: &mut HeapCircularBuffer<Entry<T>>, keeps_last: bool)
    ensures { ring.new ≡ buffer (waiting_of keeps_last ring.old.items) ring.old.capacity }
{
    if keeps_last {
        let _ = ring.pop_back();
    }
}

// Takes in a value, where all values of the ring wait.
fn sample_into<T: Drop>(
    ring: &mut HeapCircularBuffer<Entry<T>>,
    size: usize,
    discard_oldest: bool,
    value: T,
)
    requires some { 1 ≤ size }
    requires place { length ring.old.items < size → length ring.old.items < ring.old.capacity }
    ensures { ring.new ≡ buffer (queue_after ring.old.items (Sample size discard_oldest value)) ring.old.capacity }
{
    if ring.len() < size {
        push(ring, value, false);
    } else if size == 1 {
        ring.clear();
        push(ring, value, false);
    } else if discard_oldest {
        let _ = ring.pop_front();
        push(ring, value, false);
        mark_front(ring);
    } else {
        let _ = ring.pop_back();
        push(ring, value, true);
    }
}

// Puts a value behind the others, where there is a place for it.
fn push<T: Drop>(ring: &mut HeapCircularBuffer<Entry<T>>, value: T, marked: bool)
    requires { length ring.old.items < ring.old.capacity }
    ensures { ring.new ≡ buffer (ring.old.items ++ record { value = value; marked = marked } ∷ []) ring.old.capacity }
{
    let _ = ring.try_push_back(Entry { value, marked });
}

fn mark_front<T>(ring: &mut HeapCircularBuffer<Entry<T>>)
    ensures { ring.new ≡ buffer (marked_front ring.old.items) ring.old.capacity }
{
    if let Some(front) = ring.get_mut(0) {
        front.marked = true;
    }
}

// Takes out the oldest or newest values that wait, where they are more than so many. The one that was queued last stays.
#[tactic(auto, using(crate::proofs::LastLemmas::waiting_dropped))]
fn cut<T: Drop>(
    ring: &mut HeapCircularBuffer<Entry<T>>,
    keeps_last: &mut bool,
    size: usize,
    discard_oldest: bool,
)
    requires { 1 ≤ size }
    ensures entries { waiting_of keeps_last.new ring.new.items ≡ queue_after (waiting_of keeps_last.old ring.old.items) (Resize size discard_oldest) }
    ensures newest { newest_spec ring.new.items ≡ newest_spec ring.old.items }
    ensures within { length ring.new.items ≤ size + 1 }
    ensures capacity { ring.new.capacity ≡ ring.old.capacity }
{
    let waiting = waiting(ring, *keeps_last);
    if waiting <= size {
        return;
    }
    if discard_oldest {
        drop_front(ring, waiting - size);
    } else {
        keep_front(ring, *keeps_last, size);
        *keeps_last = true;
    }
}

// The first values that wait stay, so many and not all, and the newest behind them.
fn keep_front<T: Drop>(ring: &mut HeapCircularBuffer<Entry<T>>, keeps_last: bool, size: usize)
    requires more { size < length (waiting_of keeps_last ring.old.items) }
    requires within { length ring.old.items ≤ ring.old.capacity }
    ensures entries { waiting_of true ring.new.items ≡ take size (waiting_of keeps_last ring.old.items) }
    ensures newest { newest_spec ring.new.items ≡ newest_spec ring.old.items }
    ensures within { length ring.new.items ≡ size + 1 }
    ensures capacity { ring.new.capacity ≡ ring.old.capacity }
{
    if let Some(last) = ring.pop_back() {
        ring.truncate_back(size);
        push(ring, last.value, last.marked);
    }
}

// Written out, so that a proof sees a drop as one call and not as its cases.
impl<T: Drop> Drop for ItemQueue<T> {
    fn drop(self) {
        let ItemQueue {
            ring: _,
            size: _,
            keeps_last: _,
            discard_oldest: _,
        } = self;
    }
}
