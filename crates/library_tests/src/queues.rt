//! Queues of items: what waits once they are full, and once they got another size.

use crate::holding::holds;
use std::alloc::{AllocError, Global};
use std::test::*;
use ua_item_queue::*;

// The values 1 to 6, sampled into a queue.
fn sampled(alloc: Global, size: u32, is_oldest: bool) -> Result<ItemQueue<u32>, AllocError> {
    let mut queue = ItemQueue::new(alloc, size.max(1), is_oldest)?;
    for value in 1..7u32 {
        queue.sample(value)?;
    }
    Ok(queue)
}

// Two digits for each value that waits, the second of them 1 where it is marked.
fn digits(queue: &ItemQueue<u32>) -> u64 {
    let mut number = 0u64;
    for index in 0..queue.len() {
        if let Some(Entry { value, marked }) = queue.get(index) {
            let entry = u64::from(*value).wrapping_mul(10) | u64::from(*marked);
            number = number.wrapping_mul(100).wrapping_add(entry);
        }
    }
    number
}

#[test]
fn full_queues_tell_what_they_lost(rt: HostRuntime) -> Result<(), Fail> {
    let alloc = rt.alloc();
    for (size, is_oldest, number) in [
        (3, true, 415060u64),
        (3, false, 102061),
        (1, true, 60),
        (1, false, 60),
        (6, true, 102030405060),
        (7, true, 102030405060),
    ] {
        let queue = sampled(alloc, size, is_oldest)?;
        holds(&rt, "what waits", digits(&queue) == number);
    }
    Ok(())
}

// The values 1 to 6 in a queue of 6 that gets another size; and then a 9 comes.
#[test]
fn another_size_marks_nothing(rt: HostRuntime) -> Result<(), Fail> {
    let alloc = rt.alloc();
    for (size, is_oldest, number, later) in [
        (2, true, 5060u64, 6190u64),
        (2, false, 1020, 1091),
        (1, true, 60, 90),
        (6, true, 102030405060, 213040506090),
        (7, false, 102030405060, 10203040506090),
    ] {
        let mut queue = sampled(alloc, 6, true)?;
        queue.resize(QueueSize::new(size.max(1)), is_oldest);
        holds(&rt, "what is left", digits(&queue) == number);

        let mut queue = sampled(alloc, 6, true)?;
        queue.resize(QueueSize::new(size.max(1)), is_oldest);
        queue.sample(9)?;
        holds(&rt, "what waits", digits(&queue) == later);
    }
    Ok(())
}

#[test]
fn a_queue_is_cleared(rt: HostRuntime) -> Result<(), Fail> {
    let mut queue = sampled(rt.alloc(), 6, true)?;
    queue.clear();
    holds(&rt, "empty", queue.is_empty());
    holds(&rt, "the last one", queue.last() == Some(&6));
    Ok(())
}

// The values 1 to 6 in a queue of 6, of which so many are sent: what waits then, and the value that was queued last.
#[test]
fn what_was_sent_waits_no_more(rt: HostRuntime) -> Result<(), Fail> {
    for (count, number) in [(0, 102030405060u64), (2, 30405060), (5, 60), (6, 0), (7, 0)] {
        let mut queue = sampled(rt.alloc(), 6, true)?;
        queue.send(count);
        holds(&rt, "what waits", digits(&queue) == number);
        holds(&rt, "the last one", queue.last() == Some(&6));
        queue.sample(9)?;
        holds(&rt, "the next one", queue.last() == Some(&9));
    }
    let mut queue = sampled(rt.alloc(), 6, true)?;
    queue.resize(QueueSize::new(2), false);
    holds(&rt, "which was cleared", queue.last() == Some(&6));
    Ok(())
}

// A queue takes memory for what waits, not for its size; and after a burst that was sent it goes on as before.
#[test]
fn a_queue_grows_as_it_fills(rt: HostRuntime) -> Result<(), Fail> {
    for size in [7, u32::MAX] {
        let mut queue = sampled(rt.alloc(), size, true)?;
        queue.send(6);
        holds(&rt, "the last one", queue.last() == Some(&6));
        for value in 1..7u32 {
            queue.sample(value)?;
        }
        holds(&rt, "what waits", digits(&queue) == 102030405060);
    }
    Ok(())
}
