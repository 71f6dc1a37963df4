//! The order of a worked list of calls.
use crate::EventLinks;
use kj_base::{Queue, take_after_two_last};
use std::test::Fail;

// The events as they are taken out, each as a digit.
fn digits<Q: Queue>(queue: &mut Q) -> u64 {
    let mut digits = 0u64;
    for _ in 0..9 {
        if let Some(event) = queue.take() {
            digits = digits % 100_000_000 * 10 + (event % 10) as u64;
        }
    }
    digits
}

#[test]
fn keeps_the_order(rt: HostRuntime) -> Result<(), Fail> {
    let mut queue = EventLinks::new(rt.alloc(), 9)?;
    // At the front, the later the nearer.
    queue.arm_last(1);
    queue.arm_last(2);
    // Ahead of both.
    queue.arm_next(3);
    // Ahead of the one armed breadth first, and then behind one another.
    queue.arm_first(4);
    queue.arm_first(5);
    queue.arm_next(6);
    // It stands there already.
    queue.arm_first(6);
    // The points fall, so 7 goes behind 5.
    queue.disarm(4);
    queue.disarm(4);
    queue.arm_first(7);
    queue.rewind();
    queue.arm_first(8);
    assert_eq!(rt; digits(&mut queue), 8_573_621);
    assert_eq!(rt; queue.take(), None);
    let mut two = EventLinks::new(rt.alloc(), 9)?;
    assert_eq!(rt; take_after_two_last(&mut two, 0, 8), Some(8));
    assert_eq!(rt; two.take(), Some(0));
    let mut none = EventLinks::new(rt.alloc(), 0)?;
    assert_eq!(rt; none.take(), None);
    Ok(())
}
