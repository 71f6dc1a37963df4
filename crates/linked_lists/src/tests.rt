//! A worked list of calls.
ghost use Rattle.std.specs.Prelude.{◌≡◌, ◌<◌, length};

use crate::LinkedLists;
use std::test::Fail;

// The members of a list, each as a digit.
fn digits(lists: &LinkedLists, head: u32) -> u64
    requires { head < length lists.now }
{
    let mut digits = 0u64;
    let mut member = lists.first(head);
    for _ in 0..9 {
        if let Some(number) = member {
            digits = digits % 100_000_000 * 10 + (number % 10) as u64;
            member = lists.after(head, number);
        }
    }
    digits
}

// A number that stands alone goes before another one.
fn put_before(lists: &mut LinkedLists, place: u32, number: u32)
    requires place { place < length lists.old }
    requires number { number < length lists.old }
    ensures { length lists.new ≡ length lists.old }
{
    if place != number && lists.is_alone(number) {
        lists.insert_before(place, number);
    }
}

// The same, behind another one.
fn put_after(lists: &mut LinkedLists, place: u32, number: u32)
    requires place { place < length lists.old }
    requires number { number < length lists.old }
    ensures { length lists.new ≡ length lists.old }
{
    if place != number && lists.is_alone(number) {
        lists.insert_after(place, number);
    }
}

#[test]
fn keeps_two_lists(rt: HostRuntime) -> Result<(), Fail> {
    let mut lists = LinkedLists::new(rt.alloc(), 10)?;
    assert!(rt; lists.is_alone(0));
    assert_eq!(rt; lists.first(0), None);
    // At the end of the list of 0, then in front, before a member, and behind one.
    put_before(&mut lists, 0, 1);
    put_before(&mut lists, 0, 2);
    put_after(&mut lists, 0, 3);
    put_before(&mut lists, 2, 4);
    put_after(&mut lists, 2, 5);
    assert_eq!(rt; digits(&lists, 0), 31_425);
    // Another list beside it.
    put_before(&mut lists, 9, 6);
    put_before(&mut lists, 9, 7);
    assert_eq!(rt; digits(&lists, 9), 67);
    assert!(rt; !lists.is_alone(9));
    // Any member goes, and may stand elsewhere then.
    lists.remove(4);
    assert!(rt; lists.is_alone(4));
    put_after(&mut lists, 6, 4);
    lists.remove(3);
    lists.remove(5);
    assert_eq!(rt; digits(&lists, 0), 12);
    assert_eq!(rt; digits(&lists, 9), 647);
    // The head goes: its list is empty.
    lists.remove(9);
    assert_eq!(rt; digits(&lists, 9), 0);
    assert!(rt; !lists.is_alone(6));
    Ok(())
}
