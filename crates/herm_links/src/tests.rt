//! Lists by hand.
ghost use Rattle.std.specs.Prelude.{◌≡◌, IfOk, length};

use super::*;
use std::alloc::{AllocError, Global};
use std::test::Fail;

/// 5 and 6 are put in a list, 7 between them in another, and 5 is taken out.
fn six_and_seven(alloc: Global) -> Result<(Links<u32>, ListNo, ListNo, NodeNo, u32), AllocError>
    ensures lists { IfOk result (λ r. length r.0.lists ≡ 2) }
    ensures first { IfOk result (λ r. r.1.0 ≡ 0) }
    ensures second { IfOk result (λ r. r.2.0 ≡ 1) }
{
    let mut links = Links::new(alloc);
    links.reserve(3)?;
    let list = links.new_list()?;
    let other = links.new_list()?;
    let five = links.push_back(list, 5);
    links.push_back(other, 7);
    let six = links.push_back(list, 6);
    let taken = links.unlink(five);
    Ok((links, list, other, six, taken))
}

#[test]
fn a_node_taken_out_leaves_the_others(rt: HostRuntime) -> Result<(), Fail> {
    let (mut links, list, other, six, taken) = six_and_seven(rt.alloc())?;
    assert_eq!(rt; taken, 5);
    assert_eq!(rt; links.front(list), Some(six));
    assert_eq!(rt; links.take_front(list), Some(6));
    assert_eq!(rt; links.take_front(list), None);
    assert_eq!(rt; links.take_front(other), Some(7));
    assert_eq!(rt; links.take_front(other), None);
    Ok(())
}

/// Room for two, a list of 5 and 6, and the first taken out: what is left, from front to end.
fn left_of_two(alloc: Global) -> Result<(u32, Option<u32>, Option<u32>), AllocError> {
    let mut links = Links::new(alloc);
    links.reserve(2)?;
    let list = links.new_list()?;
    let five = links.push_back(list, 5);
    links.push_back(list, 6);
    let taken = links.unlink(five);
    let first = links.take_front(list);
    let second = links.take_front(list);
    Ok((taken, first, second))
}

#[test]
fn of_two_the_second_is_left(rt: HostRuntime) -> Result<(), Fail> {
    let left = left_of_two(rt.alloc())?;
    assert_eq!(rt; left, (5, Some(6), None));
    Ok(())
}

/// Whether 5 and 6 of a list know each other, with nothing before 5 and behind 6.
fn know_each_other(alloc: Global) -> Result<bool, AllocError> {
    let mut links: Links<u32> = Links::new(alloc);
    links.reserve(2)?;
    let list = links.new_list()?;
    let five = links.push_back(list, 5);
    let six = links.push_back(list, 6);
    let forward = links.next(five) == Some(six) && links.next(six).is_none();
    let back = links.prev(six) == Some(five) && links.prev(five).is_none();
    let values = *links.at(five) == 5 && *links.at(six) == 6;
    Ok(forward && back && values)
}

#[test]
fn two_nodes_know_each_other(rt: HostRuntime) -> Result<(), Fail> {
    assert!(rt; know_each_other(rt.alloc())?);
    Ok(())
}
