//! Rows of two keys, by hand.
ghost use Rattle.std.specs.Ordering.{then_cmp, on, nat_cmp};
ghost use Rattle.std.specs.Cmp.{then_total, on_total, nat_cmp_total};
ghost use Rattle.herm_rows.specs.OrderedByKey.{by_key, to_key, by_key_total, by_key_one, by_key_in_order};

use crate::row::Row;
use crate::rows::{InsertFault, Rows};
use herm_links::NodeNo;
use std::alloc::{AllocError, Global};
use std::cmp::Ordering;
use std::test::Fail;

#[derive(Debug, Drop)]
struct House {
    key: (u16, u16),
    people: u32,
}

impl Row for House {
    type Key = (u16, u16);

    ghost order = { by_key (λ house. house.key) (then_cmp (on (λ k. k.0) nat_cmp) (on (λ k. k.1) nat_cmp)) };

    ghost order_key = { to_key (λ house. house.key) (then_cmp (on (λ k. k.0) nat_cmp) (on (λ k. k.1) nat_cmp)) };

    fn order(&self, other: &Self) -> Ordering {
        self.key.cmp(&other.key)
    }

    fn order_key(&self, key: &(u16, u16)) -> Ordering {
        self.key.cmp(key)
    }

    ghost is_order = { by_key_total (λ house. house.key) (then_total (on_total (λ k. k.0) nat_cmp_total) (on_total (λ k. k.1) nat_cmp_total)) };

    ghost is_one_key = { by_key_one (λ house. house.key) (then_total (on_total (λ k. k.0) nat_cmp_total) (on_total (λ k. k.1) nat_cmp_total)) };

    ghost are_keys_in_order = { by_key_in_order (λ house. house.key) (then_total (on_total (λ k. k.0) nat_cmp_total) (on_total (λ k. k.1) nat_cmp_total)) };
}

/// The house whose number is told by both parts of its key.
fn numbered(number: u16, people: u32) -> House {
    House {
        key: (number % 64, number / 64),
        people,
    }
}

/// Says in a letter what an insertion answers: inserted, duplicate, full or memory. What is handed back must be what was given.
fn put(town: &mut Rows<House>, number: u16, people: u32) -> (u8, u32) {
    match town.insert(numbered(number, people)) {
        Ok(()) => (b'i', people),
        Err(InsertFault::Duplicate(house)) => (b'd', house.people),
        Err(InsertFault::Full(house)) => (b'f', house.people),
        Err(InsertFault::Memory(house)) => (b'm', house.people),
    }
}

/// Inserts a house, once more where memory is wanted.
fn put_at_last(town: &mut Rows<House>, number: u16, people: u32) -> bool {
    let (answer, told) = put(town, number, people);
    if answer == b'm' {
        return told == people && put(town, number, people).0 == b'i';
    }
    answer == b'i'
}

fn people_at(town: &Rows<House>, number: u16) -> Option<u32> {
    let house = town.find(&(number % 64, number / 64))?;
    Some(house.people)
}

fn take(town: &mut Rows<House>, number: u16) -> Option<u32> {
    let house = town.remove(&(number % 64, number / 64))?;
    Some(house.people)
}

fn people_of(alloc: Global, town: &Rows<House>) -> Result<Vec<u32>, AllocError> {
    let mut all = Vec::new(alloc);
    for place in 0..town.len() {
        all.push(town.at(place).people)?;
    }
    Ok(all)
}

/// The nodes of the first three rows, and what the second has.
#[derive(Clone, Copy)]
struct Nodes {
    first: NodeNo,
    second: NodeNo,
    third: Option<NodeNo>,
    people: u32,
}

fn first_nodes(town: &Rows<House>) -> Option<Nodes> {
    let first = town.first()?;
    let second = town.after(first)?;
    let third = town.after(second);
    let people = town.row(second).people;
    Some(Nodes {
        first,
        second,
        third,
        people,
    })
}

/// Whether the first and the third node are now the first and the second, with 9 at the second and another row behind it.
fn are_kept(before: Option<Nodes>, after: Option<Nodes>) -> bool {
    let (Some(before), Some(after)) = (before, after) else {
        return false;
    };
    before.first == after.first
        && before.third == Some(after.second)
        && before.people == 1
        && after.people == 9
        && after.third.is_some()
}

#[test]
fn a_row_keeps_its_node(rt: HostRuntime) -> Result<(), Fail> {
    let mut town = Rows::new(rt.alloc());
    for number in [5, 1, 9] {
        assert!(rt; put(&mut town, number, u32::from(number)).0 == b'i');
    }
    let before = first_nodes(&town);
    assert_eq!(rt; take(&mut town, 1), Some(1));
    assert!(rt; put(&mut town, 2, 2).0 == b'i');
    assert!(rt; are_kept(before, first_nodes(&town)));
    assert_eq!(rt;
        people_of(rt.alloc(), &town)?.as_slice(),
        [5, 9, 2].as_slice()
    );
    Ok(())
}

#[test]
fn rows_stay_in_the_order_of_insertion(rt: HostRuntime) -> Result<(), Fail> {
    let mut town = Rows::new(rt.alloc());
    for (number, people) in [(1, 10), (2, 20), (3, 30)] {
        assert_eq!(rt; put(&mut town, number, people), (b'i', people));
    }
    assert_eq!(rt; take(&mut town, 2), Some(20));
    assert_eq!(rt; take(&mut town, 2), None);
    assert_eq!(rt; put(&mut town, 2, 21), (b'i', 21));
    assert_eq!(rt; put(&mut town, 3, 31), (b'd', 31));
    assert_eq!(rt;
        people_of(rt.alloc(), &town)?.as_slice(),
        [10, 30, 21].as_slice()
    );
    for (number, people) in [(1, Some(10)), (2, Some(21)), (3, Some(30)), (64, None)] {
        assert_eq!(rt; people_at(&town, number), people);
    }
    Ok(())
}

#[test]
fn there_are_at_most_4096_rows(rt: HostRuntime) {
    let mut town = Rows::new(rt.alloc());
    for number in 0..4096 {
        assert!(rt; put(&mut town, number, u32::from(number)) == (b'i', u32::from(number)));
    }
    assert_eq!(rt; put(&mut town, 4096, 1), (b'f', 1));
    assert_eq!(rt; put(&mut town, 4095, 2), (b'd', 2));
    assert_eq!(rt; take(&mut town, 100), Some(100));
    assert_eq!(rt; put(&mut town, 4096, 3), (b'i', 3));
    assert_eq!(rt; town.len(), 4096);
    assert_eq!(rt; town.at(100).people, 101);
    assert_eq!(rt; people_at(&town, 4096), Some(3));
}

#[test]
fn want_of_memory_changes_nothing(rt: HostRuntime) {
    let mut town = Rows::new(rt.alloc());
    for number in 0..20 {
        assert!(rt; put_at_last(&mut town, number, u32::from(number)));
    }
    for number in 0..10 {
        assert_eq!(rt; take(&mut town, number), Some(u32::from(number)));
    }
    for number in 10..20 {
        assert_eq!(rt; people_at(&town, number), Some(u32::from(number)));
    }
    assert_eq!(rt; town.len(), 10);
    assert_eq!(rt; town.at(9).people, 19);
}
