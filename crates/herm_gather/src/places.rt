//! The places of entries in a journal, as numbers.
ghost use Rattle.std.specs.Prelude.{◌≡◌, ◌++◌, map, IfOk, IfSome, IsTrue, min, length, ◌^◌, ◌-◌};
ghost use Rattle.herm_gather.specs.Diaries.{AreOfNumber, AreOwn, all_of};
ghost use Rattle.herm_report.specs.Turns.{items_of};
ghost use Rattle.herm_gather.specs.Orders.{place_in_order, short_place};

use herm_events::Entry;
use std::alloc::{AllocError, Global};

/// The number by which entries are ordered: first by stamp, then by process.
pub fn place_of(entry: &Entry) -> u128
    ensures place { result ≡ place_in_order entry.now }
{
    entry.stamp.0 as u128 * 2048 + entry.proc.number as u128
}

/// That number, or the largest of 64 bits where it is larger.
fn short_place_of(entry: &Entry) -> u64
    ensures place { result ≡ short_place entry.now }
{
    entry
        .stamp
        .0
        .saturating_mul(2048)
        .saturating_add(entry.proc.number as u64)
}

/// How many entries diaries have, cut at the largest number of 64 bits.
pub fn entry_count(diaries: &[Vec<Entry>]) -> usize
    ensures count { result ≡ min (length (all_of (items_of diaries.now))) (2 ^ 64 - 1) }
{
    let mut count: usize = 0;
    for diary in diaries {
        count = count.saturating_add(diary.len());
    }
    count
}

/// Adds the places of a diary's entries: true only where all are of this process and have places that fit.
fn add_places(places: &mut Vec<u64>, diary: &[Entry], number: usize) -> Result<bool, AllocError>
    ensures own { IfOk result (λ b. IsTrue b → AreOfNumber number diary.now) }
    ensures places { IfOk result (λ b. IsTrue b → places.new.items ≡ places.old.items ++ map place_in_order diary.now) }
{
    for entry in diary {
        let place = short_place_of(entry);
        if entry.proc.number as usize != number || place == u64::MAX {
            return Ok(false);
        }
        places.push(place)?;
    }
    Ok(true)
}

/// The places of all entries: only where all fit and the first diary is of process 1, the second of process 2 and so on. None where
/// that is not so.
pub fn places_of(alloc: Global, diaries: &[Vec<Entry>]) -> Result<Option<Vec<u64>>, AllocError>
    ensures own { IfOk result (λ o. IfSome o (λ v. AreOwn 1 (items_of diaries.now))) }
    ensures places { IfOk result (λ o. IfSome o (λ v. v.items ≡ map place_in_order (all_of (items_of diaries.now)))) }
{
    let mut places = Vec::with_capacity(alloc, entry_count(diaries))?;
    for (n, diary) in diaries.iter().enumerate() {
        if !add_places(&mut places, diary.as_slice(), n + 1)? {
            return Ok(None);
        }
    }
    Ok(Some(places))
}
