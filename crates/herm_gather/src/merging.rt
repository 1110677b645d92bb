//! The journal of a run, from its diaries.
ghost use Rattle.std.specs.Prelude.{◌≡◌, ℕ, map, IfOk, OnOk};
ghost use Rattle.std.specs.List.Sorted.{IsNonDecreasingBy};
ghost use Rattle.herm_journal.specs.Journals.{IsRising, part_of_process};
ghost use Rattle.herm_events.specs.View.{entries_view};
ghost use Rattle.herm_gather.specs.Diaries.{AreOwn, all_of, diaries_view};
ghost use Rattle.herm_report.specs.Turns.{items_of};
ghost use Rattle.herm_gather.specs.Orders.{place_in_order};

use crate::places::{entry_count, place_of, places_of};
use herm_events::Entry;
use herm_report::Journal;
use std::alloc::{AllocError, Global};

/// The journal of diaries, of which the first is of process 1, the second of process 2 and so on, with the places of their entries.
fn merged(diaries: Vec<Vec<Entry>>, places: Vec<u64>) -> Journal
    requires own { AreOwn 1 (items_of diaries.items) }
    requires places { places.items ≡ map place_in_order (all_of (items_of diaries.items)) }
    requires rise { (p : ℕ) → IsRising (part_of_process p (diaries_view diaries.items)) }
    ensures rising { IsRising result }
    ensures parts { (p : ℕ) → part_of_process p result ≡ part_of_process p (diaries_view diaries.items) }
{
    let mut places = places;
    places.sort_unstable();
    Journal::in_turn(diaries, places)
}

/// The entries of all diaries, one diary behind the other.
fn joined(alloc: Global, diaries: Vec<Vec<Entry>>) -> Result<Vec<Entry>, AllocError>
    ensures entries { IfOk result (λ v. entries_view v.items ≡ diaries_view diaries.items) }
{
    let mut entries = Vec::with_capacity(alloc, entry_count(diaries.as_slice()))?;
    for diary in diaries {
        let mut diary = diary;
        entries.append(&mut diary)?;
    }
    Ok(entries)
}

/// Sorts entries, those of each process in order, by their places.
fn sort(entries: &mut Vec<Entry>) -> Result<(), AllocError>
    requires rise { (p : ℕ) → IsRising (part_of_process p (entries_view entries.old.items)) }
    ensures sorted { OnOk result (IsNonDecreasingBy place_in_order entries.new.items) }
    ensures parts { OnOk result ((p : ℕ) → part_of_process p (entries_view entries.new.items) ≡ part_of_process p (entries_view entries.old.items)) }
{
    entries.sort_by_cached_key(|entry| place_of(entry))?;
    Ok(())
}

/// The journal of any diaries.
fn sorted(alloc: Global, diaries: Vec<Vec<Entry>>) -> Result<Journal, AllocError>
    requires rise { (p : ℕ) → IsRising (part_of_process p (diaries_view diaries.items)) }
    ensures rising { IfOk result (λ j. IsRising j) }
    ensures parts { IfOk result (λ j. (p : ℕ) → part_of_process p j ≡ part_of_process p (diaries_view diaries.items)) }
{
    let mut entries = joined(alloc, diaries)?;
    sort(&mut entries)?;
    let journal = Journal::in_order(entries)?;
    Ok(journal)
}

/// The journal of these diaries, in which the entries of each process are in order: by stamp, and those of one stamp by process.
#[inline(never)]
pub fn journal_of(alloc: Global, diaries: Vec<Vec<Entry>>) -> Result<Journal, AllocError>
    requires rise { (p : ℕ) → IsRising (part_of_process p (diaries_view diaries.items)) }
    ensures rising { IfOk result (λ j. IsRising j) }
    ensures parts { IfOk result (λ j. (p : ℕ) → part_of_process p j ≡ part_of_process p (diaries_view diaries.items)) }
{
    match places_of(alloc, diaries.as_slice())? {
        Some(places) => {
            let journal = merged(diaries, places);
            Ok(journal)
        }
        None => {
            let journal = sorted(alloc, diaries)?;
            Ok(journal)
        }
    }
}
