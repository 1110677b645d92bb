//! The journal of a run.
ghost use Rattle.std.specs.Prelude.{◌≡◌, ℕ, map, take, option_to_list, IfOk};
ghost use Rattle.herm_events.specs.View.{entries_view};
ghost use Rattle.herm_report.specs.Turns.{in_turn, items_of, list_at, without_first};

use herm_events::Entry;
use std::alloc::{AllocError, Global};
use std::marker::Model;

/// Entries in an order, as of the journal of a run: by stamp and then by process. They stay in lists, such as the diaries of processes,
/// and it is kept which list has the next one, so that no entry is moved to make a journal.
#[derive(Drop)]
pub struct Journal {
    lists: Vec<Vec<Entry>>,
    turns: Vec<u64>,
}

impl Model for Journal {
    ghost use Rattle.std.specs.Prelude.{List};
    ghost use Rattle.herm_journal.specs.Entries as source;
    ghost use Rattle.herm_events.specs.View.{entries_view};
    ghost use Rattle.herm_report.specs.Turns.{in_turn, items_of};

    ghost Value = { List source.Entry };

    ghost view = { λ j. entries_view (in_turn j.turns.items (items_of j.lists.items)) };
}

impl Journal {
    /// The journal that has at each turn the next entry of a list. A turn is the number of its list, from 1 on, modulo 2,048: the place of
    /// an entry in the order, 2,048 times its stamp and its process, is a turn of the diary of the process. A turn of a list that has
    /// no entry left, or of none, is passed over. It takes no memory.
    pub fn in_turn(lists: Vec<Vec<Entry>>, turns: Vec<u64>) -> Journal
        ensures entries { result ≡ entries_view (in_turn turns.items (items_of lists.items)) }
    {
        Journal { lists, turns }
    }

    /// The journal of these entries, in this order. Refused only for want of memory.
    pub fn in_order(entries: Vec<Entry>) -> Result<Journal, AllocError>
        ensures entries { IfOk result (λ j. j ≡ entries_view entries.items) }
    {
        let alloc = *entries.allocator();
        let turns = vec![in alloc; 1u64; entries.len()]?;
        let mut lists = Vec::with_capacity(alloc, 1)?;
        lists.push(entries)?;
        Ok(Journal::in_turn(lists, turns))
    }

    /// The entries in order, by reference. Refused only for want of memory.
    pub fn entries(&self) -> Result<Vec<&Entry>, AllocError>
        ensures entries { IfOk result (λ v. entries_view (map (λ e. e.now) v.items) ≡ self.now) }
    {
        let alloc = *self.turns.allocator();
        let rests = rests_of(alloc, self.lists.as_slice())?;
        let entries = taken_in_turn(alloc, rests, self.turns.as_slice())?;
        Ok(entries)
    }
}

/// What is left of each list, before any turn.
fn rests_of<'a>(alloc: Global, lists: &'a [Vec<Entry>]) -> Result<Vec<&'a [Entry]>, AllocError>
    ensures whole { IfOk result (λ v. map (λ l. l.now) v.items ≡ items_of lists.now) }
{
    let mut rests = Vec::with_capacity(alloc, lists.len())?;
    'lists: for list in lists {
        rests.push(list.as_slice())?;
    }
    Ok(rests)
}

/// Takes the next entry of the list of this number, if it has one left.
fn next_of<'a>(rests: &mut Vec<&'a [Entry]>, number: usize) -> Option<&'a Entry>
    ensures next { map (λ e. e.now) (option_to_list result) ≡ take 1 (list_at (map (λ l. l.now) rests.old.items) number) }
    ensures rest { map (λ l. l.now) rests.new.items ≡ without_first (map (λ l. l.now) rests.old.items) number }
{
    if number == 0 || number > rests.len() {
        return None;
    }
    match rests[number - 1].split_first() {
        Some((entry, rest)) => {
            rests[number - 1] = rest;
            Some(entry)
        }
        None => None,
    }
}

/// At each turn the next entry of a list, if it has one left.
fn taken_in_turn<'a>(
    alloc: Global,
    rests: Vec<&'a [Entry]>,
    turns: &[u64],
) -> Result<Vec<&'a Entry>, AllocError>
    ensures entries { IfOk result (λ v. map (λ e. e.now) v.items ≡ in_turn turns.now (map (λ l. l.now) rests.entry.items)) }
{
    let mut rests = rests;
    let mut entries = Vec::with_capacity(alloc, turns.len())?;
    for turn in turns {
        match next_of(&mut rests, (*turn % 2048) as usize) {
            Some(entry) => entries.push(entry)?,
            None => {}
        }
    }
    Ok(entries)
}
