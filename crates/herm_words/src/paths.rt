//! The control paths of a search: its visits, and where the texts of the paths lie.
ghost use Rattle.std.specs.Prelude.{◌≡◌, ◌<◌, ℕ, List, Some, None, replicate, length, slice_get, option_and_then, IfOk, OnOk};
ghost use Rattle.herm_check.specs.declared.search.Visit.{Visit as VisitOf};
ghost use Rattle.herm_words.specs.ToldWords.{hops_text, trail_text, stretch_in};
ghost use Rattle.herm_words.specs.Stretches.{text_before, linked_text, EndsText, AreTold, IsLaid, AreLaid};

use crate::order::order_of;
use crate::refusal::push_hop;
use crate::sites::Site;
use herm_check::{Link, Search, Visit};
use herm_types::TypeTable;
use std::alloc::{AllocError, Global};

/// The end of a control path's text: the place of the path behind which it goes on, if there are hops before it, and where the texts of
/// its hops begin and end.
#[derive(Clone, Copy)]
pub struct Stretch {
    pub before: Option<usize>,
    pub begin: usize,
    pub end: usize,
}

/// The visits of a search, and the texts of the hops of all of them; and for each visit the last stretch of the path to it, once it is laid out. Hops that follow one another
/// on a path and here are one stretch. All facts of the search share them.
#[derive(Drop)]
pub struct Paths {
    pub visits: Vec<Visit>,
    pub hops: Vec<u8>,
    pub stretches: Vec<Option<Stretch>>,
}

/// The last stretch of the path to a place, where there is one.
pub fn stretch_at(paths: &Paths, place: usize) -> Option<Stretch>
    ensures { result ≡ stretch_in paths.now.stretches.items place }
{
    match paths.stretches.get(place) {
        Some(stretch) => *stretch,
        None => None,
    }
}

/// The link by which the visit at a place was reached.
fn link_at(visits: &[Visit], place: usize) -> Option<Link>
    ensures { result ≡ option_and_then (λ (v : VisitOf). v.last) (slice_get visits.now place) }
{
    match visits.get(place) {
        Some(visit) => visit.last,
        None => None,
    }
}

/// The stretch of no hop at the end of the texts, behind the path to a place.
fn at_end(paths: &Paths, before: Option<usize>) -> Stretch
    ensures { result ≡ record { before = before; begin = length paths.now.hops.items; end = length paths.now.hops.items } }
{
    let end = paths.hops.len();
    Stretch {
        before,
        begin: end,
        end,
    }
}

/// The stretch behind which the hop of a link to a place goes on, up to the end of the texts.
fn stretch_before(paths: &Paths, place: usize, link: &Link) -> Stretch
    ensures end { result.end ≡ length paths.now.hops.items }
    ensures ends { (texts : ℕ → List ℕ) → AreTold texts paths.now.hops.items paths.now.stretches.items → EndsText texts paths.now.hops.items place (text_before texts place link.now) result }
{
    if link.from >= place {
        return at_end(paths, None);
    }
    let Some(from) = stretch_at(paths, link.from) else {
        return at_end(paths, Some(link.from));
    };
    if from.end == paths.hops.len() {
        return from;
    }
    at_end(paths, Some(link.from))
}

/// The last stretch of the path to a place by a link, or of the one of no hop where there is none. The hop's text is appended.
fn push_link(
    types: &TypeTable,
    sites: &[Site],
    place: usize,
    link: Option<Link>,
    paths: &mut Paths,
) -> Result<Stretch, AllocError>
    ensures visits { OnOk result (paths.new.visits.items ≡ paths.old.visits.items) }
    ensures kept { OnOk result (paths.new.stretches.items ≡ paths.old.stretches.items) }
    ensures told { IfOk result (λ stretch. (texts : ℕ → List ℕ) → AreTold texts paths.old.hops.items paths.old.stretches.items → texts place ≡ linked_text types.now sites.now texts place link → AreTold texts paths.new.hops.items paths.old.stretches.items × EndsText texts paths.new.hops.items place (texts place) stretch) }
{
    let Some(link) = link else {
        return Ok(at_end(paths, None));
    };
    let before = stretch_before(paths, place, &link);
    push_hop(types, sites, &link.hop, &mut paths.hops)?;
    Ok(Stretch {
        before: before.before,
        begin: before.begin,
        end: paths.hops.len(),
    })
}

/// Lays out the text of the hop by which a visit was reached, where it was not yet.
fn lay(types: &TypeTable, sites: &[Site], place: usize, paths: &mut Paths) -> Result<(), AllocError>
    requires within { place < length paths.old.visits.items }
    requires laid { AreLaid types.now sites.now paths.old }
    ensures visits { OnOk result (paths.new.visits.items ≡ paths.old.visits.items) }
    ensures laid { OnOk result (AreLaid types.now sites.now paths.new) }
    ensures here { OnOk result (IsLaid paths.new.stretches.items place) }
    ensures kept { OnOk result ((k : ℕ) → IsLaid paths.old.stretches.items k → IsLaid paths.new.stretches.items k) }
{
    if stretch_at(paths, place).is_some() {
        return Ok(());
    }
    let link = link_at(paths.visits.as_slice(), place);
    let stretch = push_link(types, sites, place, link, paths)?;
    paths.stretches[place] = Some(stretch);
    Ok(())
}

/// Lays out the texts in an order.
fn lay_in_order(
    types: &TypeTable,
    sites: &[Site],
    order: &[usize],
    paths: &mut Paths,
) -> Result<(), AllocError>
    requires { AreLaid types.now sites.now paths.old }
    ensures visits { OnOk result (paths.new.visits.items ≡ paths.old.visits.items) }
    ensures laid { OnOk result (AreLaid types.now sites.now paths.new) }
{
    for place in order {
        if *place < paths.visits.len() {
            lay(types, sites, *place, paths)?;
        }
    }
    Ok(())
}

/// Lays out all texts that were not yet.
fn lay_all(types: &TypeTable, sites: &[Site], paths: &mut Paths) -> Result<(), AllocError>
    requires laid { AreLaid types.now sites.now paths.old }
    ensures visits { OnOk result (paths.new.visits.items ≡ paths.old.visits.items) }
    ensures laid { OnOk result (AreLaid types.now sites.now paths.new) }
    ensures all { OnOk result ((k : ℕ) → k < length paths.new.visits.items → IsLaid paths.new.stretches.items k) }
{
    for place in 0..paths.visits.len() {
        lay(types, sites, place, paths)?;
    }
    Ok(())
}

/// No texts yet of paths to so many places.
fn nothing_laid(alloc: Global, count: usize) -> Result<Vec<Option<Stretch>>, AllocError>
    ensures { IfOk result (λ stretches. stretches.items ≡ replicate count None) }
{
    Ok(vec![in alloc; None; count]?)
}

/// The paths to the visits of a search, and their texts. `sites` are those of the process.
pub fn paths_of(
    alloc: Global,
    types: &TypeTable,
    sites: &[Site],
    search: Search,
) -> Result<Paths, AllocError>
    ensures visits { IfOk result (λ paths. paths.visits.items ≡ search.visits.items) }
    ensures text { IfOk result (λ paths. (place : ℕ) → trail_text paths place ≡ hops_text types.now sites.now search.visits.items place) }
{
    let order = order_of(alloc, search.visits.as_slice())?;
    let stretches = nothing_laid(alloc, search.visits.len())?;
    let mut paths = Paths {
        visits: search.visits,
        hops: Vec::new(alloc),
        stretches,
    };
    lay_in_order(types, sites, order.as_slice(), &mut paths)?;
    lay_all(types, sites, &mut paths)?;
    Ok(paths)
}
