//! The text of the path to a place, stretch by stretch.
ghost use Rattle.std.specs.Prelude.{◌≡◌, ◌++◌, ◌<◌, ℕ, Some, None, cond, nat_lt, option_and_then, IfOk, OnOk, IfSome};
ghost use Rattle.std.specs.List.{flat_map};
ghost use Rattle.herm_model.specs.Lists.{list_of};
ghost use Rattle.herm_words.specs.ToldWords.{text_within, trail_text, stretch_text};

use crate::paths::{Paths, stretch_at};
use std::alloc::{AllocError, Global};

/// The bytes of a text from one place up to another, or none where these do not lie within it in this order.
fn text_between(text: &[u8], begin: usize, end: usize) -> &[u8]
    ensures { result.now ≡ text_within text.now begin end }
{
    if begin <= end && end <= text.len() {
        return &text[begin..end];
    }
    &[]
}

/// A place, where it lies before another.
fn place_before(before: Option<usize>, place: usize) -> Option<usize>
    ensures back { IfSome result (λ before. before < place) }
    ensures value { result ≡ option_and_then (λ b. cond (nat_lt b place) (Some b) None) before }
{
    match before {
        Some(before) if before < place => Some(before),
        _ => None,
    }
}

impl Paths {
    /// The text of the last stretch of the path to a place, and the place of the path behind which it goes on.
    pub fn last_stretch(&self, place: usize) -> (Option<usize>, &[u8])
        ensures back { IfSome result.0 (λ before. before < place) }
        ensures text { trail_text self.now place ≡ list_of (trail_text self.now) result.0 ++ result.1.now }
        ensures stretch { result.1.now ≡ stretch_text self.now place }
    {
        let Some(stretch) = stretch_at(self, place) else {
            return (None, &[]);
        };
        let before = place_before(stretch.before, place);
        let text = text_between(self.hops.as_slice(), stretch.begin, stretch.end);
        (before, text)
    }

    /// The places to which the stretches of the path to a place lead, from the first to the last.
    pub fn stretches(&self, alloc: Global, place: usize) -> Result<Vec<usize>, AllocError>
        ensures { IfOk result (λ places. trail_text self.now place ≡ flat_map (stretch_text self.now) places.items) }
    {
        let mut places = Vec::new(alloc);
        let mut next = Some(place);
        while let Some(at) = next {
            places.push(at)?;
            let (before, _) = self.last_stretch(at);
            next = before;
        }
        places.reverse();
        Ok(places)
    }
}

/// Appends the texts of stretches.
fn push_stretches(paths: &Paths, places: &[usize], out: &mut Vec<u8>) -> Result<(), AllocError>
    ensures { OnOk result (out.new.items ≡ out.old.items ++ flat_map (stretch_text paths.now) places.now) }
{
    for at in places {
        let (_, text) = paths.last_stretch(*at);
        out.extend_from_slice(text)?;
    }
    Ok(())
}

/// Appends the text of the path to a place.
pub fn push_trail(
    alloc: Global,
    paths: &Paths,
    place: usize,
    out: &mut Vec<u8>,
) -> Result<(), AllocError>
    ensures { OnOk result (out.new.items ≡ out.old.items ++ trail_text paths.now place) }
{
    let places = paths.stretches(alloc, place)?;
    push_stretches(paths, places.as_slice(), out)?;
    Ok(())
}
