//! Names by number, without an index.
ghost use Rattle.std.specs.Prelude.{◌≡◌, IfOk};
ghost use Rattle.herm_naming.specs.Numbers.{place_of};

use herm_base::Word;
use std::alloc::{AllocError, Global};

/// The place of the first of these names that is this one, or the number of names where none is.
pub fn place_of(name: &[u8], names: &[Word]) -> usize
    ensures { result ≡ place_of name.now names.now }
{
    for (place, other) in names.iter().enumerate() {
        if name == other.bytes() {
            return place;
        }
    }
    names.len()
}

/// Words, copied.
pub fn words(alloc: Global, list: &[Word]) -> Result<Vec<Word>, AllocError>
    ensures same { IfOk result (λ v. v.items ≡ list.now) }
{
    let mut found = Vec::with_capacity(alloc, list.len())?;
    'words: for word in list {
        let word = word.clone()?;
        found.push(word)?;
    }
    Ok(found)
}
