//! What is seen of the code of a source text.
use crate::listing::listing;
use crate::meant::{image_of, meaning_of};
use herm_code::{Image, Instr};
use std::alloc::{AllocError, Global};

fn image_for(alloc: Global, source: &str) -> Result<Option<Image>, AllocError> {
    let Some(meant) = meaning_of(alloc, source)? else {
        return Ok(None);
    };
    let made = image_of(alloc, meant)?;
    Ok(made)
}

/// The listing of a source text's code.
pub fn listing_for(alloc: Global, source: &str) -> Result<String, AllocError> {
    match image_for(alloc, source)? {
        Some(image) => {
            let text = listing(alloc, image.modules(), image.constants())?;
            Ok(text)
        }
        None => String::from_str(alloc, "no image"),
    }
}

/// How many instructions the code of a source text has, and how many of them are steps.
pub fn lengths_for(alloc: Global, source: &str) -> Result<(u32, u32), AllocError> {
    let mut length: u32 = 0;
    let mut steps: u32 = 0;
    let Some(image) = image_for(alloc, source)? else {
        return Ok((length, steps));
    };
    for module in image.modules() {
        for instruction in module.code.as_slice() {
            length = length.saturating_add(1);
            steps = steps.saturating_add(match instruction {
                Instr::Step => 1,
                _ => 0,
            });
        }
    }
    Ok((length, steps))
}
