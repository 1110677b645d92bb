//! What is told of a fact that is missing somewhere.
ghost use Rattle.std.specs.Prelude.{◌≡◌, IfOk};
ghost use Rattle.herm_types.specs.View.{fact_view};
ghost use Rattle.herm_words.specs.MissingFactWords.{head_text};

use crate::refusal::head_of;
use herm_typed::TypedProcess;
use herm_types::{Fact, TypeTable};
use std::alloc::{AllocError, Global};

/// A fact that is missing somewhere, and the words of refusals for it before the hops. All refusals for the fact share them.
#[derive(Drop)]
pub struct LostFact {
    pub fact: Fact,
    pub head: Vec<u8>,
}

/// What is told of a fact that a process lacks somewhere.
pub fn lost_of(
    alloc: Global,
    types: &TypeTable,
    p: &TypedProcess,
    fact: Fact,
) -> Result<LostFact, AllocError>
    ensures fact { IfOk result (λ lost. fact_view lost.fact ≡ fact_view fact) }
    ensures head { IfOk result (λ lost. lost.head.items ≡ head_text types.now p.now (fact_view fact)) }
{
    let head = head_of(alloc, types, p, &fact)?;
    Ok(LostFact { fact, head })
}

impl LostFact {
    /// The words before the hops.
    pub fn head(&self) -> &[u8]
        ensures { result.now ≡ self.now.head.items }
    {
        self.head.as_slice()
    }
}
