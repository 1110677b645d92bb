//! What stands behind the code of a refusal.
ghost use Rattle.std.specs.Prelude.{◌≡◌, ◌++◌, map, IfOk};
ghost use Rattle.herm_types.specs.View.{fact_view};
ghost use Rattle.herm_check.specs.View.{hop_view};
ghost use Rattle.herm_words.specs.ToldWords.{refusal_view, missing_words, reason_words};

use crate::lost::LostFact;
use crate::paths::Paths;
use crate::reading::push_trail;
use herm_base::{StmtNo, Word};
use herm_check::{Hop, trail};
use herm_types::Fact;
use std::alloc::{AllocError, Global};
use std::rc::Rc;

/// A fact that a statement needs, and a control path to the statement on which the fact is not held. What is told of the fact is shared by all refusals for it, and the paths by all
/// that were found by the search; `place` is that of the path among these.
#[derive(Drop)]
pub struct MissingFact {
    pub stmt: StmtNo,
    pub lost: Rc<LostFact>,
    pub paths: Rc<Paths>,
    pub place: usize,
}

impl MissingFact {
    pub fn fact(&self) -> &Fact
        ensures { fact_view result.now ≡ (refusal_view self.now).fact }
    {
        &self.lost.fact
    }

    /// The hops of the path.
    pub fn path(&self, alloc: Global) -> Result<Vec<Hop>, AllocError>
        ensures { IfOk result (λ hops. map hop_view hops.items ≡ (refusal_view self.now).path) }
    {
        trail(alloc, self.paths.visits.as_slice(), self.place)
    }

    /// The words of the refusal, as one text.
    pub fn words(&self, alloc: Global) -> Result<Word, AllocError>
        ensures { IfOk result (λ words. words ≡ missing_words self.now) }
    {
        let mut out = Vec::new(alloc);
        out.extend_from_slice(self.lost.head())?;
        push_trail(alloc, &self.paths, self.place, &mut out)?;
        Ok(Word::from_vec(out))
    }
}

/// What stands behind the code of a refusal: words, or a missing fact.
#[derive(Drop)]
pub enum Reason {
    Said(Word),
    Missing(MissingFact),
}

impl Reason {
    /// The words, as one text.
    pub fn words(&self, alloc: Global) -> Result<Word, AllocError>
        ensures { IfOk result (λ words. words ≡ reason_words self.now) }
    {
        match self {
            Reason::Said(words) => words.clone(),
            Reason::Missing(missing) => missing.words(alloc),
        }
    }
}
