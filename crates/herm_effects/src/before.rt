//! The facts before a fact.
ghost use Rattle.std.specs.Prelude.{◌≡◌, IfOk, map};
ghost use Rattle.herm_model.specs.Facts.{prefixes};
ghost use Rattle.herm_types.specs.View.{fact_view};
ghost use Rattle.herm_judge.specs.View.{table_of, variables_of};

use crate::present::{push_present, push_room};
use herm_judge::Frame;
use herm_types::Fact;
use std::alloc::{AllocError, Global};

/// The facts before a fact.
pub fn facts_before(alloc: Global, frame: &Frame, fact: &Fact) -> Result<Vec<Fact>, AllocError>
    ensures { IfOk result (λ v. map fact_view v.items ≡ prefixes (table_of frame.now) (variables_of frame.now) (fact_view fact.now)) }
{
    let mut out = Vec::new(alloc);
    match fact {
        Fact::Init(p) => {
            push_room(alloc, frame, p, &mut out)?;
            Ok(out)
        }
        Fact::Case(p, _) => {
            push_present(alloc, frame, p, &mut out)?;
            Ok(out)
        }
    }
}
