//! Single instructions.
ghost use Rattle.std.specs.Prelude.{◌≡◌, ◌∷◌, [], map, IfOk};
ghost use Rattle.herm_code.specs.View.{instr_view};

use herm_code::Instr;
use std::alloc::{AllocError, Global};

/// One instruction.
pub fn one(alloc: Global, instr: Instr) -> Result<Vec<Instr>, AllocError>
    ensures { IfOk result (λ v. map instr_view v.items ≡ instr_view instr ∷ []) }
{
    let mut code = Vec::with_capacity(alloc, 1)?;
    code.push(instr)?;
    Ok(code)
}
