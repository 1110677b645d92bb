//! Paths made of other paths.
ghost use Rattle.std.specs.Prelude.{◌≡◌, ◌++◌, ◌∷◌, [], IfOk, OnOk, map, length};
ghost use Rattle.herm_model.specs.Paths.{parent};
ghost use Rattle.herm_types.specs.View.{path_view};

use herm_types::Path;
use std::alloc::{AllocError, Global};

/// The same path.
pub fn copy(alloc: Global, p: &Path) -> Result<Path, AllocError>
    ensures { IfOk result (λ q. path_view q ≡ path_view p.now) }
{
    let parts = Vec::from_slice(alloc, p.parts.as_slice())?;
    Ok(Path { var: p.var, parts })
}

/// The path of the part at a place.
pub fn part_at(alloc: Global, p: &Path, place: u32) -> Result<Path, AllocError>
    ensures { IfOk result (λ q. path_view q ≡ path_view p.now ++ place ∷ []) }
{
    let mut parts = Vec::from_slice(alloc, p.parts.as_slice())?;
    parts.push(place)?;
    Ok(Path { var: p.var, parts })
}

/// The path without its last step, which is not that of a variable.
#[tactic(auto, using(crate::proofs::Parents::parent_taken))]
pub fn parent_of(alloc: Global, p: &Path) -> Result<Path, AllocError>
    requires { length p.now.parts.items ≡ 0 → ⊥ }
    ensures { IfOk result (λ q. path_view q ≡ parent (path_view p.now)) }
{
    let parts = p.parts.as_slice();
    let before = &parts[..parts.len() - 1];
    let parts = Vec::from_slice(alloc, before)?;
    Ok(Path { var: p.var, parts })
}

/// Appends the path.
pub fn push_path(alloc: Global, p: &Path, out: &mut Vec<Path>) -> Result<(), AllocError>
    ensures { OnOk result (map path_view out.new.items ≡ map path_view out.old.items ++ path_view p.now ∷ []) }
{
    let path = copy(alloc, p)?;
    out.push(path)?;
    Ok(())
}
