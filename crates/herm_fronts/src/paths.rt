//! Copies of paths.
ghost use Rattle.std.specs.Prelude.{◌≡◌, ◌++◌, ◌∷◌, [], IfOk, OnOk, map};
ghost use Rattle.herm_types.specs.View.{path_view, raise_decl_view, fact_view};

use herm_types::{Fact, Path, RaiseDecl};
use std::alloc::{AllocError, Global};

/// An equal path.
pub fn copy_path(alloc: Global, path: &Path) -> Result<Path, AllocError>
    ensures { IfOk result (λ p. path_view p ≡ path_view path.now) }
{
    let parts = Vec::from_slice(alloc, path.parts.as_slice())?;
    Ok(Path {
        var: path.var,
        parts,
    })
}

/// The path of the part at a place.
pub fn part_path(alloc: Global, path: &Path, place: u32) -> Result<Path, AllocError>
    ensures { IfOk result (λ p. path_view p ≡ path_view path.now ++ place ∷ []) }
{
    let mut parts = Vec::from_slice(alloc, path.parts.as_slice())?;
    parts.push(place)?;
    Ok(Path {
        var: path.var,
        parts,
    })
}

/// Equal paths.
pub fn copy_paths(alloc: Global, paths: &[Path]) -> Result<Vec<Path>, AllocError>
    ensures { IfOk result (λ v. map path_view v.items ≡ map path_view paths.now) }
{
    let mut copies = Vec::with_capacity(alloc, paths.len())?;
    'paths: for path in paths {
        copies.push(copy_path(alloc, path)?)?;
    }
    Ok(copies)
}

/// An equal fact.
pub fn copy_fact(alloc: Global, fact: &Fact) -> Result<Fact, AllocError>
    ensures { IfOk result (λ f. fact_view f ≡ fact_view fact.now) }
{
    match fact {
        Fact::Init(path) => {
            let path = copy_path(alloc, path)?;
            Ok(Fact::Init(path))
        }
        Fact::Case(path, component) => {
            let path = copy_path(alloc, path)?;
            Ok(Fact::Case(path, *component))
        }
    }
}

/// Appends equal facts.
pub fn push_facts(alloc: Global, facts: &[Fact], out: &mut Vec<Fact>) -> Result<(), AllocError>
    ensures { OnOk result (map fact_view out.new.items ≡ map fact_view out.old.items ++ map fact_view facts.now) }
{
    'facts: for fact in facts {
        out.push(copy_fact(alloc, fact)?)?;
    }
    Ok(())
}

fn copy_raise(alloc: Global, raise: &RaiseDecl) -> Result<RaiseDecl, AllocError>
    ensures { IfOk result (λ r. raise_decl_view r ≡ raise_decl_view raise.now) }
{
    let keeps = Vec::from_slice(alloc, raise.keeps.as_slice())?;
    Ok(RaiseDecl {
        exc: raise.exc,
        keeps,
    })
}

/// Equal declarations of exceptions.
pub fn copy_raises(alloc: Global, raises: &[RaiseDecl]) -> Result<Vec<RaiseDecl>, AllocError>
    ensures { IfOk result (λ v. map raise_decl_view v.items ≡ map raise_decl_view raises.now) }
{
    let mut copies = Vec::with_capacity(alloc, raises.len())?;
    'raises: for raise in raises {
        copies.push(copy_raise(alloc, raise)?)?;
    }
    Ok(copies)
}
