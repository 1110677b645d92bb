//! Values that are wrapped in polymorphs.
ghost use Rattle.std.specs.Prelude.{◌≡◌, ◌≤◌, ◌<◌, IfOk, IfSome, IfNone, List, Some, map, nat_lt, option_map, suc, ⊤};
ghost use Rattle.herm_journal.specs.Renaming.{forget_name};
ghost use Rattle.herm_model.specs.Finalising.{clear_all};
ghost use Rattle.herm_model.specs.Values as model;
ghost use Rattle.herm_model.specs.Values.{Parts, cell, cell_at, clear_at, no_parts, part, polymorph_depth};
ghost use Rattle.herm_forms.specs.Excess.{excess_over_full};
ghost use Rattle.herm_forms.specs.Frames.{Frame as ModelFrame, drop};
ghost use Rattle.herm_instructions.specs.Instructions as instructions;
ghost use Rattle.herm_code_machine.specs.ReadyCode.{ReadyCode};
ghost use Rattle.herm_code_machine.specs.Effects.{effect};
ghost use Rattle.herm_types.specs.View.{path_view};
ghost use Rattle.herm_places.specs.Held.{seen_places};
ghost use Rattle.herm_values.specs.View.{value_view};
ghost use Rattle.herm_values.specs.Whole.{IsWhole};
ghost use Rattle.herm_frames.specs.Completed.{Effects};
ghost use Rattle.herm_frames.specs.Scopes.{IsOf};
ghost use Rattle.herm_frames.specs.Standing.{Stands};

use crate::excess::excess_over_full;
use crate::frame::Frame;
use crate::outcome::Outcome;
use herm_base::{ExcNo, TypeNo};
use herm_parcels::{Poly, PolyFault};
use herm_places::Variables;
use herm_types::{Path, TypeTable};
use herm_values::{Value, poly_depth};
use std::alloc::{AllocError, Global};

/// Raised where a polymorph would be too deep.
const DEPLETION: ExcNo = ExcNo(1);

/// As deep polymorphs may nest.
const GREATEST_POLYMORPH: u32 = 16;

/// Puts back what was taken out of a path.
#[tactic(auto, using(crate::proofs::PutBack::putting_back))]
fn put_back(variables: &mut Variables, p: &Path, held: Option<Value>)
    requires whole { IfSome held IsWhole }
    ensures back { (ps : Parts ⊤) → option_map value_view held ≡ cell_at (path_view p.now) ps → seen_places variables.old ≡ clear_at (path_view p.now) ps → seen_places variables.new ≡ ps }
{
    let Some(v) = held else {
        return;
    };
    match variables.put(p, v) {
        Ok(_) => (),
        Err(_) => (),
    }
}

/// How deep polymorphs nest in what stands at a path, without what stands at these paths. All is as it was then.
fn depth_without(variables: &mut Variables, paths: &[Path], path: &Path) -> Option<u32>
    ensures depth { result ≡ option_map polymorph_depth (cell_at (path_view path.now) (clear_all (map path_view paths.now) (seen_places variables.old))) }
    ensures same { seen_places variables.new ≡ seen_places variables.old }
{
    let Some((first, rest)) = paths.split_first() else {
        let Some(v) = variables.at(path) else {
            return None;
        };
        return Some(poly_depth(v));
    };
    let held = variables.take(first);
    let depth = depth_without(variables, rest, path);
    put_back(variables, first, held);
    depth
}

/// The polymorph with this content, none where it would be too deep.
#[tactic(auto, using(herm_values::proofs::Seen::layers))]
fn polymorph_of(alloc: Global, t: TypeNo, content: Value) -> Result<Option<Value>, AllocError>
    requires whole { IsWhole content }
    ensures polymorph { IfOk result (λ o. IfSome o (λ v. value_view v ≡ cell tt (model.a_polymorph t.0) (part (value_view content) no_parts))) }
    ensures deep { IfOk result (λ o. IfNone o (16 ≤ polymorph_depth (value_view content))) }
    ensures whole { IfOk result (λ o. IfSome o IsWhole) }
{
    let depth = poly_depth(&content);
    match Poly::new(alloc, t, depth + 1, content) {
        Ok(poly) => Ok(Some(Value::Poly(poly))),
        Err(PolyFault::Deep(_)) => Ok(None),
        Err(PolyFault::Memory(_)) => Err(AllocError),
    }
}

impl Frame {
    /// Makes a polymorph of a value, which moves into it, where it is not too deep.
    pub fn wrap(
        &mut self,
        alloc: Global,
        types: &TypeTable,
        of: &[TypeNo],
        source: &Path,
        t: TypeNo,
        target: &Path,
    ) -> Result<Outcome, AllocError>
        ensures effect { IfOk result (λ r. (c : ReadyCode) (stack : List model.Value) (s : ModelFrame ⊤) → IsOf types.now of.now c → Stands self.old s → Effects r self.new stack (effect forget_name c (instructions.Wrap (path_view source.now) t.0 (path_view target.now)) stack s)) }
    {
        let Some(depth) = self.depth_of_full(alloc, types, of, source)? else {
            return Ok(Outcome::Stuck);
        };
        if depth >= GREATEST_POLYMORPH {
            return Ok(Outcome::Raised(DEPLETION));
        }
        let Some(content) = self.take_full(alloc, types, of, source)? else {
            return Ok(Outcome::Stuck);
        };
        let Some(polymorph) = polymorph_of(alloc, t, content)? else {
            return Ok(Outcome::Stuck);
        };
        let r = self.make_at(target, polymorph)?;
        Ok(r)
    }

    /// How deep polymorphs nest in what stands at a path, without what it holds beyond a full value. All is as it was then.
    fn depth_of_full(
        &mut self,
        alloc: Global,
        types: &TypeTable,
        of: &[TypeNo],
        source: &Path,
    ) -> Result<Option<u32>, AllocError>
        ensures depth { IfOk result (λ d. (c : ReadyCode) (s : ModelFrame ⊤) → IsOf types.now of.now c → Stands self.old s → d ≡ option_map polymorph_depth (cell_at (path_view source.now) (drop (excess_over_full c.scope (path_view source.now) s) s).variables)) }
        ensures stands { (s : ModelFrame ⊤) → Stands self.old s → Stands self.new s }
    {
        let lost = excess_over_full(alloc, types, of, &self.variables, source)?;
        Ok(depth_without(&mut self.variables, lost.as_slice(), source))
    }
}
