//! Values that move away, without what they hold beyond full ones.
ghost use Rattle.std.specs.Prelude.{◌≡◌, ℕ, IfOk, IfSome, OnOk, List, Some, flat_map, map, option_map, ⊤};
ghost use Rattle.herm_journal.specs.Renaming.{forget_name};
ghost use Rattle.herm_model.specs.Finalising.{clear_all};
ghost use Rattle.herm_model.specs.Values as model;
ghost use Rattle.herm_model.specs.Values.{Cell, Parts, cell, cell_at, clear_at, no_parts, part, put_at};
ghost use Rattle.herm_forms.specs.Excess.{excess_over_full};
ghost use Rattle.herm_forms.specs.Frames.{Frame as ModelFrame, cleared, drop};
ghost use Rattle.herm_instructions.specs.Instructions as instructions;
ghost use Rattle.herm_code_machine.specs.ReadyCode.{ReadyCode};
ghost use Rattle.herm_code_machine.specs.Effects.{effect};
ghost use Rattle.herm_types.specs.View.{path_view};
ghost use Rattle.herm_places.specs.Held.{keyed_places};
ghost use Rattle.herm_values.specs.Keyed.{keyed_view};
ghost use Rattle.herm_values.specs.View.{value_view};
ghost use Rattle.herm_values.specs.Whole.{IsWhole};
ghost use Rattle.herm_frames.specs.Completed.{Effects};
ghost use Rattle.herm_frames.specs.KeyedBehind.{LeavesKeyed};
ghost use Rattle.herm_frames.specs.Scopes.{IsOf};
ghost use Rattle.herm_frames.specs.Standing.{Stands};

use crate::excess::{excess_over_full, push_excess};
use crate::frame::Frame;
use crate::outcome::Outcome;
use herm_base::TypeNo;
use herm_types::{Path, TypeTable};
use herm_values::Value;
use std::alloc::{AllocError, Global};

impl Frame {
    /// The paths of what the values at these paths hold beyond full ones, where the variables have these types.
    pub fn excess_of(
        &self,
        alloc: Global,
        types: &TypeTable,
        of: &[TypeNo],
        paths: &[Path],
    ) -> Result<Vec<Path>, AllocError>
        ensures lost { IfOk result (λ lost. (c : ReadyCode) (s : ModelFrame ⊤) → IsOf types.now of.now c → Stands self.now s → map path_view lost.items ≡ flat_map (λ p. excess_over_full c.scope p s) (map path_view paths.now)) }
    {
        let mut lost = Vec::new(alloc);
        push_excess(alloc, types, of, &self.variables, paths, &mut lost)?;
        Ok(lost)
    }

    /// Finalises what the value at a path holds beyond a full one, where the variables have these types.
    fn drop_excess(
        &mut self,
        alloc: Global,
        types: &TypeTable,
        of: &[TypeNo],
        source: &Path,
    ) -> Result<(), AllocError>
        ensures stands { OnOk result ((c : ReadyCode) (s : ModelFrame ⊤) → IsOf types.now of.now c → Stands self.old s → Stands self.new (drop (excess_over_full c.scope (path_view source.now) s) s)) }
        ensures left { OnOk result ((c : ReadyCode) (s : ModelFrame ⊤) → IsOf types.now of.now c → Stands self.old s → keyed_places self.new.variables ≡ clear_all (excess_over_full c.scope (path_view source.now) s) (keyed_places self.old.variables)) }
    {
        let lost = excess_over_full(alloc, types, of, &self.variables, source)?;
        self.drop_all(lost.as_slice())?;
        Ok(())
    }

    /// Takes what stands at a path, without what it holds beyond a full value, which is finalised.
    pub fn take_full(
        &mut self,
        alloc: Global,
        types: &TypeTable,
        of: &[TypeNo],
        source: &Path,
    ) -> Result<Option<Value>, AllocError>
        ensures taken { IfOk result (λ o. (c : ReadyCode) (s : ModelFrame ⊤) → IsOf types.now of.now c → Stands self.old s → option_map value_view o ≡ cell_at (path_view source.now) (drop (excess_over_full c.scope (path_view source.now) s) s).variables) }
        ensures stands { OnOk result ((c : ReadyCode) (s : ModelFrame ⊤) → IsOf types.now of.now c → Stands self.old s → Stands self.new (cleared (path_view source.now) (drop (excess_over_full c.scope (path_view source.now) s) s))) }
        ensures left { OnOk result ((c : ReadyCode) (s : ModelFrame ⊤) → IsOf types.now of.now c → Stands self.old s → keyed_places self.new.variables ≡ clear_at (path_view source.now) (clear_all (excess_over_full c.scope (path_view source.now) s) (keyed_places self.old.variables))) }
        ensures keyed { IfOk result (λ o. (c : ReadyCode) (s : ModelFrame ⊤) → IsOf types.now of.now c → Stands self.old s → option_map keyed_view o ≡ cell_at (path_view source.now) (clear_all (excess_over_full c.scope (path_view source.now) s) (keyed_places self.old.variables))) }
        ensures whole { IfOk result (λ o. IfSome o IsWhole) }
    {
        self.drop_excess(alloc, types, of, source)?;
        Ok(self.take(source))
    }

    /// Moves a value from one path to another. The tables in it keep the fields of their keys.
    pub fn move_value(
        &mut self,
        alloc: Global,
        types: &TypeTable,
        of: &[TypeNo],
        source: &Path,
        target: &Path,
    ) -> Result<Outcome, AllocError>
        ensures effect { IfOk result (λ r. (c : ReadyCode) (stack : List model.Value) (s : ModelFrame ⊤) → IsOf types.now of.now c → Stands self.old s → Effects r self.new stack (effect forget_name c (instructions.Move (path_view source.now) (path_view target.now)) stack s)) }
        ensures keyed { IfOk result (λ r. (c : ReadyCode) (s : ModelFrame ⊤) (ps : Parts (List ℕ)) (v : Cell (List ℕ)) → IsOf types.now of.now c → Stands self.old s → ps ≡ clear_all (excess_over_full c.scope (path_view source.now) s) (keyed_places self.old.variables) → cell_at (path_view source.now) ps ≡ Some v → LeavesKeyed r self.new (put_at (path_view target.now) v (clear_at (path_view source.now) ps))) }
    {
        let Some(v) = self.take_full(alloc, types, of, source)? else {
            return Ok(Outcome::Stuck);
        };
        let r = self.put_at_end(target, v, Outcome::Next)?;
        Ok(r)
    }

    /// Makes a variant of a value, which moves into it.
    pub fn unite(
        &mut self,
        alloc: Global,
        types: &TypeTable,
        of: &[TypeNo],
        target: &Path,
        component: u32,
        source: &Path,
    ) -> Result<Outcome, AllocError>
        ensures effect { IfOk result (λ r. (c : ReadyCode) (stack : List model.Value) (s : ModelFrame ⊤) → IsOf types.now of.now c → Stands self.old s → Effects r self.new stack (effect forget_name c (instructions.Unite (path_view target.now) component (path_view source.now)) stack s)) }
    {
        let Some(v) = self.take_full(alloc, types, of, source)? else {
            return Ok(Outcome::Stuck);
        };
        let variant = variant_of(alloc, component, v)?;
        let r = self.make_at(target, variant)?;
        Ok(r)
    }
}

/// The variant with this component.
#[tactic(auto, using(herm_values::proofs::Seen::layers))]
fn variant_of(alloc: Global, component: u32, content: Value) -> Result<Value, AllocError>
    ensures variant { IfOk result (λ v. value_view v ≡ cell tt (model.a_variant component) (part (value_view content) no_parts)) }
    ensures whole { IsWhole content → IfOk result IsWhole }
{
    let boxed = Box::new(alloc, content)?;
    Ok(Value::Case(component, boxed))
}
