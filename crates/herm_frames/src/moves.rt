//! Values that are placed, made and let go.
ghost use Rattle.std.specs.Prelude.{◌≡◌, ◌∷◌, [], ℕ, IfOk, OnOk, IsErr, List, Some, None, ⊤, length, map, slice_get};
ghost use Rattle.herm_journal.specs.Renaming.{forget_name};
ghost use Rattle.herm_model.specs.Finalising.{clear_all};
ghost use Rattle.herm_model.specs.Outcomes.{ok};
ghost use Rattle.herm_model.specs.Types.{rows};
ghost use Rattle.herm_model.specs.Values as model;
ghost use Rattle.herm_model.specs.Values.{Kind, Parts, cell, cell_at, gaps, no_parts, put_at};
ghost use Rattle.herm_forms.specs.Forms as forms;
ghost use Rattle.herm_forms.specs.Frames.{Frame as ModelFrame, drop, making, putting};
ghost use Rattle.herm_instructions.specs.Instructions as instructions;
ghost use Rattle.herm_code_machine.specs.ReadyCode.{ReadyCode};
ghost use Rattle.herm_code_machine.specs.Effects.{effect};
ghost use Rattle.herm_types.specs.View.{path_view};
ghost use Rattle.herm_places.specs.Held.{keyed_places, seen_places};
ghost use Rattle.herm_values.specs.Keyed.{keyed_view};
ghost use Rattle.herm_values.specs.View.{value_view};
ghost use Rattle.herm_values.specs.Whole.{AllWhole, IsWhole};
ghost use Rattle.herm_frames.specs.Completed.{Completes, Effects, outcome_view};
ghost use Rattle.herm_frames.specs.EmptyPlaces.{nothings};
ghost use Rattle.herm_frames.specs.KeyedBehind.{LeavesKeyed};
ghost use Rattle.herm_frames.specs.Standing.{Stands};
ghost use Rattle.herm_frames.specs.Waiting.{Waits};

use crate::frame::Frame;
use crate::outcome::Outcome;
use herm_base::TypeNo;
use herm_types::{Path, Shape, TypeTable};
use herm_values::{Table, Value};
use std::alloc::{AllocError, Global};

/// The outcome of a test of a value.
pub fn tested(v: &Value) -> Outcome
    ensures tested { (frame : _) (s : ModelFrame ⊤) → Stands frame s → Completes (outcome_view result) frame (forms.tested (value_view v.now) s) }
{
    match v {
        Value::Bool(b) => { if *b { Outcome::True } else { Outcome::False } }
        Value::Int(_) => Outcome::Stuck,
        Value::Text(_) => Outcome::Stuck,
        Value::Tag(_) => Outcome::Stuck,
        Value::Fields(_) => Outcome::Stuck,
        Value::Case(_, _) => Outcome::Stuck,
        Value::Table(_) => Outcome::Stuck,
        Value::Poly(_) => Outcome::Stuck,
        Value::Call(_) => Outcome::Stuck,
        Value::Inport(_) => Outcome::Stuck,
        Value::Outport(_) => Outcome::Stuck,
    }
}

/// So many empty places.
pub fn empty_places(alloc: Global, n: usize) -> Result<Vec<Option<Value>>, AllocError>
    ensures places { IfOk result (λ places. places.items ≡ nothings n) }
    ensures whole { IfOk result (λ places. AllWhole places.items) }
{
    let mut places = Vec::with_capacity(alloc, n)?;
    'places: for _place in 0..n {
        places.push(None)?;
    }
    Ok(places)
}

/// A record of so many empty fields.
#[tactic(auto, using(crate::proofs::Moved::making_lemmas))]
pub fn empty_record(alloc: Global, n: usize) -> Result<Value, AllocError>
    ensures record_of { IfOk result (λ v. value_view v ≡ cell tt model.a_record (gaps n)) }
    ensures whole { IfOk result IsWhole }
{
    let places = empty_places(alloc, n)?;
    Ok(Value::Fields(places))
}

/// A table of no rows, with these fields as its key.
#[tactic(auto, using(crate::proofs::Moved::making_lemmas))]
pub fn empty_table(alloc: Global, keys: &[u32]) -> Result<Value, AllocError>
    ensures table { IfOk result (λ v. value_view v ≡ cell tt model.a_table no_parts) }
    ensures keyed { IfOk result (λ v. keyed_view v ≡ cell keys.now model.a_table no_parts) }
    ensures whole { IfOk result IsWhole }
{
    let columns = Vec::from_slice(alloc, keys)?;
    let table = Box::new(alloc, Table::new(alloc, columns))?;
    Ok(Value::Table(table))
}

impl Frame {
    /// The end of an instruction that makes a cell: it is counted, and placed at a path.
    #[tactic(auto, using(crate::proofs::Moved::making_lemmas))]
    pub fn make_at(&mut self, target: &Path, v: Value) -> Result<Outcome, AllocError>
        requires whole { IsWhole v }
        ensures making { IfOk result (λ r. (s : ModelFrame ⊤) (k : Kind) (ps : Parts ⊤) → Stands self.old s → value_view v ≡ cell tt k ps → Completes (outcome_view r) self.new (making forget_name k ps (putting (path_view target.now) ok) s)) }
        ensures keyed { IfOk result (λ r. LeavesKeyed r self.new (put_at (path_view target.now) (keyed_view v) (keyed_places self.old.variables))) }
        ensures refused { IsErr result → Waits (cell_at (path_view target.now) (seen_places self.old.variables)) }
    {
        self.make_cell();
        let r = self.put_at_end(target, v, Outcome::Next)?;
        Ok(r)
    }

    /// Places a value that stood on the stack.
    #[inline(always)]
    pub fn store(&mut self, target: &Path, v: Value) -> Result<Outcome, AllocError>
        requires whole { IsWhole v }
        ensures effect { IfOk result (λ r. (c : ReadyCode) (rest : List model.Value) (s : ModelFrame ⊤) → Stands self.old s → Effects r self.new rest (effect forget_name c (instructions.Store (path_view target.now)) (value_view v ∷ rest) s)) }
        ensures refused { IsErr result → Waits (cell_at (path_view target.now) (seen_places self.old.variables)) }
    {
        self.make_cells(&v);
        let r = self.put_at_end(target, v, Outcome::Next)?;
        Ok(r)
    }

    /// Makes an empty record or an empty table, whose key has the fields that its type says. A new inport is an action, and no new
    /// value.
    pub fn new_value(
        &mut self,
        alloc: Global,
        types: &TypeTable,
        target: &Path,
        t: TypeNo,
    ) -> Result<Outcome, AllocError>
        ensures effect { IfOk result (λ r. (c : ReadyCode) (stack : List model.Value) (s : ModelFrame ⊤) → c.scope.types ≡ types.now.shapes → Stands self.old s → Effects r self.new stack (effect forget_name c (instructions.New (path_view target.now) t.0) stack s)) }
        ensures keyed { IfOk result (λ r. (row : ℕ) (key : List ℕ) → slice_get types.now.shapes t.0 ≡ Some (rows row key) → LeavesKeyed r self.new (put_at (path_view target.now) (cell key model.a_table no_parts) (keyed_places self.old.variables))) }
    {
        if t.0 as usize >= types.len() {
            return Ok(Outcome::Stuck);
        }
        match types.shape(t) {
            Shape::Fields(parts) => {
                let v = empty_record(alloc, parts.len())?;
                let r = self.make_at(target, v)?;
                return Ok(r);
            }
            Shape::Rows { row: _, keys } => {
                let v = empty_table(alloc, keys.as_slice())?;
                let r = self.make_at(target, v)?;
                return Ok(r);
            }
            _ => return Ok(Outcome::Stuck),
        }
    }

    /// Lets go what stands at a path.
    #[tactic(auto, using(crate::proofs::Stood::waiting))]
    pub fn discard(&mut self, source: &Path) -> Result<Outcome, AllocError>
        ensures effect { IfOk result (λ r. (c : ReadyCode) (stack : List model.Value) (s : ModelFrame ⊤) → Stands self.old s → Effects r self.new stack (effect forget_name c (instructions.Discard (path_view source.now)) stack s)) }
        ensures refused { IsErr result → Waits (cell_at (path_view source.now) (seen_places self.old.variables)) }
    {
        let Some(v) = self.take_out(source) else {
            return Ok(Outcome::Stuck);
        };
        self.finalise(v)?;
        Ok(Outcome::Next)
    }

    /// Finalises what stands at a path, if anything does: what an edge drops.
    pub fn drop_path(&mut self, path: &Path) -> Result<Outcome, AllocError>
        ensures effect { IfOk result (λ r. (c : ReadyCode) (stack : List model.Value) (s : ModelFrame ⊤) → Stands self.old s → Effects r self.new stack (effect forget_name c (instructions.Drop (path_view path.now)) stack s)) }
        ensures refused { IsErr result → Waits (cell_at (path_view path.now) (seen_places self.old.variables)) }
    {
        self.drop_at(path)?;
        Ok(Outcome::Next)
    }

    /// Finalises what stands at these paths, in order.
    pub fn drop_all(&mut self, paths: &[Path]) -> Result<(), AllocError>
        ensures stands { OnOk result ((s : ModelFrame ⊤) → Stands self.old s → Stands self.new (drop (map path_view paths.now) s)) }
        ensures left { OnOk result (keyed_places self.new.variables ≡ clear_all (map path_view paths.now) (keyed_places self.old.variables)) }
    {
        let Some((first, rest)) = paths.split_first() else {
            return Ok(());
        };
        self.drop_at(first)?;
        self.drop_all(rest)?;
        Ok(())
    }
}
