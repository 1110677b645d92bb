//! What variants, polymorphs and ports hold, read and taken out.
ghost use Rattle.std.specs.Prelude.{◌≡◌, IfOk, IfSome, IsErr, IfNone, List, ℕ, Option, Some, None, option_map, option_and_then, ⊤};
ghost use Rattle.herm_journal.specs.Renaming.{forget_name};
ghost use Rattle.herm_model.specs.FactsOfValues.{is_component};
ghost use Rattle.herm_model.specs.Values as model;
ghost use Rattle.herm_model.specs.Values.{cell_at, clear_at, read_at};
ghost use Rattle.herm_forms.specs.Forms.{component_of, component_in, content_of, inport_number, moving_content};
ghost use Rattle.herm_forms.specs.Frames.{Frame as ModelFrame};
ghost use Rattle.herm_instructions.specs.Instructions as instructions;
ghost use Rattle.herm_code_machine.specs.ReadyCode.{ReadyCode};
ghost use Rattle.herm_code_machine.specs.Effects.{effect};
ghost use Rattle.herm_types.specs.View.{path_view};
ghost use Rattle.herm_places.specs.Held.{seen_places};
ghost use Rattle.herm_values.specs.View.{value_view};
ghost use Rattle.herm_values.specs.Whole.{IsWhole};
ghost use Rattle.herm_frames.specs.Completed.{Completes, Effects, outcome_view};
ghost use Rattle.herm_frames.specs.Opening.{opened, has_content};
ghost use Rattle.herm_frames.specs.Standing.{Stands};
ghost use Rattle.herm_frames.specs.Waiting.{Waits};

use crate::frame::Frame;
use crate::outcome::Outcome;
use herm_base::{ExcNo, PortNo, TypeNo};
use herm_types::Path;
use herm_values::Value;
use std::alloc::AllocError;

/// Raised where a variant has another component.
const CASE_ERROR: ExcNo = ExcNo(2);

/// Raised where a polymorph's content has another type.
const POLYMORPH_MISMATCH: ExcNo = ExcNo(3);

/// The component that a variant has.
#[tactic(auto, using(herm_values::proofs::Seen::layers))]
fn component_of(v: &Value) -> Option<u32>
    ensures { result ≡ component_of (value_view v.now) }
{
    match v {
        Value::Bool(_) => None,
        Value::Int(_) => None,
        Value::Text(_) => None,
        Value::Tag(_) => None,
        Value::Fields(_) => None,
        Value::Case(component, _) => Some(*component),
        Value::Table(_) => None,
        Value::Poly(_) => None,
        Value::Call(_) => None,
        Value::Inport(_) => None,
        Value::Outport(_) => None,
    }
}

/// Whether the value is a variant with this component.
#[tactic(auto, using(herm_values::proofs::Seen::layers))]
fn has_component(v: &Value, component: u32) -> bool
    ensures { result ≡ is_component (Some (value_view v.now)) component }
{
    match v {
        Value::Bool(_) => false,
        Value::Int(_) => false,
        Value::Text(_) => false,
        Value::Tag(_) => false,
        Value::Fields(_) => false,
        Value::Case(place, _) => *place == component,
        Value::Table(_) => false,
        Value::Poly(_) => false,
        Value::Call(_) => false,
        Value::Inport(_) => false,
        Value::Outport(_) => false,
    }
}

/// The component of a variant, where it has this one.
#[tactic(auto, using(herm_values::proofs::Seen::layers))]
fn component_in(component: u32, v: Value) -> Option<Value>
    ensures content { opened (option_map value_view result) ≡ component_in component (value_view v) }
    ensures whole { IsWhole v → IfSome result IsWhole }
{
    match v {
        Value::Bool(_) => None,
        Value::Int(_) => None,
        Value::Text(_) => None,
        Value::Tag(_) => None,
        Value::Fields(_) => None,
        Value::Case(place, content) => {
            if component == place {
                return Some(Box::into_inner(content));
            }
            None
        }
        Value::Table(_) => None,
        Value::Poly(_) => None,
        Value::Call(_) => None,
        Value::Inport(_) => None,
        Value::Outport(_) => None,
    }
}

/// Whether the value is a polymorph with a content of this type.
#[tactic(auto, using(herm_values::proofs::Seen::layers))]
fn has_content(t: TypeNo, v: &Value) -> bool
    ensures { result ≡ has_content t.0 (value_view v.now) }
{
    match v {
        Value::Bool(_) => false,
        Value::Int(_) => false,
        Value::Text(_) => false,
        Value::Tag(_) => false,
        Value::Fields(_) => false,
        Value::Case(_, _) => false,
        Value::Table(_) => false,
        Value::Poly(poly) => t.0 == poly.tag().0,
        Value::Call(_) => false,
        Value::Inport(_) => false,
        Value::Outport(_) => false,
    }
}

/// The content of a polymorph, where it has this type.
#[tactic(auto, using(herm_values::proofs::Seen::layers))]
fn content_of(t: TypeNo, v: Value) -> Option<Value>
    ensures content { opened (option_map value_view result) ≡ content_of t.0 (value_view v) }
    ensures whole { IsWhole v → IfSome result IsWhole }
{
    match v {
        Value::Bool(_) => None,
        Value::Int(_) => None,
        Value::Text(_) => None,
        Value::Tag(_) => None,
        Value::Fields(_) => None,
        Value::Case(_, _) => None,
        Value::Table(_) => None,
        Value::Poly(poly) => {
            if t.0 == poly.tag().0 {
                return Some(poly.into_content());
            }
            None
        }
        Value::Call(_) => None,
        Value::Inport(_) => None,
        Value::Outport(_) => None,
    }
}

/// The port of an inport.
#[tactic(auto, using(herm_values::proofs::Seen::layers))]
fn inport_of(v: &Value) -> Option<PortNo>
    ensures { option_map (λ p. p.number) result ≡ inport_number (value_view v.now) }
{
    match v {
        Value::Bool(_) => None,
        Value::Int(_) => None,
        Value::Text(_) => None,
        Value::Tag(_) => None,
        Value::Fields(_) => None,
        Value::Case(_, _) => None,
        Value::Table(_) => None,
        Value::Poly(_) => None,
        Value::Call(_) => None,
        Value::Inport(port) => Some(*port),
        Value::Outport(_) => None,
    }
}

impl Frame {
    /// What a variant or a polymorph held is placed: its own cell is finalised.
    fn move_content(&mut self, target: &Path, content: Value) -> Result<Outcome, AllocError>
        requires whole { IsWhole content }
        ensures moving { IfOk result (λ r. (s : ModelFrame ⊤) → Stands self.old s → Completes (outcome_view r) self.new (moving_content (path_view target.now) (record { name = tt; content = value_view content }) s)) }
        ensures refused { IsErr result → Waits (cell_at (path_view target.now) (seen_places self.old.variables)) }
    {
        self.finalise_cell();
        let r = self.put_at_end(target, content, Outcome::Next)?;
        Ok(r)
    }

    /// Takes a variant apart, and moves its component.
    pub fn dissolve(
        &mut self,
        source: &Path,
        component: u32,
        target: &Path,
    ) -> Result<Outcome, AllocError>
        ensures effect { IfOk result (λ r. (c : ReadyCode) (stack : List model.Value) (s : ModelFrame ⊤) → Stands self.old s → Effects r self.new stack (effect forget_name c (instructions.Dissolve (path_view source.now) component (path_view target.now)) stack s)) }
        ensures refused { IsErr result → Waits (cell_at (path_view target.now) (clear_at (path_view source.now) (seen_places self.old.variables))) }
    {
        let Some(v) = self.take_out(source) else {
            return Ok(Outcome::Stuck);
        };
        let Some(content) = component_in(component, v) else {
            return Ok(Outcome::Stuck);
        };
        let r = self.move_content(target, content)?;
        Ok(r)
    }

    /// Goes on where a variant has this component. It takes no memory.
    pub fn reveal(&self, source: &Path, component: u32) -> Outcome
        ensures effect { (c : ReadyCode) (stack : List model.Value) (s : ModelFrame ⊤) → Stands self.now s → Effects result self.now stack (effect forget_name c (instructions.Reveal (path_view source.now) component) stack s) }
    {
        let Some(v) = self.read(source) else {
            return Outcome::Stuck;
        };
        if has_component(v, component) {
            return Outcome::Next;
        }
        Outcome::Raised(CASE_ERROR)
    }

    /// The component that a variant has. It takes no memory.
    pub fn choose(&self, source: &Path) -> Outcome
        ensures effect { (c : ReadyCode) (indices : List ℕ) (stack : List model.Value) (s : ModelFrame ⊤) → Stands self.now s → Effects result self.now stack (effect forget_name c (instructions.CaseOf (path_view source.now) indices) stack s) }
    {
        let Some(v) = self.read(source) else {
            return Outcome::Stuck;
        };
        let Some(component) = component_of(v) else {
            return Outcome::Stuck;
        };
        Outcome::Component(component)
    }

    /// Takes a polymorph apart where its content has this type, and moves the content.
    pub fn unwrap(&mut self, source: &Path, t: TypeNo, target: &Path) -> Result<Outcome, AllocError>
        ensures effect { IfOk result (λ r. (c : ReadyCode) (stack : List model.Value) (s : ModelFrame ⊤) → Stands self.old s → Effects r self.new stack (effect forget_name c (instructions.Unwrap (path_view source.now) t.0 (path_view target.now)) stack s)) }
        ensures refused { IsErr result → Waits (cell_at (path_view target.now) (clear_at (path_view source.now) (seen_places self.old.variables))) }
    {
        let Some(v) = self.at(source) else {
            return Ok(Outcome::Stuck);
        };
        if !has_content(t, v) {
            return Ok(Outcome::Raised(POLYMORPH_MISMATCH));
        }
        let Some(v) = self.take_out(source) else {
            return Ok(Outcome::Stuck);
        };
        let Some(content) = content_of(t, v) else {
            return Ok(Outcome::Stuck);
        };
        let r = self.move_content(target, content)?;
        Ok(r)
    }

    /// Makes an outport that leads to an inport's port.
    pub fn connect(&mut self, target: &Path, port: &Path) -> Result<Outcome, AllocError>
        ensures effect { IfOk result (λ r. (c : ReadyCode) (stack : List model.Value) (s : ModelFrame ⊤) → Stands self.old s → Effects r self.new stack (effect forget_name c (instructions.Connect (path_view target.now) (path_view port.now)) stack s)) }
        ensures refused { IsErr result → Waits (cell_at (path_view target.now) (seen_places self.old.variables)) }
    {
        let Some(number) = self.inport_at(port) else {
            return Ok(Outcome::Stuck);
        };
        let r = self.make_at(target, Value::Outport(number))?;
        Ok(r)
    }

    /// The port of the inport that is read at a path.
    fn inport_at(&self, path: &Path) -> Option<PortNo>
        ensures port { (s : ModelFrame ⊤) → Stands self.now s → option_map (λ p. p.number) result ≡ option_and_then inport_number (read_at (path_view path.now) s.variables) }
    {
        let v = self.read(path)?;
        inport_of(v)
    }
}
