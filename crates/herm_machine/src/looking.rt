//! At which port a process looks, and which call it has open.
ghost use Rattle.std.specs.Prelude.{◌≡◌, ◌∷◌, [], ℕ, List, Some, IfSome, IsSome, find, map, nat_eq, option_map, option_and_then, slice_get, ⊤};
ghost use Rattle.herm_journal.specs.Actions.{to_take};
ghost use Rattle.herm_exchanges.specs.Told.{told, want_view};
ghost use Rattle.herm_exchanges.specs.declared.wants.PortList.{PortList as list_of_ports};
ghost use Rattle.herm_exchanges.specs.declared.wants.Want.TheVariants as wants;
ghost use Rattle.herm_model.specs.Lists.{any_pass, list_of};
ghost use Rattle.herm_forms.specs.Forms.{inport_number};
ghost use Rattle.herm_forms.specs.Frames as frames;
ghost use Rattle.herm_forms.specs.Incoming.{leads_from};
ghost use Rattle.herm_code.specs.View.{choice_view, instr_view};
ghost use Rattle.herm_code_machine.specs.CodeActions.{ports_of_choices};
ghost use Rattle.herm_code_machine.specs.CodeSeen.{code_port_type, ports_of};
ghost use Rattle.herm_code_machine.specs.CodeStates.{CodeState};
ghost use Rattle.herm_frames.specs.Scopes.{number_of};
ghost use Rattle.herm_frames.specs.Standing.{Stands};
ghost use Rattle.herm_pieces.specs.View.{position_view, ready_view};
ghost use Rattle.herm_types.specs.View.{path_view};
ghost use Rattle.herm_values.specs.View.{value_view};

use crate::types::type_at;
use herm_base::{PortNo, TypeNo};
use herm_code::{Arm, Instr};
use herm_exchanges::Want;
use herm_frames::Frame;
use herm_pieces::{Code, Position};
use herm_steps::Running;
use herm_types::Path;
use herm_values::Value;

/// Whether a value is the inport of this port.
#[tactic(auto, using(herm_values::proofs::Seen::layers))]
fn is_inport_of(v: &Value, port: PortNo) -> bool
    ensures of { result ≡ any_pass (nat_eq port.number) (list_of (λ k. k ∷ []) (inport_number (value_view v.now))) }
{
    match v {
        Value::Bool(_) => false,
        Value::Int(_) => false,
        Value::Text(_) => false,
        Value::Tag(_) => false,
        Value::Fields(_) => false,
        Value::Case(_, _) => false,
        Value::Table(_) => false,
        Value::Poly(_) => false,
        Value::Call(_) => false,
        Value::Inport(number) => port.get() == number.get(),
        Value::Outport(_) => false,
    }
}

/// Whether the inport at a path is that of this port.
fn leads_from(frame: &Frame, path: &Path, port: PortNo) -> bool
    ensures leads { (s : frames.Frame ⊤) → Stands frame.now s → result ≡ leads_from port.number s (path_view path.now) }
{
    match frame.read(path) {
        Some(v) => is_inport_of(v, port),
        None => false,
    }
}

/// The path of the first arm whose inport is that of this port.
fn path_among<'i>(frame: &Frame, arms: &'i [Arm], port: PortNo) -> Option<&'i Path>
    ensures path { (s : frames.Frame ⊤) → Stands frame.now s → option_map (λ p. path_view p.now) result ≡ find (leads_from port.number s) (ports_of_choices (map choice_view arms.now)) }
{
    'arms: for arm in arms {
        if leads_from(frame, &arm.port, port) {
            return Some(&arm.port);
        }
    }
    None
}

/// The path at which an instruction looks for a message of this port: the first one whose inport is that of the port.
fn path_of_port<'i>(frame: &Frame, instruction: &'i Instr, port: PortNo) -> Option<&'i Path>
    ensures path { (s : frames.Frame ⊤) → Stands frame.now s → option_map (λ p. path_view p.now) result ≡ find (leads_from port.number s) (ports_of (instr_view instruction.now)) }
{
    match instruction {
        Instr::Receive(_, path) => {
            if leads_from(frame, path, port) {
                return Some(path);
            }
            None
        }
        Instr::Select(arms) => path_among(frame, arms.as_slice(), port),
        _ => None,
    }
}

/// The first port of a want to take a message; none of any other want.
fn first_of(want: Want) -> Option<PortNo>
    ensures first { (ports : list_of_ports) → want ≡ wants.Take ports → result ≡ Some ports.first }
    ensures none { IsSome result → (ports : list_of_ports) × (want ≡ wants.Take ports) }
    ensures port { (ports : List ℕ) → Some (want_view want) ≡ told (to_take ports) → IfSome result (λ p. slice_get ports 0 ≡ Some p.number) }
{
    match want {
        Want::Take(ports) => Some(ports.first),
        Want::MakePort => None,
        Want::MakeProcess(_) => None,
        Want::Put(_) => None,
        Want::Close(_) => None,
        Want::Answer(_, _) => None,
        Want::Hear => None,
    }
}

/// The same, where something is wanted.
pub fn first_port(want: Option<Want>) -> Option<PortNo>
    ensures first { (ports : list_of_ports) → want ≡ Some (wants.Take ports) → result ≡ Some ports.first }
    ensures none { IsSome result → (ports : list_of_ports) × (want ≡ Some (wants.Take ports)) }
    ensures port { (ports : List ℕ) → option_map want_view want ≡ told (to_take ports) → IfSome result (λ p. slice_get ports 0 ≡ Some p.number) }
{
    match want {
        Some(want) => first_of(want),
        None => None,
    }
}

/// The type of the port of this number, at which a process at this position looks for a message.
pub fn port_type(code: &Code, position: Position, frame: &Frame, port: PortNo) -> Option<TypeNo>
    ensures of { (s : CodeState ⊤) → s.position ≡ position_view position → Stands frame.now s.frame → number_of result ≡ code_port_type (ready_view code.now) s port.number }
{
    let Some(piece) = code.piece_at(position) else {
        return None;
    };
    let Some(met) = code.action_of(piece) else {
        return None;
    };
    match path_of_port(frame, met.instruction, port) {
        Some(path) => type_at(code.types, code.code.vars.as_slice(), path),
        None => None,
    }
}
