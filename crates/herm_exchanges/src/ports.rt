//! The ports that stand at paths.
ghost use Rattle.std.specs.Prelude.{◌≡◌, option_map, ⊤};
ghost use Rattle.herm_forms.specs.Exchanges as exchanges;
ghost use Rattle.herm_forms.specs.Forms as forms;
ghost use Rattle.herm_forms.specs.Frames as frames;
ghost use Rattle.herm_types.specs.View.{path_view};
ghost use Rattle.herm_values.specs.View.{value_view};
ghost use Rattle.herm_frames.specs.Standing.{Stands};

use herm_base::PortNo;
use herm_frames::Frame;
use herm_types::Path;
use herm_values::Value;

/// The port of an inport.
fn inport_number(v: &Value) -> Option<PortNo>
    ensures port { option_map (λ p. p.number) result ≡ forms.inport_number (value_view v.now) }
{
    match v {
        Value::Bool(_) => None,
        Value::Int(_) => None,
        Value::Text(_) => None,
        Value::Tag(_) => None,
        Value::Fields(_) => None,
        Value::Case(_, _) => None,
        Value::Table(_) => None,
        Value::Poly(_) => None,
        Value::Call(_) => None,
        Value::Inport(port) => Some(*port),
        Value::Outport(_) => None,
    }
}

/// The port that an outport leads to.
fn outport_number(v: &Value) -> Option<PortNo>
    ensures port { option_map (λ p. p.number) result ≡ forms.outport_number (value_view v.now) }
{
    match v {
        Value::Bool(_) => None,
        Value::Int(_) => None,
        Value::Text(_) => None,
        Value::Tag(_) => None,
        Value::Fields(_) => None,
        Value::Case(_, _) => None,
        Value::Table(_) => None,
        Value::Poly(_) => None,
        Value::Call(_) => None,
        Value::Inport(_) => None,
        Value::Outport(port) => Some(*port),
    }
}

/// The port of the inport at a path.
pub fn inport_at(frame: &Frame, path: &Path) -> Option<PortNo>
    ensures port { (s : frames.Frame ⊤) → Stands frame.now s → option_map (λ p. p.number) result ≡ exchanges.inport_at (path_view path.now) s }
{
    match frame.read(path) {
        Some(v) => inport_number(v),
        None => None,
    }
}

/// The port that the outport at a path leads to.
pub fn outport_at(frame: &Frame, path: &Path) -> Option<PortNo>
    ensures port { (s : frames.Frame ⊤) → Stands frame.now s → option_map (λ p. p.number) result ≡ exchanges.outport_at (path_view path.now) s }
{
    match frame.read(path) {
        Some(v) => outport_number(v),
        None => None,
    }
}
