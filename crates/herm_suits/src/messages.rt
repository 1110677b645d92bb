//! Messages of a port's type.
ghost use Rattle.std.specs.Prelude.{◌≡◌, ◌↔◌, IsTrue, Some, map};
ghost use Rattle.herm_journal.specs.Messages.{IsMessage};
ghost use Rattle.herm_types.specs.View.{fact_view, shape_view};
ghost use Rattle.herm_values.specs.View.{value_view};
ghost use Rattle.herm_values.specs.Whole.{IsWhole};
ghost use Rattle.herm_suits.specs.Exact.{is_message_of, is_of_port, is_message};

use crate::exact::is_exact;
use crate::layouts::Degree;
use crate::typing::is_of;
use herm_base::TypeNo;
use herm_types::{Fact, Shape, TypeTable};
use herm_values::Value;

/// Whether the value is a message of a type at the listed facts: of the type, and with values exactly where the facts tell
/// of them; where none is listed, a full value of the type.
#[tactic(auto, using(crate::proofs::Ports::listed))]
fn is_message_of(types: &TypeTable, t: TypeNo, facts: &[Fact], message: &Value) -> bool
    requires whole { IsWhole message.now }
    ensures { result ≡ is_message_of types.now.shapes t.0 (map fact_view facts.now) (value_view message.now) }
{
    if facts.is_empty() {
        return is_of(types, Degree::Whole, t, message);
    }
    is_of(types, Degree::Partly, t, message) && is_exact(message, facts)
}

/// Whether the value is a message of a port whose type has this shape.
fn is_of_port(types: &TypeTable, shape: &Shape, message: &Value) -> bool
    requires whole { IsWhole message.now }
    ensures { result ≡ is_of_port types.now.shapes (Some (shape_view shape.now)) (value_view message.now) }
{
    match shape {
        Shape::Inport { message: t, facts } => is_message_of(types, *t, facts.as_slice(), message),
        _ => false,
    }
}

/// Whether the value is a message of an inport type.
#[tactic(auto, using(crate::proofs::Ports::ports))]
fn is_message_at(types: &TypeTable, port_type: TypeNo, message: &Value) -> bool
    requires whole { IsWhole message.now }
    ensures { result ≡ is_message types.now.shapes port_type.0 (value_view message.now) }
{
    if port_type.0 as usize >= types.len() {
        return false;
    }
    is_of_port(types, types.shape(port_type), message)
}

/// Whether the value is a message of an inport type: of the type of its messages, with exactly the facts at which they
/// travel. It takes no memory.
pub fn is_message(types: &TypeTable, port_type: TypeNo, message: &Value) -> bool
    requires whole { IsWhole message.now }
    ensures exactly { IsTrue result ↔ IsMessage types.now.shapes port_type.0 (value_view message.now) }
{
    types.keeps();
    let answer = is_message_at(types, port_type, message);
    answer
}
