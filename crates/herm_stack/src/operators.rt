//! Operators between two operands, and on one, that take no memory.
ghost use Rattle.std.specs.Prelude.{◌≡◌, ◌&&◌, ◌||◌, not, ◌+ℤ◌, ◌-ℤ◌, ◌*ℤ◌, ◌∷◌, List, reverse};
ghost use Rattle.std.specs.Ordering.{is_lt, is_le, is_gt, is_ge};
ghost use Rattle.herm_model.specs.Expressions.{logical_or, logical_and, equal, unequal, less, at_most, greater, at_least, plus, minus, times, divided, modulo};
ghost use Rattle.herm_forms.specs.Evaluate.{two_then, gives, operate, gives_boolean, scalar_then};
ghost use Rattle.herm_instructions.specs.Instructions.{negative, complement, text_length};
ghost use Rattle.herm_code_machine.specs.Effects.{applied};
ghost use Rattle.herm_values.specs.View.{value_view};
ghost use Rattle.herm_values.specs.declared.value.Value as held;
ghost use Rattle.herm_stack.specs.Answers.{evaluated, binary_view, unary_view};
ghost use Rattle.herm_stack.specs.Operands.{scalar_in, boolean_in, integer_in, both_of, tested, sameness, differing, ordering};

use crate::answers::Evaluation;
use crate::integers::{difference, negated, product, quotient, remainder, sum};
use crate::operands::{as_boolean, as_integer, as_tag, as_text, is_scalar};
use herm_values::Value;
use std::cmp::Ordering;

/// An operator on one operand that takes no memory: the minus of an integer, `not`, the length of a string.
#[derive(Clone, Copy, Debug, PartialEq, Eq)]
pub enum Unary {
    Negative,
    Complement,
    TextLength,
}

/// An operator between two operands that takes no memory.
#[derive(Clone, Copy, Debug, PartialEq, Eq)]
pub enum Binary {
    Plus,
    Minus,
    Times,
    Divided,
    Modulo,
    And,
    Or,
    Equal,
    Unequal,
    Less,
    AtMost,
    Greater,
    AtLeast,
}

/// A truth value, and nothing without it.
fn tested(answer: Option<bool>) -> Evaluation
    ensures { evaluated result ≡ tested answer }
{
    match answer {
        Some(b) => Evaluation::Boolean(b),
        None => Evaluation::Stuck,
    }
}

/// Both truth values.
fn booleans(left: &Value, right: &Value) -> Option<(bool, bool)>
    ensures { result ≡ both_of (boolean_in (scalar_in (value_view left.now))) (boolean_in (scalar_in (value_view right.now))) }
{
    let Some(a) = as_boolean(left) else {
        return None;
    };
    let Some(b) = as_boolean(right) else {
        return None;
    };
    Some((a, b))
}

/// Both integers.
fn integers(left: &Value, right: &Value) -> Option<(i64, i64)>
    ensures { result ≡ both_of (integer_in (scalar_in (value_view left.now))) (integer_in (scalar_in (value_view right.now))) }
{
    let Some(y) = as_integer(left) else {
        return None;
    };
    let Some(z) = as_integer(right) else {
        return None;
    };
    Some((y, z))
}

/// Whether two scalars are equal; those of different kinds are not.
fn sameness(left: &Value, right: &Value) -> Option<bool>
    ensures { result ≡ sameness (scalar_in (value_view left.now)) (scalar_in (value_view right.now)) }
{
    match left {
        Value::Bool(a) => match as_boolean(right) {
            Some(b) => Some(*a == b),
            None => differing(right),
        },
        Value::Int(y) => match as_integer(right) {
            Some(z) => Some(*y == z),
            None => differing(right),
        },
        Value::Text(s) => match as_text(right) {
            Some(t) => Some(s.bytes() == t.bytes()),
            None => differing(right),
        },
        Value::Tag(i) => match as_tag(right) {
            Some(j) => Some(*i == j),
            None => differing(right),
        },
        Value::Fields(_) => None,
        Value::Case(_, _) => None,
        Value::Table(_) => None,
        Value::Poly(_) => None,
        Value::Call(_) => None,
        Value::Inport(_) => None,
        Value::Outport(_) => None,
    }
}

/// A scalar of another kind is not equal.
fn differing(right: &Value) -> Option<bool>
    ensures { result ≡ differing (scalar_in (value_view right.now)) }
{
    if is_scalar(right) { Some(false) } else { None }
}

/// How two integers or two strings are ordered.
fn ordering(left: &Value, right: &Value) -> Option<Ordering>
    ensures { result ≡ ordering (scalar_in (value_view left.now)) (scalar_in (value_view right.now)) }
{
    match left {
        Value::Bool(_) => None,
        Value::Int(y) => match as_integer(right) {
            Some(z) => Some(y.cmp(&z)),
            None => None,
        },
        Value::Text(s) => match as_text(right) {
            Some(t) => Some(s.bytes().cmp(t.bytes())),
            None => None,
        },
        Value::Tag(_) => None,
        Value::Fields(_) => None,
        Value::Case(_, _) => None,
        Value::Table(_) => None,
        Value::Poly(_) => None,
        Value::Call(_) => None,
        Value::Inport(_) => None,
        Value::Outport(_) => None,
    }
}

/// What the last two of these values give, the right operand last. Nothing where there are fewer.
#[tactic(auto, using(crate::proofs::Stacked::ends))]
pub fn combined_at_end(o: Binary, values: &[Value]) -> Evaluation
    ensures { (left right : held.Value) (rest : List held.Value) → reverse values.now ≡ right ∷ left ∷ rest → evaluated result ≡ two_then (operate (binary_view o)) (gives (value_view left)) (gives (value_view right)) }
{
    let [.., left, right] = values else {
        return Evaluation::Stuck;
    };
    combined(o, left, right)
}

/// What two operands give, the left one first.
fn combined(o: Binary, left: &Value, right: &Value) -> Evaluation
    ensures { evaluated result ≡ two_then (operate (binary_view o)) (gives (value_view left.now)) (gives (value_view right.now)) }
{
    match o {
        Binary::Or => or(left, right),
        Binary::And => and(left, right),
        Binary::Equal => equal(left, right),
        Binary::Unequal => unequal(left, right),
        Binary::Less => less(left, right),
        Binary::AtMost => at_most(left, right),
        Binary::Greater => greater(left, right),
        Binary::AtLeast => at_least(left, right),
        Binary::Plus => plus(left, right),
        Binary::Minus => minus(left, right),
        Binary::Times => times(left, right),
        Binary::Divided => divided(left, right),
        Binary::Modulo => modulo(left, right),
    }
}

#[tactic(auto, using(crate::proofs::Operated::or_given))]
fn or(left: &Value, right: &Value) -> Evaluation
    ensures { evaluated result ≡ two_then (operate logical_or) (gives (value_view left.now)) (gives (value_view right.now)) }
{
    match booleans(left, right) {
        Some((a, b)) => tested(Some(a || b)),
        None => Evaluation::Stuck,
    }
}

#[tactic(auto, using(crate::proofs::Operated::and_given))]
fn and(left: &Value, right: &Value) -> Evaluation
    ensures { evaluated result ≡ two_then (operate logical_and) (gives (value_view left.now)) (gives (value_view right.now)) }
{
    match booleans(left, right) {
        Some((a, b)) => tested(Some(a && b)),
        None => Evaluation::Stuck,
    }
}

#[tactic(auto, using(crate::proofs::Operated::equal_given))]
fn equal(left: &Value, right: &Value) -> Evaluation
    ensures { evaluated result ≡ two_then (operate equal) (gives (value_view left.now)) (gives (value_view right.now)) }
{
    tested(sameness(left, right))
}

#[tactic(auto, using(crate::proofs::Operated::unequal_given))]
fn unequal(left: &Value, right: &Value) -> Evaluation
    ensures { evaluated result ≡ two_then (operate unequal) (gives (value_view left.now)) (gives (value_view right.now)) }
{
    match sameness(left, right) {
        Some(same) => tested(Some(!same)),
        None => Evaluation::Stuck,
    }
}

#[tactic(auto, using(crate::proofs::Operated::less_given))]
fn less(left: &Value, right: &Value) -> Evaluation
    ensures { evaluated result ≡ two_then (operate less) (gives (value_view left.now)) (gives (value_view right.now)) }
{
    match ordering(left, right) {
        Some(order) => tested(Some(order.is_lt())),
        None => Evaluation::Stuck,
    }
}

#[tactic(auto, using(crate::proofs::Operated::at_most_given))]
fn at_most(left: &Value, right: &Value) -> Evaluation
    ensures { evaluated result ≡ two_then (operate at_most) (gives (value_view left.now)) (gives (value_view right.now)) }
{
    match ordering(left, right) {
        Some(order) => tested(Some(order.is_le())),
        None => Evaluation::Stuck,
    }
}

#[tactic(auto, using(crate::proofs::Operated::greater_given))]
fn greater(left: &Value, right: &Value) -> Evaluation
    ensures { evaluated result ≡ two_then (operate greater) (gives (value_view left.now)) (gives (value_view right.now)) }
{
    match ordering(left, right) {
        Some(order) => tested(Some(order.is_gt())),
        None => Evaluation::Stuck,
    }
}

#[tactic(auto, using(crate::proofs::Operated::at_least_given))]
fn at_least(left: &Value, right: &Value) -> Evaluation
    ensures { evaluated result ≡ two_then (operate at_least) (gives (value_view left.now)) (gives (value_view right.now)) }
{
    match ordering(left, right) {
        Some(order) => tested(Some(order.is_ge())),
        None => Evaluation::Stuck,
    }
}

#[tactic(auto, using(crate::proofs::Operated::plus_given))]
fn plus(left: &Value, right: &Value) -> Evaluation
    ensures { evaluated result ≡ two_then (operate plus) (gives (value_view left.now)) (gives (value_view right.now)) }
{
    match integers(left, right) {
        Some((y, z)) => sum(y, z),
        None => Evaluation::Stuck,
    }
}

#[tactic(auto, using(crate::proofs::Operated::minus_given))]
fn minus(left: &Value, right: &Value) -> Evaluation
    ensures { evaluated result ≡ two_then (operate minus) (gives (value_view left.now)) (gives (value_view right.now)) }
{
    match integers(left, right) {
        Some((y, z)) => difference(y, z),
        None => Evaluation::Stuck,
    }
}

#[tactic(auto, using(crate::proofs::Operated::times_given))]
fn times(left: &Value, right: &Value) -> Evaluation
    ensures { evaluated result ≡ two_then (operate times) (gives (value_view left.now)) (gives (value_view right.now)) }
{
    match integers(left, right) {
        Some((y, z)) => product(y, z),
        None => Evaluation::Stuck,
    }
}

#[tactic(auto, using(crate::proofs::Operated::divided_given))]
fn divided(left: &Value, right: &Value) -> Evaluation
    ensures { evaluated result ≡ two_then (operate divided) (gives (value_view left.now)) (gives (value_view right.now)) }
{
    match integers(left, right) {
        Some((y, z)) => quotient(y, z),
        None => Evaluation::Stuck,
    }
}

#[tactic(auto, using(crate::proofs::Operated::modulo_given))]
fn modulo(left: &Value, right: &Value) -> Evaluation
    ensures { evaluated result ≡ two_then (operate modulo) (gives (value_view left.now)) (gives (value_view right.now)) }
{
    match integers(left, right) {
        Some((y, z)) => remainder(y, z),
        None => Evaluation::Stuck,
    }
}

/// What the last of these values gives. Nothing where there is none.
#[tactic(auto, using(crate::proofs::Stacked::ends))]
pub fn applied_at_end(o: Unary, values: &[Value]) -> Evaluation
    ensures { (v : held.Value) (rest : List held.Value) → reverse values.now ≡ v ∷ rest → evaluated result ≡ scalar_then (applied (unary_view o)) (value_view v) }
{
    let [.., v] = values else {
        return Evaluation::Stuck;
    };
    applied(o, v)
}

/// What one operand gives.
fn applied(o: Unary, v: &Value) -> Evaluation
    ensures { evaluated result ≡ scalar_then (applied (unary_view o)) (value_view v.now) }
{
    match o {
        Unary::Negative => negative(v),
        Unary::Complement => complement(v),
        Unary::TextLength => text_length(v),
    }
}

#[tactic(auto, using(crate::proofs::Operated::negative_given))]
fn negative(v: &Value) -> Evaluation
    ensures { evaluated result ≡ scalar_then (applied negative) (value_view v.now) }
{
    match as_integer(v) {
        Some(z) => negated(z),
        None => Evaluation::Stuck,
    }
}

#[tactic(auto, using(crate::proofs::Operated::complement_given))]
fn complement(v: &Value) -> Evaluation
    ensures { evaluated result ≡ scalar_then (applied complement) (value_view v.now) }
{
    match as_boolean(v) {
        Some(b) => tested(Some(!b)),
        None => Evaluation::Stuck,
    }
}

#[tactic(auto, using(crate::proofs::Operated::text_length_given))]
fn text_length(v: &Value) -> Evaluation
    ensures { evaluated result ≡ scalar_then (applied text_length) (value_view v.now) }
{
    match as_text(v) {
        Some(text) => Evaluation::Integer(text.bytes().len() as i64),
        None => Evaluation::Stuck,
    }
}
