//! Whether two rows have the same scalars at the fields of a key.
ghost use Rattle.std.specs.Prelude.{◌≡◌, ◌<◌, ◌++◌, ◌∷◌, [], true, length, IfSome, IfNone, option_map};
ghost use Rattle.herm_model.specs.Lists.{map_or, list_of, same_numbers};
ghost use Rattle.herm_model.specs.Values as model;
ghost use Rattle.herm_model.specs.Values.{part_at, inside};
ghost use Rattle.herm_model.specs.Tables.{key_of, scalars_of, same_key};
ghost use Rattle.herm_values.specs.Keys.{is_plain, is_scalar};
ghost use Rattle.herm_values.specs.View.{value_view, views_of};
ghost use Rattle.std.specs.Prelude.{get_or, None};

use herm_base::Word;
use herm_values::Value;

/// What stands at a place, if there is something.
fn held_at(places: &[Option<Value>], place: u32) -> Option<&Value>
    ensures { option_map (λ v. value_view v.now) result ≡ get_or (views_of places.now) place None }
{
    match places.get(place as usize) {
        Some(held) => held.as_ref(),
        None => None,
    }
}

/// What a row has at a field.
#[tactic(auto, using(crate::proofs::Fields::fields))]
pub fn field_at(row: &Value, column: u32) -> Option<&Value>
    ensures { option_map (λ v. value_view v.now) result ≡ part_at column (inside (Some (value_view row.now))) }
{
    match row {
        Value::Bool(_) => None,
        Value::Int(_) => None,
        Value::Text(_) => None,
        Value::Tag(_) => None,
        Value::Fields(fields) => held_at(fields.as_slice(), column),
        Value::Case(_, _) => None,
        Value::Table(_) => None,
        Value::Poly(_) => None,
        Value::Call(call) => held_at(call.params(), column),
        Value::Inport(_) => None,
        Value::Outport(_) => None,
    }
}

/// Whether a value is a scalar.
fn is_plain(v: &Value) -> bool
    ensures { result ≡ is_plain (value_view v.now) }
{
    match v {
        Value::Bool(_) => true,
        Value::Int(_) => true,
        Value::Text(_) => true,
        Value::Tag(_) => true,
        Value::Fields(_) => false,
        Value::Case(_, _) => false,
        Value::Table(_) => false,
        Value::Poly(_) => false,
        Value::Call(_) => false,
        Value::Inport(_) => false,
        Value::Outport(_) => false,
    }
}

fn is_boolean(v: &Value, b: bool) -> bool
    ensures { result ≡ is_scalar (model.a_boolean b) (value_view v.now) }
{
    match v {
        Value::Bool(a) => b.cmp(a).is_eq(),
        _ => false,
    }
}

fn is_integer(v: &Value, n: i64) -> bool
    ensures { result ≡ is_scalar (model.an_integer n) (value_view v.now) }
{
    match v {
        Value::Int(m) => n.cmp(m).is_eq(),
        _ => false,
    }
}

fn is_same_text(a: &Word, b: &Word) -> bool
    ensures { result ≡ same_numbers a.now b.now }
{
    a.bytes() == b.bytes()
}

fn is_text(v: &Value, text: &Word) -> bool
    ensures { result ≡ is_scalar (model.a_text text.now) (value_view v.now) }
{
    match v {
        Value::Text(other) => is_same_text(text, other),
        _ => false,
    }
}

fn is_tag(v: &Value, i: u32) -> bool
    ensures { result ≡ is_scalar (model.a_tag i) (value_view v.now) }
{
    match v {
        Value::Tag(j) => i == *j,
        _ => false,
    }
}

/// Whether the second value is the scalar that the first is.
fn is_same(a: &Value, b: &Value) -> bool
    ensures { (s : model.Scalar) → scalars_of (value_view a.now) ≡ s ∷ [] → result ≡ is_scalar s (value_view b.now) }
{
    match a {
        Value::Bool(x) => is_boolean(b, *x),
        Value::Int(n) => is_integer(b, *n),
        Value::Text(text) => is_text(b, text),
        Value::Tag(i) => is_tag(b, *i),
        Value::Fields(_) => false,
        Value::Case(_, _) => false,
        Value::Table(_) => false,
        Value::Poly(_) => false,
        Value::Call(_) => false,
        Value::Inport(_) => false,
        Value::Outport(_) => false,
    }
}

/// The first scalar of a row's key at these fields, and the fields behind it.
#[tactic(auto, using(crate::proofs::Fields::next))]
fn next_scalar<'a, 'b>(row: &'a Value, columns: &'b [u32]) -> Option<(&'a Value, &'b [u32])>
    ensures found { IfSome result (λ f. key_of columns.now (value_view row.now) ≡ scalars_of (value_view f.0.now) ++ key_of f.1.now (value_view row.now)) }
    ensures plain { IfSome result (λ f. is_plain (value_view f.0.now) ≡ true) }
    ensures shorter { IfSome result (λ f. length f.1.now < length columns.now) }
    ensures none { IfNone result (key_of columns.now (value_view row.now) ≡ []) }
{
    let Some((column, rest)) = columns.split_first() else {
        return None;
    };
    match field_at(row, *column) {
        Some(v) => {
            if is_plain(v) {
                return Some((v, rest));
            }
            next_scalar(row, rest)
        }
        None => next_scalar(row, rest),
    }
}

/// Whether the keys of two rows at these fields are equal.
fn is_same_key(a: &Value, left: &[u32], b: &Value, right: &[u32]) -> bool
    ensures { result ≡ same_key (key_of left.now (value_view a.now)) (key_of right.now (value_view b.now)) }
{
    match next_scalar(a, left) {
        None => match next_scalar(b, right) {
            None => true,
            Some(_) => false,
        },
        Some((x, left_rest)) => match next_scalar(b, right) {
            None => false,
            Some((y, right_rest)) => is_same(x, y) && is_same_key(a, left_rest, b, right_rest),
        },
    }
}

/// Whether two rows have one key, at these fields.
pub fn have_one_key(columns: &[u32], a: &Value, b: &Value) -> bool
    ensures { result ≡ same_key (key_of columns.now (value_view a.now)) (key_of columns.now (value_view b.now)) }
{
    is_same_key(a, columns, b, columns)
}
