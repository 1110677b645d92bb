//! Replies to calls.
ghost use Rattle.std.specs.Prelude.{◌≡◌, ◌↔◌, ◌&&◌, [], IsTrue, IfSome, is_some, Some, map};
ghost use Rattle.std.specs.List.{AllByRecursion};
ghost use Rattle.herm_model.specs.Calls.{kept_for, is_returned};
ghost use Rattle.herm_journal.specs.Actions.{values, raised};
ghost use Rattle.herm_journal.specs.Messages.{IsReplyTo};
ghost use Rattle.herm_types.specs.View.{mode_view, param_view, raise_decl_view};
ghost use Rattle.herm_values.specs.View.{value_view};
ghost use Rattle.herm_values.specs.Whole.{IsWhole};
ghost use Rattle.herm_letters.specs.View.{reply_view};
ghost use Rattle.herm_letters.specs.Letters.{IsWholeReply};
ghost use Rattle.herm_suits.specs.Decided.{are_full, returned_types, types_at, is_declared, is_reply};

use crate::layouts::Degree;
use crate::typing::is_of;
use herm_base::{ExcNo, TypeNo};
use herm_letters::Reply;
use herm_types::{Mode, Param, RaiseDecl, Shape, TypeTable};
use herm_values::Value;

/// Whether a parameter of this mode comes back.
fn is_returned(mode: Mode) -> bool
    ensures { result ≡ is_returned (mode_view mode) }
{
    match mode {
        Mode::In => false,
        Mode::Inout => true,
        Mode::Out => true,
    }
}

/// Whether the values are full ones of the parameters that come back, in order.
fn are_returned(types: &TypeTable, params: &[Param], returned: &[Value]) -> bool
    requires whole { AllByRecursion IsWhole returned.now }
    ensures { result ≡ are_full types.now.shapes (returned_types (map param_view params.now)) (map value_view returned.now) }
{
    let Some((param, rest)) = params.split_first() else {
        return returned.is_empty();
    };
    if !is_returned(param.mode) {
        return are_returned(types, rest, returned);
    }
    match returned.split_first() {
        None => false,
        Some((first, others)) => {
            is_of(types, Degree::Whole, param.of, first) && are_returned(types, rest, others)
        }
    }
}

/// Whether the values are full ones of the parameters at these places, in order.
fn are_kept(types: &TypeTable, params: &[Param], places: &[u32], kept: &[Value]) -> bool
    requires whole { AllByRecursion IsWhole kept.now }
    ensures { result ≡ are_full types.now.shapes (types_at (map param_view params.now) places.now) (map value_view kept.now) }
{
    let Some((place, rest)) = places.split_first() else {
        return kept.is_empty();
    };
    let Some(param) = params.get(*place as usize) else {
        return are_kept(types, params, rest, kept);
    };
    match kept.split_first() {
        None => false,
        Some((first, others)) => {
            is_of(types, Degree::Whole, param.of, first) && are_kept(types, params, rest, others)
        }
    }
}

/// What is declared of an exception, if it is.
fn declared_of(raises: &[RaiseDecl], exception: ExcNo) -> Option<&RaiseDecl>
    ensures declared { is_some result ≡ is_declared (map raise_decl_view raises.now) exception.0 }
    ensures kept { IfSome result (λ r. r.now.keeps.items ≡ kept_for (map raise_decl_view raises.now) exception.0) }
{
    for raise in raises {
        if raise.exc == exception {
            return Some(raise);
        }
    }
    None
}

/// Whether the exception is declared, and the values are full ones of the parameters that it keeps.
fn is_raised(
    types: &TypeTable,
    params: &[Param],
    raises: &[RaiseDecl],
    exception: ExcNo,
    kept: &[Value],
) -> bool
    requires whole { AllByRecursion IsWhole kept.now }
    ensures { result ≡ (is_declared (map raise_decl_view raises.now) exception.0 && are_full types.now.shapes (types_at (map param_view params.now) (kept_for (map raise_decl_view raises.now) exception.0)) (map value_view kept.now)) }
{
    match declared_of(raises, exception) {
        Some(raise) => are_kept(types, params, raise.keeps.as_slice(), kept),
        None => false,
    }
}

/// Whether the values are those that a call of this type brings back.
#[tactic(auto, using(crate::proofs::Calls::calls))]
fn are_back(types: &TypeTable, call_type: TypeNo, returned: &[Value]) -> bool
    requires whole { AllByRecursion IsWhole returned.now }
    ensures { result ≡ is_reply types.now.shapes (Some call_type.0) (values (map value_view returned.now)) }
{
    if call_type.0 as usize >= types.len() {
        return returned.is_empty();
    }
    match types.shape(call_type) {
        Shape::CallMessage { params, raises: _ } => are_returned(
            types,
            params.as_slice(),
            returned,
        ),
        _ => returned.is_empty(),
    }
}

/// Whether a call of this type may be answered with the exception and these values.
#[tactic(auto, using(crate::proofs::Calls::calls))]
fn may_raise(types: &TypeTable, call_type: TypeNo, exception: ExcNo, kept: &[Value]) -> bool
    requires whole { AllByRecursion IsWhole kept.now }
    ensures { result ≡ is_reply types.now.shapes (Some call_type.0) (raised exception.0 (map value_view kept.now)) }
{
    if call_type.0 as usize >= types.len() {
        return false;
    }
    match types.shape(call_type) {
        Shape::CallMessage { params, raises } => is_raised(
            types,
            params.as_slice(),
            raises.as_slice(),
            exception,
            kept,
        ),
        _ => false,
    }
}

/// Whether the reply is one to a call of this type.
fn is_reply(types: &TypeTable, call_type: TypeNo, reply: &Reply) -> bool
    requires whole { IsWholeReply reply.now }
    ensures { result ≡ is_reply types.now.shapes (Some call_type.0) (reply_view reply.now) }
{
    match reply {
        Reply::Values(returned) => are_back(types, call_type, returned.as_slice()),
        Reply::Raised(exception, kept) => may_raise(types, call_type, *exception, kept.as_slice()),
        Reply::Gone => true,
    }
}

/// Whether the reply is one to a call whose callmessage has this type: full values of the types of the parameters that
/// come back, or an exception that the type declares with full values of those that it keeps, or none. It takes no memory.
pub fn is_reply_to(types: &TypeTable, call_type: TypeNo, reply: &Reply) -> bool
    requires whole { IsWholeReply reply.now }
    ensures exactly { IsTrue result ↔ IsReplyTo types.now.shapes (Some call_type.0) (reply_view reply.now) }
{
    let answer = is_reply(types, call_type, reply);
    answer
}
