//! What the types at paths say.
ghost use Rattle.std.specs.Prelude.{◌≡◌, map, option_map, option_and_then, slice_get, length, IfOk};
ghost use Rattle.herm_model.specs.Lists.{list_of, map_or};
ghost use Rattle.herm_model.specs.Calls as model;
ghost use Rattle.herm_model.specs.Facts as facts;
ghost use Rattle.herm_model.specs.FactsOfStatements.{sent_to};
ghost use Rattle.herm_types.specs.View.{path_view, fact_view, shape_view, param_view, raise_decl_view};
ghost use Rattle.herm_fronts.specs.Frames.{kind, table_of, variables_of};
ghost use Rattle.herm_translated.specs.Fronts as fronts;

use crate::frame::{Frame, type_of};
use herm_base::{ExcNo, TypeNo};
use herm_types::{Fact, Param, Path, RaiseDecl, Shape, TypeTable};
use std::alloc::{AllocError, Global};

/// The shape of a type.
pub fn shape_of(types: &TypeTable, t: TypeNo) -> Option<&Shape>
    ensures { option_map (λ s. shape_view s.now) result ≡ slice_get types.now.shapes t.0 }
{
    if t.0 as usize >= types.len() {
        return None;
    }
    Some(types.shape(t))
}

/// The number of the type at a path.
pub fn type_number(frame: &Frame, p: &Path) -> TypeNo
    ensures { result.0 ≡ fronts.type_of (table_of frame.now) (variables_of frame.now) (path_view p.now) }
{
    match type_of(frame, p) {
        Some(t) => t,
        None => TypeNo(0),
    }
}

/// The shape of the type at a path.
pub fn shape_at<'a>(frame: &Frame<'a>, p: &Path) -> Option<&'a Shape>
    ensures { option_map (λ s. shape_view s.now) result ≡ model.shape_at (table_of frame.now) (variables_of frame.now) (path_view p.now) }
{
    let t = match type_of(frame, p) {
        Some(t) => t,
        None => return None,
    };
    shape_of(frame.types, t)
}

/// The inport type to which the outport at a path leads.
fn inport_at(frame: &Frame, o: &Path) -> Option<TypeNo>
    ensures { kind result ≡ model.inport_at (table_of frame.now) (variables_of frame.now) (path_view o.now) }
{
    match shape_at(frame, o) {
        None => None,
        Some(shape) => match shape {
            Shape::Outport { port } => Some(*port),
            _ => None,
        },
    }
}

/// The type of the messages of an inport type.
fn message_of(types: &TypeTable, t: TypeNo) -> Option<TypeNo>
    ensures { kind result ≡ option_and_then model.message_type (slice_get types.now.shapes t.0) }
{
    match shape_of(types, t) {
        None => None,
        Some(shape) => match shape {
            Shape::Inport { message, facts: _ } => Some(*message),
            _ => None,
        },
    }
}

/// The shape of the messages that the outport at a path takes.
fn message_shape<'a>(frame: &Frame<'a>, o: &Path) -> Option<&'a Shape>
    ensures { option_map (λ s. shape_view s.now) result ≡ model.message_shape (table_of frame.now) (variables_of frame.now) (path_view o.now) }
{
    let port = match inport_at(frame, o) {
        Some(port) => port,
        None => return None,
    };
    let message = match message_of(frame.types, port) {
        Some(message) => message,
        None => return None,
    };
    shape_of(frame.types, message)
}

fn parameters_of(shape: Option<&Shape>) -> &[Param]
    ensures { map param_view result.now ≡ list_of model.parameters_of (option_map (λ s. shape_view s.now) shape.entry) }
{
    match shape {
        None => &[],
        Some(shape) => match shape {
            Shape::CallMessage { params, raises: _ } => params.as_slice(),
            _ => &[],
        },
    }
}

fn raises_of(shape: Option<&Shape>) -> &[RaiseDecl]
    ensures { map raise_decl_view result.now ≡ list_of model.raises_of (option_map (λ s. shape_view s.now) shape.entry) }
{
    match shape {
        None => &[],
        Some(shape) => match shape {
            Shape::CallMessage { params: _, raises } => raises.as_slice(),
            _ => &[],
        },
    }
}

/// The parameters of the callmessages that the outport at a path takes.
pub fn call_parameters<'a>(frame: &Frame<'a>, o: &Path) -> &'a [Param]
    ensures { map param_view result.now ≡ model.call_parameters (table_of frame.now) (variables_of frame.now) (path_view o.now) }
{
    parameters_of(message_shape(frame, o))
}

/// The exceptions that these callmessages may raise.
pub fn call_raises<'a>(frame: &Frame<'a>, o: &Path) -> &'a [RaiseDecl]
    ensures { map raise_decl_view result.now ≡ model.call_raises (table_of frame.now) (variables_of frame.now) (path_view o.now) }
{
    raises_of(message_shape(frame, o))
}

/// The exceptions that the callmessage at a path may raise.
pub fn raises_at<'a>(frame: &Frame<'a>, m: &Path) -> &'a [RaiseDecl]
    ensures { map raise_decl_view result.now ≡ list_of model.raises_of (model.shape_at (table_of frame.now) (variables_of frame.now) (path_view m.now)) }
{
    raises_of(shape_at(frame, m))
}

/// The places of the parameters that are kept at an exception.
pub fn kept_for(raises: &[RaiseDecl], e: ExcNo) -> &[u32]
    ensures { result.now ≡ model.kept_for (map raise_decl_view raises.now) e.0 }
{
    'raises: for raise in raises {
        if raise.exc.0 == e.0 {
            return raise.keeps.as_slice();
        }
    }
    &[]
}

/// How many components the variant at a path has.
pub fn component_count(frame: &Frame, v: &Path) -> usize
    ensures { result ≡ map_or 0 facts.component_count (model.shape_at (table_of frame.now) (variables_of frame.now) (path_view v.now)) }
{
    match shape_at(frame, v) {
        None => 0,
        Some(shape) => match shape {
            Shape::Cases(parts) => parts.len(),
            _ => 0,
        },
    }
}

/// The facts at which messages of a type travel, said of a message at a path; none where it is no inport type.
fn declared_facts(
    alloc: Global,
    types: &TypeTable,
    t: TypeNo,
    message: &Path,
) -> Result<Vec<Fact>, AllocError>
    ensures { IfOk result (λ v. map fact_view v.items ≡ facts.declared_facts types.now.shapes t.0 (path_view message.now)) }
{
    if t.0 as usize >= types.len() {
        return Ok(Vec::new(alloc));
    }
    match types.shape(t) {
        Shape::Inport {
            message: _,
            facts: _,
        } => {
            let found = types.declared_facts(alloc, message, t)?;
            Ok(found)
        }
        _ => Ok(Vec::new(alloc)),
    }
}

/// The facts at which messages travel that are sent to the outport at a path.
pub fn sent_to(
    alloc: Global,
    frame: &Frame,
    o: &Path,
    message: &Path,
) -> Result<Vec<Fact>, AllocError>
    ensures { IfOk result (λ v. map fact_view v.items ≡ sent_to (table_of frame.now) (variables_of frame.now) (path_view o.now) (path_view message.now)) }
{
    match inport_at(frame, o) {
        None => Ok(Vec::new(alloc)),
        Some(port) => {
            let found = declared_facts(alloc, frame.types, port, message)?;
            Ok(found)
        }
    }
}
