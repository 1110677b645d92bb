//! What the types of ports and callmessages say.
ghost use Rattle.std.specs.Prelude.{◌≡◌, ◌++◌, IfOk, OnOk, map, option_map};
ghost use Rattle.herm_model.specs.Lists.{list_of};
ghost use Rattle.herm_model.specs.Calls as model;
ghost use Rattle.herm_model.specs.Facts as facts;
ghost use Rattle.herm_model.specs.FactsOfStatements.{received_from, sent_to};
ghost use Rattle.herm_types.specs.View.{path_view, fact_view, shape_view, param_view, raise_decl_view};
ghost use Rattle.herm_typed.specs.View.{typed_path_view};
ghost use Rattle.herm_judge.specs.View.{kind, table_of, variables_of};

use crate::present::push_all;
use herm_base::TypeNo;
use herm_judge::{Frame, type_of};
use herm_typed::TypedPath;
use herm_types::{Fact, Param, Path, RaiseDecl, Shape, TypeTable};
use std::alloc::{AllocError, Global};

/// The shape of the type at a path.
fn shape_at<'a>(frame: &Frame<'a>, p: &TypedPath) -> Option<&'a Shape>
    ensures { option_map (λ s. shape_view s.now) result ≡ model.shape_at (table_of frame.now) (variables_of frame.now) (typed_path_view p.now) }
{
    let t = match type_of(frame, &p.path) {
        Some(t) => t,
        None => return None,
    };
    if t.0 as usize >= frame.types.len() {
        return None;
    }
    Some(frame.types.shape(t))
}

/// The inport type to which the outport at a path leads.
fn inport_at(frame: &Frame, o: &TypedPath) -> Option<TypeNo>
    ensures { kind result ≡ model.inport_at (table_of frame.now) (variables_of frame.now) (typed_path_view o.now) }
{
    match shape_at(frame, o) {
        None => None,
        Some(shape) => match shape {
            Shape::Outport { port } => Some(*port),
            _ => None,
        },
    }
}

/// The parameters of the callmessage at a path, none where it is of another type.
pub fn parameters_at<'a>(frame: &Frame<'a>, m: &TypedPath) -> &'a [Param]
    ensures { map param_view result.now ≡ list_of model.parameters_of (model.shape_at (table_of frame.now) (variables_of frame.now) (typed_path_view m.now)) }
{
    match shape_at(frame, m) {
        None => &[],
        Some(shape) => match shape {
            Shape::CallMessage { params, raises: _ } => params.as_slice(),
            _ => &[],
        },
    }
}

/// The exceptions of the callmessage at a path, none where it is of another type.
pub fn raises_at<'a>(frame: &Frame<'a>, m: &TypedPath) -> &'a [RaiseDecl]
    ensures { map raise_decl_view result.now ≡ list_of model.raises_of (model.shape_at (table_of frame.now) (variables_of frame.now) (typed_path_view m.now)) }
{
    match shape_at(frame, m) {
        None => &[],
        Some(shape) => match shape {
            Shape::CallMessage { params: _, raises } => raises.as_slice(),
            _ => &[],
        },
    }
}

/// The facts at which messages of a type travel, said of a message at a path; none where it is no inport type.
fn declared_facts(
    alloc: Global,
    types: &TypeTable,
    t: TypeNo,
    message: &Path,
) -> Result<Vec<Fact>, AllocError>
    ensures { IfOk result (λ v. map fact_view v.items ≡ facts.declared_facts types.now.shapes t.0 (path_view message.now)) }
{
    if t.0 as usize >= types.len() {
        return Ok(Vec::new(alloc));
    }
    match types.shape(t) {
        Shape::Inport {
            message: _,
            facts: _,
        } => {
            let found = types.declared_facts(alloc, message, t)?;
            Ok(found)
        }
        _ => Ok(Vec::new(alloc)),
    }
}

/// Appends the facts at which messages of a type travel.
fn push_declared(
    alloc: Global,
    types: &TypeTable,
    t: Option<TypeNo>,
    message: &Path,
    out: &mut Vec<Fact>,
) -> Result<(), AllocError>
    ensures { OnOk result (map fact_view out.new.items ≡ map fact_view out.old.items ++ list_of (λ t. facts.declared_facts types.now.shapes t (path_view message.now)) (kind t)) }
{
    let t = match t {
        Some(t) => t,
        None => return Ok(()),
    };
    let found = declared_facts(alloc, types, t, message)?;
    push_all(found, out)?;
    Ok(())
}

/// Appends the facts at which messages travel that are received from the inport at a path.
pub fn push_received(
    alloc: Global,
    frame: &Frame,
    i: &TypedPath,
    message: &Path,
    out: &mut Vec<Fact>,
) -> Result<(), AllocError>
    ensures { OnOk result (map fact_view out.new.items ≡ map fact_view out.old.items ++ received_from (table_of frame.now) (variables_of frame.now) (typed_path_view i.now) (path_view message.now)) }
{
    push_declared(alloc, frame.types, type_of(frame, &i.path), message, out)?;
    Ok(())
}

/// Appends the facts at which messages travel that are sent to the outport at a path.
pub fn push_sent(
    alloc: Global,
    frame: &Frame,
    o: &TypedPath,
    message: &Path,
    out: &mut Vec<Fact>,
) -> Result<(), AllocError>
    ensures { OnOk result (map fact_view out.new.items ≡ map fact_view out.old.items ++ sent_to (table_of frame.now) (variables_of frame.now) (typed_path_view o.now) (path_view message.now)) }
{
    push_declared(alloc, frame.types, inport_at(frame, o), message, out)?;
    Ok(())
}
