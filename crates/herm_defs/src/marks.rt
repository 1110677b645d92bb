//! The names of definitions are gone through in the order of the text.
ghost use Rattle.std.specs.Prelude.{◌≡◌, ◌<◌, ◌≤◌, ◌+◌, ◌^◌, ◌++◌, [], ◌∷◌, IfOk, OnOk, length, map, take};
ghost use Rattle.herm_syntax.specs.View.{name_view, shape_form_view};
ghost use Rattle.herm_meaning.specs.Marks.{Role, in_turn, mark, part_marks, field_marks, key_marks, param_marks, kept_marks, raise_marks, shape_marks, parameter_role, a_content, a_type, an_exception, a_row, a_port};
ghost use Rattle.herm_defs.specs.Seen.{item_seen};
ghost use Rattle.herm_defs.specs.Few.{AreFew};
ghost use Rattle.herm_defs.specs.View.{def_fault_view};
ghost use Rattle.herm_defs.specs.Judged.{faults_by, marked, IsCodeAt, Judges, JudgesItem};
ghost use Rattle.herm_meaning.specs.DefinitionFaults.{AreFaultsOf};

use crate::context::Context;
use crate::fault::{DefCode, DefFault};
use crate::judge::{
    content_code, exception_code, input_code, key_code, part_code, port_code, raised_code,
    row_code, type_code,
};
use crate::listed::{field_names, names_of, param_names, raise_names};
use crate::names::Names;
use herm_base::Name;
use herm_syntax::{DefForm, DefItem, Field, ModeForm, ParamForm, RaiseForm, ShapeForm};
use std::alloc::{AllocError, Global};

/// Appends a fault at a name, where there is one.
fn push(
    faults: &mut Vec<DefFault>,
    module_number: u32,
    name: &Name,
    code: Option<DefCode>,
) -> Result<(), AllocError>
    ensures { OnOk result (map def_fault_view faults.new.items ≡ map def_fault_view faults.old.items ++ faults_by module_number name.now code) }
{
    match code {
        Some(code) => {
            let span = name.span;
            faults.push(DefFault {
                code,
                module: module_number,
                span,
            })?;
            Ok(())
        }
        None => Ok(()),
    }
}

/// A name that must be a type.
fn judge_content(
    faults: &mut Vec<DefFault>,
    module_number: u32,
    context: &Context,
    name: &Name,
) -> Result<(), AllocError>
    ensures { OnOk result (Judges context.now module_number (mark name.now a_content) faults.old.items faults.new.items) }
{
    push(faults, module_number, name, content_code(context, name))?;
    Ok(())
}

fn judge_row(
    faults: &mut Vec<DefFault>,
    module_number: u32,
    context: &Context,
    name: &Name,
) -> Result<(), AllocError>
    ensures { OnOk result (Judges context.now module_number (mark name.now a_row) faults.old.items faults.new.items) }
{
    push(faults, module_number, name, row_code(context, name))?;
    Ok(())
}

fn judge_port(
    faults: &mut Vec<DefFault>,
    module_number: u32,
    context: &Context,
    name: &Name,
) -> Result<(), AllocError>
    ensures { OnOk result (Judges context.now module_number (mark name.now a_port) faults.old.items faults.new.items) }
{
    push(faults, module_number, name, port_code(context, name))?;
    Ok(())
}

/// A part behind those of its list up to its place.
fn judge_part(
    faults: &mut Vec<DefFault>,
    module_number: u32,
    context: &Context,
    names: &Names,
    place: usize,
    name: &Name,
) -> Result<(), AllocError>
    ensures part { OnOk result (Judges context.now module_number (part_marks (take place names.now) name.now) faults.old.items faults.new.items) }
    ensures kept { OnOk result (Judges context.now module_number (kept_marks (take place names.now) name.now) faults.old.items faults.new.items) }
{
    push(
        faults,
        module_number,
        name,
        part_code(context, names, place, name),
    )?;
    Ok(())
}

fn judge_field(
    faults: &mut Vec<DefFault>,
    module_number: u32,
    context: &Context,
    names: &Names,
    place: usize,
    field: &Field,
) -> Result<(), AllocError>
    ensures { OnOk result (Judges context.now module_number (field_marks (take place names.now) field.now) faults.old.items faults.new.items) }
{
    judge_part(faults, module_number, context, names, place, &field.name)?;
    judge_content(faults, module_number, context, &field.of)?;
    Ok(())
}

fn judge_key(
    faults: &mut Vec<DefFault>,
    module_number: u32,
    context: &Context,
    row: &Name,
    names: &Names,
    place: usize,
    name: &Name,
) -> Result<(), AllocError>
    ensures { OnOk result (Judges context.now module_number (key_marks row.now.text (take place names.now) name.now) faults.old.items faults.new.items) }
{
    push(
        faults,
        module_number,
        name,
        key_code(context, names, place, name, row),
    )?;
    Ok(())
}

/// The code at a parameter behind those of its list up to its place.
fn param_code(context: &Context, names: &Names, place: usize, param: &ParamForm) -> Option<DefCode>
    ensures { IsCodeAt context.now (marked param.now.field.name (parameter_role param.now.mode (take place names.now) param.now.field.of.text)) result }
{
    match param.mode {
        ModeForm::In => input_code(context, names, place, &param.field.name, &param.field.of),
        ModeForm::Inout => part_code(context, names, place, &param.field.name),
        ModeForm::Out => part_code(context, names, place, &param.field.name),
    }
}

fn judge_param(
    faults: &mut Vec<DefFault>,
    module_number: u32,
    context: &Context,
    names: &Names,
    place: usize,
    param: &ParamForm,
) -> Result<(), AllocError>
    ensures { OnOk result (Judges context.now module_number (param_marks (take place names.now) param.now) faults.old.items faults.new.items) }
{
    let code = param_code(context, names, place, param);
    push(faults, module_number, &param.field.name, code)?;
    judge_content(faults, module_number, context, &param.field.of)?;
    Ok(())
}

/// The parts of a list, or the parameters that an exception keeps.
fn judge_parts(
    faults: &mut Vec<DefFault>,
    module_number: u32,
    context: &Context,
    names: &Names,
    list: &[Name],
) -> Result<(), AllocError>
    requires names { names.now ≡ map name_view list.now }
    ensures part { OnOk result (Judges context.now module_number (in_turn (λ n. n.text) part_marks [] list.now) faults.old.items faults.new.items) }
    ensures kept { OnOk result (Judges context.now module_number (in_turn (λ n. n.text) kept_marks [] list.now) faults.old.items faults.new.items) }
{
    for (place, name) in list.iter().enumerate() {
        judge_part(faults, module_number, context, names, place, name)?;
    }
    Ok(())
}

fn judge_raise(
    alloc: Global,
    faults: &mut Vec<DefFault>,
    module_number: u32,
    context: &Context,
    names: &Names,
    place: usize,
    raise: &RaiseForm,
) -> Result<(), AllocError>
    ensures { OnOk result (Judges context.now module_number (raise_marks (take place names.now) raise.now) faults.old.items faults.new.items) }
{
    push(
        faults,
        module_number,
        &raise.name,
        raised_code(context, names, place, &raise.name),
    )?;
    let keeps = names_of(alloc, raise.keeps.as_slice())?;
    judge_parts(
        faults,
        module_number,
        context,
        &keeps,
        raise.keeps.as_slice(),
    )?;
    Ok(())
}

fn judge_values(
    alloc: Global,
    faults: &mut Vec<DefFault>,
    module_number: u32,
    context: &Context,
    values: &[Name],
) -> Result<(), AllocError>
    ensures { OnOk result (Judges context.now module_number (in_turn (λ n. n.text) part_marks [] values.now) faults.old.items faults.new.items) }
{
    let names = names_of(alloc, values)?;
    judge_parts(faults, module_number, context, &names, values)?;
    Ok(())
}

fn judge_fields(
    alloc: Global,
    faults: &mut Vec<DefFault>,
    module_number: u32,
    context: &Context,
    fields: &[Field],
) -> Result<(), AllocError>
    ensures { OnOk result (Judges context.now module_number (in_turn (λ f. f.name.text) field_marks [] fields.now) faults.old.items faults.new.items) }
{
    let names = field_names(alloc, fields)?;
    for (place, field) in fields.iter().enumerate() {
        judge_field(faults, module_number, context, &names, place, field)?;
    }
    Ok(())
}

fn judge_keys(
    alloc: Global,
    faults: &mut Vec<DefFault>,
    module_number: u32,
    context: &Context,
    row: &Name,
    keys: &[Name],
) -> Result<(), AllocError>
    ensures { OnOk result (Judges context.now module_number (in_turn (λ k. k.text) (key_marks row.now.text) [] keys.now) faults.old.items faults.new.items) }
{
    let names = names_of(alloc, keys)?;
    for (place, key) in keys.iter().enumerate() {
        judge_key(faults, module_number, context, row, &names, place, key)?;
    }
    Ok(())
}

fn judge_params(
    alloc: Global,
    faults: &mut Vec<DefFault>,
    module_number: u32,
    context: &Context,
    params: &[ParamForm],
) -> Result<(), AllocError>
    ensures { OnOk result (Judges context.now module_number (in_turn (λ p. p.field.name.text) param_marks [] params.now) faults.old.items faults.new.items) }
{
    let names = param_names(alloc, params)?;
    for (place, param) in params.iter().enumerate() {
        judge_param(faults, module_number, context, &names, place, param)?;
    }
    Ok(())
}

fn judge_raises(
    alloc: Global,
    faults: &mut Vec<DefFault>,
    module_number: u32,
    context: &Context,
    raises: &[RaiseForm],
) -> Result<(), AllocError>
    ensures { OnOk result (Judges context.now module_number (in_turn (λ r. r.name.text) raise_marks [] raises.now) faults.old.items faults.new.items) }
{
    let names = raise_names(alloc, raises)?;
    for (place, raise) in raises.iter().enumerate() {
        judge_raise(alloc, faults, module_number, context, &names, place, raise)?;
    }
    Ok(())
}

fn judge_table(
    alloc: Global,
    faults: &mut Vec<DefFault>,
    module_number: u32,
    context: &Context,
    row: &Name,
    keys: &[Name],
) -> Result<(), AllocError>
    ensures { OnOk result (Judges context.now module_number (mark row.now a_row ++ in_turn (λ k. k.text) (key_marks row.now.text) [] keys.now) faults.old.items faults.new.items) }
{
    judge_row(faults, module_number, context, row)?;
    judge_keys(alloc, faults, module_number, context, row, keys)?;
    Ok(())
}

fn judge_call(
    alloc: Global,
    faults: &mut Vec<DefFault>,
    module_number: u32,
    context: &Context,
    params: &[ParamForm],
    raises: &[RaiseForm],
) -> Result<(), AllocError>
    ensures { OnOk result (Judges context.now module_number (in_turn (λ p. p.field.name.text) param_marks [] params.now ++ in_turn (λ r. r.name.text) raise_marks [] raises.now) faults.old.items faults.new.items) }
{
    judge_params(alloc, faults, module_number, context, params)?;
    judge_raises(alloc, faults, module_number, context, raises)?;
    Ok(())
}

/// All names of a shape.
fn judge_shape(
    alloc: Global,
    faults: &mut Vec<DefFault>,
    module_number: u32,
    context: &Context,
    shape: &ShapeForm,
) -> Result<(), AllocError>
    ensures { OnOk result (Judges context.now module_number (shape_marks shape.now) faults.old.items faults.new.items) }
{
    match shape {
        ShapeForm::Names(values) => {
            judge_values(alloc, faults, module_number, context, values.as_slice())?;
            Ok(())
        }
        ShapeForm::Fields(fields) => {
            judge_fields(alloc, faults, module_number, context, fields.as_slice())?;
            Ok(())
        }
        ShapeForm::Cases(fields) => {
            judge_fields(alloc, faults, module_number, context, fields.as_slice())?;
            Ok(())
        }
        ShapeForm::Rows { row, keys } => {
            judge_table(alloc, faults, module_number, context, row, keys.as_slice())?;
            Ok(())
        }
        ShapeForm::Inport { message, facts: _ } => {
            judge_content(faults, module_number, context, message)?;
            Ok(())
        }
        ShapeForm::Outport { port } => {
            judge_port(faults, module_number, context, port)?;
            Ok(())
        }
        ShapeForm::CallMessage { params, raises } => {
            let (params, raises) = (params.as_slice(), raises.as_slice());
            judge_call(alloc, faults, module_number, context, params, raises)?;
            Ok(())
        }
    }
}

/// The name of the type with a number, and all names of its shape.
fn judge_type(
    alloc: Global,
    faults: &mut Vec<DefFault>,
    module_number: u32,
    context: &Context,
    number: usize,
    name: &Name,
    shape: &ShapeForm,
) -> Result<(), AllocError>
    ensures { OnOk result (Judges context.now module_number (mark name.now (a_type number (shape_form_view shape.now)) ++ shape_marks shape.now) faults.old.items faults.new.items) }
{
    let code = type_code(alloc, context, number, name, shape)?;
    push(faults, module_number, name, code)?;
    judge_shape(alloc, faults, module_number, context, shape)?;
    Ok(())
}

fn judge_exception(
    faults: &mut Vec<DefFault>,
    module_number: u32,
    context: &Context,
    number: usize,
    name: &Name,
) -> Result<(), AllocError>
    ensures { OnOk result (Judges context.now module_number (mark name.now (an_exception number)) faults.old.items faults.new.items) }
{
    push(
        faults,
        module_number,
        name,
        exception_code(context, number, name),
    )?;
    Ok(())
}

/// All names of an item, where the next type and the next exception have these numbers; the numbers of those behind it.
fn judge_item(
    alloc: Global,
    faults: &mut Vec<DefFault>,
    context: &Context,
    module_number: u32,
    item: &DefItem,
    t: usize,
    e: usize,
) -> Result<(usize, usize), AllocError>
    requires few_types { t < 2 ^ 33 }
    requires few_exceptions { e < 2 ^ 33 }
    ensures judges { IfOk result (λ next. JudgesItem context.now module_number item.now t e next faults.old.items faults.new.items) }
    ensures few { IfOk result (λ next. (next.0 ≤ t + 1) × (next.1 ≤ e + 1)) }
{
    match &item.form {
        DefForm::Shaped(shape) => {
            judge_type(alloc, faults, module_number, context, t, &item.name, shape)?;
            Ok((t + 1, e))
        }
        DefForm::Exception => {
            judge_exception(faults, module_number, context, e, &item.name)?;
            Ok((t, e + 1))
        }
    }
}

/// The number of the first type that is defined.
const FIRST_TYPE: usize = 8;

/// The number of the first exception that is defined.
const FIRST_EXCEPTION: usize = 7;

/// The faults of items, in the order of their names.
pub fn faults_of(alloc: Global, items: &[(u32, &DefItem)]) -> Result<Vec<DefFault>, AllocError>
    requires few { AreFew (map item_seen items.now) }
    requires items { length items.now < 2 ^ 31 }
    ensures { IfOk result (λ v. AreFaultsOf (map item_seen items.now) (map def_fault_view v.items)) }
{
    let context = Context::of(alloc, items)?;
    let mut faults = Vec::new(alloc);
    let mut t = FIRST_TYPE;
    let mut e = FIRST_EXCEPTION;
    for item in items {
        let next = judge_item(alloc, &mut faults, &context, item.0, item.1, t, e)?;
        t = next.0;
        e = next.1;
    }
    Ok(faults)
}
