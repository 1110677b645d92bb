//! Shapes with numbers in place of names.
ghost use Rattle.std.specs.Prelude.{◌≡◌, ◌<◌, ◌^◌, IfOk, map, length};
ghost use Rattle.herm_syntax.specs.View.{name_view, field_view, param_form_view, raise_form_view, shape_form_view};
ghost use Rattle.herm_types.specs.View.{mode_view, param_view, raise_decl_view, shape_view, parts_view};
ghost use Rattle.herm_meaning.specs.Walks.{place_of};
ghost use Rattle.herm_meaning.specs.Meaning.{mode_meant, parameter_meant, raising_numbered, numbered_shape, part_names};
ghost use Rattle.herm_syntax.specs.View as views;

use crate::names::Names;
use herm_base::{ExcNo, Name, TypeNo, Word};
use herm_syntax::{Field, ModeForm, ParamForm, RaiseForm, ShapeForm};
use herm_types::{Mode, Param, Part, RaiseDecl, Shape};
use std::alloc::{AllocError, Global};

fn number_of(names: &Names, name: &Name) -> TypeNo
    requires { length names.now < 2 ^ 32 }
    ensures { result.0 ≡ place_of names.now (name_view name.now) }
{
    TypeNo(names.number(name.text.bytes()))
}

fn words_of(alloc: Global, names: &[Name]) -> Result<Vec<Word>, AllocError>
    ensures { IfOk result (λ v. v.items ≡ map name_view names.now) }
{
    let mut words = Vec::new(alloc);
    for name in names {
        let word = name.text.clone()?;
        words.push(word)?;
    }
    Ok(words)
}

fn parts_of(alloc: Global, types: &Names, fields: &[Field]) -> Result<Vec<Part>, AllocError>
    requires { length types.now < 2 ^ 32 }
    ensures types { IfOk result (λ v. map (λ p. p.of.0) v.items ≡ map (λ f. place_of types.now f.1) (map field_view fields.now)) }
    ensures names { IfOk result (λ v. map (λ p. p.name) v.items ≡ map (λ f. f.0) (map field_view fields.now)) }
{
    let mut parts = Vec::new(alloc);
    for field in fields {
        let name = field.name.text.clone()?;
        let of = number_of(types, &field.of);
        parts.push(Part { name, of })?;
    }
    Ok(parts)
}

fn mode_of(mode: ModeForm) -> Mode
    ensures { mode_view result ≡ mode_meant (views.mode_form_view mode) }
{
    match mode {
        ModeForm::In => Mode::In,
        ModeForm::Inout => Mode::Inout,
        ModeForm::Out => Mode::Out,
    }
}

pub fn params_of(
    alloc: Global,
    types: &Names,
    params: &[ParamForm],
) -> Result<Vec<Param>, AllocError>
    requires { length types.now < 2 ^ 32 }
    ensures types { IfOk result (λ v. map param_view v.items ≡ map (parameter_meant types.now) (map param_form_view params.now)) }
    ensures names { IfOk result (λ v. map (λ p. p.name) v.items ≡ map (λ p. p.1.0) (map param_form_view params.now)) }
{
    let mut numbered = Vec::new(alloc);
    for param in params {
        let name = param.field.name.text.clone()?;
        let mode = mode_of(param.mode);
        let of = number_of(types, &param.field.of);
        numbered.push(Param { mode, name, of })?;
    }
    Ok(numbered)
}

fn raises_of(
    alloc: Global,
    exceptions: &Names,
    raises: &[RaiseForm],
) -> Result<Vec<RaiseDecl>, AllocError>
    requires exceptions { length exceptions.now < 2 ^ 32 }
    ensures { IfOk result (λ v. map raise_decl_view v.items ≡ map (raising_numbered exceptions.now) (map raise_form_view raises.now)) }
{
    let mut numbered = Vec::new(alloc);
    for raise in raises {
        let exc = ExcNo(exceptions.number(raise.name.text.bytes()));
        numbered.push(RaiseDecl {
            exc,
            keeps: Vec::new(alloc),
        })?;
    }
    Ok(numbered)
}

/// A shape with numbers in place of names, without keys, facts and kept parameters.
pub fn numbered_shape(
    alloc: Global,
    types: &Names,
    exceptions: &Names,
    shape: &ShapeForm,
) -> Result<Shape, AllocError>
    requires types { length types.now < 2 ^ 32 }
    requires exceptions { length exceptions.now < 2 ^ 32 }
    ensures shape { IfOk result (λ s. shape_view s ≡ numbered_shape types.now exceptions.now (shape_form_view shape.now)) }
    ensures parts { IfOk result (λ s. parts_view s ≡ part_names (shape_form_view shape.now)) }
{
    match shape {
        ShapeForm::Names(values) => {
            let words = words_of(alloc, values.as_slice())?;
            Ok(Shape::Names(words))
        }
        ShapeForm::Fields(fields) => {
            let parts = parts_of(alloc, types, fields.as_slice())?;
            Ok(Shape::Fields(parts))
        }
        ShapeForm::Cases(fields) => {
            let parts = parts_of(alloc, types, fields.as_slice())?;
            Ok(Shape::Cases(parts))
        }
        ShapeForm::Rows { row, keys: _ } => Ok(Shape::Rows {
            row: number_of(types, row),
            keys: Vec::new(alloc),
        }),
        ShapeForm::Inport { message, facts: _ } => Ok(Shape::Inport {
            message: number_of(types, message),
            facts: Vec::new(alloc),
        }),
        ShapeForm::Outport { port } => Ok(Shape::Outport {
            port: number_of(types, port),
        }),
        ShapeForm::CallMessage { params, raises } => {
            let numbered = params_of(alloc, types, params.as_slice())?;
            let raised = raises_of(alloc, exceptions, raises.as_slice())?;
            Ok(Shape::CallMessage {
                params: numbered,
                raises: raised,
            })
        }
    }
}
