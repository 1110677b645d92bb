//! The code at a statement.
ghost use Rattle.std.specs.Prelude.{◌≡◌, not, map, IfOk};
ghost use Rattle.std.specs.Str.{bytes_eq};
ghost use Rattle.herm_model.specs.Lists.{all_pass, any_pass};
ghost use Rattle.herm_model.specs.tests.TableTests.{are_different};
ghost use Rattle.herm_syntax.specs.Trees as trees;
ghost use Rattle.herm_syntax.specs.View.{name_view, path_form_view, atom_view, stmt_form_view};
ghost use Rattle.herm_naming.specs.Numbers.{without_last};
ghost use Rattle.herm_naming.specs.Meaning.{statement_number};
ghost use Rattle.herm_naming.specs.StatementFaults.{part_ways, same_path, set_arguments, all_part_ways, paths_part, repeats, statement_code};
ghost use Rattle.herm_model.specs.Calls.{is_returned};
ghost use Rattle.herm_types.specs.View.{mode_view, param_view};
ghost use Rattle.herm_judge.specs.View.{table_of, variables_of};
ghost use Rattle.herm_typed.specs.View.{typed_form_view};
ghost use Rattle.herm_numbers.specs.View.{scope_view, IsKnown};
ghost use Rattle.herm_numbers.specs.Faults.{found_code_view};

use crate::fault::NameCode;
use crate::scope::Scope;
use herm_base::Name;
use herm_judge::{
    Frame, call_parameters, is_statement_copied, is_statement_fit, is_statement_there,
};
use herm_syntax::{Atom, PathForm, Stmt, StmtForm};
use herm_typed::TypedForm;
use herm_types::{Mode, Param};
use std::alloc::{AllocError, Global};

/// Whether two paths part at some name.
fn part_ways(p: &[Name], q: &[Name]) -> bool
    ensures part { result ≡ part_ways (map name_view p.now) (map name_view q.now) }
{
    let mut rest = q;
    'names: for name in p {
        match rest.split_first() {
            None => return false,
            Some((other, others)) => {
                if name.text.bytes() != other.text.bytes() {
                    return true;
                }
                rest = others;
            }
        }
    }
    false
}

/// The names of a path without the last one.
fn without_last(p: &PathForm) -> &[Name]
    ensures before { map name_view result.now ≡ without_last (path_form_view p.now) }
{
    let names = p.parts.as_slice();
    match names.split_last() {
        None => names,
        Some((_, before)) => before,
    }
}

fn is_returned(mode: Mode) -> bool
    ensures mode { result ≡ is_returned (mode_view mode) }
{
    match mode {
        Mode::In => false,
        Mode::Inout => true,
        Mode::Out => true,
    }
}

/// Whether the path of a moved value parts from those of these arguments that a call sets.
fn parts_from(p: &[Name], params: &[Param], arguments: &[Atom]) -> bool
    ensures part { result ≡ all_pass (part_ways (map name_view p.now)) (set_arguments (map param_view params.now) (map atom_view arguments.now)) }
{
    let mut rest = arguments;
    'params: for param in params {
        match rest.split_first() {
            None => return true,
            Some((a, others)) => {
                if is_returned(param.mode) {
                    if let Atom::Path(q) = a {
                        if !part_ways(p, q.parts.as_slice()) {
                            return false;
                        }
                    }
                }
                rest = others;
            }
        }
    }
    true
}

/// Whether no path that a call sets begins another one.
fn arguments_part(params: &[Param], arguments: &[Atom]) -> bool
    ensures part { result ≡ all_part_ways (set_arguments (map param_view params.now) (map atom_view arguments.now)) }
{
    let mut rest = params;
    let mut left = arguments;
    'arguments: while let Some((a, after)) = left.split_first() {
        match rest.split_first() {
            None => return true,
            Some((param, others)) => {
                if is_returned(param.mode) {
                    if let Atom::Path(p) = a {
                        if !parts_from(p.parts.as_slice(), others, after) {
                            return false;
                        }
                    }
                }
                rest = others;
            }
        }
        left = after;
    }
    true
}

/// Whether a path that is moved and one that is set do not begin one another, nor two that a call sets.
fn paths_part(scope: &Scope, frame: &Frame, form: &StmtForm, typed: &TypedForm) -> bool
    requires meaning { typed_form_view typed.now ≡ statement_number (scope_view scope.now) (stmt_form_view form.now) }
    requires types { table_of frame.now ≡ (scope_view scope.now).known.shapes }
    requires variables { variables_of frame.now ≡ (scope_view scope.now).types }
    ensures part { result ≡ paths_part (scope_view scope.now) (stmt_form_view form.now) }
{
    match form {
        StmtForm::Move(y, x) => part_ways(y.parts.as_slice(), x.parts.as_slice()),
        StmtForm::Unite(c, y) => part_ways(y.parts.as_slice(), without_last(c)),
        StmtForm::Dissolve(c, y) => part_ways(without_last(c), y.parts.as_slice()),
        StmtForm::Wrap(y, p) => part_ways(y.parts.as_slice(), p.parts.as_slice()),
        StmtForm::Unwrap(p, _, y) => part_ways(p.parts.as_slice(), y.parts.as_slice()),
        StmtForm::Call(_, arguments) => match typed {
            TypedForm::Call(o, _) => {
                arguments_part(call_parameters(frame, o), arguments.as_slice())
            }
            _ => true,
        },
        _ => true,
    }
}

fn is_among(name: &Name, others: &[(Name, Vec<Stmt>)]) -> bool
    ensures among { result ≡ any_pass (bytes_eq (name_view name.now)) (map (λ a. name_view a.0) others.now) }
{
    'others: for (other, _) in others {
        if name.text.bytes() == other.text.bytes() {
            return true;
        }
    }
    false
}

/// Whether the names of arms differ.
fn names_differ(arms: &[(Name, Vec<Stmt>)]) -> bool
    ensures differ { result ≡ are_different bytes_eq (map (λ a. name_view a.0) arms.now) }
{
    let mut rest = arms;
    'arms: while let Some((arm, others)) = rest.split_first() {
        if is_among(&arm.0, others) {
            return false;
        }
        rest = others;
    }
    true
}

fn same_path(p: &[Name], q: &[Name]) -> bool
    ensures same { result ≡ same_path (map name_view p.now) (map name_view q.now) }
{
    let mut rest = q;
    'names: for name in p {
        match rest.split_first() {
            None => return false,
            Some((other, others)) => {
                if name.text.bytes() != other.text.bytes() {
                    return false;
                }
                rest = others;
            }
        }
    }
    rest.is_empty()
}

fn is_port_among(port: &PathForm, others: &[(PathForm, PathForm, Vec<Stmt>)]) -> bool
    ensures among { result ≡ any_pass (same_path (path_form_view port.now)) (map (λ a. path_form_view a.0) others.now) }
{
    'others: for (other, _, _) in others {
        if same_path(port.parts.as_slice(), other.parts.as_slice()) {
            return true;
        }
    }
    false
}

/// Whether the ports of arms differ.
fn ports_differ(arms: &[(PathForm, PathForm, Vec<Stmt>)]) -> bool
    ensures differ { result ≡ are_different same_path (map (λ a. path_form_view a.0) arms.now) }
{
    let mut rest = arms;
    'arms: while let Some((arm, others)) = rest.split_first() {
        if is_port_among(&arm.0, others) {
            return false;
        }
        rest = others;
    }
    true
}

/// Whether an arm, a port or a handler is repeated.
fn repeats(form: &StmtForm) -> bool
    ensures repeats { result ≡ repeats (stmt_form_view form.now) }
{
    match form {
        StmtForm::Case(_, arms) => !names_differ(arms.as_slice()),
        StmtForm::Select(arms) => !ports_differ(arms.as_slice()),
        StmtForm::Try(_, handled) => !names_differ(handled.as_slice()),
        _ => false,
    }
}

/// The code at a statement, apart from the statements within it: the first that holds.
pub fn code_of(
    alloc: Global,
    scope: &Scope,
    in_loop: bool,
    form: &StmtForm,
    typed: &TypedForm,
) -> Result<Option<NameCode>, AllocError>
    requires known { IsKnown scope.now }
    requires meaning { typed_form_view typed.now ≡ statement_number (scope_view scope.now) (stmt_form_view form.now) }
    ensures code { IfOk result (λ c. found_code_view c ≡ statement_code (scope_view scope.now) in_loop (stmt_form_view form.now)) }
{
    let frame = Frame {
        types: scope.types,
        of: scope.of.as_slice(),
        ports: scope.ports,
    };
    if !is_statement_there(&frame, in_loop, typed) {
        return Ok(Some(NameCode::Unknown));
    }
    if repeats(form) {
        return Ok(Some(NameCode::Twice));
    }
    if !(is_statement_fit(&frame, typed) && paths_part(scope, &frame, form, typed)) {
        return Ok(Some(NameCode::WrongType));
    }
    if !is_statement_copied(&frame, typed) {
        return Ok(Some(NameCode::NotCopyable));
    }
    Ok(None)
}
