//! A process by number, with its faults.
ghost use Rattle.std.specs.Prelude.{ℕ, ◌≡◌, ◌∷◌, ◌++◌, [], ◌||◌, ◌≤◌, cond, nat_lt, take, map, length, Some, None, OnOk, IfOk, IsTrue, true};
ghost use Rattle.herm_model.specs.Types.{all_parts, variable_paths};
ghost use Rattle.herm_model.specs.Statements.{numbers_of_block, IsWellFormedBlock};
ghost use Rattle.herm_syntax.specs.View.{name_view, field_view};
ghost use Rattle.herm_naming.specs.StatementFaults.{is_among, twice, too_many, unreachable, declaration_code};
ghost use Rattle.herm_naming.specs.RefusalsOfNames.{at_places, all_places, are_none};
ghost use Rattle.herm_typed.specs.View.{typed_stmts_view, typed_process_view};
ghost use Rattle.herm_numbers.specs.Counts.{IsCounted};
ghost use Rattle.herm_numbers.specs.Faults.{found_code_view, name_fault_view, spans_found, body_spans};
ghost use Rattle.herm_resolve.specs.Judged.{IsReady, process_within, codes_within, found_codes, found_places, AddsRefusals};
ghost use Rattle.herm_resolve.specs.Refused.{places_of};
ghost use Rattle.herm_typed.specs.Beside.{KnowsTypes};
ghost use Rattle.herm_resolve.specs.Kept.{names_of, names_written, numbers_of, numbers_written};

use crate::reach::unreached;
use crate::statements::block;
use herm_base::{Name, TypeNo};
use herm_numbers::{
    Judged, Known, NameCode, NameFault, Scope, add_fault, add_found, add_port, add_variables,
    has_many_paths, is_declared, scope_of, variables_of,
};
use herm_syntax::{Field, Stmt};
use herm_typed::{TypedProcess, TypedStmt};
use std::alloc::{AllocError, Global};

/// The most statements of a process.
const GREATEST_STATEMENTS: usize = 1024;

/// Whether a process has too many statements or too many paths of variables.
#[tactic(auto, using(herm_numbers::proofs::Counted::many_paths))]
fn is_too_large(known: &Known, of: &[TypeNo], statements: usize) -> bool
    requires counted { IsCounted known.now.types.now.shapes known.now.counts.items }
    ensures large { result ≡ (nat_lt 1024 statements || nat_lt 4096 (length (variable_paths all_parts known.now.types.now.shapes (map (λ t. t.0) of.now)))) }
{
    statements > GREATEST_STATEMENTS || has_many_paths(known.counts.as_slice(), of)
}

/// The code at a process's name, behind so many processes.
fn name_code(known: &Known, number: usize, name: &Name, is_large: bool) -> Option<NameCode>
    requires within { number ≤ length known.now.processes }
    ensures code { found_code_view result ≡ cond (is_among (name_view name.now) (take number known.now.processes)) (Some twice) (cond is_large (Some too_many) None) }
{
    if is_declared(&known.processes, name.text.bytes(), number) {
        return Some(NameCode::Twice);
    }
    if is_large {
        return Some(NameCode::TooMany);
    }
    None
}

fn unreached_code(mark: bool) -> Option<NameCode>
    ensures code { found_code_view result ≡ cond mark (Some unreachable) None }
{
    if mark {
        return Some(NameCode::Unreachable);
    }
    None
}

/// The fault at a statement that is marked.
fn add_mark(
    faults: &mut Vec<NameFault>,
    module_number: u32,
    j: &Judged,
    mark: bool,
) -> Result<(), AllocError>
    ensures added { OnOk result (map name_fault_view faults.new.items ≡ map name_fault_view faults.old.items ++ at_places ((module_number, j.now.span) ∷ []) (cond mark (Some unreachable) None ∷ [])) }
{
    add_fault(faults, module_number, j.span, unreached_code(mark))?;
    Ok(())
}

/// The faults at the marked statements.
#[tactic(auto, using(herm_numbers::proofs::Declared::place_next))]
fn add_unreached(
    faults: &mut Vec<NameFault>,
    module_number: u32,
    found: &[Judged],
    marks: &[bool],
) -> Result<(), AllocError>
    requires each { length marks.now ≡ length found.now }
    ensures added { OnOk result (map name_fault_view faults.new.items ≡ map name_fault_view faults.old.items ++ at_places (map (λ s. (module_number, s)) (spans_found found.now)) (map (λ m. cond m (Some unreachable) None) marks.now)) }
{
    'found: for (place, j) in found.iter().enumerate() {
        add_mark(faults, module_number, j, marks[place])?;
    }
    Ok(())
}

/// The faults at the name and the port of a process.
fn add_head(
    known: &Known,
    module_number: u32,
    number: usize,
    name: &Name,
    port: &Field,
    is_large: bool,
    faults: &mut Vec<NameFault>,
) -> Result<(), AllocError>
    requires ready { IsReady known.now }
    requires number { number ≤ length known.now.processes }
    ensures added { OnOk result (map name_fault_view faults.new.items ≡ map name_fault_view faults.old.items ++ at_places ((module_number, name.now.span) ∷ (module_number, port.now.name.span) ∷ []) (cond (is_among (name_view name.now) (take number known.now.processes)) (Some twice) (cond is_large (Some too_many) None) ∷ declaration_code known.now.types.now true [] (field_view port.now) ∷ [])) }
{
    let code = name_code(known, number, name, is_large);
    add_fault(faults, module_number, name.span, code)?;
    add_port(faults, known.types, module_number, port)?;
    Ok(())
}

/// The faults at the places of a process, apart from control.
fn add_codes(
    known: &Known,
    scope: &Scope,
    module_number: u32,
    number: usize,
    name: &Name,
    port: &Field,
    vars: &[Field],
    found: &[Judged],
    faults: &mut Vec<NameFault>,
) -> Result<(), AllocError>
    requires ready { IsReady known.now }
    requires number { number ≤ length known.now.processes }
    requires names { scope.now.variables ≡ name_view port.now.name ∷ map (λ d. name_view d.name) vars.now }
    ensures added { OnOk result (map name_fault_view faults.new.items ≡ map name_fault_view faults.old.items ++ at_places (all_places (found_places module_number name.now port.now vars.now found.now)) (found_codes known.now (map (λ t. t.0) scope.now.of.items) number name.now port.now vars.now found.now)) }
{
    let is_large = is_too_large(known, scope.of.as_slice(), found.len());
    add_head(known, module_number, number, name, port, is_large, faults)?;
    add_variables(
        faults,
        known.types,
        &scope.variables,
        module_number,
        port,
        vars,
    )?;
    add_found(faults, module_number, found)?;
    Ok(())
}

/// The faults of a process: those at its places or, where there is none, its statements that control does not reach.
fn add_faults(
    alloc: Global,
    known: &Known,
    scope: &Scope,
    module_number: u32,
    number: usize,
    name: &Name,
    port: &Field,
    vars: &[Field],
    body: &[TypedStmt],
    found: &[Judged],
    faults: &mut Vec<NameFault>,
) -> Result<(), AllocError>
    requires ready { IsReady known.now }
    requires number { number ≤ length known.now.processes }
    requires names { scope.now.variables ≡ name_view port.now.name ∷ map (λ d. name_view d.name) vars.now }
    requires count { length found.now ≡ numbers_of_block (typed_stmts_view body.now) }
    requires formed { IsTrue (are_none (found_codes known.now (map (λ t. t.0) scope.now.of.items) number name.now port.now vars.now found.now)) → IsWellFormedBlock (typed_stmts_view body.now) }
    ensures refused { OnOk result (AddsRefusals (map name_fault_view faults.old.items) (map name_fault_view faults.new.items) scope.now.types.now.shapes (record { variables = map (λ t. t.0) scope.now.of.items; body = typed_stmts_view body.now }) (found_codes known.now (map (λ t. t.0) scope.now.of.items) number name.now port.now vars.now found.now) (found_places module_number name.now port.now vars.now found.now)) }
{
    let before = faults.len();
    add_codes(
        known,
        scope,
        module_number,
        number,
        name,
        port,
        vars,
        found,
        faults,
    )?;
    if faults.len() == before {
        let marks = unreached(alloc, scope, body)?;
        add_unreached(faults, module_number, found, marks.as_slice())?;
        return Ok(());
    }
    Ok(())
}

/// A process by number. Its faults go behind those before.
pub fn process(
    alloc: Global,
    known: &Known,
    module_number: u32,
    number: usize,
    name: &Name,
    port: &Field,
    vars: &[Field],
    body: &[Stmt],
    faults: &mut Vec<NameFault>,
) -> Result<TypedProcess, AllocError>
    requires ready { IsReady known.now }
    requires number { number ≤ length known.now.processes }
    ensures meaning { IfOk result (λ t. typed_process_view t ≡ process_within known.now port.now vars.now body.now) }
    ensures named { IfOk result (λ t. names_of t ≡ names_written name.now port.now vars.now body.now) }
    ensures numbered { IfOk result (λ t. numbers_of t ≡ numbers_written name.now port.now vars.now body.now) }
    ensures of { IfOk result (λ t. faults.new.items ≡ [] → KnowsTypes known.now.types.now.shapes t) }
    ensures refused { OnOk result (AddsRefusals (map name_fault_view faults.old.items) (map name_fault_view faults.new.items) known.now.types.now.shapes (process_within known.now port.now vars.now body.now) (codes_within known.now number name.now port.now vars.now body.now) (places_of module_number name.now port.now vars.now body.now)) }
    ensures placed { OnOk result (length (body_spans body.now) ≡ numbers_of_block (process_within known.now port.now vars.now body.now).body) }
{
    if vars.len() >= u32::MAX as usize {
        return Err(AllocError);
    }
    let scope = scope_of(alloc, known, port, vars)?;
    let mut found = Vec::new(alloc);
    let typed = block(alloc, &scope, false, body, &mut found)?;
    add_faults(
        alloc,
        known,
        &scope,
        module_number,
        number,
        name,
        port,
        vars,
        typed.as_slice(),
        found.as_slice(),
        faults,
    )?;
    let name = name.clone()?;
    let vars = variables_of(alloc, known.types, port, vars)?;
    Ok(TypedProcess {
        name,
        vars,
        body: typed,
    })
}
