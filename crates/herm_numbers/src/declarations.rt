//! The codes at the names that a process declares.
ghost use Rattle.std.specs.Prelude.{◌≡◌, ◌≤◌, ◌∷◌, ◌++◌, [], ◌&&◌, ◌||◌, not, true, false, is_some, take, map, length, Some, OnOk};
ghost use Rattle.herm_alphabet.specs.KeywordLetters.{keyword_of};
ghost use Rattle.herm_syntax.specs.View.{name_view, field_view};
ghost use Rattle.herm_naming.specs.Numbers.{type_number};
ghost use Rattle.herm_naming.specs.Fits.{may_be};
ghost use Rattle.herm_naming.specs.UnknownNames.{is_type};
ghost use Rattle.herm_naming.specs.StatementFaults.{is_among, first_code, is_inport_shape, declaration_code, variable_codes};
ghost use Rattle.herm_naming.specs.RefusalsOfNames.{at_places};
ghost use Rattle.herm_numbers.specs.View.{IsSized};
ghost use Rattle.herm_numbers.specs.Faults.{found_code_view, name_fault_view, codes_found, spans_found};

use crate::atoms::type_number;
use crate::fault::{Judged, NameCode, NameFault};
use crate::index::Names;
use herm_alphabet::Keyword;
use herm_base::Span;
use herm_judge::{is_inport, is_known};
use herm_syntax::Field;
use herm_types::TypeTable;
use std::alloc::AllocError;

/// Whether a name stands among so many first names.
#[tactic(auto, using(crate::proofs::Declared::among_first))]
pub fn is_declared(names: &Names, name: &[u8], before: usize) -> bool
    requires within { before ≤ length names.now }
    ensures among { result ≡ is_among name.now (take before names.now) }
{
    names.place(name) < before
}

fn is_keyword(name: &[u8]) -> bool
    ensures keyword { result ≡ is_some (keyword_of name.now) }
{
    Keyword::from_letters(name).is_some()
}

/// The code at a declaration of a type, where the name was declared before or not.
fn declaration_code(types: &TypeTable, is_port: bool, is_twice: bool, d: &Field) -> Option<NameCode>
    requires sized { IsSized types.now }
    ensures code { found_code_view result ≡ first_code (not (is_type types.now.shapes (type_number types.now (name_view d.now.of)))) is_twice (is_some (keyword_of (name_view d.now.name)) || (is_port && not (may_be types.now.shapes is_inport_shape (Some (type_number types.now (name_view d.now.of)))))) false }
{
    let t = type_number(types, d.of.text.bytes());
    if !is_known(types, Some(t)) {
        return Some(NameCode::Unknown);
    }
    if is_twice {
        return Some(NameCode::Twice);
    }
    if is_keyword(d.name.text.bytes()) || (is_port && !is_inport(types, Some(t))) {
        return Some(NameCode::WrongType);
    }
    None
}

/// A fault at a place, where there is a code.
pub fn add_fault(
    faults: &mut Vec<NameFault>,
    module_number: u32,
    span: Span,
    code: Option<NameCode>,
) -> Result<(), AllocError>
    ensures added { OnOk result (map name_fault_view faults.new.items ≡ map name_fault_view faults.old.items ++ at_places ((module_number, span) ∷ []) (found_code_view code ∷ [])) }
{
    match code {
        None => Ok(()),
        Some(code) => {
            faults.push(NameFault {
                code,
                module: module_number,
                span,
            })?;
            Ok(())
        }
    }
}

/// The faults at statements.
#[tactic(auto, using(crate::proofs::Declared::place_next))]
pub fn add_found(
    faults: &mut Vec<NameFault>,
    module_number: u32,
    found: &[Judged],
) -> Result<(), AllocError>
    ensures added { OnOk result (map name_fault_view faults.new.items ≡ map name_fault_view faults.old.items ++ at_places (map (λ s. (module_number, s)) (spans_found found.now)) (codes_found found.now)) }
{
    'found: for j in found {
        add_fault(faults, module_number, j.span, j.code)?;
    }
    Ok(())
}

/// The fault at a process's port.
pub fn add_port(
    faults: &mut Vec<NameFault>,
    types: &TypeTable,
    module_number: u32,
    port: &Field,
) -> Result<(), AllocError>
    requires sized { IsSized types.now }
    ensures added { OnOk result (map name_fault_view faults.new.items ≡ map name_fault_view faults.old.items ++ at_places ((module_number, port.now.name.span) ∷ []) (declaration_code types.now true [] (field_view port.now) ∷ [])) }
{
    let code = declaration_code(types, true, false, port);
    add_fault(faults, module_number, port.name.span, code)?;
    Ok(())
}

/// The faults at the names of variables, where the names are those of the port and then of these.
#[tactic(auto, using(crate::proofs::Declared::place_next))]
pub fn add_variables(
    faults: &mut Vec<NameFault>,
    types: &TypeTable,
    names: &Names,
    module_number: u32,
    port: &Field,
    vars: &[Field],
) -> Result<(), AllocError>
    requires sized { IsSized types.now }
    requires names { names.now ≡ name_view port.now.name ∷ map (λ d. name_view d.name) vars.now }
    ensures added { OnOk result (map name_fault_view faults.new.items ≡ map name_fault_view faults.old.items ++ at_places (map (λ d. (module_number, d.name.span)) vars.now) (variable_codes types.now (name_view port.now.name ∷ []) (map field_view vars.now))) }
{
    'vars: for (place, d) in vars.iter().enumerate() {
        let is_twice = is_declared(names, d.name.text.bytes(), place + 1);
        let code = declaration_code(types, false, is_twice, d);
        add_fault(faults, module_number, d.name.span, code)?;
    }
    Ok(())
}
