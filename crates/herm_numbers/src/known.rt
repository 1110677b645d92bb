//! What is known of a program before its processes are judged.
ghost use Rattle.std.specs.Prelude.{◌≡◌, ◌∷◌, map, IfOk};
ghost use Rattle.herm_syntax.specs.View.{name_view, module_view};
ghost use Rattle.herm_naming.specs.Numbers.{type_number};
ghost use Rattle.herm_naming.specs.Meaning.{ProcessText, processes_in};
ghost use Rattle.herm_numbers.specs.Counts.{IsCounted};
ghost use Rattle.herm_numbers.specs.View.{IsSized};

use crate::atoms::type_number;
use crate::counts::type_counts;
use crate::index::Names;
use crate::names::words;
use crate::part_names::part_names;
use crate::scope::Scope;
use herm_base::{TypeNo, Word};
use herm_syntax::{Field, Module};
use herm_typed::TypedVar;
use herm_types::TypeTable;
use std::alloc::{AllocError, Global};

/// The types, and the names of the parts of each; the exceptions by name; the processes by name, and the types of their ports; how many paths each type has.
#[derive(Drop)]
pub struct Known<'a> {
    pub types: &'a TypeTable,
    pub parts: Vec<Names>,
    pub exceptions: Names,
    pub processes: Names,
    pub ports: Vec<TypeNo>,
    pub counts: Vec<u32>,
    ghost named: { parts.items ≡ types.now.parts },
}

/// The names of the processes, in order.
fn process_names(alloc: Global, modules: &[Module]) -> Result<Vec<Word>, AllocError>
    ensures names { IfOk result (λ v. v.items ≡ map (λ (q : ProcessText). q.name) (processes_in (map module_view modules.now))) }
{
    let mut found = Vec::new(alloc);
    'modules: for module in modules {
        if let Module::Process {
            name,
            port: _,
            vars: _,
            body: _,
        } = module
        {
            let word = name.text.clone()?;
            found.push(word)?;
        }
    }
    Ok(found)
}

/// The types of the ports of the processes, in order.
fn port_types(
    alloc: Global,
    types: &TypeTable,
    modules: &[Module],
) -> Result<Vec<TypeNo>, AllocError>
    requires sized { IsSized types.now }
    ensures types { IfOk result (λ v. map (λ t. t.0) v.items ≡ map (λ (q : ProcessText). type_number types.now q.port.1) (processes_in (map module_view modules.now))) }
{
    let mut found = Vec::new(alloc);
    'modules: for module in modules {
        if let Module::Process {
            name: _,
            port,
            vars: _,
            body: _,
        } = module
        {
            found.push(type_number(types, port.of.text.bytes()))?;
        }
    }
    Ok(found)
}

/// What is known of these modules.
pub fn known_of<'a>(
    alloc: Global,
    types: &'a TypeTable,
    modules: &[Module],
) -> Result<Known<'a>, AllocError>
    requires sized { IsSized types.now }
    ensures types { IfOk result (λ k. k.types.now ≡ types.now) }
    ensures exceptions { IfOk result (λ k. k.exceptions ≡ types.now.exceptions) }
    ensures processes { IfOk result (λ k. k.processes ≡ map (λ (q : ProcessText). q.name) (processes_in (map module_view modules.now))) }
    ensures ports { IfOk result (λ k. map (λ t. t.0) k.ports.items ≡ map (λ (q : ProcessText). type_number types.now q.port.1) (processes_in (map module_view modules.now))) }
    ensures counts { IfOk result (λ k. IsCounted types.now.shapes k.counts.items) }
{
    let parts = part_names(alloc, types)?;
    let names = words(alloc, types.exceptions())?;
    let exceptions = Names::of(alloc, names)?;
    let names = process_names(alloc, modules)?;
    let processes = Names::of(alloc, names)?;
    let ports = port_types(alloc, types, modules)?;
    let counts = type_counts(alloc, types)?;
    Ok(Known {
        types,
        parts,
        exceptions,
        processes,
        ports,
        counts,
    })
}

/// The names of the variables, the port first.
fn declared_words(alloc: Global, port: &Field, vars: &[Field]) -> Result<Vec<Word>, AllocError>
    ensures words { IfOk result (λ v. v.items ≡ name_view port.now.name ∷ map (λ d. name_view d.name) vars.now) }
{
    let mut found = Vec::new(alloc);
    let first = port.name.text.clone()?;
    found.push(first)?;
    'vars: for d in vars {
        let word = d.name.text.clone()?;
        found.push(word)?;
    }
    Ok(found)
}

/// The types of the variables, the port first.
fn declared_types(
    alloc: Global,
    types: &TypeTable,
    port: &Field,
    vars: &[Field],
) -> Result<Vec<TypeNo>, AllocError>
    requires sized { IsSized types.now }
    ensures types { IfOk result (λ v. map (λ t. t.0) v.items ≡ type_number types.now (name_view port.now.of) ∷ map (λ d. type_number types.now (name_view d.of)) vars.now) }
{
    let mut found = Vec::new(alloc);
    found.push(type_number(types, port.of.text.bytes()))?;
    'vars: for d in vars {
        found.push(type_number(types, d.of.text.bytes()))?;
    }
    Ok(found)
}

/// What is known within a process with these declarations.
pub fn scope_of<'a>(
    alloc: Global,
    known: &'a Known<'a>,
    port: &Field,
    vars: &[Field],
) -> Result<Scope<'a>, AllocError>
    requires sized { IsSized known.now.types.now }
    ensures types { IfOk result (λ s. s.types.now ≡ known.now.types.now) }
    ensures exceptions { IfOk result (λ s. s.exceptions.now ≡ known.now.exceptions) }
    ensures variables { IfOk result (λ s. s.variables ≡ name_view port.now.name ∷ map (λ d. name_view d.name) vars.now) }
    ensures of { IfOk result (λ s. map (λ t. t.0) s.of.items ≡ type_number known.now.types.now (name_view port.now.of) ∷ map (λ d. type_number known.now.types.now (name_view d.of)) vars.now) }
    ensures processes { IfOk result (λ s. s.processes.now ≡ known.now.processes) }
    ensures ports { IfOk result (λ s. s.ports.now ≡ known.now.ports.items) }
{
    let words = declared_words(alloc, port, vars)?;
    let variables = Names::of(alloc, words)?;
    let of = declared_types(alloc, known.types, port, vars)?;
    Ok(Scope {
        types: known.types,
        parts: known.parts.as_slice(),
        exceptions: &known.exceptions,
        variables,
        of,
        processes: &known.processes,
        ports: known.ports.as_slice(),
    })
}

fn declared(alloc: Global, d: &Field, of: TypeNo) -> Result<TypedVar, AllocError>
    ensures of { IfOk result (λ v. v.of.0 ≡ of.0) }
    ensures name { IfOk result (λ v. v.name ≡ d.now.name) }
{
    let name = d.name.clone()?;
    Ok(TypedVar { name, of })
}

/// The variables of a process, the port first.
pub fn variables_of(
    alloc: Global,
    types: &TypeTable,
    port: &Field,
    vars: &[Field],
) -> Result<Vec<TypedVar>, AllocError>
    requires sized { IsSized types.now }
    ensures of { IfOk result (λ v. map (λ v. v.of.0) v.items ≡ type_number types.now (name_view port.now.of) ∷ map (λ d. type_number types.now (name_view d.of)) vars.now) }
    ensures names { IfOk result (λ v. map (λ v. v.name) v.items ≡ port.now.name ∷ map (λ d. d.name) vars.now) }
{
    let mut found = Vec::new(alloc);
    let t = type_number(types, port.of.text.bytes());
    let first = declared(alloc, port, t)?;
    found.push(first)?;
    'vars: for d in vars {
        let t = type_number(types, d.of.text.bytes());
        let next = declared(alloc, d, t)?;
        found.push(next)?;
    }
    Ok(found)
}
