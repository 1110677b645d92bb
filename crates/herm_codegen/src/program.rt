//! The code of a program.
ghost use Rattle.std.specs.Prelude.{◌≡◌, [], map, flat_map, IfOk, OnOk};
ghost use Rattle.herm_model.specs.Nodes.{process_nodes};
ghost use Rattle.herm_typed.specs.View.{typed_process_view, typed_expr_view};
ghost use Rattle.herm_translated.specs.Constants.{literals_of, literals_in};
ghost use Rattle.herm_translated.specs.Translated.{code_of, image_for};
ghost use Rattle.herm_code.specs.View.{module_view};
ghost use Rattle.herm_fronts.specs.Forms.{form_seen};
ghost use Rattle.herm_fronts.specs.Shared.{shared};
ghost use Rattle.herm_fronts.specs.View.{key_view};
ghost use Rattle.herm_blocks.specs.CheckedProcesses.{checked_view};
ghost use Rattle.herm_codegen.specs.Programs.{generated_view, AllHaveFlows};

use crate::process::code_of;
use herm_blocks::CheckedProcess;
use herm_code::{CodeModule, Const};
use herm_fronts::constants::{Key, add_atoms, add_operands, constants_in};
use herm_fronts::nodes::nodes_in;
use herm_fronts::operands::expression_of;
use herm_typed::{TypedExpr, TypedForm};
use herm_types::TypeTable;
use indexmap::IndexSet;
use std::alloc::{AllocError, Global};

/// The code modules of a program, by the numbers of its process modules, and the constants of all.
#[derive(Drop)]
pub struct Generated {
    pub modules: Vec<CodeModule>,
    pub constants: Vec<Const>,
}

/// Adds the literals of an expression.
#[tactic(auto, using(crate::proofs::Literals::literals_found))]
fn add_expression(alloc: Global, keys: &mut IndexSet<Key>, e: &TypedExpr) -> Result<(), AllocError>
    ensures { OnOk result (map key_view keys.new.keys ≡ shared (map key_view keys.old.keys) (literals_of (typed_expr_view e.now))) }
{
    let operands = expression_of(alloc, e)?;
    add_operands(keys, operands.as_slice())?;
    Ok(())
}

/// Adds the literals of a form.
fn add_form(alloc: Global, keys: &mut IndexSet<Key>, form: &TypedForm) -> Result<(), AllocError>
    ensures { OnOk result (map key_view keys.new.keys ≡ shared (map key_view keys.old.keys) (literals_in (form_seen form.now))) }
{
    match form {
        TypedForm::Assign(_, e) => {
            add_expression(alloc, keys, e)?;
            Ok(())
        }
        TypedForm::Remove(_, _, atoms) => {
            add_atoms(keys, atoms.as_slice())?;
            Ok(())
        }
        TypedForm::Get(_, _, atoms) => {
            add_atoms(keys, atoms.as_slice())?;
            Ok(())
        }
        TypedForm::Call(_, atoms) => {
            add_atoms(keys, atoms.as_slice())?;
            Ok(())
        }
        TypedForm::If(e, _, _) => {
            add_expression(alloc, keys, e)?;
            Ok(())
        }
        TypedForm::While(e, _) => {
            add_expression(alloc, keys, e)?;
            Ok(())
        }
        TypedForm::Case(_, _) => Ok(()),
        TypedForm::For(_, _, _) => Ok(()),
        TypedForm::Select(_) => Ok(()),
        TypedForm::Try(_, _) => Ok(()),
        _ => Ok(()),
    }
}

/// Adds the literals of forms.
fn add_forms(
    alloc: Global,
    keys: &mut IndexSet<Key>,
    forms: &[&TypedForm],
) -> Result<(), AllocError>
    ensures { OnOk result (map key_view keys.new.keys ≡ shared (map key_view keys.old.keys) (flat_map literals_in (map form_seen (map (λ f. f.now) forms.now)))) }
{
    'forms: for form in forms {
        add_form(alloc, keys, form)?;
    }
    Ok(())
}

/// Adds the literals of a process.
fn add_process(
    alloc: Global,
    keys: &mut IndexSet<Key>,
    checked: &CheckedProcess<'_>,
) -> Result<(), AllocError>
    ensures { OnOk result (map key_view keys.new.keys ≡ shared (map key_view keys.old.keys) (flat_map literals_in (map (λ n. n.form) (process_nodes (typed_process_view checked.now.process.now))))) }
{
    let found = nodes_in(alloc, checked.process.body.as_slice())?;
    add_forms(alloc, keys, found.forms.as_slice())?;
    Ok(())
}

/// The literals of processes, each once.
fn literals_of(alloc: Global, processes: &[CheckedProcess<'_>]) -> Result<IndexSet<Key>, AllocError>
    ensures { IfOk result (λ keys. map key_view keys.keys ≡ shared [] (flat_map literals_in (flat_map (λ c. map (λ n. n.form) (process_nodes (typed_process_view c.process.now))) processes.now))) }
{
    let mut keys = IndexSet::new(alloc);
    'processes: for checked in processes {
        add_process(alloc, &mut keys, checked)?;
    }
    Ok(keys)
}

/// The code of processes, over these constants.
fn modules_of(
    alloc: Global,
    types: &TypeTable,
    keys: &IndexSet<Key>,
    processes: &[CheckedProcess<'_>],
) -> Result<Vec<CodeModule>, AllocError>
    requires { AllHaveFlows types.now.shapes processes.now }
    ensures code { IfOk result (λ v. map module_view v.items ≡ map (code_of (map key_view keys.now.keys)) (map (checked_view types.now.shapes) processes.now)) }
    ensures names { IfOk result (λ v. map (λ m. m.name) v.items ≡ map (λ c. c.process.now.name.text) processes.now) }
{
    let mut found = Vec::with_capacity(alloc, processes.len())?;
    'processes: for checked in processes {
        let code = code_of(alloc, types, keys, checked)?;
        found.push(code)?;
    }
    Ok(found)
}

/// The code of a program: a module for each process, by number, and the constants of all, which are its literals, each once. Each process
/// stands with its flow.
///
/// # Errors
///
/// Where memory is wanting, or an index of the code or the number of a constant does not fit into 32 bits, which more memory does not mend.
/// Indices fit where the nodes of each process have at most 524,288 exits together (herm_good_images, `code_is_bounded`); no limit of the
/// language says that they have so few, since a callmessage may declare any number of exceptions.
pub fn generate(
    alloc: Global,
    types: &TypeTable,
    processes: &[CheckedProcess<'_>],
) -> Result<Generated, AllocError>
    requires flows { AllHaveFlows types.now.shapes processes.now }
    ensures image { IfOk result (λ g. generated_view types.now.shapes g ≡ image_for types.now.shapes (map (checked_view types.now.shapes) processes.now)) }
    ensures names { IfOk result (λ g. map (λ m. m.name) g.modules.items ≡ map (λ c. c.process.now.name.text) processes.now) }
{
    let keys = literals_of(alloc, processes)?;
    let constants = constants_in(alloc, &keys)?;
    let modules = modules_of(alloc, types, &keys, processes)?;
    Ok(Generated { modules, constants })
}
