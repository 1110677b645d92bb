//! The image of an accepted program.
ghost use Rattle.std.specs.Prelude.{◌≡◌, length, map, IfOk};
ghost use Rattle.herm_model.specs.TypedPrograms.{IsTypedProgram};
ghost use Rattle.herm_typed.specs.View.{typed_process_view};
ghost use Rattle.herm_accept.specs.Accepted.{AreAccepted};
ghost use Rattle.herm_code.specs.View.{image_view};
ghost use Rattle.herm_codegen.specs.Programs.{generated_view};
ghost use Rattle.herm_images.specs.CheckedPrograms.{program_view, image_of, StandsForProgram, module_names, process_names};

use herm_accept::Accepted;
use herm_blocks::CheckedProcess;
use herm_code::Image;
use herm_codegen::{Generated, generate};
use herm_coerce::Coercions;
use herm_flow::Flow;
use herm_resolve::Program;
use herm_typed::TypedProcess;
use herm_types::TypeTable;
use herm_typestate::Labels;
use std::alloc::{AllocError, Global};

/// Each process with what its check gives.
fn checked_processes<'a>(
    alloc: Global,
    processes: &'a [TypedProcess],
    flows: &'a [Flow],
    labels: &'a [Labels],
    coercions: &'a [Coercions],
) -> Result<Vec<CheckedProcess<'a>>, AllocError>
    requires flows { length flows.now ≡ length processes.now }
    requires labels { length labels.now ≡ length processes.now }
    requires coercions { length coercions.now ≡ length processes.now }
    ensures processes { IfOk result (λ v. map (λ c. c.process.now) v.items ≡ processes.now) }
    ensures flows { IfOk result (λ v. map (λ c. c.flow.now) v.items ≡ flows.now) }
    ensures labels { IfOk result (λ v. map (λ c. c.labels.now) v.items ≡ labels.now) }
    ensures coercions { IfOk result (λ v. map (λ c. c.coercions.now) v.items ≡ coercions.now) }
{
    let mut checked = Vec::new(alloc);
    'processes: for (number, process) in processes.iter().enumerate() {
        checked.push(CheckedProcess {
            process,
            flow: &flows[number],
            labels: &labels[number],
            coercions: &coercions[number],
        })?;
    }
    Ok(checked)
}

/// The code of an accepted program.
fn code_of(
    alloc: Global,
    types: &TypeTable,
    program: &Program,
    accepted: &Accepted,
) -> Result<Generated, AllocError>
    requires accepted { AreAccepted types.now.shapes program.now.processes.items accepted.now.flows.items accepted.now.labels.items accepted.now.coercions.items }
    ensures image { IfOk result (λ g. generated_view types.now.shapes g ≡ image_of types.now.shapes program.now accepted.now) }
    ensures names { IfOk result (λ g. map (λ m. m.name) g.modules.items ≡ process_names program.now.processes.items) }
{
    let checked = checked_processes(
        alloc,
        program.processes.as_slice(),
        accepted.flows.as_slice(),
        accepted.labels.as_slice(),
        accepted.coercions.as_slice(),
    )?;
    let code = generate(alloc, types, checked.as_slice())?;
    Ok(code)
}

/// The image of a typed program whose processes are accepted: a code module for each process, by number, with its name, and the
/// types. It is good, and its code does what the processes of the program do.
///
/// # Errors
///
/// Where memory is wanting. No memory suffices for code whose indices do not fit into 32 bits.
pub fn image(
    alloc: Global,
    types: TypeTable,
    program: &Program,
    accepted: &Accepted,
) -> Result<Image, AllocError>
    requires typed { IsTypedProgram (length types.exceptions) types.shapes (map typed_process_view program.now.processes.items) program.now.main }
    requires accepted { AreAccepted types.shapes program.now.processes.items accepted.now.flows.items accepted.now.labels.items accepted.now.coercions.items }
    ensures image { IfOk result (λ i. image_view i ≡ image_of types.shapes program.now accepted.now) }
    ensures names { IfOk result (λ i. module_names i ≡ process_names program.now.processes.items) }
    ensures stands { IfOk result (StandsForProgram types (program_view types.shapes program.now)) }
{
    let code = code_of(alloc, &types, program, accepted)?;
    Ok(Image::new(code.modules, code.constants, types))
}
