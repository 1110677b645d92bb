//! The compiler: from the bytes of source files to a checked program and its image.
#![tactic(auto)]

mod acceptance;
mod checked;
mod compiled;
mod definitions;
mod fault;
mod phase;
mod places;
mod resolution;
mod spots;

ghost use Rattle.std.specs.Prelude.{◌≡◌, map, length, IfOk, IfErr};
ghost use Rattle.herm_model.specs.TypedPrograms.{IsTypedProgram};
ghost use Rattle.herm_typed.specs.View.{typed_process_view};
ghost use Rattle.herm_accept.specs.Accepted.{AreAccepted};
ghost use Rattle.herm_code.specs.View.{image_view};
ghost use Rattle.herm_images.specs.CheckedPrograms.{program_view, image_of, StandsForProgram, module_names, process_names};
ghost use Rattle.herm_compile.specs.FirstPhase.{HaveTrees, TreesOrFault};
ghost use Rattle.herm_compile.specs.SecondPhase.{HaveTypes};
ghost use Rattle.herm_compile.specs.Phases.{HaveThisProgram, IsOfModules};
ghost use Rattle.herm_compile.specs.OneDefinition.{HaveOneTable, AreOneList, TypesOrFaults, HaveOneProgram, NameFaultsAreOneList, ProgramOrFaults, FactsAreOneList, AcceptedOrFaults, AcceptedOrRefused};
ghost use Rattle.herm_compile.specs.Refused.{AreRefused, IfRefused};
ghost use Rattle.herm_compile.specs.declared.fault.CompileFault.TheVariants.{Memory};

pub use checked::{Checked, check};
use checked::{CheckedFiles, checked_files};
pub use compiled::Compiled;
pub use fault::CompileFault;
use herm_base::Word;
use herm_images::image;
use std::alloc::Global;

/// Compiles files, phase by phase; each phase judges the files only where the phases before it have no fault. First each file is read, in
/// their order: of files that have no trees, the one fault of each is given. Then the definitions of all modules are read into
/// the table of types, or refused with the faults at their names. Then the processes of all modules are read into the typed
/// program, or refused with the faults of their names and types. Then the processes of the program are accepted, each with its flow,
/// labels and coercions, or refused with a fault for each fact that a statement lacks. Of files whose processes are accepted the image is
/// made: it is good, and does what the program does.
///
/// # Errors
///
/// The faults of the first phase that has one, and no others; or want of memory. No memory suffices for code whose indices do not fit into
/// 32 bits.
pub fn compile(alloc: Global, files: &[(Word, Vec<u8>)]) -> Result<Compiled, CompileFault>
    ensures read { IfOk result (λ c. HaveTrees (map (λ file. file.1.items) files.now)) }
    ensures types { IfOk result (λ c. HaveTypes (map (λ file. file.1.items) files.now) c.image.types) }
    ensures program { IfOk result (λ c. HaveThisProgram (map (λ file. file.1.items) files.now) c.image.types c.program) }
    ensures kept { IfOk result (λ c. IsOfModules (map (λ file. file.1.items) files.now) c.image.types c.program) }
    ensures checked { IfOk result (λ c. AreAccepted c.image.types.shapes c.program.processes.items c.flows.items c.labels.items c.coercions.items) }
    ensures image { IfOk result (λ c. image_view c.image ≡ image_of c.image.types.shapes c.program (record { flows = c.flows; labels = c.labels; coercions = c.coercions })) }
    ensures names { IfOk result (λ c. module_names c.image ≡ process_names c.program.processes.items) }
    ensures stands { IfOk result (λ c. StandsForProgram c.image.types (program_view c.image.types.shapes c.program) c.image) }
    ensures refused { IfErr result (λ e. IfRefused e (λ faults. AreRefused (map (λ file. file.1.items) files.now) faults)) }
{
    match checked_files(alloc, files) {
        Ok(checked) => with_image(alloc, checked),
        Err(fault) => Err(fault),
    }
}

/// A file that has trees has no fault of the first phase.
pub fn trees_or_fault()
    ensures { TreesOrFault }
{}

/// Files have one answer of the second phase: one table of types, or one list of faults, and never both. Files have one
/// answer of the third: one program, or one list of faults, and never both. Files have one answer of the fourth: the processes of their
/// program are accepted, or one list of statements lack facts, and never both.
pub fn one_definition()
    ensures types { HaveOneTable }
    ensures faults { AreOneList }
    ensures either { TypesOrFaults }
    ensures program { HaveOneProgram }
    ensures names { NameFaultsAreOneList }
    ensures program_or_faults { ProgramOrFaults }
    ensures facts { FactsAreOneList }
    ensures accepted_or_faults { AcceptedOrFaults }
{}

/// Files that mean a program whose processes are accepted have no fault of any phase: so files are refused by their faults exactly where a
/// phase has one.
pub fn accepted_or_refused()
    ensures { AcceptedOrRefused }
{}

/// What was checked, with its image.
fn with_image(alloc: Global, checked: CheckedFiles) -> Result<Compiled, CompileFault>
    requires typed { IsTypedProgram (length checked.types.exceptions) checked.types.shapes (map typed_process_view checked.program.processes.items) checked.program.main }
    requires checked { AreAccepted checked.types.shapes checked.program.processes.items checked.accepted.flows.items checked.accepted.labels.items checked.accepted.coercions.items }
    ensures types { IfOk result (λ c. c.image.types ≡ checked.types) }
    ensures program { IfOk result (λ c. c.program ≡ checked.program) }
    ensures flows { IfOk result (λ c. c.flows ≡ checked.accepted.flows) }
    ensures labels { IfOk result (λ c. c.labels ≡ checked.accepted.labels) }
    ensures coercions { IfOk result (λ c. c.coercions ≡ checked.accepted.coercions) }
    ensures image { IfOk result (λ c. image_view c.image ≡ image_of checked.types.shapes checked.program checked.accepted) }
    ensures names { IfOk result (λ c. module_names c.image ≡ process_names checked.program.processes.items) }
    ensures stands { IfOk result (λ c. StandsForProgram checked.types (program_view checked.types.shapes checked.program) c.image) }
    ensures memory { IfErr result (λ e. e ≡ Memory) }
{
    match image(alloc, checked.types, &checked.program, &checked.accepted) {
        Ok(image) => Ok(Compiled {
            program: checked.program,
            flows: checked.accepted.flows,
            labels: checked.accepted.labels,
            coercions: checked.accepted.coercions,
            image,
        }),
        Err(_) => Err(CompileFault::Memory),
    }
}
