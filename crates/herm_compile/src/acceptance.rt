//! The fourth phase: the processes of the program are accepted, or what their statements lack.
ghost use Rattle.std.specs.Prelude.{◌≡◌, ℕ, List, length, map, get_or, Some, IfOk, OnOk};
ghost use Rattle.herm_model.specs.TypedPrograms.{IsTypedProgram};
ghost use Rattle.herm_typed.specs.View.{typed_process_view};
ghost use Rattle.herm_accept.specs.Lacking.{lack_view};
ghost use Rattle.herm_compile.specs.FirstPhase.{HaveModules};
ghost use Rattle.herm_compile.specs.FourthPhase.{IsMeant, is_process, process_modules, missing_fault};
ghost use Rattle.herm_compile.specs.Phases.{IsAcceptance, IsSearch};
ghost use Rattle.herm_compile.specs.View.{fault_view};
ghost use Rattle.herm_compile.specs.Spots.{AreShort, IsCursor};

use crate::phase::ReadFiles;
use crate::spots::{Cursor, first_cursor, locate};
use herm_accept::{AcceptFault, Accepted, Lack, accept, lacks_of};
use herm_base::Word;
use herm_refusals::Fault;
use herm_resolve::Program;
use herm_syntax::Module;
use herm_types::TypeTable;
use herm_words::Reason;
use std::alloc::{AllocError, Global};

fn is_process(part: &Module) -> bool
    ensures { result ≡ is_process part.now }
{
    matches!(part, Module::Process { .. })
}

/// The numbers of the modules that are processes, in order.
fn process_modules(alloc: Global, modules: &[Module]) -> Result<Vec<usize>, AllocError>
    ensures { IfOk result (λ found. found.items ≡ process_modules 0 modules.now) }
{
    let mut found = Vec::new(alloc);
    'modules: for (number, part) in modules.iter().enumerate() {
        if is_process(part) {
            found.push(number)?;
        }
    }
    Ok(found)
}

fn module_of(blocks: &[usize], process: usize) -> usize
    ensures { result ≡ get_or blocks.now process 0 }
{
    match blocks.get(process) {
        Some(number) => *number,
        None => 0,
    }
}

/// What is missing, at the place of its statement.
fn missing_fault(
    files: &[(Word, Vec<u8>)],
    owners: &[u32],
    blocks: &[usize],
    cursor: &mut Cursor,
    lack: Lack,
) -> Fault
    requires short { AreShort (map (λ file. file.1.items) files.now) }
    requires cursor { IsCursor (map (λ file. file.1.items) files.now) cursor.old }
    ensures cursor { IsCursor (map (λ file. file.1.items) files.now) cursor.new }
    ensures fault { fault_view result ≡ missing_fault (map (λ file. file.1.items) files.now) owners.now blocks.now (lack_view lack) }
{
    let block = module_of(blocks, lack.process);
    let at = locate(files, owners, cursor, block, lack.start);
    Fault {
        file: at.file,
        line: at.line,
        column: at.column,
        code: 13,
        reason: Reason::Missing(lack.missing),
    }
}

fn missing_faults(
    alloc: Global,
    files: &[(Word, Vec<u8>)],
    owners: &[u32],
    blocks: &[usize],
    lacks: Vec<Lack>,
) -> Result<Vec<Fault>, AllocError>
    requires { AreShort (map (λ file. file.1.items) files.now) }
    ensures { IfOk result (λ faults. map fault_view faults.items ≡ map (missing_fault (map (λ file. file.1.items) files.now) owners.now blocks.now) (map lack_view lacks.items)) }
{
    let mut faults = Vec::new(alloc);
    let mut cursor = first_cursor();
    'lacks: for lack in lacks {
        faults.push(missing_fault(files, owners, blocks, &mut cursor, lack))?;
    }
    Ok(faults)
}

/// What statements lack, in the files that were read.
fn faults_of(
    alloc: Global,
    files: &[(Word, Vec<u8>)],
    read: &ReadFiles,
    lacks: Vec<Lack>,
) -> Result<Vec<Fault>, AllocError>
    requires { HaveModules 0 (map (λ file. file.1.items) files.now) read.now.modules.items read.now.owners.items }
    ensures { IfOk result (λ faults. map fault_view faults.items ≡ map (missing_fault (map (λ file. file.1.items) files.now) read.now.owners.items (process_modules 0 read.now.modules.items)) (map lack_view lacks.items)) }
{
    let blocks = process_modules(alloc, read.modules.as_slice())?;
    let owners = read.owners.as_slice();
    let faults = missing_faults(alloc, files, owners, blocks.as_slice(), lacks)?;
    Ok(faults)
}

/// Of each process of the program its flow, labels and coercions, or what the processes lack at its places.
pub fn acceptance_of(
    alloc: Global,
    files: &[(Word, Vec<u8>)],
    read: &ReadFiles,
    types: &TypeTable,
    program: &Program,
) -> Result<Result<Accepted, Vec<Fault>>, AllocError>
    requires read { HaveModules 0 (map (λ file. file.1.items) files.now) read.now.modules.items read.now.owners.items }
    requires meant { IsMeant read.now.modules.items types.now program.now }
    ensures { IfOk result (λ said. IsAcceptance (map (λ file. file.1.items) files.now) types.now program.now said) }
{
    match accept(alloc, types, program.processes.as_slice()) {
        Ok(accepted) => Ok(Ok(accepted)),
        Err(AcceptFault::Missing(lacks)) => {
            let faults = faults_of(alloc, files, read, lacks)?;
            Ok(Err(faults))
        }
        Err(AcceptFault::Memory) => Err(AllocError),
    }
}

/// That the processes of the program are accepted, or what they lack at its places.
pub fn search_of(
    alloc: Global,
    files: &[(Word, Vec<u8>)],
    read: &ReadFiles,
    types: &TypeTable,
    program: &Program,
) -> Result<Result<(), Vec<Fault>>, AllocError>
    requires read { HaveModules 0 (map (λ file. file.1.items) files.now) read.now.modules.items read.now.owners.items }
    requires meant { IsMeant read.now.modules.items types.now program.now }
    ensures { IfOk result (λ said. IsSearch (map (λ file. file.1.items) files.now) types.now program.now said) }
{
    let lacks = lacks_of(alloc, types, program.processes.as_slice())?;
    let count = lacks.len();
    if count == 0 {
        return Ok(Ok(()));
    }
    let faults = faults_of(alloc, files, read, lacks)?;
    Ok(Err(faults))
}
