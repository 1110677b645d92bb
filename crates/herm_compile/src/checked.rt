//! The four phases, one after the other: what files mean that have no fault in any, or the faults of the first that has one.
ghost use Rattle.std.specs.Prelude.{[], map, IfOk, IfErr};
ghost use Rattle.herm_accept.specs.Accepted.{AreAccepted};
ghost use Rattle.herm_compile.specs.FirstPhase.{HaveModules, HaveTrees};
ghost use Rattle.herm_compile.specs.SecondPhase.{HaveTypes, AreTypesOf};
ghost use Rattle.herm_compile.specs.FourthPhase.{IsMeant};
ghost use Rattle.herm_compile.specs.Phases.{IsDefined, HaveThisProgram, IsOfModules, IsResolution, IsAcceptance, EachIsAccepted, IsSearch};
ghost use Rattle.herm_compile.specs.Refused.{AreRefused, IfRefused};

use crate::acceptance::{acceptance_of, search_of};
use crate::definitions::types_of;
use crate::fault::CompileFault;
use crate::phase::{ReadFiles, read_files};
use crate::resolution::resolution_of;
use herm_accept::Accepted;
use herm_base::Word;
use herm_resolve::Program;
use herm_types::TypeTable;
use std::alloc::Global;

/// What files mean that have no fault in the first three phases, and their modules.
#[derive(Drop)]
struct Resolved {
    pub read: ReadFiles,
    pub types: TypeTable,
    pub program: Program,
}

/// What files mean that have no fault: the table of types, and the typed program, whose processes are accepted.
#[derive(Drop)]
pub struct Checked {
    pub types: TypeTable,
    pub program: Program,
}

/// The same, and of each process its flow, labels and coercions.
#[derive(Drop)]
pub struct CheckedFiles {
    pub types: TypeTable,
    pub program: Program,
    pub accepted: Accepted,
}

/// What files mean that all have trees, and whose definitions mean these types.
fn resolved_processes(
    alloc: Global,
    files: &[(Word, Vec<u8>)],
    read: ReadFiles,
    types: TypeTable,
) -> Result<Resolved, CompileFault>
    requires modules { HaveModules 0 (map (λ file. file.1.items) files.now) read.modules.items read.owners.items }
    requires types { AreTypesOf read.modules.items types }
    ensures modules { IfOk result (λ r. HaveModules 0 (map (λ file. file.1.items) files.now) r.read.modules.items r.read.owners.items) }
    ensures meant { IfOk result (λ r. IsMeant r.read.modules.items r.types r.program) }
    ensures refused { IfErr result (λ e. IfRefused e (λ faults. AreRefused (map (λ file. file.1.items) files.now) faults)) }
{
    match resolution_of(alloc, files, &read, &types) {
        Ok(Ok(program)) => Ok(Resolved {
            read,
            types,
            program,
        }),
        Ok(Err(misnamed)) => Err(CompileFault::Refused(misnamed)),
        Err(_) => Err(CompileFault::Memory),
    }
}

/// What files mean that all have trees.
fn resolved_modules(
    alloc: Global,
    files: &[(Word, Vec<u8>)],
    read: ReadFiles,
) -> Result<Resolved, CompileFault>
    requires modules { HaveModules 0 (map (λ file. file.1.items) files.now) read.modules.items read.owners.items }
    ensures modules { IfOk result (λ r. HaveModules 0 (map (λ file. file.1.items) files.now) r.read.modules.items r.read.owners.items) }
    ensures meant { IfOk result (λ r. IsMeant r.read.modules.items r.types r.program) }
    ensures refused { IfErr result (λ e. IfRefused e (λ faults. AreRefused (map (λ file. file.1.items) files.now) faults)) }
{
    match types_of(alloc, files, &read) {
        Ok(Ok(types)) => resolved_processes(alloc, files, read, types),
        Ok(Err(misdefined)) => Err(CompileFault::Refused(misdefined)),
        Err(_) => Err(CompileFault::Memory),
    }
}

/// What the files mean, or the faults of the first of the first three phases that has one in them.
fn resolved_files(alloc: Global, files: &[(Word, Vec<u8>)]) -> Result<Resolved, CompileFault>
    ensures read { IfOk result (λ r. HaveTrees (map (λ file. file.1.items) files.now)) }
    ensures modules { IfOk result (λ r. HaveModules 0 (map (λ file. file.1.items) files.now) r.read.modules.items r.read.owners.items) }
    ensures meant { IfOk result (λ r. IsMeant r.read.modules.items r.types r.program) }
    ensures refused { IfErr result (λ e. IfRefused e (λ faults. AreRefused (map (λ file. file.1.items) files.now) faults)) }
{
    match read_files(alloc, files) {
        Ok(read) => {
            if read.faults.as_slice().is_empty() {
                return resolved_modules(alloc, files, read);
            }
            Err(CompileFault::Refused(read.faults))
        }
        Err(_) => Err(CompileFault::Memory),
    }
}

/// A program whose processes are accepted, or what they lack. The flow and what is held of one process at a time are in memory.
fn checked_program(
    alloc: Global,
    files: &[(Word, Vec<u8>)],
    resolved: Resolved,
) -> Result<Checked, CompileFault>
    requires modules { HaveModules 0 (map (λ file. file.1.items) files.now) resolved.read.modules.items resolved.read.owners.items }
    requires meant { IsMeant resolved.read.modules.items resolved.types resolved.program }
    ensures types { IfOk result (λ c. HaveTypes (map (λ file. file.1.items) files.now) c.types) }
    ensures program { IfOk result (λ c. HaveThisProgram (map (λ file. file.1.items) files.now) c.types c.program) }
    ensures kept { IfOk result (λ c. IsOfModules (map (λ file. file.1.items) files.now) c.types c.program) }
    ensures accepted { IfOk result (λ c. EachIsAccepted c.types c.program) }
    ensures refused { IfErr result (λ e. IfRefused e (λ faults. AreRefused (map (λ file. file.1.items) files.now) faults)) }
{
    match search_of(
        alloc,
        files,
        &resolved.read,
        &resolved.types,
        &resolved.program,
    ) {
        Ok(Ok(_)) => Ok(Checked {
            types: resolved.types,
            program: resolved.program,
        }),
        Ok(Err(missing)) => Err(CompileFault::Refused(missing)),
        Err(_) => Err(CompileFault::Memory),
    }
}

/// A program whose processes are accepted, with their flows, labels and coercions, or what they lack.
fn checked_processes(
    alloc: Global,
    files: &[(Word, Vec<u8>)],
    resolved: Resolved,
) -> Result<CheckedFiles, CompileFault>
    requires modules { HaveModules 0 (map (λ file. file.1.items) files.now) resolved.read.modules.items resolved.read.owners.items }
    requires meant { IsMeant resolved.read.modules.items resolved.types resolved.program }
    ensures types { IfOk result (λ c. HaveTypes (map (λ file. file.1.items) files.now) c.types) }
    ensures program { IfOk result (λ c. HaveThisProgram (map (λ file. file.1.items) files.now) c.types c.program) }
    ensures kept { IfOk result (λ c. IsOfModules (map (λ file. file.1.items) files.now) c.types c.program) }
    ensures checked { IfOk result (λ c. AreAccepted c.types.shapes c.program.processes.items c.accepted.flows.items c.accepted.labels.items c.accepted.coercions.items) }
    ensures refused { IfErr result (λ e. IfRefused e (λ faults. AreRefused (map (λ file. file.1.items) files.now) faults)) }
{
    match acceptance_of(
        alloc,
        files,
        &resolved.read,
        &resolved.types,
        &resolved.program,
    ) {
        Ok(Ok(accepted)) => Ok(CheckedFiles {
            types: resolved.types,
            program: resolved.program,
            accepted,
        }),
        Ok(Err(missing)) => Err(CompileFault::Refused(missing)),
        Err(_) => Err(CompileFault::Memory),
    }
}

/// What the files mean, or the faults of the first phase that has one in them; of each process its flow, labels and coercions.
pub fn checked_files(alloc: Global, files: &[(Word, Vec<u8>)]) -> Result<CheckedFiles, CompileFault>
    ensures read { IfOk result (λ c. HaveTrees (map (λ file. file.1.items) files.now)) }
    ensures types { IfOk result (λ c. HaveTypes (map (λ file. file.1.items) files.now) c.types) }
    ensures program { IfOk result (λ c. HaveThisProgram (map (λ file. file.1.items) files.now) c.types c.program) }
    ensures kept { IfOk result (λ c. IsOfModules (map (λ file. file.1.items) files.now) c.types c.program) }
    ensures checked { IfOk result (λ c. AreAccepted c.types.shapes c.program.processes.items c.accepted.flows.items c.accepted.labels.items c.accepted.coercions.items) }
    ensures refused { IfErr result (λ e. IfRefused e (λ faults. AreRefused (map (λ file. file.1.items) files.now) faults)) }
{
    match resolved_files(alloc, files) {
        Ok(resolved) => checked_processes(alloc, files, resolved),
        Err(fault) => Err(fault),
    }
}

/// Checks files, phase by phase, as `compile` does, and makes no image: of files that have no fault in any phase it gives the table of types
/// and the typed program, each of whose processes is accepted.
///
/// # Errors
///
/// The faults of the first phase that has one, and no others: but for the paths of missing facts, those that `compile` gives; or want of memory.
pub fn check(alloc: Global, files: &[(Word, Vec<u8>)]) -> Result<Checked, CompileFault>
    ensures read { IfOk result (λ c. HaveTrees (map (λ file. file.1.items) files.now)) }
    ensures types { IfOk result (λ c. HaveTypes (map (λ file. file.1.items) files.now) c.types) }
    ensures program { IfOk result (λ c. HaveThisProgram (map (λ file. file.1.items) files.now) c.types c.program) }
    ensures kept { IfOk result (λ c. IsOfModules (map (λ file. file.1.items) files.now) c.types c.program) }
    ensures accepted { IfOk result (λ c. EachIsAccepted c.types c.program) }
    ensures refused { IfErr result (λ e. IfRefused e (λ faults. AreRefused (map (λ file. file.1.items) files.now) faults)) }
{
    match resolved_files(alloc, files) {
        Ok(resolved) => checked_program(alloc, files, resolved),
        Err(fault) => Err(fault),
    }
}
