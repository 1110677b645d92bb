//! The third phase: the program that process modules mean, or their faults of names and types.
ghost use Rattle.std.specs.Prelude.{◌≡◌, ◌≢◌, map, IfOk, OnOk};
ghost use Rattle.herm_naming.specs.StatementFaults.{no_main};
ghost use Rattle.herm_numbers.specs.Faults.{name_code_view, name_fault_view};
ghost use Rattle.herm_compile.specs.FirstPhase.{HaveModules};
ghost use Rattle.herm_compile.specs.SecondPhase.{AreTypesOf};
ghost use Rattle.herm_compile.specs.ThirdPhase.{name_rank, name_fault, placed_fault, main_fault};
ghost use Rattle.herm_compile.specs.RefusalWords.{name_words};
ghost use Rattle.herm_compile.specs.FourthPhase.{IsMeant};
ghost use Rattle.herm_compile.specs.Phases.{IsResolution};
ghost use Rattle.herm_compile.specs.View.{fault_view};
ghost use Rattle.herm_compile.specs.Spots.{AreShort, IsCursor};

use crate::phase::ReadFiles;
use crate::spots::{Cursor, Spot, first_cursor, spot_fault};
use herm_base::Word;
use herm_numbers::{NameCode, NameFault, ResolveFault};
use herm_refusals::Fault;
use herm_resolve::{Program, resolve};
use herm_types::TypeTable;
use herm_words::Reason;
use std::alloc::{AllocError, Global};

fn code_of(code: NameCode) -> u8
    ensures { result ≡ name_rank (name_code_view code) }
{
    match code {
        NameCode::Unknown => 14,
        NameCode::Twice => 15,
        NameCode::WrongType => 16,
        NameCode::NotCopyable => 17,
        NameCode::Unreachable => 18,
        NameCode::NoMain => 19,
        NameCode::TooMany => 20,
    }
}

fn words_of(code: NameCode) -> &'static [u8]
    ensures { result.now ≡ name_words (name_code_view code) }
{
    match code {
        NameCode::Unknown => b"unknown",
        NameCode::Twice => b"twice",
        NameCode::WrongType => b"type",
        NameCode::NotCopyable => b"not copyable",
        NameCode::Unreachable => b"unreachable",
        NameCode::NoMain => b"no main",
        NameCode::TooMany => b"too many",
    }
}

/// That there is no `main`: no file, line or column.
fn main_fault(alloc: Global) -> Result<Fault, AllocError>
    ensures { IfOk result (λ f. fault_view f ≡ main_fault) }
{
    let words = Word::of(alloc, b"no main")?;
    Ok(Fault {
        file: 0,
        line: 0,
        column: 0,
        code: 19,
        reason: Reason::Said(words),
    })
}

/// A fault at its place.
fn placed_fault(
    alloc: Global,
    files: &[(Word, Vec<u8>)],
    owners: &[u32],
    cursor: &mut Cursor,
    fault: NameFault,
) -> Result<Fault, AllocError>
    requires short { AreShort (map (λ file. file.1.items) files.now) }
    requires cursor { IsCursor (map (λ file. file.1.items) files.now) cursor.old }
    ensures cursor { OnOk result (IsCursor (map (λ file. file.1.items) files.now) cursor.new) }
    ensures fault { IfOk result (λ f. fault_view f ≡ placed_fault (map (λ file. file.1.items) files.now) owners.now (name_code_view fault.code) (fault.module, fault.span)) }
{
    let spot = Spot {
        block: fault.module as usize,
        start: fault.span.start,
        code: code_of(fault.code),
    };
    let words = Word::of(alloc, words_of(fault.code))?;
    Ok(spot_fault(files, owners, cursor, spot, words))
}

fn name_fault(
    alloc: Global,
    files: &[(Word, Vec<u8>)],
    owners: &[u32],
    cursor: &mut Cursor,
    fault: NameFault,
) -> Result<Fault, AllocError>
    requires short { AreShort (map (λ file. file.1.items) files.now) }
    requires cursor { IsCursor (map (λ file. file.1.items) files.now) cursor.old }
    ensures cursor { OnOk result (IsCursor (map (λ file. file.1.items) files.now) cursor.new) }
    ensures fault { IfOk result (λ f. fault_view f ≡ name_fault (map (λ file. file.1.items) files.now) owners.now (name_fault_view fault)) }
{
    match fault.code {
        NameCode::NoMain => {
            let fault = main_fault(alloc)?;
            Ok(fault)
        }
        NameCode::Unknown
        | NameCode::Twice
        | NameCode::WrongType
        | NameCode::NotCopyable
        | NameCode::Unreachable
        | NameCode::TooMany => {
            let fault = placed_fault(alloc, files, owners, cursor, fault)?;
            Ok(fault)
        }
    }
}

fn name_faults(
    alloc: Global,
    files: &[(Word, Vec<u8>)],
    owners: &[u32],
    list: &[NameFault],
) -> Result<Vec<Fault>, AllocError>
    requires { AreShort (map (λ file. file.1.items) files.now) }
    ensures { IfOk result (λ faults. map fault_view faults.items ≡ map (name_fault (map (λ file. file.1.items) files.now) owners.now) (map name_fault_view list.now)) }
{
    let mut faults = Vec::new(alloc);
    let mut cursor = first_cursor();
    'faults: for fault in list {
        faults.push(name_fault(alloc, files, owners, &mut cursor, *fault)?)?;
    }
    Ok(faults)
}

/// The faults of modules that were read, at their places.
#[tactic(auto, using(crate::proofs::SpotLaws::modules_short))]
fn faults_of(
    alloc: Global,
    files: &[(Word, Vec<u8>)],
    read: &ReadFiles,
    list: &[NameFault],
) -> Result<Vec<Fault>, AllocError>
    requires { HaveModules 0 (map (λ file. file.1.items) files.now) read.now.modules.items read.now.owners.items }
    ensures { IfOk result (λ faults. map fault_view faults.items ≡ map (name_fault (map (λ file. file.1.items) files.now) read.now.owners.items) (map name_fault_view list.now)) }
{
    let owners = read.owners.as_slice();
    let faults = name_faults(alloc, files, owners, list)?;
    Ok(faults)
}

/// The program that the modules mean over their types, or their faults at their places.
pub fn resolution_of(
    alloc: Global,
    files: &[(Word, Vec<u8>)],
    read: &ReadFiles,
    types: &TypeTable,
) -> Result<Result<Program, Vec<Fault>>, AllocError>
    requires read { HaveModules 0 (map (λ file. file.1.items) files.now) read.now.modules.items read.now.owners.items }
    requires types { AreTypesOf read.now.modules.items types.now }
    ensures said { IfOk result (λ said. IsResolution (map (λ file. file.1.items) files.now) types.now said) }
    ensures meant { IfOk result (λ said. IfOk said (λ p. IsMeant read.now.modules.items types.now p)) }
{
    match resolve(alloc, read.modules.as_slice(), types) {
        Ok(program) => Ok(Ok(program)),
        Err(ResolveFault::Refused(list)) => {
            let faults = faults_of(alloc, files, read, list.as_slice())?;
            Ok(Err(faults))
        }
        Err(ResolveFault::Memory) => Err(AllocError),
    }
}
