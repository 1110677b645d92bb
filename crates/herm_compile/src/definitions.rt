//! The second phase: the types that definitions mean, or their faults.
ghost use Rattle.std.specs.Prelude.{◌≡◌, ◌++◌, [], ◌∷◌, map, IfOk, OnOk};
ghost use Rattle.herm_meaning.specs.DefinitionFaults.{rank};
ghost use Rattle.herm_defs.specs.View.{def_code_view, def_fault_view};
ghost use Rattle.herm_compile.specs.FirstPhase.{HaveModules};
ghost use Rattle.herm_compile.specs.SecondPhase.{definition_fault};
ghost use Rattle.herm_compile.specs.RefusalWords.{definition_words};
ghost use Rattle.herm_compile.specs.Phases.{IsDefined};
ghost use Rattle.herm_compile.specs.View.{fault_view};
ghost use Rattle.herm_compile.specs.Spots.{AreShort, IsCursor};

use crate::phase::ReadFiles;
use crate::spots::{Cursor, Spot, first_cursor, spot_fault};
use herm_base::Word;
use herm_defs::{DefCode, DefFault, DefsFault, define};
use herm_refusals::Fault;
use herm_types::TypeTable;
use std::alloc::{AllocError, Global};

fn code_of(code: DefCode) -> u8
    ensures { result ≡ rank (def_code_view code) }
{
    match code {
        DefCode::Unknown => 6,
        DefCode::Twice => 7,
        DefCode::Cycle => 8,
        DefCode::Deep => 9,
        DefCode::BadKey => 10,
        DefCode::BadState => 11,
    }
}

fn words_of(code: DefCode) -> &'static [u8]
    ensures { result.now ≡ definition_words (def_code_view code) }
{
    match code {
        DefCode::Unknown => b"unknown",
        DefCode::Twice => b"twice",
        DefCode::Cycle => b"cycle",
        DefCode::Deep => b"deep",
        DefCode::BadKey => b"bad key",
        DefCode::BadState => b"bad state",
    }
}

fn definition_fault(
    alloc: Global,
    files: &[(Word, Vec<u8>)],
    owners: &[u32],
    cursor: &mut Cursor,
    fault: DefFault,
) -> Result<Fault, AllocError>
    requires short { AreShort (map (λ file. file.1.items) files.now) }
    requires cursor { IsCursor (map (λ file. file.1.items) files.now) cursor.old }
    ensures cursor { OnOk result (IsCursor (map (λ file. file.1.items) files.now) cursor.new) }
    ensures fault { IfOk result (λ f. fault_view f ≡ definition_fault (map (λ file. file.1.items) files.now) owners.now (def_fault_view fault)) }
{
    let spot = Spot {
        block: fault.module as usize,
        start: fault.span.start,
        code: code_of(fault.code),
    };
    let words = Word::of(alloc, words_of(fault.code))?;
    Ok(spot_fault(files, owners, cursor, spot, words))
}

fn definition_faults(
    alloc: Global,
    files: &[(Word, Vec<u8>)],
    owners: &[u32],
    list: &[DefFault],
) -> Result<Vec<Fault>, AllocError>
    requires { AreShort (map (λ file. file.1.items) files.now) }
    ensures { IfOk result (λ faults. map fault_view faults.items ≡ map (definition_fault (map (λ file. file.1.items) files.now) owners.now) (map def_fault_view list.now)) }
{
    let mut faults = Vec::new(alloc);
    let mut cursor = first_cursor();
    'faults: for fault in list {
        faults.push(definition_fault(alloc, files, owners, &mut cursor, *fault)?)?;
    }
    Ok(faults)
}

/// The types that the definitions of the modules mean, or their faults at their places.
pub fn types_of(
    alloc: Global,
    files: &[(Word, Vec<u8>)],
    read: &ReadFiles,
) -> Result<Result<TypeTable, Vec<Fault>>, AllocError>
    requires { HaveModules 0 (map (λ file. file.1.items) files.now) read.now.modules.items read.now.owners.items }
    ensures { IfOk result (λ said. IsDefined (map (λ file. file.1.items) files.now) read.now.modules.items said) }
{
    match define(alloc, read.modules.as_slice()) {
        Ok(types) => Ok(Ok(types)),
        Err(DefsFault::Refused(list)) => {
            let owners = read.owners.as_slice();
            let faults = definition_faults(alloc, files, owners, list.as_slice())?;
            Ok(Err(faults))
        }
        Err(DefsFault::Memory) => Err(AllocError),
    }
}
