//! The program that process modules mean, or each wrong name and type.
ghost use Rattle.std.specs.Prelude.{◌≡◌, ◌<◌, ◌+◌, ◌^◌, ◌++◌, ◌∷◌, [], ◌&&◌, bytes_eq, nat_eq, cond, length, map, true, IsTrue, IfOk, IfErr, OnOk};
ghost use Rattle.herm_model.specs.TypedPrograms.{main_start, IsTypedProgram};
ghost use Rattle.herm_syntax.specs.View.{module_view};
ghost use Rattle.herm_meaning.specs.Names.{IsWellNamed};
ghost use Rattle.herm_naming.specs.Meaning.{processes_in, meaning, main_name, main_number};
ghost use Rattle.herm_naming.specs.StatementFaults.{no_main};
ghost use Rattle.herm_naming.specs.RefusalsOfNames.{ArePlaced};
ghost use Rattle.herm_typed.specs.View.{typed_process_view};
ghost use Rattle.herm_numbers.specs.Faults.{name_fault_view};
ghost use Rattle.herm_numbers.specs.View.{IsSized};
ghost use Rattle.herm_resolve.specs.Judged.{IsReady, IsKnownOf, AreJudged, is_main_among};
ghost use Rattle.herm_typed.specs.Beside.{KnowTypes};
ghost use Rattle.herm_resolve.specs.Kept.{of_processes, names_of, names_written, numbers_of, numbers_written};
ghost use Rattle.herm_resolve.specs.Refused.{places_from, nowhere, AreRefusalsOf, IfRefused, HasRefusals, IsProgramOf};

use crate::process::process;
use herm_base::{Span, TypeNo, Word};
use herm_numbers::{Known, NameCode, NameFault, ResolveFault, known_of};
use herm_syntax::Module;
use herm_typed::TypedProcess;
use herm_types::TypeTable;
use std::alloc::{AllocError, Global};

/// The processes of a program, and the number of `main`.
#[derive(Drop)]
pub struct Program {
    pub processes: Vec<TypedProcess>,
    pub main: u32,
}

const MAIN: &[u8] = b"main";

/// The number of the type main_start.
const MAIN_START: TypeNo = TypeNo(7);

/// Whether a process of this name and with a port of this type is `main`.
fn is_main(name: &Word, of: TypeNo) -> bool
    ensures main { result ≡ (bytes_eq name.now main_name && nat_eq of.0 main_start) }
{
    name.bytes() == MAIN && of.0 == MAIN_START.0
}

/// Whether some process `main` has a port of the type main_start.
fn has_main(names: &[Word], ports: &[TypeNo]) -> bool
    requires alike { length names.now ≡ length ports.now }
    ensures main { result ≡ is_main_among names.now (map (λ t. t.0) ports.now) }
{
    'names: for (place, name) in names.iter().enumerate() {
        if is_main(name, ports[place]) {
            return true;
        }
    }
    false
}

/// One module more is judged, and its process, if it is one, is found.
fn add_module(
    alloc: Global,
    known: &Known,
    modules: &[Module],
    place: u32,
    found: &mut Vec<TypedProcess>,
    faults: &mut Vec<NameFault>,
) -> Result<(), AllocError>
    requires ready { IsReady known.now }
    requires of { IsKnownOf known.now modules.now }
    requires place { place < length modules.now }
    requires judged { AreJudged known.now modules.now place found.old.items faults.old.items }
    ensures judged { OnOk result (AreJudged known.now modules.now (place + 1) found.new.items faults.new.items) }
{
    match &modules[place as usize] {
        Module::Definitions { name: _, items: _ } => Ok(()),
        Module::Process {
            name,
            port,
            vars,
            body,
        } => {
            let number = found.len();
            let vars = vars.as_slice();
            let body = body.as_slice();
            let next = process(alloc, known, place, number, name, port, vars, body, faults)?;
            found.push(next)?;
            Ok(())
        }
    }
}

/// The processes of modules by number, with the faults of each behind those before.
fn processes_of(
    alloc: Global,
    known: &Known,
    modules: &[Module],
    faults: &mut Vec<NameFault>,
) -> Result<Vec<TypedProcess>, AllocError>
    requires ready { IsReady known.now }
    requires of { IsKnownOf known.now modules.now }
    requires few { length modules.now < 2 ^ 32 }
    requires none { faults.old.items ≡ [] }
    ensures judged { IfOk result (λ v. AreJudged known.now modules.now (length modules.now) v.items faults.new.items) }
{
    let mut found = Vec::new(alloc);
    'modules: for place in 0..modules.len() as u32 {
        add_module(alloc, known, modules, place, &mut found, faults)?;
    }
    Ok(found)
}

/// The fault that there is no `main`, where there is none.
fn add_main(known: &Known, faults: &mut Vec<NameFault>) -> Result<(), AllocError>
    requires ready { IsReady known.now }
    ensures added { OnOk result (map name_fault_view faults.new.items ≡ map name_fault_view faults.old.items ++ cond (is_main_among known.now.processes (map (λ t. t.0) known.now.ports.items)) [] ((no_main, nowhere) ∷ [])) }
{
    if has_main(known.processes.words(), known.ports.as_slice()) {
        return Ok(());
    }
    faults.push(NameFault {
        code: NameCode::NoMain,
        module: 0,
        span: Span { start: 0, end: 0 },
    })?;
    Ok(())
}

/// The processes of modules by number, with all faults of the program.
fn judged(
    alloc: Global,
    known: &Known,
    modules: &[Module],
    faults: &mut Vec<NameFault>,
) -> Result<Vec<TypedProcess>, AllocError>
    requires ready { IsReady known.now }
    requires of { IsKnownOf known.now modules.now }
    requires few { length modules.now < 2 ^ 32 }
    requires none { faults.old.items ≡ [] }
    ensures meaning { IfOk result (λ v. map typed_process_view v.items ≡ meaning known.now.types.now (map module_view modules.now)) }
    ensures named { IfOk result (λ v. map names_of v.items ≡ of_processes names_written modules.now) }
    ensures numbered { IfOk result (λ v. map numbers_of v.items ≡ of_processes numbers_written modules.now) }
    ensures of { IfOk result (λ v. faults.new.items ≡ [] → KnowTypes known.now.types.now.shapes v.items) }
    ensures placed { OnOk result (ArePlaced known.now.types.now (processes_in (map module_view modules.now)) (processes_in (map module_view modules.now)) (places_from 0 modules.now)) }
    ensures refusals { OnOk result (AreRefusalsOf known.now.types.now modules.now (map name_fault_view faults.new.items)) }
{
    let processes = processes_of(alloc, known, modules, faults)?;
    add_main(known, faults)?;
    Ok(processes)
}

/// The program of these modules, or their faults.
fn program_or_faults(
    alloc: Global,
    known: &Known,
    modules: &[Module],
) -> Result<Program, ResolveFault>
    requires ready { IsReady known.now }
    requires of { IsKnownOf known.now modules.now }
    requires few { length modules.now < 2 ^ 32 }
    ensures program { IfOk result (λ p. IsProgramOf known.now.types.now modules.now p) }
    ensures typed { IfOk result (λ p. IsTypedProgram (length known.now.types.now.exceptions) known.now.types.now.shapes (map typed_process_view p.processes.items) p.main) }
    ensures unrefused { IfOk result (λ p. AreRefusalsOf known.now.types.now modules.now []) }
    ensures refused { IfErr result (λ fault. IfRefused fault (HasRefusals known.now.types.now modules.now)) }
{
    let mut faults = Vec::new(alloc);
    let processes = judged(alloc, known, modules, &mut faults)?;
    if !faults.is_empty() {
        return Err(ResolveFault::Refused(faults));
    }
    let main = known.processes.number(MAIN);
    Ok(Program { processes, main })
}

/// The program that these modules mean over this table of types, or each fault of names and types: those of the
/// processes in the order of the text, and behind them that there is no `main`. Only memory can be wanting; that is also
/// the answer where there are 2^32 modules, or exceptions of the table.
pub fn resolve(
    alloc: Global,
    modules: &[Module],
    types: &TypeTable,
) -> Result<Program, ResolveFault>
    ensures program { IfOk result (λ p. IsProgramOf types.now modules.now p) }
    ensures typed { IfOk result (λ p. IsTypedProgram (length types.now.exceptions) types.now.shapes (map typed_process_view p.processes.items) p.main) }
    ensures unrefused { IfOk result (λ p. AreRefusalsOf types.now modules.now []) }
    ensures refused { IfErr result (λ fault. IfRefused fault (HasRefusals types.now modules.now)) }
{
    types.keeps();
    if modules.len() > u32::MAX as usize || types.exceptions().len() > u32::MAX as usize {
        return Err(ResolveFault::Memory);
    }
    let known = known_of(alloc, types, modules)?;
    let program = program_or_faults(alloc, &known, modules)?;
    Ok(program)
}
