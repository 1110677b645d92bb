//! What the processes of a program lack.
ghost use Rattle.std.specs.Prelude.{◌≡◌, ℕ, [], length, map, IfOk, OnOk};
ghost use Rattle.herm_model.specs.Lists.{IsIn};
ghost use Rattle.herm_model.specs.Statements.{Process};
ghost use Rattle.herm_model.specs.MissingFacts.{IsAccepted};
ghost use Rattle.herm_model.specs.TypedPrograms.{IsTypedProcess};
ghost use Rattle.herm_typed.specs.View.{typed_process_view};
ghost use Rattle.herm_typed.specs.Beside.{KnowTypes};
ghost use Rattle.herm_accept.specs.Judged.{IsKnown, IsSearched};
ghost use Rattle.herm_accept.specs.Lacking.{lack_view, AreLacking};

use crate::accepting::{Lack, add_lacks};
use crate::checked::check_process;
use herm_check::CheckFault;
use herm_typed::TypedProcess;
use herm_types::TypeTable;
use std::alloc::{AllocError, Global};

/// Checks a process, and adds what it lacks.
fn search(
    alloc: Global,
    types: &TypeTable,
    number: usize,
    p: &TypedProcess,
    lacks: &mut Vec<Lack>,
) -> Result<(), AllocError>
    requires { IsKnown types.now p.now }
    ensures { OnOk result (IsSearched types.now number p.now lacks.old.items lacks.new.items) }
{
    match check_process(alloc, types, p) {
        Ok(_) => Ok(()),
        Err(CheckFault::Missing(all)) => {
            add_lacks(alloc, types, number, p, all, lacks)?;
            Ok(())
        }
        Err(CheckFault::Memory) => Err(AllocError),
    }
}

/// The facts that the processes of a typed program lack, by process, by statement and then in the order of needs, each with a shortest
/// path on which it is not held; none exactly where each process is accepted. What is held of one process at a time is in memory, and an
/// onward flow of it, which has no edges to ends, until it is checked.
///
/// # Errors
///
/// Want of memory.
pub fn lacks_of(
    alloc: Global,
    types: &TypeTable,
    processes: &[TypedProcess],
) -> Result<Vec<Lack>, AllocError>
    requires typed { (p : Process) → IsIn p (map typed_process_view processes.now) → IsTypedProcess (length types.now.exceptions) types.now.shapes (map typed_process_view processes.now) p }
    requires known { KnowTypes types.now.shapes processes.now }
    ensures lacking { IfOk result (λ lacks. AreLacking types.now 0 processes.now (map lack_view lacks.items)) }
    ensures accepted { IfOk result (λ lacks. lacks.items ≡ [] → (p : Process) → IsIn p (map typed_process_view processes.now) → IsAccepted types.now.shapes p) }
{
    let mut lacks = Vec::new(alloc);
    'processes: for (number, p) in processes.iter().enumerate() {
        search(alloc, types, number, p, &mut lacks)?;
    }
    Ok(lacks)
}
