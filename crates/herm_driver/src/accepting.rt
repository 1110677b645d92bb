//! Files whose bytes were read: refused, or accepted and then checked or run.
ghost use Rattle.std.specs.Prelude.{◌≡◌, IfOk, IsTrue, List, ℕ, map};
ghost use Rattle.herm_model.specs.Typed.{is_text};
ghost use Rattle.herm_commands.specs.Words.{options_seen};
ghost use Rattle.herm_claim.specs.Claim.{Checks, Claim};
ghost use Rattle.herm_claim.specs.Purposes as claim;
ghost use Rattle.herm_compile.specs.Phases.{HaveThisProgram, EachIsAccepted};
ghost use Rattle.herm_compile.specs.Refused.{AreRefused, IfRefused};
ghost use Rattle.herm_driver.specs.Due.{told_of};
ghost use Rattle.herm_driver.specs.Purposes.{purpose_view, HasText, files_view};
ghost use Rattle.herm_driver.specs.Texts.{text_view};
ghost use Rattle.herm_driver.specs.Words.{options_of};

use crate::outcome::{Answer, plain};
use crate::purpose::Purpose;
use crate::running::run;
use crate::text::refusals;
use herm_base::Word;
use herm_commands::RunOptions;
use herm_compile::{Checked, CompileFault, check, compile};
use herm_sizes::accepted_line;
use std::alloc::{AllocError, Global};

/// Says how many processes and statements a checked program has.
fn size_answer(alloc: Global, checked: &Checked) -> Result<Answer, AllocError>
    requires accepted { EachIsAccepted checked.now.types checked.now.program }
    ensures checks { IfOk result (λ a. (files : List (List ℕ)) → HaveThisProgram files checked.now.types checked.now.program → Checks files a.status (text_view a.text) (told_of a.report a.status (text_view a.text))) }
{
    let text = accepted_line(alloc, checked.program.processes.as_slice())?;
    Ok(plain(0, text))
}

/// Says where files are refused, whatever is asked for.
fn refusal_answer(
    alloc: Global,
    files: &[(Word, Vec<u8>)],
    fault: CompileFault,
) -> Result<Answer, AllocError>
    requires refused { IfRefused fault (λ faults. AreRefused (map (λ file. file.1.items) files.now) faults) }
    ensures claim { IfOk result (λ a. (purpose : claim.Purpose) → Claim purpose (files_view files.now) a.status (text_view a.text) (told_of a.report a.status (text_view a.text))) }
{
    match fault {
        CompileFault::Refused(faults) => {
            let text = refusals(alloc, files, faults)?;
            Ok(Answer {
                status: 1,
                text,
                report: None,
            })
        }
        CompileFault::Memory => Err(AllocError),
    }
}

/// Checks the bytes of files, and says how large their program is, or where they are refused. No image is made.
fn check_answer(alloc: Global, files: &[(Word, Vec<u8>)]) -> Result<Answer, AllocError>
    ensures claim { IfOk result (λ a. Claim claim.check (files_view files.now) a.status (text_view a.text) (told_of a.report a.status (text_view a.text))) }
{
    match check(alloc, files) {
        Ok(checked) => {
            let answer = size_answer(alloc, &checked)?;
            Ok(answer)
        }
        Err(fault) => {
            let answer = refusal_answer(alloc, files, fault)?;
            Ok(answer)
        }
    }
}

/// Compiles the bytes of files and runs their program, or says where they are refused.
fn run_answer(
    alloc: Global,
    files: &[(Word, Vec<u8>)],
    options: &RunOptions,
) -> Result<Answer, AllocError>
    requires text { IsTrue (is_text options.now.arg.now) }
    ensures claim { IfOk result (λ a. Claim (claim.run (options_of (options_seen options.now))) (files_view files.now) a.status (text_view a.text) (told_of a.report a.status (text_view a.text))) }
{
    match compile(alloc, files) {
        Ok(compiled) => {
            let answer = run(alloc, &compiled, options)?;
            Ok(answer)
        }
        Err(fault) => {
            let answer = refusal_answer(alloc, files, fault)?;
            Ok(answer)
        }
    }
}

/// Does with the bytes of files what is asked for, or says where they are refused.
pub fn judge(
    alloc: Global,
    purpose: &Purpose,
    files: &[(Word, Vec<u8>)],
) -> Result<Answer, AllocError>
    requires text { HasText (purpose_view purpose.now) }
    ensures claim { IfOk result (λ a. Claim (purpose_view purpose.now) (files_view files.now) a.status (text_view a.text) (told_of a.report a.status (text_view a.text))) }
{
    match purpose {
        Purpose::Check => {
            let answer = check_answer(alloc, files)?;
            Ok(answer)
        }
        Purpose::Run(options) => {
            let answer = run_answer(alloc, files, options)?;
            Ok(answer)
        }
    }
}
