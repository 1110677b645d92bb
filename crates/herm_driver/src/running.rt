//! The run of a compiled program.
ghost use Rattle.std.specs.Prelude.{◌≡◌, IfOk, IsTrue, List, ℕ};
ghost use Rattle.herm_model.specs.Typed.{is_text};
ghost use Rattle.herm_code.specs.View.{image_view};
ghost use Rattle.herm_images.specs.CheckedPrograms.{program_view, StandsForProgram};
ghost use Rattle.herm_compile.specs.Phases.{HaveThisProgram};
ghost use Rattle.herm_commands.specs.Words.{options_seen};
ghost use Rattle.herm_text.specs.AskedView.{asked_view};
ghost use Rattle.herm_claim.specs.Claim.{Runs};
ghost use Rattle.herm_driver.specs.Words.{asked_for, limits_of, options_of};
ghost use Rattle.herm_driver.specs.Ending.{IsReportOfEnd};
ghost use Rattle.herm_driver.specs.Due.{told_of};
ghost use Rattle.herm_driver.specs.Texts.{text_view};

use crate::outcome::{Answer, Text};
use herm_commands::{RunOptions, Shows};
use herm_compile::Compiled;
use herm_report::Report;
use herm_text::{Asked, run_text, status};
use herm_world::World;
use std::alloc::{AllocError, Global};

/// What a run tells besides.
fn asked_for(shows: Shows) -> Asked
    ensures asked { asked_view result ≡ asked_for shows }
{
    match shows {
        Shows::Nothing => Asked::Plain,
        Shows::Summary => Asked::WithSummary,
        Shows::Journal => Asked::Journal,
    }
}

/// Runs a compiled program by rounds until no process can step, and reports the run.
#[tactic(auto, using(crate::proofs::Ended::end_lemmas))]
fn report_of_run(
    alloc: Global,
    compiled: &Compiled,
    options: &RunOptions,
) -> Result<Report, AllocError>
    requires text { IsTrue (is_text options.now.arg.now) }
    requires stands { StandsForProgram compiled.now.image.types (program_view compiled.now.image.types.shapes compiled.now.program) compiled.now.image }
    ensures reports { IfOk result (λ r. IsReportOfEnd (image_view compiled.now.image) compiled.now.program.main (limits_of (options_seen options.now)) options.now.arg.now r) }
{
    let mut world = World::begin(
        alloc,
        &compiled.image,
        compiled.program.main,
        options.limits,
        options.arg.as_bytes(),
    )?;
    world.rounds()?;
    let report = world.report(alloc)?;
    Ok(report)
}

/// Runs a compiled program: its text is the console's lines and the line on the status, with the summary where it is asked for; or the journal's lines.
#[tactic(auto, using(crate::proofs::Claimed::run_lemmas))]
pub fn run(alloc: Global, compiled: &Compiled, options: &RunOptions) -> Result<Answer, AllocError>
    requires text { IsTrue (is_text options.now.arg.now) }
    requires stands { StandsForProgram compiled.now.image.types (program_view compiled.now.image.types.shapes compiled.now.program) compiled.now.image }
    ensures runs { IfOk result (λ a. (files : List (List ℕ)) → HaveThisProgram files compiled.now.image.types compiled.now.program → Runs (options_of (options_seen options.now)) files a.status (text_view a.text) (told_of a.report a.status (text_view a.text))) }
{
    let report = report_of_run(alloc, compiled, options)?;
    let names = compiled.image.types().exceptions();
    let text = run_text(alloc, &report, names, asked_for(options.shows))?;
    Ok(Answer {
        status: status(&report),
        text: Text::Whole(text),
        report: Some(report),
    })
}
