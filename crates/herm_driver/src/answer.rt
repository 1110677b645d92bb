//! The answer of a call before anything is written: its status, its text and its report.
ghost use Rattle.std.specs.Prelude.{◌≡◌, ◌≢◌, ◌≤◌, ◌∷◌, [], IfOk, OnErr, Some, IfSome, map, string_bytes};
ghost use Rattle.herm_edge.specs.Faults.{Rose};
ghost use Rattle.herm_commands.specs.Words.{asked, seen};
ghost use Rattle.herm_commands.specs.Within.{IsWithin};
ghost use Rattle.herm_driver.specs.Loads.{FirstAreLoaded};
ghost use Rattle.herm_driver.specs.Due.{IsDue, IsCaused, IsChosen, IsMade, IsTextStatus};
ghost use Rattle.herm_driver.specs.Texts.{text_view};
ghost use Rattle.herm_driver.specs.Words.{names_of, ring_file, work_of};
ghost use Rattle.herm_driver.specs.Purposes.{files_view};

use crate::loading::{answer_over, push_file};
use crate::outcome::{Answer, plain};
use crate::purpose::Purpose;
use crate::text::usage;
use herm_base::Word;
use herm_commands::{Command, Source, WordsFault, command_of};
use herm_edge::Shelf;
use herm_ring::ring_text;
use std::alloc::{AllocError, Global};

/// The ring of so many nodes, as a file that was read.
fn ring_file(alloc: Global, nodes: u32) -> Result<Vec<(Word, Vec<u8>)>, AllocError>
    requires few { nodes ≤ 1000 }
    ensures file { IfOk result (λ files. files_view files.items ≡ ring_file nodes ∷ []) }
{
    let text = ring_text(alloc, nodes)?;
    let mut files = Vec::new(alloc);
    push_file(alloc, &mut files, "make", text)?;
    Ok(files)
}

/// The text of the ring of so many nodes.
fn made(alloc: Global, nodes: u32) -> Result<Answer, AllocError>
    requires few { nodes ≤ 1000 }
    ensures made { IfOk result (λ a. IsMade nodes a.status (text_view a.text) a.report) }
{
    let text = ring_text(alloc, nodes)?;
    Ok(plain(0, text))
}

/// Answers for a command.
#[tactic(auto, using(crate::proofs::Arguments::arg_text, crate::proofs::Chosen::work_lemmas))]
fn answer_for<F: Shelf>(
    alloc: Global,
    command: Command,
    shelf: &mut F,
) -> Result<Answer, AllocError>
    requires within { IsWithin (seen command) }
    ensures due { IfOk result (λ a. IsDue F.loads F.faults (F.contents shelf.old) shelf.old shelf.new (work_of (Some (seen command.entry))) a.status (text_view a.text) a.report) }
    ensures memory { OnErr result (FirstAreLoaded F.loads (names_of (work_of (Some (seen command.entry)))) shelf.old shelf.new) }
    ensures counted { F.faults shelf.old ≤ F.faults shelf.new }
    ensures same { F.contents shelf.new ≡ F.contents shelf.old }
{
    match command {
        Command::Check { files } => {
            answer_over(alloc, &Purpose::Check, Vec::new(alloc), &files, shelf)
        }
        Command::Run {
            options,
            what: Source::Files(files),
        } => answer_over(
            alloc,
            &Purpose::Run(options),
            Vec::new(alloc),
            &files,
            shelf,
        ),
        Command::Run {
            options,
            what: Source::Ring(nodes),
        } => {
            let files = ring_file(alloc, nodes)?;
            answer_over(alloc, &Purpose::Run(options), files, &[], shelf)
        }
        Command::Make(nodes) => made(alloc, nodes),
    }
}

/// The answer to the words of a call.
#[tactic(auto, using(crate::proofs::Chosen::word_lemmas, crate::proofs::Arguments::command_within))]
pub fn answer_to<F: Shelf>(
    alloc: Global,
    words: &[String],
    shelf: &mut F,
) -> Result<Answer, AllocError>
    ensures due { IfOk result (λ a. IsDue F.loads F.faults (F.contents shelf.old) shelf.old shelf.new (work_of (asked (map string_bytes words.now))) a.status (text_view a.text) a.report) }
    ensures told { IfOk result (λ a. IfSome (F.contents shelf.old) (λ files.
        IsChosen (work_of (asked (map string_bytes words.now))) files (Rose (F.faults shelf.old) (F.faults shelf.new)) a.status (text_view a.text) a.report)) }
    ensures usage { IfOk result (λ a. a.status ≡ 2 → asked (map string_bytes words.now) ≡ None) }
    ensures caused { IfOk result (λ a. IsCaused (F.faults shelf.old) (F.faults shelf.new) a.status) }
    ensures memory { OnErr result (FirstAreLoaded F.loads (names_of (work_of (asked (map string_bytes words.now)))) shelf.old shelf.new) }
    ensures written_only { IfOk result (λ a. IsTextStatus a.status) }
    ensures counted { F.faults shelf.old ≤ F.faults shelf.new }
    ensures same { F.contents shelf.new ≡ F.contents shelf.old }
{
    match command_of(alloc, words) {
        Ok(command) => {
            let answer = answer_for(alloc, command, shelf)?;
            Ok(answer)
        }
        Err(WordsFault::Refused) => {
            let text = usage(alloc)?;
            Ok(plain(2, text))
        }
        Err(WordsFault::Memory) => Err(AllocError),
    }
}
