//! The loads of named files, in their order, and what is due by them.
ghost use Rattle.std.specs.Prelude.{◌≡◌, ◌≤◌, ◌∷◌, [], ◌++◌, IfOk, OnOk, OnErr, None, Some, IfSome, length, take, map, option_map};
ghost use Rattle.herm_edge.specs.Faults.{Rose};
ghost use Rattle.herm_edge.specs.View.{loaded_view};
ghost use Rattle.herm_edge.specs.Shelf.{file_at, IfHere, OnMissing, OnFailed, UnlessFailed};
ghost use Rattle.herm_driver.specs.Loads.{load_limit, load_of, FirstAreLoaded};
ghost use Rattle.herm_driver.specs.Due.{IsNotFound, IsUnreadable, IsDue};
ghost use Rattle.herm_driver.specs.Texts.{text_view};
ghost use Rattle.herm_driver.specs.Purposes.{purpose_view, HasText, files_view};
ghost use Rattle.herm_driver.specs.Words.{over};

use crate::accepting::judge;
use crate::outcome::{Answer, plain};
use crate::purpose::Purpose;
use crate::text::file_line;
use herm_base::Word;
use herm_edge::{Loaded, Shelf};
use std::alloc::{AllocError, Global};

/// How much of a file is loaded: one byte more than a source file may have.
#[tactic(auto, unfolding(crate::specs::Loads::load_limit))]
fn load_limit() -> usize
    ensures { result ≡ load_limit }
{
    1_048_577
}

/// Says that no file has the name.
fn not_found(alloc: Global, name: &str) -> Result<Answer, AllocError>
    ensures due { IfOk result (λ a. IsNotFound name.now a.status (text_view a.text) a.report) }
{
    let text = file_line(alloc, name.as_bytes(), b": not found\n")?;
    Ok(plain(10, text))
}

/// Says that the file could not be read.
fn read_fault(alloc: Global, name: &str) -> Result<Answer, AllocError>
    ensures due { IfOk result (λ a. IsUnreadable name.now a.status (text_view a.text) a.report) }
{
    let text = file_line(alloc, name.as_bytes(), b": read fault\n")?;
    Ok(plain(3, text))
}

/// Loads a named file, once.
fn load_named<F: Shelf>(name: &str, shelf: &mut F) -> Loaded
    ensures loaded { F.loads shelf.old (load_of name.now (loaded_view result)) shelf.new }
    ensures within { IfHere result (λ bytes. length bytes ≤ load_limit) }
    ensures here { IfHere result (λ bytes. IfSome (F.contents shelf.old)
        (λ files. option_map (take load_limit) (file_at files name.now) ≡ Some bytes)) }
    ensures missing { OnMissing result (IfSome (F.contents shelf.old) (λ files. file_at files name.now ≡ None)) }
    ensures failed { OnFailed result (Rose (F.faults shelf.old) (F.faults shelf.new)) }
    ensures kept { UnlessFailed result (F.faults shelf.new ≡ F.faults shelf.old) }
    ensures counted { F.faults shelf.old ≤ F.faults shelf.new }
    ensures same { F.contents shelf.new ≡ F.contents shelf.old }
{
    let loaded = shelf.load(name, load_limit());
    loaded
}

/// Puts a file behind those that were read.
pub fn push_file(
    alloc: Global,
    files: &mut Vec<(Word, Vec<u8>)>,
    name: &str,
    bytes: Vec<u8>,
) -> Result<(), AllocError>
    ensures pushed { OnOk result (files_view files.new.items ≡ files_view files.old.items ++ (record { name = name.now; bytes = bytes.items } ∷ [])) }
{
    let name = Word::of(alloc, name.as_bytes())?;
    files.push((name, bytes))?;
    Ok(())
}

/// Loads the files with these names behind those that were read, in order, and answers for all of them; or for the first that is not there or
/// could not be read, behind which none is loaded.
#[tactic(auto, using(crate::proofs::Chosen::load_lemmas))]
pub fn answer_over<F: Shelf>(
    alloc: Global,
    purpose: &Purpose,
    mut files: Vec<(Word, Vec<u8>)>,
    names: &[&str],
    shelf: &mut F,
) -> Result<Answer, AllocError>
    requires text { HasText (purpose_view purpose.now) }
    ensures due { IfOk result (λ a. IsDue F.loads F.faults (F.contents shelf.old) shelf.old shelf.new (over (purpose_view purpose.now) (files_view files.items) (map (λ name. name.now) names.now)) a.status (text_view a.text) a.report) }
    ensures memory { OnErr result (FirstAreLoaded F.loads (map (λ name. name.now) names.now) shelf.old shelf.new) }
    ensures counted { F.faults shelf.old ≤ F.faults shelf.new }
    ensures same { F.contents shelf.new ≡ F.contents shelf.old }
{
    let Some((name, rest)) = names.split_first() else {
        let answer = judge(alloc, purpose, &files)?;
        return Ok(answer);
    };
    match load_named(name, shelf) {
        Loaded::Here(bytes) => {
            push_file(alloc, &mut files, name, bytes)?;
            let answer = answer_over(alloc, purpose, files, rest, shelf)?;
            Ok(answer)
        }
        Loaded::Missing => {
            let answer = not_found(alloc, name)?;
            Ok(answer)
        }
        Loaded::Failed => {
            let answer = read_fault(alloc, name)?;
            Ok(answer)
        }
        Loaded::Memory => Err(AllocError),
    }
}
