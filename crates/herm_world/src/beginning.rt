//! How a world begins: its first message, its places, and a process of main.
ghost use Rattle.std.specs.Prelude.{◌≡◌, ◌<◌, ◌↔◌, [], false, true, IfOk, IsTrue, Some, length, ℕ, ⊤};
ghost use Rattle.herm_model.specs.Typed.{is_text};
ghost use Rattle.herm_model.specs.TypedPrograms.{main_start};
ghost use Rattle.herm_code.specs.View.{image_view};
ghost use Rattle.herm_code_machine.specs.CodeTypes.{first_type};
ghost use Rattle.herm_code_machine.specs.ReadyCode.{labelled_image};
ghost use Rattle.herm_code_worlds.specs.CodeWorlds.{named, nameless};
ghost use Rattle.herm_code_worlds.specs.laws.WorldOfCode.{WorksAsWorld};
ghost use Rattle.herm_queue.specs.BookStates.{limits_view};
ghost use Rattle.herm_values.specs.View.{value_view};
ghost use Rattle.herm_values.specs.Whole.{IsWhole};
ghost use Rattle.herm_waking.specs.KeptRounds.{first_worked};
ghost use Rattle.herm_waking.specs.UnnamedRounds.{bare_first};
ghost use Rattle.herm_world.specs.Kept.{world_of};
ghost use Rattle.herm_world.specs.Opening.{AreOpening, IsFirst, first_message};
ghost use Rattle.herm_world.specs.Places.{places_of};
ghost use Rattle.herm_world.specs.Worlds.{ShowsRun};

use crate::counted_port::CountedPort;
use crate::counted_replies::CountedReplies;
use crate::parts::Parts;
use crate::places::Places;
use crate::waits::look_again;
use herm_base::{Limits, PortNo, ProcNo, Word};
use herm_code::Image;
use herm_events::Stamp;
use herm_letters::Letter;
use herm_process::{Birth, Process};
use herm_queue::Book;
use herm_ready::Ready;
use herm_values::Value;
use std::alloc::{AllocError, Global};

const CONSOLE_PORT: PortNo = PortNo { number: 0 };

const CONSOLE: ProcNo = ProcNo { number: 0 };

const MAIN_PORT: PortNo = PortNo { number: 1 };

const MAIN: ProcNo = ProcNo { number: 1 };

/// The number of the type main_start.
const MAIN_START: u32 = 7;

/// The greatest number of a process.
const MOST_PROCESSES: u32 = 1024;

/// The first message: a record of the argument and the outport of the console.
fn first_value(alloc: Global, arg: &[u8]) -> Result<Value, AllocError>
    ensures value { IfOk result (λ v. value_view v ≡ first_message arg.now) }
    ensures whole { IfOk result IsWhole }
{
    let argument = Word::of(alloc, arg)?;
    let mut fields = Vec::new(alloc);
    fields.push(Some(Value::Text(argument)))?;
    fields.push(Some(Value::Outport(CONSOLE_PORT)))?;
    Ok(Value::Fields(fields))
}

/// The letter of the first message.
fn first_letter(alloc: Global, arg: &[u8]) -> Result<Letter, AllocError>
    ensures letter { IfOk result (λ l. value_view l ≡ first_message arg.now) }
{
    let value = first_value(alloc, arg)?;
    match Letter::of(alloc, value) {
        Ok(letter) => return Ok(letter),
        Err((_, error)) => return Err(error),
    }
}

/// The places as a world opens: the console's port, the port of main with the first message, the reply cell of main, and the book.
fn first_places(alloc: Global, limits: &Limits, arg: &[u8]) -> Result<Places, AllocError>
    ensures opens { IfOk result (λ s. AreOpening (limits_view limits.now) arg.now (places_of s)) }
{
    let letter = first_letter(alloc, arg)?;
    let main_port = CountedPort::first(alloc, letter)?;
    let mut ports = Vec::new(alloc);
    ports.push(CountedPort::new(alloc, CONSOLE_PORT))?;
    ports.push(main_port)?;
    let mut replies = Vec::new(alloc);
    replies.push(CountedReplies::new(alloc, MAIN))?;
    Ok(Places {
        ports,
        replies,
        book: Book::new(alloc, limits),
    })
}

/// Whether there is a module of this number whose port is of the type main_start, as that of main is to be.
pub fn is_main(image: &Image, main: u32) -> bool
    ensures starts { (result ≡ true) ↔ (first_type (labelled_image (image_view image.now) main) main ≡ Some main_start) }
{
    let place = main as usize;
    let modules = image.modules();
    if place >= modules.len() {
        return false;
    }
    let vars = modules[place].vars.as_slice();
    if vars.is_empty() {
        return false;
    }
    vars[0].0 == MAIN_START
}

/// What is known of the image: it works as a world, and has the module of main. Nothing is done.
pub fn works(image: &Image, main: u32)
    requires main { first_type (labelled_image (image_view image.now) main) main ≡ Some main_start }
    ensures works { WorksAsWorld (image_view image.now) main }
    ensures there { main < length image.now.modules }
{
    image.keeps();
    image.types().keeps();
}

/// The process of main, at port 1.
fn first_process<'i>(
    alloc: Global,
    image: &'i Image,
    main: u32,
    limits: &Limits,
) -> Result<Process<'i>, AllocError>
    requires there { main < length image.now.modules }
    ensures first { IfOk result (λ p. IsFirst (image_view image.now) main limits.now.steps p) }
{
    let birth = Birth {
        maker: CONSOLE,
        stamp: Stamp(0),
    };
    let process = Process::begin(alloc, MAIN, image, main, MAIN_PORT, birth, limits)?;
    Ok(process)
}

/// The parts of a world as it begins.
pub fn first_parts<'i>(
    alloc: Global,
    image: &'i Image,
    main: u32,
    limits: &Limits,
    arg: &[u8],
) -> Result<Parts<'i>, AllocError>
    requires main { first_type (labelled_image (image_view image.now) main) main ≡ Some main_start }
    requires text { IsTrue (is_text arg.now) }
    ensures room { IfOk result (λ parts. parts.ready.limit ≡ 1024) }
    ensures limits { IfOk result (λ parts. (places_of parts.places).book.held.limits ≡ limits_view limits.now) }
    ensures begins { IfOk result (λ parts. ShowsRun (limits_view limits.now) arg.now [] (first_worked (named (image_view image.now) main) (limits_view limits.now) arg.now) (bare_first (nameless (image_view image.now) main) main (limits_view limits.now) arg.now) (world_of image.now main parts false)) }
{
    works(image, main);
    let process = first_process(alloc, image, main, limits)?;
    let mut places = first_places(alloc, limits, arg)?;
    let mut ready = Ready::new(alloc, MOST_PROCESSES)?;
    look_again(&process, &mut places, &mut ready, MAIN)?;
    let mut processes = Vec::new(alloc);
    processes.push(process)?;
    Ok(Parts {
        processes,
        places,
        ready,
    })
}
