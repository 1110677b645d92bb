//! The first phase: each file as tokens and trees, or its one fault.
ghost use Rattle.std.specs.Prelude.{◌≡◌, ◌≤◌, ◌++◌, suc, [], map, length, replicate, IfOk, MatchResult, OnOk};
ghost use Rattle.herm_lexer.specs.Spelling.{HasTokens};
ghost use Rattle.herm_compile.specs.View.{fault_view};
ghost use Rattle.herm_compile.specs.FirstPhase.{HasFileFault, AreFirstFaults, HaveModules, file_fault, fault_code, fault_offset};
ghost use Rattle.herm_compile.specs.RefusalWords.{fault_words};
ghost use Rattle.herm_compile.specs.Added.{IsReadFile, IsAdded};

use crate::places::{file_start, place_at};
use herm_base::Word;
use herm_lexer::{LexFault, Token, lex};
use herm_parser::{ParseFault, parse};
use herm_refusals::Fault;
use herm_syntax::Module;
use herm_words::Reason;
use std::alloc::{AllocError, Global};

/// Why a file has no trees, with the place of the fault in bytes.
#[derive(Clone, Copy, Debug, PartialEq, Eq)]
pub enum FileFault {
    /// A byte that no source file has.
    Byte(u32),
    /// What is no token.
    Token(u32),
    /// A token or a file beyond its limit.
    TooLong(u32),
    /// A token with which no file goes on, or the end of the last token.
    Syntax(u32),
    /// The first bracket that is open too many.
    Nesting(u32),
}

fn fault_code(fault: FileFault) -> u8
    ensures { result ≡ fault_code fault }
{
    match fault {
        FileFault::Byte(_) => 1,
        FileFault::Token(_) => 2,
        FileFault::TooLong(_) => 3,
        FileFault::Syntax(_) => 4,
        FileFault::Nesting(_) => 5,
    }
}

fn fault_words(fault: FileFault) -> &'static [u8]
    ensures { result.now ≡ fault_words fault }
{
    match fault {
        FileFault::Byte(_) => b"byte",
        FileFault::Token(_) => b"token",
        FileFault::TooLong(_) => b"too long",
        FileFault::Syntax(_) => b"syntax",
        FileFault::Nesting(_) => b"nesting",
    }
}

fn fault_offset(fault: FileFault) -> usize
    ensures { result ≡ fault_offset fault }
{
    match fault {
        FileFault::Byte(offset) => offset as usize,
        FileFault::Token(offset) => offset as usize,
        FileFault::TooLong(offset) => offset as usize,
        FileFault::Syntax(offset) => offset as usize,
        FileFault::Nesting(offset) => offset as usize,
    }
}

/// The fault of a file at its line and column.
fn file_fault(
    alloc: Global,
    number: u32,
    bytes: &[u8],
    fault: FileFault,
) -> Result<Fault, AllocError>
    requires { HasFileFault bytes.now fault }
    ensures { IfOk result (λ f. fault_view f ≡ file_fault number bytes.now fault) }
{
    let place = place_at(bytes, file_start(), fault_offset(fault));
    let words = Word::of(alloc, fault_words(fault))?;
    Ok(Fault {
        file: number,
        line: place.line,
        column: place.column,
        code: fault_code(fault),
        reason: Reason::Said(words),
    })
}

/// The modules of a file's tokens, or its fault.
fn tokens_said(
    alloc: Global,
    bytes: &[u8],
    tokens: &[Token],
) -> Result<Result<Vec<Module>, FileFault>, AllocError>
    requires { HasTokens bytes.now tokens.now }
    ensures { IfOk result (λ said. IsReadFile bytes.now said) }
{
    match parse(alloc, tokens) {
        Ok(modules) => Ok(Ok(modules)),
        Err(ParseFault::Syntax(offset)) => Ok(Err(FileFault::Syntax(offset))),
        Err(ParseFault::Nesting(offset)) => Ok(Err(FileFault::Nesting(offset))),
        Err(ParseFault::Memory) => Err(AllocError),
    }
}

/// The modules of a file, or its fault.
fn said_of(alloc: Global, bytes: &[u8]) -> Result<Result<Vec<Module>, FileFault>, AllocError>
    ensures { IfOk result (λ said. IsReadFile bytes.now said) }
{
    match lex(alloc, bytes) {
        Ok(tokens) => tokens_said(alloc, bytes, tokens.as_slice()),
        Err(LexFault::Byte(offset)) => Ok(Err(FileFault::Byte(offset))),
        Err(LexFault::Token(offset)) => Ok(Err(FileFault::Token(offset))),
        Err(LexFault::TooLong(offset)) => Ok(Err(FileFault::TooLong(offset))),
        Err(LexFault::Memory) => Err(AllocError),
    }
}

/// Files that were read: the modules of those that have trees, the number of each module's file, and the faults of the others.
#[derive(Drop)]
pub struct ReadFiles {
    pub modules: Vec<Module>,
    pub owners: Vec<u32>,
    pub faults: Vec<Fault>,
}

/// Adds the modules of a file.
fn add_modules(
    read: &mut ReadFiles,
    number: u32,
    mut modules: Vec<Module>,
) -> Result<(), AllocError>
    ensures modules { OnOk result (read.new.modules.items ≡ read.old.modules.items ++ modules.items) }
    ensures owners { OnOk result (read.new.owners.items ≡ read.old.owners.items ++ replicate (length modules.items) number) }
    ensures faults { OnOk result (read.new.faults.items ≡ read.old.faults.items) }
{
    let count = read.owners.len() + modules.len();
    read.owners.resize(count, number)?;
    read.modules.append(&mut modules)?;
    Ok(())
}

/// Adds what is said of a file.
fn add_file(
    alloc: Global,
    read: &mut ReadFiles,
    number: u32,
    bytes: &[u8],
    said: Result<Vec<Module>, FileFault>,
) -> Result<(), AllocError>
    requires { IsReadFile bytes.now said }
    ensures { OnOk result (IsAdded number bytes.now read.old read.new) }
{
    match said {
        Ok(modules) => {
            add_modules(read, number, modules)?;
            Ok(())
        }
        Err(fault) => {
            let fault = file_fault(alloc, number, bytes, fault)?;
            read.faults.push(fault)?;
            Ok(())
        }
    }
}

/// Reads a file, and adds what is said of it.
fn read_file(
    alloc: Global,
    read: &mut ReadFiles,
    number: u32,
    bytes: &[u8],
) -> Result<(), AllocError>
    ensures { OnOk result (IsAdded number bytes.now read.old read.new) }
{
    let said = said_of(alloc, bytes)?;
    add_file(alloc, read, number, bytes, said)
}

/// The number of the file behind this one. Where there is none, it counts as want of memory.
fn number_behind(number: u32) -> Result<u32, AllocError>
    ensures { MatchResult result (λ n. n ≡ suc number) (λ e. 4294967296 ≤ suc number) }
{
    match number.checked_add(1) {
        Some(n) => Ok(n),
        None => Err(AllocError),
    }
}

/// Reads the files in their order: the faults of the first phase, of each file its one fault or none where it has trees; and
/// where there is no fault, the modules of all files, each with the number of its file.
pub fn read_files(alloc: Global, files: &[(Word, Vec<u8>)]) -> Result<ReadFiles, AllocError>
    ensures faults { IfOk result (λ read. AreFirstFaults 0 (map (λ file. file.1.items) files.now) (map fault_view read.faults.items)) }
    ensures modules { IfOk result (λ read. read.faults.items ≡ [] → HaveModules 0 (map (λ file. file.1.items) files.now) read.modules.items read.owners.items) }
{
    let mut read = ReadFiles {
        modules: Vec::new(alloc),
        owners: Vec::new(alloc),
        faults: Vec::new(alloc),
    };
    let mut number = 0;
    'files: for file in files {
        read_file(alloc, &mut read, number, file.1.as_slice())?;
        number = number_behind(number)?;
    }
    Ok(read)
}
