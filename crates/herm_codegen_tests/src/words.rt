//! Instructions become words.
use herm_code::{Arg, Arm, Instr};
use herm_types::{Path, RaiseDecl};
use std::alloc::{AllocError, Global};

type Put = Result<(), AllocError>;

pub fn put_number(alloc: Global, out: &mut String, number: u32) -> Put {
    let text = format!(in alloc; "{number}")?;
    out.push_str(text.as_str())
}

/// Appends a space and a path: the variable, and the places of its parts behind points.
fn put_path(alloc: Global, out: &mut String, path: &Path) -> Put {
    out.push(' ')?;
    put_number(alloc, out, path.var.0)?;
    for part in path.parts.as_slice() {
        out.push('.')?;
        put_number(alloc, out, *part)?;
    }
    Ok(())
}

/// Appends a word with a path.
fn put_one(alloc: Global, out: &mut String, word: &str, path: &Path) -> Put {
    out.push_str(word)?;
    put_path(alloc, out, path)
}

/// Appends a word with two paths.
fn put_two(alloc: Global, out: &mut String, word: &str, first: &Path, second: &Path) -> Put {
    put_one(alloc, out, word, first)?;
    put_path(alloc, out, second)
}

/// Appends a word with a number.
fn put_counted(alloc: Global, out: &mut String, word: &str, number: u32) -> Put {
    out.push_str(word)?;
    out.push(' ')?;
    put_number(alloc, out, number)
}

/// Appends numbers in brackets.
fn put_numbers(alloc: Global, out: &mut String, numbers: &[u32]) -> Put {
    out.push('[')?;
    for number in numbers {
        out.push(' ')?;
        put_number(alloc, out, *number)?;
    }
    out.push_str(" ]")
}

/// The word of an instruction of expressions without a place or a number.
fn operator_of(instruction: &Instr) -> Option<&'static str> {
    match instruction {
        Instr::Neg => Some(" Neg"),
        Instr::Not => Some(" Not"),
        Instr::Text => Some(" Text"),
        Instr::Length => Some(" Length"),
        Instr::Add => Some(" Add"),
        Instr::Sub => Some(" Sub"),
        Instr::Mul => Some(" Mul"),
        Instr::Div => Some(" Div"),
        Instr::Mod => Some(" Mod"),
        Instr::Cat => Some(" Cat"),
        Instr::And => Some(" And"),
        Instr::Or => Some(" Or"),
        Instr::Eq => Some(" Eq"),
        Instr::Ne => Some(" Ne"),
        Instr::Lt => Some(" Lt"),
        Instr::Le => Some(" Le"),
        Instr::Gt => Some(" Gt"),
        Instr::Ge => Some(" Ge"),
        Instr::Step => Some(" Step"),
        Instr::End => Some(" End"),
        _ => None,
    }
}

/// Appends an instruction.
pub fn put_instruction(alloc: Global, out: &mut String, instruction: &Instr) -> Put {
    match operator_of(instruction) {
        Some(word) => out.push_str(word),
        None => put_simple(alloc, out, instruction),
    }
}

/// Appends an instruction with one place or number.
fn put_simple(alloc: Global, out: &mut String, instruction: &Instr) -> Put {
    match instruction {
        Instr::Const(k) => put_counted(alloc, out, " Const", *k),
        Instr::Load(p) => put_one(alloc, out, " Load", p),
        Instr::Size(p) => put_one(alloc, out, " Size", p),
        Instr::Store(p) => put_one(alloc, out, " Store", p),
        Instr::Jump(i) => put_counted(alloc, out, " Jump", *i),
        Instr::JumpFalse(i) => put_counted(alloc, out, " JumpFalse", *i),
        Instr::Discard(p) => put_one(alloc, out, " Discard", p),
        Instr::LoopDrop(slot) => put_counted(alloc, out, " LoopDrop", *slot),
        Instr::Return(p) => put_one(alloc, out, " Return", p),
        Instr::Raise(e) => put_counted(alloc, out, " Raise", e.0),
        Instr::Drop(p) => put_one(alloc, out, " Drop", p),
        Instr::EndBy(e) => put_counted(alloc, out, " EndBy", e.0),
        _ => put_pair(alloc, out, instruction),
    }
}

/// Appends an instruction with two places, or a place and numbers.
fn put_pair(alloc: Global, out: &mut String, instruction: &Instr) -> Put {
    match instruction {
        Instr::Move(y, x) => put_two(alloc, out, " Move", y, x),
        Instr::Insert(r, t) => put_two(alloc, out, " Insert", r, t),
        Instr::Connect(o, i) => put_two(alloc, out, " Connect", o, i),
        Instr::Receive(x, i) => put_two(alloc, out, " Receive", x, i),
        Instr::New(x, t) => {
            put_one(alloc, out, " New", x)?;
            put_counted(alloc, out, "", t.0)
        }
        Instr::Reveal(v, c) => {
            put_one(alloc, out, " Reveal", v)?;
            put_counted(alloc, out, "", *c)
        }
        Instr::Create(o, n) => {
            put_one(alloc, out, " Create", o)?;
            put_counted(alloc, out, "", *n)
        }
        Instr::LoopStart(t, slot) => {
            put_one(alloc, out, " LoopStart", t)?;
            put_counted(alloc, out, "", *slot)
        }
        Instr::CaseOf(v, indices) => {
            put_one(alloc, out, " CaseOf", v)?;
            put_numbers(alloc, out, indices.as_slice())
        }
        _ => put_many(alloc, out, instruction),
    }
}

/// Appends two paths and a number between or behind them.
fn put_between(
    alloc: Global,
    out: &mut String,
    word: &str,
    first: &Path,
    number: u32,
    second: &Path,
) -> Put {
    put_one(alloc, out, word, first)?;
    put_counted(alloc, out, "", number)?;
    put_path(alloc, out, second)
}

/// Appends an instruction with more.
fn put_many(alloc: Global, out: &mut String, instruction: &Instr) -> Put {
    match instruction {
        Instr::Unite(v, c, y) => put_between(alloc, out, " Unite", v, *c, y),
        Instr::Dissolve(v, c, y) => put_between(alloc, out, " Dissolve", v, *c, y),
        Instr::Wrap(y, t, p) => put_between(alloc, out, " Wrap", y, t.0, p),
        Instr::Unwrap(p, t, y) => put_between(alloc, out, " Unwrap", p, t.0, y),
        Instr::Remove(r, t, n) => {
            put_two(alloc, out, " Remove", r, t)?;
            put_counted(alloc, out, "", *n)
        }
        Instr::Get(r, t, n) => {
            put_two(alloc, out, " Get", r, t)?;
            put_counted(alloc, out, "", *n)
        }
        Instr::LoopNext(r, slot, done) => {
            put_one(alloc, out, " LoopNext", r)?;
            put_counted(alloc, out, "", *slot)?;
            put_counted(alloc, out, "", *done)
        }
        Instr::ReturnBy(m, e, kept) => {
            put_one(alloc, out, " ReturnBy", m)?;
            put_counted(alloc, out, "", e.0)?;
            put_numbers(alloc, out, kept.as_slice())
        }
        _ => put_exchange(alloc, out, instruction),
    }
}

/// Appends an instruction that exchanges messages.
fn put_exchange(alloc: Global, out: &mut String, instruction: &Instr) -> Put {
    match instruction {
        Instr::Send(x, o, trim) => {
            put_two(alloc, out, " Send", x, o)?;
            out.push('[')?;
            for path in trim.as_slice() {
                put_path(alloc, out, path)?;
            }
            out.push_str(" ]")
        }
        Instr::Select(arms) => {
            out.push_str(" Select")?;
            for arm in arms.as_slice() {
                put_arm(alloc, out, arm)?;
            }
            Ok(())
        }
        Instr::Call(o, arguments, keeps) => {
            put_one(alloc, out, " Call", o)?;
            for argument in arguments.as_slice() {
                put_argument(alloc, out, argument)?;
            }
            put_keeps(alloc, out, keeps.as_slice())
        }
        _ => out.push_str(" ?"),
    }
}

fn put_arm(alloc: Global, out: &mut String, arm: &Arm) -> Put {
    put_two(alloc, out, " (", &arm.port, &arm.target)?;
    put_counted(alloc, out, "", arm.index)?;
    out.push_str(" )")
}

fn put_argument(alloc: Global, out: &mut String, argument: &Arg) -> Put {
    match argument {
        Arg::In => out.push_str(" in"),
        Arg::Inout(p) => put_one(alloc, out, " inout", p),
        Arg::Out(p) => put_one(alloc, out, " out", p),
    }
}

fn put_keeps(alloc: Global, out: &mut String, keeps: &[RaiseDecl]) -> Put {
    for raise in keeps {
        put_counted(alloc, out, "", raise.exc.0)?;
        put_numbers(alloc, out, raise.keeps.as_slice())?;
    }
    Ok(())
}
