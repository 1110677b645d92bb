//! The text of an image: each module with its instructions by index.
//!
//! A line has the index, `*` where a label is listed, the instruction with its places and numbers, and `!E>I` for each exception E that lands at I.
use crate::words::{put_instruction, put_number};
use herm_base::ExcNo;
use herm_code::{CodeModule, Const, Label};
use std::alloc::{AllocError, Global};

type Put = Result<(), AllocError>;

/// Whether a label is listed for an index.
fn is_listed(labels: &[(u32, Label)], index: usize) -> bool {
    for label in labels {
        if label.0 as usize == index {
            return true;
        }
    }
    false
}

/// Appends where each exception lands.
fn put_landings(alloc: Global, out: &mut String, landings: &[(ExcNo, u32)]) -> Put {
    for landing in landings {
        out.push_str(" !")?;
        put_number(alloc, out, landing.0.0)?;
        out.push('>')?;
        put_number(alloc, out, landing.1)?;
    }
    Ok(())
}

/// Appends the lines of a module.
fn put_module(alloc: Global, out: &mut String, module: &CodeModule) -> Put {
    for byte in module.name.bytes() {
        out.push(*byte as char)?;
    }
    out.push('\n')?;
    let mut index: usize = 0;
    for (instruction, landings) in module
        .code
        .as_slice()
        .iter()
        .zip(module.landings.as_slice().iter())
    {
        let text = format!(in alloc; "{index}")?;
        out.push_str(text.as_str())?;
        if is_listed(module.labels.as_slice(), index) {
            out.push('*')?;
        }
        put_instruction(alloc, out, instruction)?;
        put_landings(alloc, out, landings.as_slice())?;
        out.push('\n')?;
        index = index.saturating_add(1);
    }
    Ok(())
}

/// Appends a constant.
fn put_constant(alloc: Global, out: &mut String, constant: &Const) -> Put {
    match constant {
        Const::Bool(b) => out.push_str(if *b { " true" } else { " false" }),
        Const::Int(n) => {
            let text = format!(in alloc; " {n}")?;
            out.push_str(text.as_str())
        }
        Const::Text(word) => {
            out.push_str(" \"")?;
            for byte in word.bytes() {
                out.push(*byte as char)?;
            }
            out.push('"')
        }
        Const::Tag(t, place) => {
            let number = t.0;
            let text = format!(in alloc; " {number}.{place}")?;
            out.push_str(text.as_str())
        }
    }
}

/// The text of modules and constants.
pub fn listing(
    alloc: Global,
    modules: &[CodeModule],
    constants: &[Const],
) -> Result<String, AllocError> {
    let mut out = String::new(alloc);
    for module in modules {
        put_module(alloc, &mut out, module)?;
    }
    out.push_str("constants")?;
    for constant in constants {
        put_constant(alloc, &mut out, constant)?;
    }
    out.push('\n')?;
    Ok(out)
}
