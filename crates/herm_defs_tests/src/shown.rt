//! Tables of types as short texts.
use herm_base::{TypeNo, Word};
use herm_types::{Fact, Mode, Param, Part, Path, RaiseDecl, Shape, TypeTable};
use std::alloc::{AllocError, Global};

type Put = Result<(), AllocError>;

fn put_word(out: &mut String, word: &Word) -> Put {
    for byte in word.bytes() {
        out.push(*byte as char)?;
    }
    Ok(())
}

/// ` name:type`
fn put_typed(alloc: Global, out: &mut String, name: &Word, of: TypeNo) -> Put {
    out.push(' ')?;
    put_word(out, name)?;
    let number = of.0;
    let text = format!(in alloc; ":{number}")?;
    out.push_str(text.as_str())
}

fn put_parts(alloc: Global, out: &mut String, parts: &[Part]) -> Put {
    for part in parts {
        put_typed(alloc, out, &part.name, part.of)?;
    }
    Ok(())
}

/// ` 0.1.2`, the variable first.
fn put_path(alloc: Global, out: &mut String, path: &Path) -> Put {
    let var = path.var.0;
    let text = format!(in alloc; " {var}")?;
    out.push_str(text.as_str())?;
    for place in path.parts.as_slice() {
        let text = format!(in alloc; ".{place}")?;
        out.push_str(text.as_str())?;
    }
    Ok(())
}

fn put_fact(alloc: Global, out: &mut String, fact: &Fact) -> Put {
    match fact {
        Fact::Init(path) => {
            out.push_str(" init")?;
            put_path(alloc, out, path)
        }
        Fact::Case(path, component) => {
            out.push_str(" case")?;
            put_path(alloc, out, path)?;
            let text = format!(in alloc; "={component}")?;
            out.push_str(text.as_str())
        }
    }
}

fn put_param(alloc: Global, out: &mut String, param: &Param) -> Put {
    out.push_str(match param.mode {
        Mode::In => " in",
        Mode::Inout => " inout",
        Mode::Out => " out",
    })?;
    put_typed(alloc, out, &param.name, param.of)
}

fn put_numbers(alloc: Global, out: &mut String, numbers: &[u32]) -> Put {
    for number in numbers {
        let text = format!(in alloc; " {number}")?;
        out.push_str(text.as_str())?;
    }
    Ok(())
}

fn put_raise(alloc: Global, out: &mut String, raise: &RaiseDecl) -> Put {
    let number = raise.exc.0;
    let text = format!(in alloc; " raises {number} keeps")?;
    out.push_str(text.as_str())?;
    put_numbers(alloc, out, raise.keeps.as_slice())
}

fn put_shape(alloc: Global, out: &mut String, shape: &Shape) -> Put {
    match shape {
        Shape::Names(words) => {
            out.push_str(" enum")?;
            for word in words.as_slice() {
                out.push(' ')?;
                put_word(out, word)?;
            }
            Ok(())
        }
        Shape::Fields(parts) => {
            out.push_str(" record")?;
            put_parts(alloc, out, parts.as_slice())
        }
        Shape::Cases(parts) => {
            out.push_str(" variant")?;
            put_parts(alloc, out, parts.as_slice())
        }
        Shape::Rows { row, keys } => {
            let number = row.0;
            let text = format!(in alloc; " table {number} key")?;
            out.push_str(text.as_str())?;
            put_numbers(alloc, out, keys.as_slice())
        }
        Shape::Inport { message, facts } => {
            let number = message.0;
            let text = format!(in alloc; " inport {number}")?;
            out.push_str(text.as_str())?;
            for fact in facts.as_slice() {
                put_fact(alloc, out, fact)?;
            }
            Ok(())
        }
        Shape::Outport { port } => {
            let number = port.0;
            let text = format!(in alloc; " outport {number}")?;
            out.push_str(text.as_str())
        }
        Shape::CallMessage { params, raises } => {
            out.push_str(" callmessage")?;
            for param in params.as_slice() {
                put_param(alloc, out, param)?;
            }
            for raise in raises.as_slice() {
                put_raise(alloc, out, raise)?;
            }
            Ok(())
        }
        _ => out.push_str(" predefined"),
    }
}

/// The word `table`, and then the types behind the predefined ones with the numbers of what they name, and the exceptions behind the
/// predefined ones.
pub fn table_text(alloc: Global, table: &TypeTable) -> Result<String, AllocError> {
    let mut text = String::new(alloc);
    text.push_str("table")?;
    table.keeps();
    for number in 8..table.len() {
        let t = TypeNo(number as u32);
        text.push(' ')?;
        put_word(&mut text, table.name(t))?;
        put_shape(alloc, &mut text, table.shape(t))?;
        text.push(';')?;
    }
    for word in table.exceptions().iter().skip(7) {
        text.push(' ')?;
        put_word(&mut text, word)?;
        text.push(';')?;
    }
    Ok(text)
}
