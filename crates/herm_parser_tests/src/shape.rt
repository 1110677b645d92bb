//! Short texts of statements, definitions and modules, and what is answered for a source text.
//! A statement is its number, its form's name and its parts.
use crate::text::{Put, put_atoms, put_expression, put_name, put_names, put_path};
use herm_base::Name;
use herm_lexer::{LexFault, lex};
use herm_parser::{ParseFault, parse};
use herm_syntax::{
    DFact, DefForm, DefItem, Field, ModeForm, Module, ParamForm, PathForm, RaiseForm, ShapeForm,
    Stmt, StmtForm,
};
use std::alloc::{AllocError, Global};

fn put_number(alloc: Global, out: &mut String, number: u32) -> Put {
    let digits = format!(in alloc; "{number}")?;
    out.push_str(digits.as_str())
}

/// A word and paths.
fn put_paths(out: &mut String, word: &str, paths: &[&PathForm]) -> Put {
    out.push_str(word)?;
    for path in paths {
        out.push(' ')?;
        put_path(out, path)?;
    }
    Ok(())
}

fn put_path_name(out: &mut String, word: &str, path: &PathForm, name: &Name) -> Put {
    put_paths(out, word, &[path])?;
    out.push(' ')?;
    put_name(out, name)
}

/// A statement without blocks, and whether it was one.
fn put_plain(alloc: Global, out: &mut String, form: &StmtForm) -> Result<bool, AllocError> {
    match form {
        StmtForm::Move(y, x) => put_paths(out, "Move", &[y, x])?,
        StmtForm::New(x) => put_paths(out, "New", &[x])?,
        StmtForm::Discard(x) => put_paths(out, "Discard", &[x])?,
        StmtForm::Unite(v, y) => put_paths(out, "Unite", &[v, y])?,
        StmtForm::Dissolve(v, y) => put_paths(out, "Dissolve", &[v, y])?,
        StmtForm::Reveal(v) => put_paths(out, "Reveal", &[v])?,
        StmtForm::Wrap(y, p) => put_paths(out, "Wrap", &[y, p])?,
        StmtForm::Insert(r, t) => put_paths(out, "Insert", &[r, t])?,
        StmtForm::Connect(o, i) => put_paths(out, "Connect", &[o, i])?,
        StmtForm::Send(x, o) => put_paths(out, "Send", &[x, o])?,
        StmtForm::Receive(x, i) => put_paths(out, "Receive", &[x, i])?,
        StmtForm::Return(m) => put_paths(out, "Return", &[m])?,
        StmtForm::ReturnBy(m, name) => put_path_name(out, "ReturnBy", m, name)?,
        StmtForm::Create(o, name) => put_path_name(out, "Create", o, name)?,
        StmtForm::Leave => out.push_str("Leave")?,
        _ => return put_other(alloc, out, form),
    }
    Ok(true)
}

fn put_other(alloc: Global, out: &mut String, form: &StmtForm) -> Result<bool, AllocError> {
    match form {
        StmtForm::Unwrap(p, name, y) => {
            put_path_name(out, "Unwrap", p, name)?;
            out.push(' ')?;
            put_path(out, y)?;
        }
        StmtForm::Remove(r, t, keys) => {
            put_paths(out, "Remove", &[r, t])?;
            put_atoms(alloc, out, keys)?;
        }
        StmtForm::Get(r, t, keys) => {
            put_paths(out, "Get", &[r, t])?;
            put_atoms(alloc, out, keys)?;
        }
        StmtForm::Call(o, arguments) => {
            put_paths(out, "Call", &[o])?;
            put_atoms(alloc, out, arguments)?;
        }
        StmtForm::Raise(name) => {
            out.push_str("Raise ")?;
            put_name(out, name)?;
        }
        StmtForm::Assign(x, e) => {
            put_paths(out, "Assign", &[x])?;
            out.push(' ')?;
            put_expression(alloc, out, e)?;
        }
        _ => return Ok(false),
    }
    Ok(true)
}

fn put_head(out: &mut String, word: &str, name: &Name) -> Put {
    out.push_str(word)?;
    put_name(out, name)
}

#[cycle(shapes)]
fn put_statement(alloc: Global, out: &mut String, s: &Stmt) -> Put {
    put_number(alloc, out, s.no.0)?;
    out.push(' ')?;
    if put_plain(alloc, out, &s.form)? {
        return Ok(());
    }
    match &s.form {
        StmtForm::Case(v, arms) => {
            put_paths(out, "Case", &[v])?;
            for (name, body) in arms {
                put_head(out, " when ", name)?;
                put_block(alloc, out, body)?;
            }
            Ok(())
        }
        StmtForm::For(r, t, body) => {
            put_paths(out, "For", &[r, t])?;
            put_block(alloc, out, body)
        }
        StmtForm::Select(arms) => {
            out.push_str("Select")?;
            for (port, target, body) in arms {
                put_paths(out, " when", &[port, target])?;
                put_block(alloc, out, body)?;
            }
            Ok(())
        }
        StmtForm::If(e, body, other) => {
            out.push_str("If ")?;
            put_expression(alloc, out, e)?;
            put_block(alloc, out, body)?;
            match other {
                None => Ok(()),
                Some(body) => {
                    out.push_str(" else")?;
                    put_block(alloc, out, body)
                }
            }
        }
        StmtForm::While(e, body) => {
            out.push_str("While ")?;
            put_expression(alloc, out, e)?;
            put_block(alloc, out, body)
        }
        StmtForm::Try(body, handlers) => {
            out.push_str("Try")?;
            put_block(alloc, out, body)?;
            for (name, body) in handlers {
                put_head(out, " on ", name)?;
                put_block(alloc, out, body)?;
            }
            Ok(())
        }
        _ => out.push('?'),
    }
}

#[cycle(shapes)]
fn put_block(alloc: Global, out: &mut String, body: &[Stmt]) -> Put {
    out.push('{')?;
    let mut first = true;
    for s in body {
        if !first {
            out.push_str("; ")?;
        }
        first = false;
        put_statement(alloc, out, s)?;
    }
    out.push('}')
}

fn put_field(out: &mut String, field: &Field) -> Put {
    put_name(out, &field.name)?;
    out.push(':')?;
    put_name(out, &field.of)
}

fn put_fields(out: &mut String, fields: &[Field]) -> Put {
    out.push('[')?;
    let mut first = true;
    for field in fields {
        if !first {
            out.push(' ')?;
        }
        first = false;
        put_field(out, field)?;
    }
    out.push(']')
}

fn put_fact(out: &mut String, fact: &DFact) -> Put {
    match fact {
        DFact::Init(path) => {
            out.push_str(" init ")?;
            put_names(out, '.', path)
        }
        DFact::Full(path) => {
            out.push_str(" full ")?;
            put_names(out, '.', path)
        }
        DFact::Case(path, component) => {
            out.push_str(" case ")?;
            put_names(out, '.', path)?;
            out.push('=')?;
            put_name(out, component)
        }
    }
}

fn put_param(out: &mut String, param: &ParamForm) -> Put {
    out.push_str(match param.mode {
        ModeForm::In => " in ",
        ModeForm::Inout => " inout ",
        ModeForm::Out => " out ",
    })?;
    put_field(out, &param.field)
}

fn put_raise(out: &mut String, raise: &RaiseForm) -> Put {
    out.push_str(" raises ")?;
    put_name(out, &raise.name)?;
    if raise.keeps.is_empty() {
        return Ok(());
    }
    out.push('[')?;
    put_names(out, ' ', &raise.keeps)?;
    out.push(']')
}

fn put_listed(out: &mut String, word: &str, names: &[Name]) -> Put {
    out.push_str(word)?;
    out.push('[')?;
    put_names(out, ' ', names)?;
    out.push(']')
}

fn put_shape(out: &mut String, shape: &ShapeForm) -> Put {
    match shape {
        ShapeForm::Names(names) => put_listed(out, "Names", names),
        ShapeForm::Fields(fields) => {
            out.push_str("Fields")?;
            put_fields(out, fields)
        }
        ShapeForm::Cases(fields) => {
            out.push_str("Cases")?;
            put_fields(out, fields)
        }
        ShapeForm::Rows { row, keys } => {
            out.push_str("Rows ")?;
            put_name(out, row)?;
            put_listed(out, "", keys)
        }
        ShapeForm::Inport { message, facts } => {
            out.push_str("Inport ")?;
            put_name(out, message)?;
            for fact in facts {
                put_fact(out, fact)?;
            }
            Ok(())
        }
        ShapeForm::Outport { port } => {
            out.push_str("Outport ")?;
            put_name(out, port)
        }
        ShapeForm::CallMessage { params, raises } => {
            out.push_str("CallMessage")?;
            for param in params {
                put_param(out, param)?;
            }
            for raise in raises {
                put_raise(out, raise)?;
            }
            Ok(())
        }
    }
}

fn put_item(out: &mut String, item: &DefItem) -> Put {
    out.push('<')?;
    put_name(out, &item.name)?;
    match &item.form {
        DefForm::Shaped(shape) => {
            out.push('=')?;
            put_shape(out, shape)?;
        }
        DefForm::Exception => out.push('!')?,
    }
    out.push('>')
}

fn put_module(alloc: Global, out: &mut String, module: &Module) -> Put {
    match module {
        Module::Definitions { name, items } => {
            out.push_str("D ")?;
            put_name(out, name)?;
            for item in items {
                put_item(out, item)?;
            }
            Ok(())
        }
        Module::Process {
            name,
            port,
            vars,
            body,
        } => {
            out.push_str("P ")?;
            put_name(out, name)?;
            out.push('(')?;
            put_field(out, port)?;
            out.push(')')?;
            put_fields(out, vars)?;
            put_block(alloc, out, body)
        }
    }
}

fn fault_text(alloc: Global, code: &str, offset: u32) -> Result<String, AllocError> {
    format!(in alloc; "{code} {offset}")
}

/// The trees of a source text as a short text, or its fault's code and place in bytes.
pub fn answer(alloc: Global, source: &str) -> Result<String, AllocError> {
    let tokens = match lex(alloc, source.as_bytes()) {
        Ok(tokens) => tokens,
        Err(LexFault::Byte(at)) => return fault_text(alloc, "F1", at),
        Err(LexFault::Token(at)) => return fault_text(alloc, "F2", at),
        Err(LexFault::TooLong(at)) => return fault_text(alloc, "F3", at),
        Err(LexFault::Memory) => return Err(AllocError),
    };
    match parse(alloc, &tokens) {
        Ok(modules) => {
            let mut out = String::new(alloc);
            let mut first = true;
            for module in &modules {
                if !first {
                    out.push_str(" | ")?;
                }
                first = false;
                put_module(alloc, &mut out, module)?;
            }
            Ok(out)
        }
        Err(ParseFault::Syntax(at)) => fault_text(alloc, "F4", at),
        Err(ParseFault::Nesting(at)) => fault_text(alloc, "F5", at),
        Err(ParseFault::Memory) => Err(AllocError),
    }
}
