//! Short texts of names, paths, literals and expressions. Operands of an operator stand in parentheses behind it.
use herm_base::{Name, Word};
use herm_syntax::{
    Atom, Comp, CompOp, Conj, Expr, Literal, PathForm, Primary, Prod, ProdOp, Sum, SumOp, Unary,
    UnaryOp,
};
use std::alloc::{AllocError, Global};

pub type Put = Result<(), AllocError>;

pub fn put_word(out: &mut String, word: &Word) -> Put {
    for byte in word.bytes() {
        out.push(*byte as char)?;
    }
    Ok(())
}

pub fn put_name(out: &mut String, name: &Name) -> Put {
    put_word(out, &name.text)
}

pub fn put_names(out: &mut String, between: char, names: &[Name]) -> Put {
    let mut first = true;
    for name in names {
        if !first {
            out.push(between)?;
        }
        first = false;
        put_name(out, name)?;
    }
    Ok(())
}

pub fn put_path(out: &mut String, path: &PathForm) -> Put {
    put_names(out, '.', &path.parts)
}

fn put_literal(alloc: Global, out: &mut String, literal: &Literal) -> Put {
    match literal {
        Literal::Int(number) => {
            let digits = format!(in alloc; "{number}")?;
            out.push_str(digits.as_str())
        }
        Literal::Text(word) => {
            out.push('"')?;
            put_word(out, word)?;
            out.push('"')
        }
        Literal::Bool(true) => out.push_str("TRUE"),
        Literal::Bool(false) => out.push_str("FALSE"),
        Literal::Tag(name, part) => {
            put_name(out, name)?;
            out.push('#')?;
            put_name(out, part)
        }
    }
}

pub fn put_atom(alloc: Global, out: &mut String, atom: &Atom) -> Put {
    match atom {
        Atom::Literal(literal) => put_literal(alloc, out, literal),
        Atom::Path(path) => put_path(out, path),
    }
}

pub fn put_atoms(alloc: Global, out: &mut String, atoms: &[Atom]) -> Put {
    out.push('[')?;
    let mut first = true;
    for atom in atoms {
        if !first {
            out.push(' ')?;
        }
        first = false;
        put_atom(alloc, out, atom)?;
    }
    out.push(']')
}

fn comparison(op: CompOp) -> &'static str {
    match op {
        CompOp::Eq => "=",
        CompOp::Ne => "<>",
        CompOp::Lt => "<",
        CompOp::Le => "<=",
        CompOp::Gt => ">",
        CompOp::Ge => ">=",
    }
}

fn sum_sign(op: SumOp) -> char {
    match op {
        SumOp::Add => '+',
        SumOp::Sub => '-',
        SumOp::Cat => '&',
    }
}

fn product_word(op: ProdOp) -> &'static str {
    match op {
        ProdOp::Mul => "*",
        ProdOp::Div => "/",
        ProdOp::Mod => "%",
    }
}

#[cycle(texts)]
pub fn put_expression(alloc: Global, out: &mut String, e: &Expr) -> Put {
    if e.rest.is_empty() {
        return put_conjunction(alloc, out, &e.first);
    }
    out.push_str("(or ")?;
    put_conjunction(alloc, out, &e.first)?;
    for operand in &e.rest {
        out.push(' ')?;
        put_conjunction(alloc, out, operand)?;
    }
    out.push(')')
}

#[cycle(texts)]
fn put_conjunction(alloc: Global, out: &mut String, e: &Conj) -> Put {
    if e.rest.is_empty() {
        return put_comparison(alloc, out, &e.first);
    }
    out.push_str("(and ")?;
    put_comparison(alloc, out, &e.first)?;
    for operand in &e.rest {
        out.push(' ')?;
        put_comparison(alloc, out, operand)?;
    }
    out.push(')')
}

#[cycle(texts)]
fn put_comparison(alloc: Global, out: &mut String, e: &Comp) -> Put {
    match &e.right {
        None => put_sum(alloc, out, &e.left),
        Some((op, right)) => {
            out.push('(')?;
            out.push_str(comparison(*op))?;
            out.push(' ')?;
            put_sum(alloc, out, &e.left)?;
            out.push(' ')?;
            put_sum(alloc, out, right)?;
            out.push(')')
        }
    }
}

#[cycle(texts)]
fn put_sum(alloc: Global, out: &mut String, e: &Sum) -> Put {
    if e.rest.is_empty() {
        return put_product(alloc, out, &e.first);
    }
    out.push_str("(sum ")?;
    put_product(alloc, out, &e.first)?;
    for (op, operand) in &e.rest {
        out.push(' ')?;
        out.push(sum_sign(*op))?;
        put_product(alloc, out, operand)?;
    }
    out.push(')')
}

#[cycle(texts)]
fn put_product(alloc: Global, out: &mut String, e: &Prod) -> Put {
    if e.rest.is_empty() {
        return put_unary(alloc, out, &e.first);
    }
    out.push_str("(product ")?;
    put_unary(alloc, out, &e.first)?;
    for (op, operand) in &e.rest {
        out.push(' ')?;
        out.push_str(product_word(*op))?;
        put_unary(alloc, out, operand)?;
    }
    out.push(')')
}

#[cycle(texts)]
fn put_unary(alloc: Global, out: &mut String, e: &Unary) -> Put {
    match e.op {
        Some(UnaryOp::Neg) => out.push_str("NEG ")?,
        Some(UnaryOp::Not) => out.push_str("NOT ")?,
        None => {}
    }
    put_primary(alloc, out, &e.primary)
}

#[cycle(texts)]
fn put_primary(alloc: Global, out: &mut String, e: &Primary) -> Put {
    match e {
        Primary::Literal(literal) => put_literal(alloc, out, literal),
        Primary::Path(path) => put_path(out, path),
        Primary::Size(path) => {
            out.push_str("size(")?;
            put_path(out, path)?;
            out.push(')')
        }
        Primary::Paren(e) => put_called(alloc, out, "paren(", e),
        Primary::Text(e) => put_called(alloc, out, "text(", e),
        Primary::Length(e) => put_called(alloc, out, "length(", e),
    }
}

#[cycle(texts)]
fn put_called(alloc: Global, out: &mut String, word: &str, e: &Expr) -> Put {
    out.push_str(word)?;
    put_expression(alloc, out, e)?;
    out.push(')')
}
