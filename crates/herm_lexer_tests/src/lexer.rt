use herm_lexer::{Keyword, LexFault, Mark, Token, TokenKind, lex};
use std::alloc::{AllocError, Global};
use std::test::Fail;

// A letter for the kind, and what the token is: the letters of its keyword, its name, its number, its content or the
// characters of its sign. A `!` where other bytes stand at its place; around a string stand two quotes.
fn add_shown(
    alloc: Global,
    out: &mut Vec<u8>,
    source: &[u8],
    token: &Token,
) -> Result<(), AllocError> {
    let start = token.span.start as usize;
    let end = token.span.end as usize;
    let text = source.get(start..end).unwrap_or(b"none".as_slice());
    if !out.is_empty() {
        out.push(b' ')?;
    }
    let (letter, shown) = match &token.kind {
        TokenKind::Key(keyword) => (b'K', keyword.letters().to_vec(alloc)?),
        TokenKind::Ident(word) => (b'I', word.bytes().to_vec(alloc)?),
        TokenKind::Int(number) => (b'N', format!(in alloc; "{number}")?.into_bytes()),
        TokenKind::Text(word) => (b'T', word.bytes().to_vec(alloc)?),
        TokenKind::Sign(mark) => (b'S', mark.characters().to_vec(alloc)?),
    };
    out.push(letter)?;
    let is_there = if letter == b'T' {
        text.first() == Some(&b'"') && text.last() == Some(&b'"')
    } else {
        text == shown.as_slice()
    };
    if !is_there {
        out.push(b'!')?;
    }
    out.extend_from_slice(&shown)
}

// The tokens of a source, or its fault, as text.
fn shown(alloc: Global, source: &[u8]) -> Result<Vec<u8>, AllocError> {
    let mut out = Vec::new(alloc);
    match lex(alloc, source) {
        Ok(tokens) => {
            for token in &tokens {
                add_shown(alloc, &mut out, source, token)?;
            }
        }
        Err(fault) => {
            let text = format!(in alloc; "{fault}")?;
            out.extend_from_slice(text.as_bytes())?;
        }
    }
    Ok(out)
}

#[test]
fn sources_give_their_tokens_or_the_first_fault(rt: HostRuntime) -> Result<(), Fail> {
    for (source, want) in [
        ("", ""),
        (" \t\r\n", ""),
        (
            "process main(start: main_start) { n := 00; }",
            "token at 39",
        ),
        (
            "process main(start: main_start) { n := 0; }",
            "Kprocess Imain S( Istart S: Imain_start S) S{ In S:= N0 S; S}",
        ),
        ("a.while", "Ia S. Kwhile"),
        ("wraps wrap", "Iwraps Kwrap"),
        ("12a", "token at 0"),
        ("x 0x", "token at 2"),
        ("1_", "token at 0"),
        ("_a", "token at 0"),
        ("a_1 And", "Ia_1 IAnd"),
        ("9223372036854775807", "N9223372036854775807"),
        (" 9223372036854775808", "too long at 1"),
        ("99999999999999999999a", "token at 0"),
        ("-1", "S- N1"),
        ("\"\"", "T"),
        ("\"\\\"\\\\a\\n\"", "T\"\\a\n"),
        ("a \"\\t\"", "token at 2"),
        ("\"a\tb\"", "token at 0"),
        ("x\"ab\ncd\"", "token at 1"),
        ("\"ab", "token at 0"),
        ("\"ab\\", "token at 0"),
        ("\"ab\\\"", "token at 0"),
        ("\"a\\\"b\"", "Ta\"b"),
        ("\"\\q\u{7f}\"", "byte at 3"),
        ("\"\u{e9}", "byte at 1"),
        ("\"a\"\u{7f}", "byte at 3"),
        ("-- \u{7f}", "byte at 3"),
        ("--", ""),
        ("a--b\nc", "Ia Ic"),
        ("a---", "Ia"),
        ("a- -b", "Ia S- S- Ib"),
        ("::=", "S: S:="),
        ("<>=", "S<> S="),
        ("<<=>>=>", "S< S<= S> S>= S>"),
        (
            "(){}[],;:.#=+*&",
            "S( S) S{ S} S[ S] S, S; S: S. S# S= S+ S* S&",
        ),
        ("a!", "token at 1"),
        ("00 \u{7f}", "token at 0"),
    ] {
        let text = shown(rt.alloc(), source.as_bytes())?;
        assert_eq!(rt; text.as_slice(), want.as_bytes(), "at {source}");
    }
    Ok(())
}

// A byte, then so many others, and a last one.
fn framed(
    alloc: Global,
    first: u8,
    byte: u8,
    count: usize,
    last: u8,
) -> Result<Vec<u8>, AllocError> {
    let mut out = Vec::new(alloc);
    out.push(first)?;
    for _ in 0..count {
        out.push(byte)?;
    }
    out.push(last)?;
    Ok(out)
}

#[test]
fn limits_are_exact(rt: HostRuntime) -> Result<(), Fail> {
    for (first, byte, count, last, want) in [
        (b'a', b'b', 62, b'c', None),
        (b'a', b'b', 63, b'c', Some(LexFault::TooLong(0))),
        (b'"', b'b', 4096, b'"', None),
        (b'"', b'b', 4097, b'"', Some(LexFault::TooLong(0))),
        (b'"', b'b', 4097, b'\n', Some(LexFault::Token(0))),
        (b' ', b'\n', 1_048_574, b'-', None),
        (
            b' ',
            b'\n',
            1_048_575,
            b'-',
            Some(LexFault::TooLong(1_048_576)),
        ),
        (b'_', b'\n', 1_048_575, b'-', Some(LexFault::Token(0))),
        (b'"', b'a', 1_048_575, b'"', Some(LexFault::Token(0))),
        (0xff, b'a', 0, b'a', Some(LexFault::Byte(0))),
    ] {
        let source = framed(rt.alloc(), first, byte, count, last)?;
        assert!(rt;
            lex(rt.alloc(), source.as_slice()).err() == want,
            "at {first} {count}"
        );
    }
    Ok(())
}

#[test]
fn tokens_have_their_kinds_and_places(rt: HostRuntime) -> Result<(), Fail> {
    let tokens = lex(rt.alloc(), b" var 7;")?;
    let [key, number, sign] = tokens.as_slice() else {
        return Err(Fail::from(AllocError));
    };
    assert!(rt;
        key.kind == TokenKind::Key(Keyword::KwVar) && key.span.start == 1 && key.span.end == 4
    );
    assert!(rt; number.kind == TokenKind::Int(7) && number.span.start == 5 && number.span.end == 6);
    assert!(rt;
        sign.kind == TokenKind::Sign(Mark::Semicolon) && sign.span.start == 6 && sign.span.end == 7
    );
    Ok(())
}
