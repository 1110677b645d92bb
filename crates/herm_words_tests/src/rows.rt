//! Missing facts by numbers. A row is a process's number, a fact and hops. A fact is a word of digits, as `4` for `init` of variable 4, `40` for its
//! part 0, `4=1` for its component 1. A hop is a statement's number and an outcome: `o` for `ok`, `t`, `f`, `u` for `turn`, `d` for `done`, and
//! `c`, `a` or `e` with the number of a component, an arm or an exception. Each hop leads to a visit, numbered from 1 on, from the visit before it, or from
//! the one whose digit stands before it, as in `2>4o`; visit 0 is reached by no hop.
use herm_base::{ExcNo, StmtNo, VarNo};
use herm_check::{Hop, Link, Search, Visit};
use herm_facts::FactSet;
use herm_typed::Outcome;
use herm_types::{Fact, Path};
use std::alloc::{AllocError, Global};

pub fn digit(byte: u8) -> u32 {
    u32::from(byte.saturating_sub(b'0'))
}

fn path_of(alloc: Global, word: &[u8]) -> Result<Path, AllocError> {
    let mut parts = Vec::new(alloc);
    let mut var = 0;
    for (i, byte) in word.iter().enumerate() {
        if i == 0 {
            var = digit(*byte);
        } else {
            parts.push(digit(*byte))?;
        }
    }
    Ok(Path {
        var: VarNo(var),
        parts,
    })
}

/// The fact of a word.
pub fn fact_of(alloc: Global, word: &[u8]) -> Result<Fact, AllocError> {
    match word {
        [path @ .., b'=', component] => {
            let path = path_of(alloc, path)?;
            Ok(Fact::Case(path, digit(*component)))
        }
        _ => {
            let path = path_of(alloc, word)?;
            Ok(Fact::Init(path))
        }
    }
}

fn outcome_of(letter: u8, number: u32) -> Outcome {
    match letter {
        b'o' => Outcome::Ok,
        b't' => Outcome::True,
        b'f' => Outcome::False,
        b'u' => Outcome::Turn,
        b'd' => Outcome::Done,
        b'c' => Outcome::Component(number),
        b'a' => Outcome::Arm(number),
        _ => Outcome::Raised(ExcNo(number)),
    }
}

fn hop_of(word: &[u8]) -> Hop {
    let mut stmt = 0;
    let mut letter = b'?';
    let mut number = 0;
    for byte in word {
        if !byte.is_ascii_digit() {
            letter = *byte;
        } else if letter == b'?' {
            stmt = u32::wrapping_add(u32::wrapping_mul(stmt, 10), digit(*byte));
        } else {
            number = digit(*byte);
        }
    }
    Hop {
        stmt: StmtNo(stmt),
        outcome: outcome_of(letter, number),
    }
}

fn link_of(word: &[u8], before: usize) -> Link {
    match word {
        [from, b'>', hop @ ..] => Link {
            from: digit(*from) as usize,
            hop: hop_of(hop),
        },
        _ => Link {
            from: before,
            hop: hop_of(word),
        },
    }
}

fn visit_by(last: Option<Link>) -> Visit {
    Visit {
        point: 0,
        held: false,
        facts: FactSet::none(),
        depth: 0,
        last,
    }
}

/// The fact of a row and a search, behind the process's number. Of the visits only the links count.
pub fn search_of(alloc: Global, row: &str) -> Result<(Fact, Search), AllocError> {
    let mut words = row.split_whitespace();
    let first = words.next();
    let fact = match words.next() {
        Some(word) => fact_of(alloc, word.as_bytes())?,
        None => fact_of(alloc, b"0")?,
    };
    let mut visits = Vec::new(alloc);
    visits.push(visit_by(None))?;
    let mut before = 0;
    for word in words {
        let link = link_of(word.as_bytes(), before);
        before = visits.len();
        visits.push(visit_by(Some(link)))?;
    }
    let _ = first;
    let search = Search {
        visits,
        seen: Vec::new(alloc),
        places: Vec::new(alloc),
    };
    Ok((fact, search))
}
