//! Facts that are lost share searches, 64 by 64.
use crate::rows::programs_lack_what_is_due;
use std::alloc::{AllocError, Global};
use std::test::Fail;

type Put = Result<(), AllocError>;

/// Appends the declarations of so many texts.
fn put_variables(alloc: Global, count: u32, line: &mut String) -> Put {
    line.push_str("process main(start: main_start) { var m: main_message")?;
    for number in 0..count {
        let variable = format!(in alloc; ", x{number}: string")?;
        line.push_str(variable.as_str())?;
    }
    line.push_str("; receive m from start; ")
}

/// Appends the statements that lack them.
fn put_statements(alloc: Global, count: u32, line: &mut String) -> Put {
    for number in 0..count {
        let statement = format!(in alloc; "@discard x{number}; ")?;
        line.push_str(statement.as_str())?;
    }
    line.push_str("} ")
}

/// Appends what is due of them.
fn put_due(alloc: Global, count: u32, line: &mut String) -> Put {
    let mut hops = String::new(alloc);
    for number in 0..count {
        let before = number.saturating_add(1);
        let hop = format!(in alloc; " {before}:ok")?;
        hops.push_str(hop.as_str())?;
        let statement = number.saturating_add(2);
        let due = format!(in alloc; "! {statement} needs init(x{number}) by start")?;
        line.push_str(due.as_str())?;
        line.push_str(hops.as_str())?;
        line.push(' ')?;
    }
    Ok(())
}

#[test]
fn so_many_facts_are_lost_as_some_searches_serve(rt: HostRuntime) -> Result<(), Fail> {
    let alloc = rt.alloc();
    for count in [2, 64, 65, 130] {
        let mut line = String::new(alloc);
        put_variables(alloc, count, &mut line)?;
        put_statements(alloc, count, &mut line)?;
        put_due(alloc, count, &mut line)?;
        let rows = programs_lack_what_is_due(&rt, alloc, line.as_str())?;
        assert_eq!(rt; rows, 1);
    }
    Ok(())
}
