//! The third phase at the top call: files whose names and types are wrong, and files that mean a program.
use crate::call::{call, plain};
use std::alloc::{AllocError, Global};
use std::process::Abort;
use std::test::Fail;

const WRONG: &str = "process main(start: main_start) {
  var x: integer, y: nope;
  x := \"a\";
  z := 1;
  leave;
}
";

/// Compares what is written of a file, with status 1.
fn refuses(
    rt: &impl Abort,
    alloc: Global,
    bytes: &[u8],
    text: &[u8],
    about: &str,
) -> Result<(), AllocError> {
    let files: [(&str, &[u8]); 1] = [("a.hm", bytes)];
    let got = call(alloc, &["run", "a.hm"], &plain(&files))?;
    assert_eq!(rt; got.0.status, 1, "{about}");
    assert_eq!(rt; got.1.as_slice(), text, "{about}");
    assert!(rt; got.0.report.is_none(), "{about}");
    Ok(())
}

#[test]
fn names_and_types_are_refused_at_their_places(rt: HostRuntime) -> Result<(), Fail> {
    let rows: [(&str, &str, &str); 3] = [
        (
            "a declaration and statements",
            WRONG,
            "a.hm:2:19: F14 unknown\na.hm:3:3: F16 type\na.hm:4:3: F14 unknown\na.hm:5:3: F14 unknown\n",
        ),
        (
            "no main behind a fault",
            "process p(s: main_start) {\n  leave;\n}\n",
            "a.hm:2:3: F14 unknown\nhermes: F19 no main\n",
        ),
        (
            "behind a raise",
            "process main(s: main_start) {\n  raise Overflow;\n  discard s;\n}\n",
            "a.hm:3:3: F18 unreachable\n",
        ),
    ];
    for (about, text, wanted) in rows {
        refuses(&rt, rt.alloc(), text.as_bytes(), wanted.as_bytes(), about)?;
    }
    Ok(())
}
