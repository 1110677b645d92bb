//! What stands around the statements of a row.

/// Definitions, and variables of process 1.
pub const BEFORE: &str = "\
definitions example {
exception e;
type rec = record { n: integer, s: string };
type var_t = variant { a: integer, b: rec };
type tab = table of rec key (n, s);
type li = inport of integer;
}
process main(start: main_start) { var i: integer, j: integer, b: boolean, v: var_t, r: rec, x: tab, li: li, mi: li; ";

/// The end of process 1, and a process of two statements, of which one stands within the other.
pub const BEHIND: &str = " }\n\
process worker(start: li) { var n: integer; while true { n := 1; } }";
