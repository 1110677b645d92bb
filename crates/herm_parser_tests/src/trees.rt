//! Source texts and their trees, written by hand from the grammar: each alternative of it once at least.
//! Behind `=>` stands the tree as a short text.
use crate::shape::answer;
use std::alloc::Global;
use std::process::Abort;
use std::test::Fail;

/// Each line of the table, within the texts before and behind, has its tree. Gives the number of lines.
fn have_trees(
    rt: &impl Abort,
    alloc: Global,
    file: (&str, &str),
    tree: (&str, &str),
    table: &str,
) -> Result<u32, Fail> {
    let mut count: u32 = 0;
    for row in table.lines() {
        let (source, shape) = match row.split_once("=>") {
            Some((source, shape)) => (source.trim(), shape.trim()),
            None => (row, "no tree is given"),
        };
        let source = format!(in alloc; "{}{source}{}", file.0, file.1)?;
        let expected = format!(in alloc; "{}{shape}{}", tree.0, tree.1)?;
        let found = answer(alloc, source.as_str())?;
        assert_eq!(rt; found.as_str(), expected.as_str(), "{row}");
        count = count.saturating_add(1);
    }
    Ok(count)
}

#[test]
fn files_and_definitions(rt: HostRuntime) -> Result<(), Fail> {
    let rows = "\
=>
-- a comment =>
definitions d { } => D d
definitions d { exception e; exception f; } => D d<e!><f!>
definitions d { type t = enum { a }; } => D d<t=Names[a]>
definitions d { type t = enum { a, in, b }; } => D d<t=Names[a in b]>
definitions d { type t = record { a: b }; } => D d<t=Fields[a:b]>
definitions d { type t = record { a: b, of: c }; } => D d<t=Fields[a:b of:c]>
definitions d { type t = variant { a: b }; } => D d<t=Cases[a:b]>
definitions d { type t = variant { a: b, c: d, key: f }; } => D d<t=Cases[a:b c:d key:f]>
definitions d { type t = table of r key (a); } => D d<t=Rows r[a]>
definitions d { type t = table of r key (a, key); } => D d<t=Rows r[a key]>
definitions d { type t = inport of m; } => D d<t=Inport m>
definitions d { type t = inport of m { init(a) }; } => D d<t=Inport m init a>
definitions d { type t = inport of m { init(a.b), full(c.in), case(d.e.f, out) }; } => D d<t=Inport m init a.b full c.in case d.e.f=out>
definitions d { type t = outport of q; } => D d<t=Outport q>
definitions d { type t = callmessage (); } => D d<t=CallMessage>
definitions d { type t = callmessage (in a: b, inout c: d, out out: f); } => D d<t=CallMessage in a:b inout c:d out out:f>
definitions d { type t = callmessage () raises (x); } => D d<t=CallMessage raises x>
definitions d { type t = callmessage (out a: b) raises (x, y { full(a), full(in) }); } => D d<t=CallMessage out a:b raises x raises y[a in]>
process p(a: b) { } => P p(a:b)[]{}
process p(out: b) { var x: y; } => P p(out:b)[x:y]{}
process p(a: b) { var x: y, in: z; leave; } => P p(a:b)[x:y in:z]{1 Leave}
definitions d { } process p(a: b) { leave; leave; } process q(a: b) { leave; } definitions e { } => D d | P p(a:b)[]{1 Leave; 2 Leave} | P q(a:b)[]{1 Leave} | D e";
    let count = have_trees(&rt, rt.alloc(), ("", ""), ("", ""), rows)?;
    assert_eq!(rt; count, 24);
    Ok(())
}

#[test]
fn statements_and_expressions(rt: HostRuntime) -> Result<(), Fail> {
    let rows = "\
x := 1; => 1 Assign x 1
x.in.of := \"a\\\"\"; => 1 Assign x.in.of \"a\"\"
x := true; => 1 Assign x TRUE
x := false; => 1 Assign x FALSE
x := c#red; => 1 Assign x c#red
x := c#in; => 1 Assign x c#in
x := a.b; => 1 Assign x a.b
x := size(t.in); => 1 Assign x size(t.in)
x := text(1); => 1 Assign x text(1)
x := length(a & b); => 1 Assign x length((sum a &b))
x := (a); => 1 Assign x paren(a)
x := -a; => 1 Assign x NEG a
x := not a; => 1 Assign x NOT a
x := a + b - c & d; => 1 Assign x (sum a +b -c &d)
x := a * b div c mod d; => 1 Assign x (product a *b /c %d)
x := a + b * c; => 1 Assign x (sum a +(product b *c))
x := (a + b) * c; => 1 Assign x (product paren((sum a +b)) *c)
x := a = b; => 1 Assign x (= a b)
x := a <> b; => 1 Assign x (<> a b)
x := a < b; => 1 Assign x (< a b)
x := a <= b; => 1 Assign x (<= a b)
x := a > b; => 1 Assign x (> a b)
x := a >= b; => 1 Assign x (>= a b)
x := (a = b) = c; => 1 Assign x (= paren((= a b)) c)
x := a and b and c; => 1 Assign x (and a b c)
x := a or b and c or d; => 1 Assign x (or a (and b c) d)
x := not a = b; => 1 Assign x (= NOT a b)
x := a or b and c = d + e * -f; => 1 Assign x (or a (and b (= c (sum d +(product e *NEG f)))))
move y to x; => 1 Move y x
unite v.c from y; => 1 Unite v.c y
dissolve v.c into y; => 1 Dissolve v.c y
wrap y as p; => 1 Wrap y p
insert r into t; => 1 Insert r t
connect o to i; => 1 Connect o i
send x.in to o.out; => 1 Send x.in o.out
receive x from i; => 1 Receive x i
new x; => 1 New x
discard x; => 1 Discard x
reveal v.in; => 1 Reveal v.in
remove r from t[1]; => 1 Remove r t[1]
get r from t[k, \"a\", c#in, true, s.k]; => 1 Get r t[k \"a\" c#in TRUE s.k]
unwrap p as t into y; => 1 Unwrap p t y
call o(); => 1 Call o[]
call o.in(a, 1); => 1 Call o.in[a 1]
return m; => 1 Return m
return m exception e; => 1 ReturnBy m e
create o of p; => 1 Create o p
raise e; => 1 Raise e
leave; => 1 Leave
case v { when in { } } => 1 Case v when in{}
case v.c { when a { leave; } when b { leave; leave; } } leave; => 1 Case v.c when a{2 Leave} when b{3 Leave; 4 Leave}; 5 Leave
for r in t { } => 1 For r t{}
for r in t.of { leave; } leave; => 1 For r t.of{2 Leave}; 3 Leave
select { when a receive b { } } => 1 Select when a b{}
select { when a.in receive b { leave; } when c receive d.out { leave; } } leave; => 1 Select when a.in b{2 Leave} when c d.out{3 Leave}; 4 Leave
if a { } => 1 If a{}
if a { x := 1; } else { leave; } new x; => 1 If a{2 Assign x 1} else{3 Leave}; 4 New x
if a { if b { } else { leave; } } => 1 If a{2 If b{} else{3 Leave}}
if a { if b { } } else { leave; } => 1 If a{2 If b{}} else{3 Leave}
while a { } => 1 While a{}
while a < b { while c { leave; } leave; } => 1 While (< a b){2 While c{3 Leave}; 4 Leave}
try { } on e { } => 1 Try{} on e{}
try { leave; } on e { leave; } on f { leave; } leave; => 1 Try{2 Leave} on e{3 Leave} on f{4 Leave}; 5 Leave
try { try { } on e { } on f { } } on g { } => 1 Try{2 Try{} on e{} on f{}} on g{}";
    let count = have_trees(
        &rt,
        rt.alloc(),
        ("process p(a: b) { ", " }"),
        ("P p(a:b)[]{", "}"),
        rows,
    )?;
    assert_eq!(rt; count, 64);
    Ok(())
}
