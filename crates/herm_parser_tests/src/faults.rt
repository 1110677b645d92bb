//! Source texts without a tree, written by hand from the grammar: each place where a token may be missing or another one stands.
//! `@` stands before the token with which no file goes on, or behind the last token where the file goes on.
use crate::shape::answer;
use std::alloc::Global;
use std::process::Abort;
use std::test::Fail;

/// Each line of the table without its mark has a syntax fault at the mark. Gives the number of lines.
fn have_faults(rt: &impl Abort, alloc: Global, table: &str) -> Result<u32, Fail> {
    let mut count: u32 = 0;
    for row in table.lines() {
        let mut source = String::new(alloc);
        let mut mark = 0;
        for byte in row.as_bytes() {
            if *byte == b'@' {
                mark = source.len();
            } else {
                source.push(*byte as char)?;
            }
        }
        let expected = format!(in alloc; "F4 {mark}")?;
        let found = answer(alloc, source.as_str())?;
        assert_eq!(rt; found.as_str(), expected.as_str(), "{row}");
        count = count.saturating_add(1);
    }
    Ok(count)
}

#[test]
fn modules(rt: HostRuntime) -> Result<(), Fail> {
    let rows = "\
@d
@definition d { }
@exception e;
@}
@;
definitions@
definitions @{ }
definitions @type { }
definitions d@
definitions d @}
definitions d {@
definitions d { } @}
definitions d { @leave; }
definitions d { @d
definitions d { exception @; }
definitions d { exception @of; }
definitions d { exception e @}
definitions d { type @= enum { a }; }
definitions d { type t @enum { a }; }
definitions d { type t @:= enum { a }; }
definitions d { type t = @; }
definitions d { type t = @t; }
process @(a: b) { }
process @in(a: b) { }
process p @{ }
process p(@) { }
process p(@1: b) { }
process p(a@) { }
process p(a: @) { }
process p(a: @in) { }
process p(a: b@, c: d) { }
process p(a: b) @leave;
process p(a: b) { var @; }
process p(a: b) { var x @; }
process p(a: b) { var x: @; }
process p(a: b) { var x: y @leave; }
process p(a: b) { var x: y, @; }
process p(a: b) { var x: y; @var z: y; }
process p(a: b) { leave; @var x: y; }
process p(a: b) { leave;@
process p(a: b) { leave;@ -- }
process p(a: b) { } @leave;";
    let count = have_faults(&rt, rt.alloc(), rows)?;
    assert_eq!(rt; count, 42);
    Ok(())
}

#[test]
fn shapes(rt: HostRuntime) -> Result<(), Fail> {
    let rows = "\
definitions d { type t = enum @a }; }
definitions d { type t = enum { @}; }
definitions d { type t = enum { a, @}; }
definitions d { type t = enum { a @b }; }
definitions d { type t = enum { @1 }; }
definitions d { type t = enum { a } @}
definitions d { type t = record @a: b }; }
definitions d { type t = record { @}; }
definitions d { type t = record { a @}; }
definitions d { type t = record { a: @}; }
definitions d { type t = record { a: @in }; }
definitions d { type t = record { a: b, @}; }
definitions d { type t = record { a: b @c: d }; }
definitions d { type t = variant @;; }
definitions d { type t = variant { @}; }
definitions d { type t = variant { a @, b }; }
definitions d { type t = table @r key (a); }
definitions d { type t = table of @key (a); }
definitions d { type t = table of r @(a); }
definitions d { type t = table of r key @a; }
definitions d { type t = table of r key (@); }
definitions d { type t = table of r key (a, @); }
definitions d { type t = table of r key (a@;
definitions d { type t = table of r key (a@.b); }
definitions d { type t = inport @m; }
definitions d { type t = inport of @;; }
definitions d { type t = inport of m { @}; }
definitions d { type t = inport of m { @a }; }
definitions d { type t = inport of m { init @a }; }
definitions d { type t = inport of m { init(@) }; }
definitions d { type t = inport of m { init(a.@) }; }
definitions d { type t = inport of m { init(a@, b) }; }
definitions d { type t = inport of m { full(a@, b) }; }
definitions d { type t = inport of m { case(a@) }; }
definitions d { type t = inport of m { case(a, @) }; }
definitions d { type t = inport of m { case(a, b@.c) }; }
definitions d { type t = inport of m { init(a) @init(b) }; }
definitions d { type t = inport of m { init(a), @}; }
definitions d { type t = outport @m; }
definitions d { type t = outport of @;; }
definitions d { type t = outport of m @{ }; }
definitions d { type t = callmessage @;; }
definitions d { type t = callmessage (@a: b); }
definitions d { type t = callmessage (in @: b); }
definitions d { type t = callmessage (in a@); }
definitions d { type t = callmessage (in a: b,@); }
definitions d { type t = callmessage (in a: b @out c: d); }
definitions d { type t = callmessage () @raise (x); }
definitions d { type t = callmessage () raises @x; }
definitions d { type t = callmessage () raises (@); }
definitions d { type t = callmessage () raises (x { @}); }
definitions d { type t = callmessage () raises (x { full @a }); }
definitions d { type t = callmessage () raises (x { full(a@.b) }); }
definitions d { type t = callmessage () raises (x { @init(a) }); }
definitions d { type t = callmessage () raises (x { full(a) @full(b) }); }
definitions d { type t = callmessage () raises (x,@); }
definitions d { type t = callmessage () raises (@in); }";
    let count = have_faults(&rt, rt.alloc(), rows)?;
    assert_eq!(rt; count, 57);
    Ok(())
}

#[test]
fn statements(rt: HostRuntime) -> Result<(), Fail> {
    let rows = "\
process p(a: b) { x @; }
process p(a: b) { x @= 1; }
process p(a: b) { x. @:= 1; }
process p(a: b) { x.@1 := 1; }
process p(a: b) { @in := 1; }
process p(a: b) { @1 := 2; }
process p(a: b) { @; }
process p(a: b) { @(x) := 1; }
process p(a: b) { x := @; }
process p(a: b) { x := 1@
process p(a: b) { x := 1 @}
process p(a: b) { x := 1 @leave; }
process p(a: b) { x := a = b @= c; }
process p(a: b) { x := a < b @<= c; }
process p(a: b) { x := a = b and c = d @= e; }
process p(a: b) { x := a +@; }
process p(a: b) { x := a *@; }
process p(a: b) { x := a and@; }
process p(a: b) { x := a or@; }
process p(a: b) { x := a =@; }
process p(a: b) { x := - @-a; }
process p(a: b) { x := not @not a; }
process p(a: b) { x := -@; }
process p(a: b) { x := a @not b; }
process p(a: b) { x := (@); }
process p(a: b) { x := (a@; }
process p(a: b) { x := a@); }
process p(a: b) { x := size@; }
process p(a: b) { x := size(@1); }
process p(a: b) { x := size(a@; }
process p(a: b) { x := text(@); }
process p(a: b) { x := text(a@; }
process p(a: b) { x := length @a; }
process p(a: b) { x := length(a @b); }
process p(a: b) { x := c#@; }
process p(a: b) { x := c#@1; }
process p(a: b) { x := c.d@#e; }
process p(a: b) { x := @in; }
process p(a: b) { x := a.b@(1); }
process p(a: b) { x := 1@.b; }
process p(a: b) { x := \"a\" @\"b\"; }
process p(a: b) { move @to x; }
process p(a: b) { move y @x; }
process p(a: b) { move y to @; }
process p(a: b) { move y to x@
process p(a: b) { unite v @from y; }
process p(a: b) { unite v.c @y; }
process p(a: b) { unite v.c from @; }
process p(a: b) { dissolve v @into y; }
process p(a: b) { dissolve v.c @to y; }
process p(a: b) { dissolve v.c into y @}
process p(a: b) { wrap y @to p; }
process p(a: b) { wrap @1 as p; }
process p(a: b) { insert r @to t; }
process p(a: b) { insert r into @; }
process p(a: b) { connect o @into i; }
process p(a: b) { connect o to @; }
process p(a: b) { send x @from o; }
process p(a: b) { send @\"a\"; } }
process p(a: b) { receive x @to i; }
process p(a: b) { receive @from i; }
process p(a: b) { new @; }
process p(a: b) { new x @y; }
process p(a: b) { new x.@; }
process p(a: b) { discard @in; }
process p(a: b) { discard x@
process p(a: b) { reveal v@; }
process p(a: b) { reveal v. @; }
process p(a: b) { remove r @t[1]; }
process p(a: b) { remove r from t@; }
process p(a: b) { remove r from t[@]; }
process p(a: b) { remove r from t[1,@]; }
process p(a: b) { remove r from t[1 @2]; }
process p(a: b) { remove r from t[1@; }
process p(a: b) { get r from t[@-1]; }
process p(a: b) { get r from t[a] @}
process p(a: b) { get r from t[@(1)]; }
process p(a: b) { unwrap p @into y; }
process p(a: b) { unwrap p as @into y; }
process p(a: b) { unwrap p as t@.u into y; }
process p(a: b) { unwrap p as t @; }
process p(a: b) { unwrap p as t into @; }
process p(a: b) { call o@; }
process p(a: b) { call o(@,); }
process p(a: b) { call o(a,@); }
process p(a: b) { call o(a @b); }
process p(a: b) { call o(a@; }
process p(a: b) { call o() @}
process p(a: b) { call @(); }
process p(a: b) { return @; }
process p(a: b) { return m @of e; }
process p(a: b) { return m exception @; }
process p(a: b) { return m exception e@.f; }
process p(a: b) { create o @p; }
process p(a: b) { create o of @; }
process p(a: b) { create o of p@.q; }
process p(a: b) { raise @; }
process p(a: b) { raise e@.f; }
process p(a: b) { raise @in; }
process p(a: b) { leave @x; }
process p(a: b) { leave@
process p(a: b) { case @{ when a { } } }
process p(a: b) { case v @when a { } }
process p(a: b) { case v { @}
process p(a: b) { case v { when @{ } } }
process p(a: b) { case v { when a@.b { } } }
process p(a: b) { case v { when a @leave; } }
process p(a: b) { case v { when a { } @leave; } }
process p(a: b) { case v { when a {@
process p(a: b) { case v { when a { }@
process p(a: b) { for r @of t { } }
process p(a: b) { for r in @{ } }
process p(a: b) { for r in t @leave; }
process p(a: b) { for @in t { } }
process p(a: b) { for @1 in t { } }
process p(a: b) { select @when a receive b { } }
process p(a: b) { select { @}
process p(a: b) { select { when @receive b { } } }
process p(a: b) { select { when a @{ } } }
process p(a: b) { select { when a receive @{ } } }
process p(a: b) { select { when a receive b @}
process p(a: b) { select { when a receive b { } @when2 { } } }
process p(a: b) { if @{ } }
process p(a: b) { if a @leave; }
process p(a: b) { if a { } else @leave; }
process p(a: b) { if a { } else @if b { } }
process p(a: b) { if a { } else2 @1; }
process p(a: b) { @else { } }
process p(a: b) { if a { } else { } @else { } }
process p(a: b) { while @{ } }
process p(a: b) { while a @leave; }
process p(a: b) { while (a @{ } }
process p(a: b) { while a {@
process p(a: b) { try @on e { } }
process p(a: b) { try { } @leave; }
process p(a: b) { try { }@
process p(a: b) { try { } on @{ } }
process p(a: b) { try { } on @in { } }
process p(a: b) { try { } on e@.f { } }
process p(a: b) { try { } on e @leave; }
process p(a: b) { @on e { } }
process p(a: b) { @when a { } }
process p(a: b) { try { } on e { } @else { } }";
    let count = have_faults(&rt, rt.alloc(), rows)?;
    assert_eq!(rt; count, 143);
    Ok(())
}
