//! The ring's text, written out.
use crate::ring_text;
use std::test::Fail;

const UP_TO_THE_NODES: &str = "definitions ring {
  type token_in = inport of integer;
  type token_out = outport of token_in;
  type node_message = record { inp: token_in, next: token_out, out: console_out };
  type node_start = inport of node_message;
  type node_out = outport of node_start;
}
process node(start: node_start) {
  var m: node_message, n: integer, s: string;
  receive m from start;
  while true {
    receive n from m.inp;
    if n = 0 {
      s := \"token home\";
      send s to m.out;
    }
    if n < 1 {
      try {
        n := n - 1;
        send n to m.next;
      } on Disconnected {
      }
      leave;
    }
    n := n - 1;
    send n to m.next;
  }
}
process main(start: main_start) {
  var m: main_message, first: token_in, head: token_out, next: token_out,
    i: token_in, o: token_out, c: node_message, p: node_out, k: integer;
  receive m from start;
  new first;
  connect head to first;
  next := head;
  k := 1;
  while k < ";

const UP_TO_THE_HOPS: &str = "
    new i;
    connect o to i;
    new c;
    move i to c.inp;
    c.next := next;
    c.out := m.out;
    create p of node;
    send c to p;
    next := o;
    k := k + 1;
  }
  new c;
  move first to c.inp;
  c.next := next;
  c.out := m.out;
  create p of node;
  send c to p;
  k := ";

const BEHIND_THE_HOPS: &str = "
  send k to head;
}
";

#[test]
fn rings_of_one_two_and_three_nodes_are_as_written_out(rt: HostRuntime) -> Result<(), Fail> {
    for (nodes, nodes_text, hops_text) in [
        (1, "1 {", "100;"),
        (2, "2 {", "200;"),
        (3, "3 {", "300;"),
        (64, "64 {", "6400;"),
        (1000, "1000 {", "100000;"),
    ] {
        let text = ring_text(rt.alloc(), nodes)?;
        let mut due = String::new(rt.alloc());
        due.push_str(UP_TO_THE_NODES)?;
        due.push_str(nodes_text)?;
        due.push_str(UP_TO_THE_HOPS)?;
        due.push_str(hops_text)?;
        due.push_str(BEHIND_THE_HOPS)?;
        assert_eq!(rt; text.as_slice(), due.as_bytes());
    }
    Ok(())
}
