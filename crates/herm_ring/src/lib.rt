//! The program of a ring of nodes.
#![tactic(auto)]

ghost use Rattle.std.specs.Prelude.{◌≡◌, ◌≤◌, ◌++◌, ◌*◌, IfOk, OnOk};
ghost use Rattle.herm_ring.specs.Ring.{closing_lines, definition_lines, hops_line, line, main_lines, making_lines};
ghost use Rattle.herm_ring.specs.Ring.{node_lines, nodes_line, numbered, opening_lines, text_of};
ghost use Rattle.herm_ring.specs.Ring.{ring_text as wanted_text};

use herm_base::decimal;
use std::alloc::{AllocError, Global};

/// The text of the ring of so many nodes, at most 1,000, in which a token makes 100 hops for each node.
#[tactic(auto, using(crate::proofs::Parts::joined))]
pub fn ring_text(alloc: Global, nodes: u32) -> Result<Vec<u8>, AllocError>
    requires few { nodes ≤ 1000 }
    ensures text { IfOk result (λ text. text.items ≡ wanted_text nodes) }
{
    let mut out = Vec::new(alloc);
    push_definitions(&mut out)?;
    push_node(&mut out)?;
    push_main(&mut out, nodes)?;
    Ok(out)
}

// Appends the main process.
#[tactic(auto, using(crate::proofs::Parts::joined))]
fn push_main(out: &mut Vec<u8>, nodes: u32) -> Result<(), AllocError>
    requires few { nodes ≤ 1000 }
    ensures text { OnOk result (out.new.items ≡ out.old.items ++ text_of (main_lines nodes)) }
{
    push_opening(out)?;
    push_nodes(out, nodes)?;
    push_making(out)?;
    push_hops(out, 100 * nodes)?;
    push_closing(out)?;
    Ok(())
}

#[tactic(auto, unfolding(crate::specs::Ring::definition_lines))]
fn push_definitions(out: &mut Vec<u8>) -> Result<(), AllocError>
    ensures text { OnOk result (out.new.items ≡ out.old.items ++ text_of definition_lines) }
{
    out.extend_from_slice(
        b"definitions ring {
  type token_in = inport of integer;
  type token_out = outport of token_in;
  type node_message = record { inp: token_in, next: token_out, out: console_out };
  type node_start = inport of node_message;
  type node_out = outport of node_start;
}
",
    )?;
    Ok(())
}

// Appends the process of a node.
#[tactic(auto, unfolding(crate::specs::Ring::node_lines))]
fn push_node(out: &mut Vec<u8>) -> Result<(), AllocError>
    ensures text { OnOk result (out.new.items ≡ out.old.items ++ text_of node_lines) }
{
    out.extend_from_slice(
        b"process node(start: node_start) {
  var m: node_message, n: integer, s: string;
  receive m from start;
  while true {
    receive n from m.inp;
    if n = 0 {
      s := \"token home\";
      send s to m.out;
    }
    if n < 1 {
      try {
        n := n - 1;
        send n to m.next;
      } on Disconnected {
      }
      leave;
    }
    n := n - 1;
    send n to m.next;
  }
}
",
    )?;
    Ok(())
}

// Appends the main process, before the number of nodes.
#[tactic(auto, unfolding(crate::specs::Ring::opening_lines))]
fn push_opening(out: &mut Vec<u8>) -> Result<(), AllocError>
    ensures text { OnOk result (out.new.items ≡ out.old.items ++ text_of opening_lines) }
{
    out.extend_from_slice(
        b"process main(start: main_start) {
  var m: main_message, first: token_in, head: token_out, next: token_out,
    i: token_in, o: token_out, c: node_message, p: node_out, k: integer;
  receive m from start;
  new first;
  connect head to first;
  next := head;
  k := 1;
",
    )?;
    Ok(())
}

// Appends the line with the number of nodes.
#[tactic(auto, unfolding(crate::specs::Ring::nodes_line))]
fn push_nodes(out: &mut Vec<u8>, nodes: u32) -> Result<(), AllocError>
    ensures text { OnOk result (out.new.items ≡ out.old.items ++ line (nodes_line nodes)) }
{
    push_numbered(out, b"  while k < ", nodes, b" {")?;
    Ok(())
}

// Appends what makes the nodes.
#[tactic(auto, unfolding(crate::specs::Ring::making_lines))]
fn push_making(out: &mut Vec<u8>) -> Result<(), AllocError>
    ensures text { OnOk result (out.new.items ≡ out.old.items ++ text_of making_lines) }
{
    out.extend_from_slice(
        b"    new i;
    connect o to i;
    new c;
    move i to c.inp;
    c.next := next;
    c.out := m.out;
    create p of node;
    send c to p;
    next := o;
    k := k + 1;
  }
  new c;
  move first to c.inp;
  c.next := next;
  c.out := m.out;
  create p of node;
  send c to p;
",
    )?;
    Ok(())
}

// Appends the line with the number of hops.
#[tactic(auto, unfolding(crate::specs::Ring::hops_line))]
fn push_hops(out: &mut Vec<u8>, hops: u32) -> Result<(), AllocError>
    ensures text { OnOk result (out.new.items ≡ out.old.items ++ line (hops_line hops)) }
{
    push_numbered(out, b"  k := ", hops, b";")?;
    Ok(())
}

// Appends a line with a number in it.
fn push_numbered(
    out: &mut Vec<u8>,
    before: &[u8],
    number: u32,
    behind: &[u8],
) -> Result<(), AllocError>
    ensures text { OnOk result (out.new.items ≡ out.old.items ++ line (numbered before.now number behind.now)) }
{
    out.extend_from_slice(before)?;
    decimal(out, number as u64)?;
    out.extend_from_slice(behind)?;
    out.push(b'\n')?;
    Ok(())
}

// Appends the end of the main process.
#[tactic(auto, unfolding(crate::specs::Ring::closing_lines))]
fn push_closing(out: &mut Vec<u8>) -> Result<(), AllocError>
    ensures text { OnOk result (out.new.items ≡ out.old.items ++ text_of closing_lines) }
{
    out.extend_from_slice(b"  send k to head;\n}\n")?;
    Ok(())
}

#[cfg(test)]
mod tests;
