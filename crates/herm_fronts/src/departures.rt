//! Edges of control: what each drops, and where it arrives.
ghost use Rattle.std.specs.Prelude.{◌≡◌, ◌≤◌, ◌++◌, ◌∷◌, [], ℕ, map, MatchResult, OnOk};
ghost use Rattle.herm_model.specs.Outcomes.{same_outcome};
ghost use Rattle.herm_types.specs.View.{path_view};
ghost use Rattle.herm_typed.specs.View.{outcome_view};
ghost use Rattle.herm_instructions.specs.Instructions as model;
ghost use Rattle.herm_code.specs.View.{instr_view};
ghost use Rattle.herm_translated.specs.Departures.{arrive_by, edge_code, edge_length};
ghost use Rattle.herm_fronts.specs.Blocks.{arrival_view, departure_view, exits_view, starts_view};
ghost use Rattle.herm_fronts.specs.Lengths.{index_in};

use crate::numbers::{small, sum};
use crate::paths::copy_path;
use herm_base::ExcNo;
use herm_code::Instr;
use herm_typed::Outcome;
use herm_types::{Fact, Path};
use std::alloc::{AllocError, Global};

/// Where an edge arrives: at the first step of a node's block, at the second step of a `for`, or at an end.
#[derive(Clone, Copy)]
pub enum Arrival {
    Block(u32),
    SecondStep(u32),
    End,
    EndBy(ExcNo),
}

/// An edge: the outcome that takes it, with what it makes and takes away; the paths that it drops; the slots of the loops that it
/// leaves, innermost first; and where it arrives.
#[derive(Drop)]
pub struct Departure<'a> {
    pub outcome: Outcome,
    pub makes: &'a [Fact],
    pub kills: &'a [Path],
    pub drops: &'a [Path],
    pub slots: Vec<u32>,
    pub arrival: Arrival,
}

/// The edges of a block, of which the first begins at an index.
#[derive(Clone, Copy)]
pub struct Exits<'a> {
    pub first: u32,
    pub edges: &'a [Departure<'a>],
}

/// The indices at which blocks begin, and the one behind the last.
#[derive(Drop)]
pub struct Starts {
    pub at: Vec<u32>,
    pub end: u32,
}

/// How far behind its first step the second step of a `for` stands.
pub const SECOND_STEP: u32 = 3;

/// How many instructions an edge has; refused only where the number does not fit.
pub fn edge_length(d: &Departure<'_>) -> Result<u32, AllocError>
    ensures { MatchResult result (λ n. n ≡ edge_length (departure_view d.now)) (λ e. 4294967296 ≤ edge_length (departure_view d.now)) }
{
    let drops = small(d.drops.len())?;
    let slots = small(d.slots.len())?;
    let behind = sum(slots, 1)?;
    let length = sum(drops, behind)?;
    Ok(length)
}

/// Whether two outcomes are the same.
fn is_same(a: Outcome, b: Outcome) -> bool
    ensures { result ≡ same_outcome (outcome_view a) (outcome_view b) }
{
    match (a, b) {
        (Outcome::Ok, Outcome::Ok) => true,
        (Outcome::True, Outcome::True) => true,
        (Outcome::False, Outcome::False) => true,
        (Outcome::Turn, Outcome::Turn) => true,
        (Outcome::Done, Outcome::Done) => true,
        (Outcome::Component(c), Outcome::Component(d)) => c == d,
        (Outcome::Arm(m), Outcome::Arm(n)) => m == n,
        (Outcome::Raised(e), Outcome::Raised(f)) => e.0 == f.0,
        _ => false,
    }
}

/// The index at which the edge of an outcome begins; refused only where it does not fit.
#[tactic(auto, using(crate::proofs::Edges::edge_at_least))]
pub fn exit_at(exits: &Exits<'_>, o: Outcome) -> Result<u32, AllocError>
    ensures { MatchResult result (λ n. n ≡ exits_view exits.now (outcome_view o)) (λ e. 4294967296 ≤ exits_view exits.now (outcome_view o)) }
{
    let mut at = exits.first;
    let mut edges = exits.edges;
    'edges: while let [d, more @ ..] = edges {
        if is_same(d.outcome, o) {
            return Ok(at);
        }
        let length = edge_length(d)?;
        at = sum(at, length)?;
        edges = more;
    }
    Ok(at)
}

/// The index at which the block of a node begins.
fn start_of(starts: &Starts, node: u32) -> u32
    ensures { result ≡ starts_view starts.now node }
{
    match starts.at.as_slice().get(node as usize) {
        Some(at) => *at,
        None => starts.end,
    }
}

/// The last instruction of an edge; refused only where the index that it goes to does not fit.
fn arrive(starts: &Starts, arrival: Arrival) -> Result<Instr, AllocError>
    ensures { MatchResult result (λ i. instr_view i ≡ arrive_by (starts_view starts.now) (arrival_view arrival)) (λ e. 4294967296 ≤ index_in (arrive_by (starts_view starts.now) (arrival_view arrival))) }
{
    match arrival {
        Arrival::Block(node) => Ok(Instr::Jump(start_of(starts, node))),
        Arrival::SecondStep(node) => {
            let at = sum(start_of(starts, node), SECOND_STEP)?;
            Ok(Instr::Jump(at))
        }
        Arrival::End => Ok(Instr::End),
        Arrival::EndBy(e) => Ok(Instr::EndBy(e)),
    }
}

/// Appends what an edge drops.
fn push_drops(alloc: Global, drops: &[Path], out: &mut Vec<Instr>) -> Result<(), AllocError>
    ensures { OnOk result (map instr_view out.new.items ≡ map instr_view out.old.items ++ map model.Drop (map path_view drops.now)) }
{
    'drops: for path in drops {
        let path = copy_path(alloc, path)?;
        out.push(Instr::Drop(path))?;
    }
    Ok(())
}

/// Appends the loops that an edge leaves.
fn push_slots(slots: &[u32], out: &mut Vec<Instr>) -> Result<(), AllocError>
    ensures { OnOk result (map instr_view out.new.items ≡ map instr_view out.old.items ++ map model.LoopDrop slots.now) }
{
    'slots: for slot in slots {
        out.push(Instr::LoopDrop(*slot))?;
    }
    Ok(())
}

/// Appends an edge: what it drops, the loops that it leaves, and where it arrives.
pub fn push_edge(
    alloc: Global,
    starts: &Starts,
    d: &Departure<'_>,
    out: &mut Vec<Instr>,
) -> Result<(), AllocError>
    ensures { OnOk result (map instr_view out.new.items ≡ map instr_view out.old.items ++ edge_code (starts_view starts.now) (departure_view d.now)) }
{
    push_drops(alloc, d.drops, out)?;
    push_slots(d.slots.as_slice(), out)?;
    let last = arrive(starts, d.arrival)?;
    out.push(last)?;
    Ok(())
}
