//! Sums of what parts of a run count. Sums of cells are cut at 2^63.
ghost use Rattle.std.specs.Prelude.{◌≡◌, ◌+◌, ◌≤◌, length};
ghost use Rattle.herm_model.specs.Lists.{total};
ghost use Rattle.herm_system.specs.Summary.{cut, how_many};
ghost use Rattle.herm_waking.specs.AddedCounts.{added};

use crate::counting::{PortCounts, ProcCounts};

/// The most cells that are told.
const MOST_CELLS: u64 = 1 << 63;

/// The cells that are made at the start: the inports of the console and of the first port, and the first message with its two parts.
const OPENING_CELLS: u64 = 5;

/// The cell that the console holds: the inport of its port.
const CONSOLE_CELLS: u64 = 1;

/// The sum of two numbers of cells, cut.
fn sum(a: u64, b: u64) -> u64
    ensures sum { result ≡ cut (a + b) }
{
    a.saturating_add(b).min(MOST_CELLS)
}

fn steps(processes: &[ProcCounts]) -> u64
    requires few { length processes.now ≤ 1024 }
    ensures steps { result ≡ total (λ p. p.steps) processes.now }
{
    let mut steps = 0;
    for process in processes {
        steps += process.steps as u64;
    }
    steps
}

fn actions(processes: &[ProcCounts]) -> u64
    requires few { length processes.now ≤ 1024 }
    ensures actions { result ≡ total (λ p. p.actions) processes.now }
{
    let mut actions = 0;
    for process in processes {
        actions += process.actions as u64;
    }
    actions
}

/// How many steps, and how many actions, all processes have made.
pub fn steps_and_actions(processes: &[ProcCounts]) -> (u64, u64)
    requires few { length processes.now ≤ 1024 }
    ensures steps { result.0 ≡ total (λ p. p.steps) processes.now }
    ensures actions { result.1 ≡ total (λ p. p.actions) processes.now }
{
    (steps(processes), actions(processes))
}

/// How many ports are open.
pub fn unclosed(ports: &[PortCounts]) -> u64
    ensures unclosed { result ≡ how_many (λ p. p.is_open) ports.now }
{
    let mut count = 0;
    for port in ports {
        if port.is_open {
            count += 1;
        }
    }
    count
}

#[tactic(auto, using(crate::proofs::Cuts::cut_step, crate::proofs::Cuts::cut_start))]
fn all_made(processes: &[ProcCounts]) -> u64
    ensures made { result ≡ added (λ p. p.made) processes.now }
{
    let mut made = 0;
    for process in processes {
        made = sum(made, process.made);
    }
    made
}

/// How many cells were made: those at the start, and those of processes.
pub fn made(processes: &[ProcCounts]) -> u64
    ensures made { result ≡ cut (5 + added (λ p. p.made) processes.now) }
{
    sum(OPENING_CELLS, all_made(processes))
}

#[tactic(auto, using(crate::proofs::Cuts::cut_step, crate::proofs::Cuts::cut_start))]
fn all_held(processes: &[ProcCounts]) -> u64
    ensures held { result ≡ added (λ p. p.held) processes.now }
{
    let mut held = 0;
    for process in processes {
        held = sum(held, process.held);
    }
    held
}

/// How many cells are held: by the console, and by processes.
pub fn held(processes: &[ProcCounts]) -> u64
    ensures held { result ≡ cut (1 + added (λ p. p.held) processes.now) }
{
    sum(CONSOLE_CELLS, all_held(processes))
}

/// How many cells processes have finalised.
#[tactic(auto, using(crate::proofs::Cuts::cut_step, crate::proofs::Cuts::cut_start))]
pub fn finalised(processes: &[ProcCounts]) -> u64
    ensures finalised { result ≡ added (λ p. p.finalised) processes.now }
{
    let mut finalised = 0;
    for process in processes {
        finalised = sum(finalised, process.finalised);
    }
    finalised
}

#[tactic(auto, using(crate::proofs::Cuts::cut_step, crate::proofs::Cuts::cut_start))]
fn queued_at_ports(ports: &[PortCounts]) -> u64
    ensures queued { result ≡ added (λ p. p.cells) ports.now }
{
    let mut queued = 0;
    for port in ports {
        queued = sum(queued, port.cells);
    }
    queued
}

#[tactic(auto, using(crate::proofs::Cuts::cut_step, crate::proofs::Cuts::cut_start))]
fn queued_as_replies(replies: &[u64]) -> u64
    ensures queued { result ≡ added (λ n. n) replies.now }
{
    let mut queued = 0;
    for cells in replies {
        queued = sum(queued, *cells);
    }
    queued
}

/// How many cells wait at ports and in reply cells.
pub fn queued(ports: &[PortCounts], replies: &[u64]) -> u64
    ensures queued { result ≡ cut (added (λ p. p.cells) ports.now + added (λ n. n) replies.now) }
{
    sum(queued_at_ports(ports), queued_as_replies(replies))
}
