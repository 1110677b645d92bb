//! Whether the processes of a program are accepted.
ghost use Rattle.std.specs.Prelude.{◌≡◌, ◌<◌, ◌++◌, ℕ, List, length, map, IfOk, IfErr, OnOk};
ghost use Rattle.herm_model.specs.Lists.{IsIn};
ghost use Rattle.herm_model.specs.Statements.{Process};
ghost use Rattle.herm_model.specs.TypedPrograms.{IsTypedProcess};
ghost use Rattle.herm_typed.specs.View.{typed_process_view};
ghost use Rattle.herm_typed.specs.Beside.{KnowTypes};
ghost use Rattle.herm_meaning.specs.Names.{NamedTable};
ghost use Rattle.herm_typed.specs.declared.statements.TypedProcess.{TypedProcess as Typed};
ghost use Rattle.herm_check.specs.Missing.{ArePlaced, refusal_of, refusals_of};
ghost use Rattle.herm_check.specs.declared.search.Search.{Search as SearchOf};
ghost use Rattle.herm_types.specs.declared.fact.Fact.{Fact as FactOf};
ghost use Rattle.herm_words.specs.Sites.{sites_in};
ghost use Rattle.herm_accept.specs.Accepted.{AreAccepted};
ghost use Rattle.herm_accept.specs.Judged.{IsKnown, IsAdded, IsJudged};
ghost use Rattle.herm_model.specs.ControlPaths.{flow_of};
ghost use Rattle.herm_flow.specs.View.{flow_view};
ghost use Rattle.herm_accept.specs.Lacking.{start_in, lack_view, lacking, EachOf, IsLost, IsTold, IsFaultOf};

use crate::checked::check_process;
use herm_base::StmtNo;
use herm_check::{CheckFault, Missing, MissingAt, Search};
use herm_coerce::{Coercions, coerce};
use herm_flow::{Flow, flow_of};
use herm_typed::TypedProcess;
use herm_types::{Fact, TypeTable};
use herm_typestate::Labels;
use herm_words::{LostFact, MissingFact, Paths, Site, lost_of, paths_of, sites_of};
use std::alloc::{AllocError, Global};
use std::rc::Rc;

/// Of each process by its number: its flow, what is held at each point of it, and what each of its edges finalises.
#[derive(Drop)]
pub struct Accepted {
    pub flows: Vec<Flow>,
    pub labels: Vec<Labels>,
    pub coercions: Vec<Coercions>,
}

/// A fact that a statement needs and that is not held on some path: the number of the process, the place in bytes where the
/// statement begins in the file of its module, and what is missing.
#[derive(Drop)]
pub struct Lack {
    pub process: usize,
    pub start: u32,
    pub missing: MissingFact,
}

/// Why processes are not accepted: what they lack, or want of memory.
#[derive(Drop)]
pub enum AcceptFault {
    Missing(Vec<Lack>),
    Memory,
}

impl From<AllocError> for AcceptFault {
    ghost use Rattle.herm_accept.specs.declared.accepting.AcceptFault.TheVariants.{Memory};
    ghost use Rattle.std.specs.Prelude.{◌≡◌};

    ghost from_gives = { λ _ fault. fault ≡ Memory };

    fn from(_: AllocError) -> AcceptFault {
        AcceptFault::Memory
    }
}

/// Where the statement with a number begins.
fn start_of(sites: &[Site], number: StmtNo) -> u32
    ensures { result ≡ start_in sites.now number.0 }
{
    if number.0 == 0 {
        return 0;
    }
    match sites.get(number.0 as usize - 1) {
        Some(site) => site.span.start,
        None => 0,
    }
}

/// What is told of the facts that a process lacks somewhere, by their numbers.
fn tell_facts(
    alloc: Global,
    types: &TypeTable,
    p: &TypedProcess,
    facts: Vec<Fact>,
) -> Result<Vec<Rc<LostFact>>, AllocError>
    ensures { IfOk result (λ all. EachOf (IsLost types.now p.now) facts.items (map (λ lost. lost.value) all.items)) }
{
    let mut all = Vec::new(alloc);
    'facts: for fact in facts {
        let lost = lost_of(alloc, types, p, fact)?;
        all.push(Rc::new(alloc, lost)?)?;
    }
    Ok(all)
}

/// What is told of the searches for these facts, by their numbers.
fn tell_searches(
    alloc: Global,
    types: &TypeTable,
    sites: &[Site],
    searches: Vec<Search>,
) -> Result<Vec<Rc<Paths>>, AllocError>
    ensures { IfOk result (λ all. EachOf (IsTold types.now sites.now) searches.items (map (λ paths. paths.value) all.items)) }
{
    let mut all = Vec::new(alloc);
    'searches: for search in searches {
        let paths = paths_of(alloc, types, sites, search)?;
        all.push(Rc::new(alloc, paths)?)?;
    }
    Ok(all)
}

/// A missing fact with its place.
fn lack_of(
    number: usize,
    sites: &[Site],
    facts: &[Rc<LostFact>],
    searches: &[Rc<Paths>],
    missing: MissingAt,
) -> Result<Lack, AllocError>
    requires fact { missing.fact < length facts.now }
    requires search { missing.search < length searches.now }
    ensures { IfOk result (λ l. (types : NamedTable) (p : Typed) (lost : List FactOf) (found : List SearchOf) → sites.now ≡ sites_in p → EachOf (IsLost types p) lost (map (λ lost. lost.value) facts.now) → EachOf (IsTold types sites.now) found (map (λ paths. paths.value) searches.now) → lack_view l ≡ lacking types number p (refusal_of lost found missing)) }
{
    let start = start_of(sites, missing.stmt);
    let lost = facts[missing.fact].clone()?;
    let paths = searches[missing.search].clone()?;
    Ok(Lack {
        process: number,
        start,
        missing: MissingFact {
            stmt: missing.stmt,
            lost,
            paths,
            place: missing.place,
        },
    })
}

/// Adds what a process lacks.
pub fn add_lacks(
    alloc: Global,
    types: &TypeTable,
    number: usize,
    p: &TypedProcess,
    all: Missing,
    lacks: &mut Vec<Lack>,
) -> Result<(), AllocError>
    requires { ArePlaced all }
    ensures { OnOk result (map lack_view lacks.new.items ≡ map lack_view lacks.old.items ++ map (lacking types.now number p.now) (refusals_of all)) }
{
    let sites = sites_of(alloc, p)?;
    let facts = tell_facts(alloc, types, p, all.lost)?;
    let searches = tell_searches(alloc, types, sites.as_slice(), all.searches)?;
    'missing: for missing in all.facts {
        let lack = lack_of(
            number,
            sites.as_slice(),
            facts.as_slice(),
            searches.as_slice(),
            missing,
        )?;
        lacks.push(lack)?;
    }
    Ok(())
}

/// Adds a flow that is accepted.
fn add_accepted(
    alloc: Global,
    flow: Flow,
    labels: Labels,
    accepted: &mut Accepted,
) -> Result<(), AllocError>
    ensures { OnOk result (IsAdded flow labels accepted.old accepted.new) }
{
    let coercions = coerce(alloc, &flow, &labels)?;
    accepted.flows.push(flow)?;
    accepted.labels.push(labels)?;
    accepted.coercions.push(coercions)?;
    Ok(())
}

/// The flow of a process.
fn flow(alloc: Global, types: &TypeTable, p: &TypedProcess) -> Result<Flow, AllocError>
    requires { IsKnown types.now p.now }
    ensures { IfOk result (λ f. flow_view f ≡ flow_of types.now.shapes (typed_process_view p.now)) }
{
    let flow = flow_of(alloc, types, p)?;
    Ok(flow)
}

/// Checks a process, and adds what is found of it.
fn judge(
    alloc: Global,
    types: &TypeTable,
    number: usize,
    p: &TypedProcess,
    accepted: &mut Accepted,
    lacks: &mut Vec<Lack>,
) -> Result<(), AllocError>
    requires { IsKnown types.now p.now }
    ensures { OnOk result (IsJudged types.now number p.now accepted.old lacks.old.items accepted.new lacks.new.items) }
{
    match check_process(alloc, types, p) {
        Ok(labels) => {
            let flow = flow(alloc, types, p)?;
            add_accepted(alloc, flow, labels, accepted)?;
            Ok(())
        }
        Err(CheckFault::Missing(all)) => {
            add_lacks(alloc, types, number, p, all, lacks)?;
            Ok(())
        }
        Err(CheckFault::Memory) => Err(AllocError),
    }
}

/// Whether the processes of a typed program are accepted: of each its flow, exactly what is held at each of its points, and what
/// its edges finalise; or, where some lack facts, exactly these, by process, by statement and then in the order of needs, each with
/// a shortest path on which it is not held.
pub fn accept(
    alloc: Global,
    types: &TypeTable,
    processes: &[TypedProcess],
) -> Result<Accepted, AcceptFault>
    requires typed { (p : Process) → IsIn p (map typed_process_view processes.now) → IsTypedProcess (length types.now.exceptions) types.now.shapes (map typed_process_view processes.now) p }
    requires known { KnowTypes types.now.shapes processes.now }
    ensures accepted { IfOk result (λ a. AreAccepted types.now.shapes processes.now a.flows.items a.labels.items a.coercions.items) }
    ensures missing { IfErr result (λ fault. IsFaultOf types.now processes.now fault) }
{
    let mut accepted = Accepted {
        flows: Vec::new(alloc),
        labels: Vec::new(alloc),
        coercions: Vec::new(alloc),
    };
    let mut lacks = Vec::new(alloc);
    'processes: for (number, p) in processes.iter().enumerate() {
        judge(alloc, types, number, p, &mut accepted, &mut lacks)?;
    }
    let count = lacks.len();
    if count == 0 {
        return Ok(accepted);
    }
    Err(AcceptFault::Missing(lacks))
}
