//! Programs, compiled and led to their end.
use herm_base::{Limits, Word};
use herm_code::Image;
use herm_compile::{CompileFault, Compiled, compile};
use herm_text::{Asked, run_text, status};
use herm_world::{Counts, Report, World, WorldStep, is_main};
use std::alloc::{AllocError, Global};

/// The limits of a run: processes, ports and steps of one process.
#[derive(Clone, Copy)]
pub struct Most {
    pub processes: u64,
    pub ports: u64,
    pub steps: u64,
}

/// The limits where none is given.
pub const USUAL: Most = Most {
    processes: 64,
    ports: 1024,
    steps: 100_000,
};

/// What a run comes to.
#[derive(Drop)]
pub struct Ending {
    pub text: Vec<u8>,
    pub status: u8,
    pub counts: Counts,
}

type Files = Vec<(Word, Vec<u8>)>;

fn files_of(alloc: Global, contents: &[&[u8]]) -> Result<Files, AllocError> {
    let mut files = Vec::new(alloc);
    for bytes in contents {
        let file = (Word::of(alloc, b"a.hm")?, bytes.to_vec(alloc)?);
        files.push(file)?;
    }
    Ok(files)
}

/// The faults of these files, each with its file, its column and its code.
pub fn faults_of(alloc: Global, contents: &[&[u8]]) -> Result<Vec<(u32, u32, u8)>, AllocError> {
    let files = files_of(alloc, contents)?;
    match compile(alloc, files.as_slice()) {
        Ok(_compiled) => Ok(Vec::new(alloc)),
        Err(fault) => told_faults(alloc, &fault),
    }
}

fn told_faults(alloc: Global, fault: &CompileFault) -> Result<Vec<(u32, u32, u8)>, AllocError> {
    let mut told = Vec::new(alloc);
    match fault {
        CompileFault::Refused(faults) => {
            for fault in faults.as_slice() {
                told.push((fault.file, fault.column, fault.code))?;
            }
        }
        CompileFault::Memory => return Err(AllocError),
    }
    Ok(told)
}

/// The program of these files, if it is accepted.
fn compiled_of(alloc: Global, contents: &[&[u8]]) -> Result<Option<Compiled>, AllocError> {
    let files = files_of(alloc, contents)?;
    match compile(alloc, files.as_slice()) {
        Ok(compiled) => Ok(Some(compiled)),
        Err(CompileFault::Refused(_)) => Ok(None),
        Err(CompileFault::Memory) => Err(AllocError),
    }
}

/// How the turn of a process went, and whether it could step before and behind it.
#[derive(Clone, Copy, Debug, PartialEq, Eq)]
pub struct Turned {
    pub before: bool,
    pub step: WorldStep,
    pub behind: bool,
}

fn limits_of(most: Most) -> Option<Limits> {
    match Limits::new(most.processes, most.ports, most.steps, 1) {
        Ok(limits) => Some(limits),
        Err(_) => None,
    }
}

/// The report of a run along a schedule and then by rounds.
fn report_of(
    alloc: Global,
    image: &Image,
    main: u32,
    most: Most,
    schedule: &[u32],
) -> Result<Option<Report>, AllocError> {
    let Some(limits) = limits_of(most) else {
        return Ok(None);
    };
    if !is_main(image, main) {
        return Ok(None);
    }
    let mut world = World::begin(alloc, image, main, limits, b"")?;
    world.run(schedule)?;
    world.rounds()?;
    let report = world.report(alloc)?;
    Ok(Some(report))
}

/// The report of a run along a schedule, then of a turn of process 1, and then by rounds, with how the turn went.
fn turned_report_of(
    alloc: Global,
    image: &Image,
    main: u32,
    most: Most,
    schedule: &[u32],
) -> Result<Option<(Turned, Report)>, AllocError> {
    let Some(limits) = limits_of(most) else {
        return Ok(None);
    };
    if !is_main(image, main) {
        return Ok(None);
    }
    let mut world = World::begin(alloc, image, main, limits, b"")?;
    world.run(schedule)?;
    if !world.is_made(1) {
        return Ok(None);
    }
    let before = world.can_step(1);
    let step = world.step(1);
    if matches!(step, WorldStep::Memory) {
        return Err(AllocError);
    }
    let behind = world.can_step(1);
    world.rounds()?;
    let report = world.report(alloc)?;
    let turned = Turned {
        before,
        step,
        behind,
    };
    Ok(Some((turned, report)))
}

/// What is told of a report.
fn told(alloc: Global, image: &Image, report: &Report, asked: Asked) -> Result<Ending, AllocError> {
    let text = run_text(alloc, report, image.types().exceptions(), asked)?;
    Ok(Ending {
        text,
        status: status(report),
        counts: report.counts,
    })
}

/// What a program of these files comes to, along a schedule and then by rounds, if it is accepted.
pub fn ending_of(
    alloc: Global,
    contents: &[&[u8]],
    most: Most,
    schedule: &[u32],
    asked: Asked,
) -> Result<Option<Ending>, AllocError> {
    let Some(compiled) = compiled_of(alloc, contents)? else {
        return Ok(None);
    };
    let image = &compiled.image;
    let Some(report) = report_of(alloc, image, compiled.program.main, most, schedule)? else {
        return Ok(None);
    };
    let ending = told(alloc, image, &report, asked)?;
    Ok(Some(ending))
}

/// The same with a turn of process 1 behind the schedule, and how that went.
pub fn turn_of(
    alloc: Global,
    contents: &[&[u8]],
    most: Most,
    schedule: &[u32],
    asked: Asked,
) -> Result<Option<(Turned, Ending)>, AllocError> {
    let Some(compiled) = compiled_of(alloc, contents)? else {
        return Ok(None);
    };
    let image = &compiled.image;
    let main = compiled.program.main;
    let Some((turned, report)) = turned_report_of(alloc, image, main, most, schedule)? else {
        return Ok(None);
    };
    let ending = told(alloc, image, &report, asked)?;
    Ok(Some((turned, ending)))
}
