//! The steps along the code from where a thread can stand.

ghost use Rattle.std.specs.Prelude.{◌≡◌, ◌+◌, ◌<◌, ◌≤◌, cond, IfNone, IfSome, ◌↔◌, ◌⊎◌, Contains, IfOk, IsTrue, OnOk, Some, true};
ghost use Rattle.code_paths.specs.Hops.{places_of};
ghost use Rattle.spots.specs.Spots.{AsksAt, IsQuestion, LeavesOut};
ghost use Rattle.spots.specs.Spots as spec;
ghost use Rattle.spots.specs.Leading.{AreFromStanding, IsLandingOf, IsFirst, IsMore, end_step, standing_step};

use crate::chain::Chain;
use crate::spot::{Position, Spot, Standing};
use code_paths::{CodeHop, CodePlace, hops_from};
use ports::Memory;
use program::{Items, Operand, Program};
use std::alloc::Global;
use thread_meaning::look;

/// One step from a spot: whether a jump is taken, and where it leads.
#[derive(Debug, Drop)]
pub struct Lead {
    pub taken: bool,
    pub to: Spot,
}

/// The steps from a spot, and whether some step was left out, since it takes one backward jump too many.
#[derive(Debug, Drop)]
pub struct Leads {
    pub steps: Items<Lead>,
    pub left_out: bool,
}

/// How a thread lands: its number, how many backward jumps it has taken then, and whether a jump leads there.
#[derive(Clone, Copy, Debug)]
struct Landing {
    thread: u32,
    jumps: u32,
    taken: bool,
}

/// From where a thread steps: its number, how many backward jumps it has taken, and how many it may take.
#[derive(Clone, Copy, Debug)]
struct Start {
    thread: u32,
    jumps: u32,
    limit: u32,
}

/// Whether an instruction that names this asks whether a thread is alive.
fn is_question(names: Operand) -> bool
    ensures { IsTrue result ↔ IsQuestion names }
{
    matches!(names, Operand::Alive(_))
}

/// Whether the instruction at the first of these places asks whether a thread is alive.
fn asks(program: &Program, places: &[CodePlace]) -> bool
    ensures { IsTrue result ↔ AsksAt program.now (places_of places.now) }
{
    let Some((at, _)) = places.split_first() else {
        return false;
    };
    match look(program, at.method, at.pc) {
        Ok(here) => is_question(here.names),
        Err(_) => false,
    }
}

/// The step to the end of a thread.
fn ending(landing: Landing) -> Lead
    ensures { result ≡ end_step landing }
{
    Lead {
        taken: landing.taken,
        to: Spot {
            thread: landing.thread,
            position: Position::End,
        },
    }
}

/// The step to an instruction with this answer.
fn standing(
    alloc: Global,
    landing: Landing,
    places: &[CodePlace],
    answer: bool,
) -> Result<Lead, Memory>
    ensures { IfOk result (λ lead. lead ≡ standing_step landing places.now answer) }
{
    let places = Chain::of_innermost_first(alloc, places)?;
    let stand = Standing {
        jumps: landing.jumps,
        places,
        answer,
    };
    Ok(Lead {
        taken: landing.taken,
        to: Spot {
            thread: landing.thread,
            position: Position::At(stand),
        },
    })
}

/// Adds the steps that land at these places: to an instruction stands one for each answer that it can give.
fn land(
    alloc: Global,
    program: &Program,
    landing: Landing,
    places: &[CodePlace],
    steps: &mut Items<Lead>,
) -> Result<(), Memory>
    ensures { OnOk result ((lead : Lead) → Contains steps.new lead ↔ (Contains steps.old lead ⊎ IsLandingOf program.now landing places.now lead)) }
{
    if places.is_empty() {
        steps.push(ending(landing))?;
        return Ok(());
    }
    steps.push(standing(alloc, landing, places, false)?)?;
    if asks(program, places) {
        steps.push(standing(alloc, landing, places, true)?)?;
    }
    Ok(())
}

/// How many backward jumps are taken after a hop; None where that is too many.
fn jumps_along(start: Start, backward: bool) -> Option<u32>
    ensures some { IfSome result (λ jumps. (jumps ≡ start.jumps + cond backward 1 0) × (jumps ≤ start.limit)) }
    ensures none { IfNone result (start.limit < start.jumps + cond backward 1 0) }
{
    let jumps = start.jumps.checked_add(u32::from(backward))?;
    if jumps <= start.limit {
        Some(jumps)
    } else {
        None
    }
}

/// Adds the steps along one hop.
fn along(
    alloc: Global,
    program: &Program,
    start: Start,
    hop: &CodeHop,
    leads: &mut Leads,
) -> Result<(), Memory>
    ensures { OnOk result (IsMore program.now start (Some hop.now) leads.old leads.new) }
{
    let Some(jumps) = jumps_along(start, hop.backward) else {
        leads.left_out = true;
        return Ok(());
    };
    let landing = Landing {
        thread: start.thread,
        jumps,
        taken: hop.taken,
    };
    land(alloc, program, landing, hop.to.as_slice(), &mut leads.steps)?;
    Ok(())
}

/// Adds the steps along a hop, where there is one.
fn along_one(
    alloc: Global,
    program: &Program,
    start: Start,
    hop: &Option<CodeHop>,
    leads: &mut Leads,
) -> Result<(), Memory>
    ensures { OnOk result (IsMore program.now start hop.now leads.old leads.new) }
{
    match hop {
        Some(hop) => along(alloc, program, start, hop, leads),
        None => Ok(()),
    }
}

/// The steps from before an instruction.
fn from_standing(
    alloc: Global,
    program: &Program,
    limit: u32,
    thread: u32,
    stand: &Standing,
) -> Result<Leads, Memory>
    ensures { IfOk result (AreFromStanding program.now limit thread stand.now) }
{
    let places = stand.places.innermost_first(alloc)?;
    let hops = hops_from(alloc, program, places.as_slice())?;
    let start = Start {
        thread,
        jumps: stand.jumps,
        limit,
    };
    let mut leads = Leads {
        steps: Items::new(alloc),
        left_out: false,
    };
    along_one(alloc, program, start, &hops.fall, &mut leads)?;
    along_one(alloc, program, start, &hops.jump, &mut leads)?;
    along_one(alloc, program, start, &hops.call, &mut leads)?;
    along_one(alloc, program, start, &hops.leave, &mut leads)?;
    Ok(leads)
}

/// The steps from where a thread begins.
fn from_begin(alloc: Global, program: &Program, thread: u32) -> Result<Items<Lead>, Memory>
    ensures { IfOk result (λ steps. (lead : Lead) → Contains steps lead ↔ IsFirst program.now thread lead) }
{
    let mut steps = Items::new(alloc);
    if thread >= program.threads() {
        return Ok(steps);
    }
    let entry = CodePlace {
        method: program.entry(thread),
        pc: 0,
    };
    let landing = Landing {
        thread,
        jumps: 0,
        taken: false,
    };
    land(alloc, program, landing, &[entry], &mut steps)?;
    Ok(steps)
}

/// The steps along the code from a spot, where at most so many backward jumps are taken.
///
/// # Errors
/// `Memory` where there is no room for them.
pub fn leads_from(
    alloc: Global,
    program: &Program,
    limit: u32,
    spot: &Spot,
) -> Result<Leads, Memory>
    ensures steps { IfOk result (λ leads. (lead : Lead) → Contains leads.steps lead ↔ spec.Leads program.now limit spot.now lead.taken lead.to) }
    ensures left_out { IfOk result (λ leads. (leads.left_out ≡ true) ↔ LeavesOut program.now limit spot.now) }
{
    match &spot.position {
        Position::Begin => Ok(Leads {
            steps: from_begin(alloc, program, spot.thread)?,
            left_out: false,
        }),
        Position::At(stand) => Ok(from_standing(alloc, program, limit, spot.thread, stand)?),
        Position::End => Ok(Leads {
            steps: Items::new(alloc),
            left_out: false,
        }),
    }
}
