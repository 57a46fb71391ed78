//! Which places of a method's code are reached.

ghost use Rattle.std.specs.Prelude.{◌≡◌, ◌≢◌, ◌<◌, ◌≤◌, ◌+◌, ◌^◌, ◌+ℤ◌, ◌∷◌, ◌++◌, [], ℕ, ℤ, pos, Some, length, replicate, IfOk, IfSome, IfNone, OnOk};
ghost use Rattle.std.specs.Option.{option_map};
ghost use Rattle.opcodes.specs.Instructions.{Decodes, FallsThrough, jump_of, length_of};
ghost use Rattle.opcodes.specs.Reached.{Reached};
ghost use Rattle.opcodes.specs.Survey.{IsRead, IsSurvey, IsSurveyOf, IsTouched, Reaches, place_at, work_of};

use crate::instruction::Instr;
use crate::reading::{Misread, instruction_at};
use std::alloc::{AllocError, Global};

/// What is known of a place of the code.
#[derive(Clone, Copy)]
pub enum Place {
    /// No successors lead there, as far as they were followed.
    Unreached,
    /// An instruction begins there.
    Holds(Instr),
    /// No instruction can be read there.
    Unreadable(Misread),
}

/// The places of a code, and those of the reached ones whose successors were not looked at.
#[derive(Drop)]
struct Survey {
    places: Vec<Place>,
    waiting: Vec<usize>,
}

/// What stands at a place.
fn place_of(code: &[u8], pc: usize) -> Place
    requires { pc < length code.now }
    ensures { IsRead code.now pc result }
{
    match instruction_at(code, pc) {
        Ok(instr) => Place::Holds(instr),
        Err(why) => Place::Unreadable(why),
    }
}

impl Survey {
    /// Only the first place is reached, and it waits.
    fn start(alloc: Global, code: &[u8]) -> Result<Survey, AllocError>
        requires { 0 < length code.now }
        ensures { IfOk result (λ s. IsSurvey code.now s.places.items s.waiting.items) }
    {
        let mut survey = Survey {
            places: unreached(alloc, code.len())?,
            waiting: Vec::new(alloc),
        };
        survey.reach(code, 0)?;
        Ok(survey)
    }

    /// Reads a place that was not reached before.
    fn reach(&mut self, code: &[u8], to: usize) -> Result<(), AllocError>
        requires inside { to < length code.now }
        requires same_length { length self.old.places.items ≡ length code.now }
        ensures { OnOk result (Reaches code.now self.old.places.items self.old.waiting.items to self.new.places.items self.new.waiting.items) }
    {
        if let Place::Unreached = self.places[to] {
            self.waiting.push(to)?;
            self.places[to] = place_of(code, to);
        }
        Ok(())
    }

    /// Reaches a target, where it lies in the code.
    #[tactic(auto, using(crate::proofs::Surveys::reached_survey))]
    fn follow(&mut self, code: &[u8], from: usize, target: Option<i64>) -> Result<(), AllocError>
        requires survey { IsSurvey code.now self.old.places.items (self.old.waiting.items ++ from ∷ []) }
        requires reached { (to : ℕ) → to < length code.now → target ≡ Some (pos to) → Reached code.now to }
        ensures survey { OnOk result (IsSurvey code.now self.new.places.items (self.new.waiting.items ++ from ∷ [])) }
        ensures touched { OnOk result ((to : ℕ) → to < length code.now → target ≡ Some (pos to) → IsTouched (place_at self.new.places.items to)) }
        ensures kept { OnOk result ((q : ℕ) → IsTouched (place_at self.old.places.items q) → IsTouched (place_at self.new.places.items q)) }
        ensures work { OnOk result (work_of self.new.places.items self.new.waiting.items ≡ work_of self.old.places.items self.old.waiting.items) }
    {
        if let Some(to) = place_in(code, target) {
            self.reach(code, to)?;
        }
        Ok(())
    }

    /// Reaches the successors of the instruction at a place.
    fn visit(&mut self, code: &[u8], from: usize, instr: &Instr) -> Result<(), AllocError>
        requires inside { from < length code.now }
        requires short { length code.now < 2 ^ 32 }
        requires survey { IsSurvey code.now self.old.places.items (self.old.waiting.items ++ from ∷ []) }
        requires holds { place_at self.old.places.items from ≡ Place.Holds instr.now }
        ensures survey { OnOk result (IsSurvey code.now self.new.places.items self.new.waiting.items) }
        ensures work { OnOk result (work_of self.new.places.items self.new.waiting.items ≡ work_of self.old.places.items self.old.waiting.items) }
    {
        self.follow(code, from, fall_target(instr, from))?;
        self.follow(code, from, jump_target(instr, from))?;
        Ok(())
    }

    /// Reaches the successors of a place that waited.
    fn step(&mut self, code: &[u8], from: usize) -> Result<(), AllocError>
        requires short { length code.now < 2 ^ 32 }
        requires survey { IsSurvey code.now self.old.places.items (self.old.waiting.items ++ from ∷ []) }
        ensures survey { OnOk result (IsSurvey code.now self.new.places.items self.new.waiting.items) }
        ensures work { OnOk result (work_of self.new.places.items self.new.waiting.items ≡ work_of self.old.places.items self.old.waiting.items) }
    {
        match self.places[from] {
            Place::Holds(instr) => self.visit(code, from, &instr),
            _ => Ok(()),
        }
    }
}

/// What stands at each reached place of the code.
pub fn reached_places(alloc: Global, code: &[u8]) -> Result<Vec<Place>, AllocError>
    requires some { 0 < length code.now }
    requires short { length code.now < 2 ^ 32 }
    ensures { IfOk result (λ places. IsSurveyOf code.now places.items) }
{
    let mut survey = Survey::start(alloc, code)?;
    while let Some(from) = survey.waiting.pop() {
        survey.step(code, from)?;
    }
    Ok(survey.places)
}

/// As many places as this, none reached.
fn unreached(alloc: Global, count: usize) -> Result<Vec<Place>, AllocError>
    ensures { IfOk result (λ places. places.items ≡ replicate count Place.Unreached) }
{
    vec![in alloc; Place::Unreached; count]
}

/// The place of the code that a target names, if it lies in the code.
fn place_in(code: &[u8], target: Option<i64>) -> Option<usize>
    ensures some { IfSome result (λ to. (to < length code.now) × (target ≡ Some (pos to))) }
    ensures none { IfNone result ((to : ℕ) → to < length code.now → target ≢ Some (pos to)) }
{
    let to = usize::try_from(target?).ok()?;
    if to < code.len() { Some(to) } else { None }
}

/// The place behind the instruction, where it may come next.
pub fn fall_target(instr: &Instr, pc: usize) -> Option<i64>
    requires { pc < 2 ^ 32 }
    ensures some { IfSome result (λ to. FallsThrough instr.now × (to ≡ pos (pc + length_of instr.now))) }
    ensures none { IfNone result (FallsThrough instr.now → ⊥) }
{
    if instr.falls_through() {
        Some(pc as i64 + i64::from(instr.length()))
    } else {
        None
    }
}

/// The place that the instruction may jump to.
pub fn jump_target(instr: &Instr, pc: usize) -> Option<i64>
    requires { pc < 2 ^ 32 }
    ensures { result ≡ option_map (λ distance. pos pc +ℤ distance) (jump_of instr.now) }
{
    instr.jump().map(|distance| pc as i64 + i64::from(distance))
}
