//! The runs of threads, and the method that an instruction leads to.

ghost use Rattle.std.specs.Prelude.{◌≡◌, ◌↔◌, IfOk, Some, position};
ghost use Rattle.program.specs.declared.method.MethodId.{MethodId};
ghost use Rattle.reached_methods.specs.Exploring.{LeadsTo};
ghost use Rattle.reached_methods.specs.Reached.{AreRuns, run_of};
ghost use Rattle.resolution.specs.Targets.{is_run};

use crate::adding::push;
use class_format::{ClassRecord, Member, PoolEntries};
use ports::Memory;
use program::MethodId;
use resolution::{Target, is_run};
use std::alloc::Global;

/// The place of the first run among methods.
fn run_place(pool: &PoolEntries, methods: &[Member]) -> Option<usize>
    ensures { result ≡ position (is_run pool.now) methods.now }
{
    methods.iter().position(|method| is_run(pool, method))
}

/// The run of the threads of the class at this place.
fn run_of(classes: &[ClassRecord], class_at: u32) -> Result<Option<MethodId>, Memory>
    ensures { IfOk result (λ run. run ≡ run_of classes.now class_at) }
{
    let Some(class) = classes.get(class_at as usize) else {
        return Ok(None);
    };
    let Some(place) = run_place(&class.pool, class.methods.as_slice()) else {
        return Ok(None);
    };
    match u32::try_from(place) {
        Ok(method) => Ok(Some(MethodId {
            class: class_at,
            method,
        })),
        Err(_) => Err(Memory),
    }
}

/// The runs of the threads of each class, by the place of the class.
fn ids_of(alloc: Global, classes: &[ClassRecord]) -> Result<Vec<Option<MethodId>>, Memory>
    ensures { IfOk result (λ ids. AreRuns classes.now ids.items) }
{
    let mut ids = Vec::new(alloc);
    for place in 0..classes.len() {
        let Ok(class_at) = u32::try_from(place) else {
            return Err(Memory);
        };
        push(&mut ids, run_of(classes, class_at)?)?;
    }
    Ok(ids)
}

/// Classes with a table of the run of the threads of each.
#[derive(Drop)]
pub struct Runs<'a> {
    pub classes: &'a [ClassRecord],
    ids: Vec<Option<MethodId>>,
    ghost are: { AreRuns classes.now ids.items },
}

impl<'a> Runs<'a> {
    /// The table of the classes. What is refused is want of memory, to which a number past 2^32 counts.
    pub fn of(alloc: Global, classes: &'a [ClassRecord]) -> Result<Runs<'a>, Memory>
        ensures { IfOk result (λ runs. runs.classes.now ≡ classes.now) }
    {
        let ids = ids_of(alloc, classes)?;
        Ok(Runs { classes, ids })
    }

    /// The run of the threads of the class at this place.
    pub fn run_of(&self, class_at: u32) -> Option<MethodId>
        ensures { result ≡ run_of self.now.classes.now class_at }
    {
        match self.ids.get(class_at as usize) {
            Some(id) => *id,
            None => None,
        }
    }
}

/// The method that an instruction leads to by what it names, if it leads to one.
pub fn next_method(runs: &Runs, in_main: bool, target: Target) -> Option<MethodId>
    ensures { (id : MethodId) → LeadsTo runs.now.classes.now in_main target id ↔ (result ≡ Some id) }
{
    match target {
        Target::Call(called) => Some(called),
        Target::New(class_at) => { if in_main { runs.run_of(class_at) } else { None } }
        _ => None,
    }
}
