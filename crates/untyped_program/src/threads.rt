//! The threads, by the methods that they run.

ghost use Rattle.std.specs.Prelude.{◌≡◌, ◌++◌, All, IfOk, IsSome, OnOk, Some, map};
ghost use Rattle.std.specs.List.{filter_map};
ghost use Rattle.reached_methods.specs.Reached.{run_of};
ghost use Rattle.untyped_program.specs.Known.{IsKnown};
ghost use Rattle.untyped_program.specs.Threads.{class_made, main_targets, threads_of};

use crate::order::is_method;
use class_format::ClassRecord;
use ports::Memory;
use program::{Items, MethodId};
use reached_methods::{ReachedMethod, Runs};
use resolution::Target;
use std::alloc::Global;

/// What the instructions of main name.
fn main_targets(main: MethodId, methods: &[ReachedMethod]) -> &[Target]
    ensures { result.now ≡ main_targets main methods.now }
{
    for method in methods {
        if is_method(method.id, main) {
            return method.targets.as_slice();
        }
    }
    &[]
}

/// The `run()V` of a class that has one.
fn run_in(runs: &Runs, class: u32) -> MethodId
    requires { IsSome (run_of runs.now.classes.now class) }
    ensures { run_of runs.now.classes.now class ≡ Some result }
{
    match runs.run_of(class) {
        Some(run) => run,
        None => unreachable!(),
    }
}

/// Adds the threads that instructions make.
fn add_threads(runs: &Runs, targets: &[Target], threads: &mut Items<MethodId>) -> Result<(), Memory>
    requires { All (IsKnown runs.now.classes.now) targets.now }
    ensures { OnOk result (map Some threads.new ≡ map Some threads.old ++ map (run_of runs.now.classes.now) (filter_map class_made targets.now)) }
{
    for target in targets {
        if let Target::New(class) = target {
            let run = run_in(runs, *class);
            threads.push(run)?;
        }
    }
    Ok(())
}

/// Main, and the `run()V` of each thread that it makes.
pub fn threads_of(
    alloc: Global,
    classes: &[ClassRecord],
    main: MethodId,
    methods: &[ReachedMethod],
) -> Result<Items<MethodId>, Memory>
    requires { All (λ m. All (IsKnown classes.now) m.targets) methods.now }
    ensures { IfOk result (λ threads. map Some threads ≡ threads_of classes.now main methods.now) }
{
    let mut threads = Items::new(alloc);
    threads.push(main)?;
    let runs = Runs::of(alloc, classes)?;
    add_threads(&runs, main_targets(main, methods), &mut threads)?;
    Ok(threads)
}
