//! The search for the methods that are reached.

ghost use Rattle.std.specs.Prelude.{◌≡◌, All, IfOk, OnOk};
ghost use Rattle.std.specs.List.Sorted.{IsPermutation};
ghost use Rattle.class_format.specs.ClassText.{IsValid};
ghost use Rattle.reached_methods.specs.Exploring.{AreByPlace, AreDistinct, AreSurveys, Follows, LeadsTo, OneLeadsTo};
ghost use Rattle.reached_methods.specs.Surveys.{HasCode};

use crate::adding::push;
use crate::method_set::MethodSet;
use crate::runs::{Runs, next_method};
use crate::survey::{Surveyed, is_method, survey};
use class_format::ClassRecord;
use ports::Memory;
use program::MethodId;
use resolution::{ClassIndex, Target};
use std::alloc::Global;

/// Adds the method that an instruction leads to.
fn follow_one(
    runs: &Runs,
    in_main: bool,
    target: Target,
    seen: &mut MethodSet,
) -> Result<(), Memory>
    ensures { OnOk result (Follows (LeadsTo runs.now.classes.now in_main target) seen.old seen.new) }
{
    if let Some(id) = next_method(runs, in_main, target) {
        seen.add(id)?;
    }
    Ok(())
}

/// Adds the methods that the instructions of a method lead to.
fn follow(
    runs: &Runs,
    in_main: bool,
    targets: &[Target],
    seen: &mut MethodSet,
) -> Result<(), Memory>
    ensures { OnOk result (Follows (OneLeadsTo runs.now.classes.now in_main targets.now) seen.old seen.new) }
{
    for target in targets {
        follow_one(runs, in_main, *target, seen)?;
    }
    Ok(())
}

/// Surveys each method that is reached, once. Methods are found also behind instructions that are refused.
fn explore(
    alloc: Global,
    index: &ClassIndex,
    runs: &Runs,
    classes: &[ClassRecord],
    main: MethodId,
) -> Result<Vec<Surveyed>, Memory>
    requires index { index.now.classes.now ≡ classes.now }
    requires runs { runs.now.classes.now ≡ classes.now }
    requires texts { All IsValid classes.now }
    requires main { HasCode classes.now main }
    ensures surveys { IfOk result (λ surveys. AreSurveys classes.now main surveys.items) }
    ensures distinct { IfOk result (λ surveys. AreDistinct surveys.items) }
{
    let mut seen = MethodSet::new(alloc);
    seen.add(main)?;
    let mut surveys = Vec::new(alloc);
    while let Some(id) = seen.get(surveys.len()) {
        let surveyed = survey(alloc, index, classes, main, id)?;
        let in_main = is_method(id, main);
        follow(runs, in_main, surveyed.method.targets.as_slice(), &mut seen)?;
        push(&mut surveys, surveyed)?;
    }
    Ok(surveys)
}

/// Puts surveys of different methods in the order of their places.
fn sort(surveys: &mut Vec<Surveyed>)
    requires { AreDistinct surveys.old.items }
    ensures by_place { AreByPlace surveys.new.items }
    ensures same { IsPermutation surveys.old.items surveys.new.items }
{
    surveys.sort_unstable_by_key(|s| (s.method.id.class, s.method.id.method));
}

/// Surveys each method that is reached, by place.
pub fn survey_all(
    alloc: Global,
    index: &ClassIndex,
    classes: &[ClassRecord],
    main: MethodId,
) -> Result<Vec<Surveyed>, Memory>
    requires index { index.now.classes.now ≡ classes.now }
    requires texts { All IsValid classes.now }
    requires main { HasCode classes.now main }
    ensures surveys { IfOk result (λ surveys. AreSurveys classes.now main surveys.items) }
    ensures by_place { IfOk result (λ surveys. AreByPlace surveys.items) }
{
    let runs = Runs::of(alloc, classes)?;
    let mut surveys = explore(alloc, index, &runs, classes, main)?;
    sort(&mut surveys);
    Ok(surveys)
}
