//! The reached methods, or the first fault of them all.

ghost use Rattle.std.specs.Prelude.{◌≡◌, ◌≤◌, All, IfErr, IfOk, IfSome, MatchOption, OnOk, length, map};
ghost use Rattle.class_format.specs.ClassText.{IsValid};
ghost use Rattle.class_format.specs.declared.record.ClassRecord.{ClassRecord};
ghost use Rattle.class_format.specs.declared.record.CodeBody.{CodeBody};
ghost use Rattle.reached_methods.specs.CodeFaults.{IsFaultless};
ghost use Rattle.reached_methods.specs.Cycles.{AreClosed, HasReturn};
ghost use Rattle.reached_methods.specs.Exploring.{AreByPlace, AreSurveys};
ghost use Rattle.reached_methods.specs.FirstFault.{IsFirstOrNone};
ghost use Rattle.reached_methods.specs.Ranks.{NoneRises};
ghost use Rattle.reached_methods.specs.Reached.{AreReachedMethods};
ghost use Rattle.reached_methods.specs.Reaching.{HasAllTargets, IsClean, IsFirstFaulty, IsRefusedFor, IsSurveyedAt};
ghost use Rattle.reached_methods.specs.Surveys.{HasCode};

use crate::components::components_of;
use crate::cycles::first_return;
use crate::exploring::survey_all;
use crate::fault::{Fault, earlier};
use crate::method::ReachedMethod;
use crate::ranks::{all_fall_by, none_rises};
use crate::refusal::CodeRefusal;
use crate::survey::Surveyed;
use class_format::ClassRecord;
use ports::Memory;
use program::{Items, MethodId};
use resolution::ClassIndex;
use std::alloc::Global;

/// The place of the first method with a fault, and its first call that leads back to it.
#[derive(Drop)]
struct Faulty {
    at: usize,
    recursion: Option<Fault>,
}

/// The first call of the method at this place that leads back to it. Where the ranks fall with each of its calls, there is none.
fn recursion_at(
    alloc: Global,
    surveys: &[Surveyed],
    ranks: Option<&[usize]>,
    at: usize,
    method: &ReachedMethod,
) -> Result<Option<Fault>, Memory>
    requires by_place { AreByPlace surveys.now }
    requires closed { AreClosed surveys.now }
    requires ranks { IfSome ranks (λ ranks. NoneRises surveys.now ranks.now) }
    requires surveyed { IsSurveyedAt surveys.now at method.now }
    requires same_length { length method.now.targets ≡ length method.now.listing }
    ensures { IfOk result (λ fault. IsFirstOrNone (HasReturn surveys.now method.now) fault) }
{
    if let Some(ranks) = ranks {
        if all_fall_by(surveys, ranks, at, 1) {
            return Ok(None);
        }
    }
    first_return(alloc, surveys, method)
}

/// The first method with a fault.
fn first_faulty(
    alloc: Global,
    surveys: &[Surveyed],
    ranks: Option<&[usize]>,
) -> Result<Option<Faulty>, Memory>
    requires by_place { AreByPlace surveys.now }
    requires closed { AreClosed surveys.now }
    requires ranks { IfSome ranks (λ ranks. NoneRises surveys.now ranks.now) }
    requires same_lengths { All HasAllTargets surveys.now }
    ensures { IfOk result (λ found. MatchOption found (All (IsClean surveys.now) surveys.now) (λ f. IsFirstFaulty surveys.now f.at f.recursion)) }
{
    for (at, surveyed) in surveys.iter().enumerate() {
        let recursion = recursion_at(alloc, surveys, ranks, at, &surveyed.method)?;
        if surveyed.fault.is_some() || recursion.is_some() {
            return Ok(Some(Faulty { at, recursion }));
        }
    }
    Ok(None)
}

/// The first method with a fault. The components of the calls are found first, to rank the methods.
fn find_faulty(alloc: Global, surveys: &[Surveyed]) -> Result<Option<Faulty>, Memory>
    requires by_place { AreByPlace surveys.now }
    requires closed { AreClosed surveys.now }
    requires same_lengths { All HasAllTargets surveys.now }
    ensures { IfOk result (λ found. MatchOption found (All (IsClean surveys.now) surveys.now) (λ f. IsFirstFaulty surveys.now f.at f.recursion)) }
{
    let ranks = components_of(alloc, surveys)?;
    if none_rises(surveys, ranks.as_slice()) {
        first_faulty(alloc, surveys, Some(ranks.as_slice()))
    } else {
        first_faulty(alloc, surveys, None)
    }
}

/// The methods that were surveyed.
fn methods_of(alloc: Global, surveys: Vec<Surveyed>) -> Result<Items<ReachedMethod>, Memory>
    ensures { IfOk result (λ methods. methods ≡ map (λ s. s.method) surveys.items) }
{
    let mut methods = Items::new(alloc);
    for surveyed in surveys {
        methods.push(surveyed.method)?;
    }
    Ok(methods)
}

/// The refusal for a fault of a method.
fn refused(method: MethodId, fault: Fault) -> CodeRefusal
    ensures { result ≡ CodeRefusal.Refused fault.kind method fault.pc fault.detail }
{
    CodeRefusal::Refused {
        kind: fault.kind,
        method,
        pc: fault.pc,
        detail: fault.detail,
    }
}

/// The refusal for the first fault of the first method that has one.
fn refusal(
    classes: &[ClassRecord],
    main: MethodId,
    mut surveys: Vec<Surveyed>,
    faulty: Faulty,
) -> CodeRefusal
    requires surveys { AreSurveys classes.now main surveys.items }
    requires by_place { AreByPlace surveys.items }
    requires first { IsFirstFaulty surveys.items faulty.at faulty.recursion }
    ensures { IsRefusedFor classes.now main result }
{
    let surveyed = surveys.swap_remove(faulty.at);
    match earlier(surveyed.fault, faulty.recursion) {
        Some(fault) => refused(surveyed.method.id, fault),
        None => unreachable!(),
    }
}

/// The methods that are surveyed, where none has a fault.
fn judge(
    alloc: Global,
    classes: &[ClassRecord],
    main: MethodId,
    surveys: Vec<Surveyed>,
) -> Result<Items<ReachedMethod>, CodeRefusal>
    requires surveys { AreSurveys classes.now main surveys.items }
    requires by_place { AreByPlace surveys.items }
    ensures reached { IfOk result (λ methods. AreReachedMethods classes.now main methods) }
    ensures faultless { OnOk result (IsFaultless classes.now main) }
    ensures refused { IfErr result (λ refusal. IsRefusedFor classes.now main refusal) }
{
    match find_faulty(alloc, surveys.as_slice()) {
        Ok(Some(faulty)) => Err(refusal(classes, main, surveys, faulty)),
        Ok(None) => match methods_of(alloc, surveys) {
            Ok(methods) => Ok(methods),
            Err(_) => Err(CodeRefusal::Memory),
        },
        Err(_) => Err(CodeRefusal::Memory),
    }
}

/// The methods that main reaches, by class and by place in the class, with their reached instructions and what these name
/// (docs/PROFILE.md, "Reached methods").
///
/// The first fault of all reached methods refuses, by method, by place in its code and by kind. It is the same whatever else
/// is wrong: methods are reached also behind instructions that are refused.
pub fn reach(
    alloc: Global,
    classes: &[ClassRecord],
    main: MethodId,
) -> Result<Items<ReachedMethod>, CodeRefusal>
    requires few { length classes.now ≤ 65535 }
    requires texts { All IsValid classes.now }
    requires main { HasCode classes.now main }
    ensures reached { IfOk result (λ methods. AreReachedMethods classes.now main methods) }
    ensures faultless { OnOk result (IsFaultless classes.now main) }
    ensures refused { IfErr result (λ refusal. IsRefusedFor classes.now main refusal) }
{
    let Ok(index) = ClassIndex::of(alloc, classes) else {
        return Err(CodeRefusal::Memory);
    };
    let Ok(surveys) = survey_all(alloc, &index, classes, main) else {
        return Err(CodeRefusal::Memory);
    };
    judge(alloc, classes, main, surveys)
}
