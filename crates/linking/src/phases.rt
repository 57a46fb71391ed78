//! The classes, their main and what it reaches.

ghost use Rattle.std.specs.Prelude.{◌≤◌, All, IfErr, IfOk, OnOk, length};
ghost use Rattle.class_format.specs.ClassText.{IsValid};
ghost use Rattle.class_profile.specs.Profile.{IsOfProfile};
ghost use Rattle.linking.specs.Linking.{HasMainOf, IsUntypedOf};
ghost use Rattle.linking.specs.Phases.{CanBeTyped, IsLimitOf};
ghost use Rattle.linking.specs.Refusals.{IsRefusedFor};
ghost use Rattle.program.specs.Program.{IsSpeltVariable};
ghost use Rattle.reached_methods.specs.CodeFaults.{IsFaultless};
ghost use Rattle.reached_methods.specs.Reached.{AreReachedMethods};
ghost use Rattle.reached_methods.specs.Surveys.{HasCode};
ghost use Rattle.untyped_program.specs.Limits.{AreByPlace, IsWithinLimits};
ghost use Rattle.untyped_program.specs.Untyped.{IsUntypedProgram};

use crate::refusal::ProgramRefusal;
use class_format::ClassRecord;
use class_profile::{ProfileRefusal, check_classes, main_of};
use ports::Memory;
use program::{Items, MethodId};
use reached_methods::{CodeRefusal, ReachedMethod, reach};
use std::alloc::Global;
use untyped_program::{LimitRefusal, UntypedProgram, check_limits, untyped_program};

/// Whether the classes are of the profile.
fn check_profile(alloc: Global, classes: &[ClassRecord]) -> Result<(), ProgramRefusal>
    requires { length classes.now ≤ 65535 }
    ensures ok { OnOk result (IsOfProfile classes.now) }
    ensures refused { IfErr result (IsRefusedFor classes.now) }
{
    match check_classes(alloc, classes) {
        Ok(()) => Ok(()),
        Err(ProfileRefusal::Refused { kind, class }) => Err(ProgramRefusal::Class { kind, class }),
        Err(ProfileRefusal::Memory) => Err(ProgramRefusal::Memory),
    }
}

/// The one main of classes of the profile.
fn main_id(classes: &[ClassRecord]) -> MethodId
    requires few { length classes.now ≤ 65535 }
    requires texts { All IsValid classes.now }
    requires profile { IsOfProfile classes.now }
    ensures main { HasMainOf classes.now result }
    ensures code { HasCode classes.now result }
{
    let Some(place) = main_of(classes) else {
        unreachable!()
    };
    MethodId {
        class: place.class as u32,
        method: place.method as u32,
    }
}

/// The methods that are reached from main.
fn reach_all(
    alloc: Global,
    classes: &[ClassRecord],
    main: MethodId,
) -> Result<Items<ReachedMethod>, ProgramRefusal>
    requires few { length classes.now ≤ 65535 }
    requires texts { All IsValid classes.now }
    requires main { HasMainOf classes.now main }
    requires code { HasCode classes.now main }
    ensures reached { IfOk result (λ methods. AreReachedMethods classes.now main methods) }
    ensures faultless { OnOk result (IsFaultless classes.now main) }
    ensures refused { IfErr result (IsRefusedFor classes.now) }
{
    match reach(alloc, classes, main) {
        Ok(methods) => Ok(methods),
        Err(
            CodeRefusal::Refused {
                kind,
                method,
                pc,
                detail,
            },
        ) => Err(ProgramRefusal::Code {
            kind,
            method,
            pc,
            detail,
        }),
        Err(CodeRefusal::Memory) => Err(ProgramRefusal::Memory),
    }
}

/// The program of the reached methods before it is typed.
fn untyped_from(
    alloc: Global,
    classes: &[ClassRecord],
    main: MethodId,
    methods: Items<ReachedMethod>,
) -> Result<UntypedProgram, ProgramRefusal>
    requires texts { All IsValid classes.now }
    requires main { HasMainOf classes.now main }
    requires reached { AreReachedMethods classes.now main methods }
    requires faultless { IsFaultless classes.now main }
    ensures untyped { IfOk result (λ u. IsUntypedOf classes.now u) }
    ensures spelt { IfOk result (λ u. All IsSpeltVariable u.variables) }
    ensures by_place { IfOk result (λ u. AreByPlace u.methods) }
    ensures can_be_typed { IfOk result (λ u. All CanBeTyped u.methods) }
    ensures refused { IfErr result (IsRefusedFor classes.now) }
{
    match untyped_program(alloc, classes, main, methods) {
        Ok(untyped) => Ok(untyped),
        Err(Memory) => Err(ProgramRefusal::Memory),
    }
}

/// The program of the classes before it is typed.
pub fn untyped_of(alloc: Global, classes: &[ClassRecord]) -> Result<UntypedProgram, ProgramRefusal>
    requires few { length classes.now ≤ 65535 }
    requires texts { All IsValid classes.now }
    ensures untyped { IfOk result (λ u. IsUntypedOf classes.now u) }
    ensures spelt { IfOk result (λ u. All IsSpeltVariable u.variables) }
    ensures by_place { IfOk result (λ u. AreByPlace u.methods) }
    ensures can_be_typed { IfOk result (λ u. All CanBeTyped u.methods) }
    ensures refused { IfErr result (IsRefusedFor classes.now) }
{
    check_profile(alloc, classes)?;
    let main = main_id(classes);
    let methods = reach_all(alloc, classes, main)?;
    untyped_from(alloc, classes, main, methods)
}

/// Whether a program passes no limit.
pub fn check_program(alloc: Global, untyped: &UntypedProgram) -> Result<(), ProgramRefusal>
    requires { AreByPlace untyped.now.methods }
    ensures ok { OnOk result (IsWithinLimits untyped.now) }
    ensures refused { IfErr result (IsLimitOf untyped.now) }
{
    match check_limits(alloc, untyped) {
        Ok(()) => Ok(()),
        Err(LimitRefusal::Passed(kind)) => Err(ProgramRefusal::Limit(kind)),
        Err(LimitRefusal::Memory) => Err(ProgramRefusal::Memory),
    }
}
