//! The first fault of the classes.

ghost use Rattle.std.specs.Prelude.{◌≡◌, ◌↔◌, ◌≤◌, All, Err, IfOk, IfErr, OnOk, OnErr, IsTrue, MatchOption, length, take, slice_get, Some};
ghost use Rattle.relations.specs.Least.{IsLeast};
ghost use Rattle.class_profile.specs.Members.{HasOneMain};
ghost use Rattle.class_profile.specs.Profile.{Meets, AllMeet, IsOfProfile, IsRefusedFor};
ghost use Rattle.class_profile.specs.Checks.{IsFirstWith, IsOwn, IsBreach, IsMainless};

use crate::main_method::main_of;
use crate::members::{has_no_class_init, has_plain_types, has_static_fields};
use crate::name_form::has_plain_names;
use crate::refusal::{ClassKind, ProfileRefusal};
use crate::text_set::TextSet;
use crate::threads::{has_plain_constructor, has_plain_kind};
use class_format::ClassRecord;
use class_names::name_of;
use std::alloc::Global;

/// The first class that has the name of an earlier one.
fn first_duplicate(alloc: Global, classes: &[ClassRecord]) -> Result<Option<u32>, ProfileRefusal>
    requires { length classes.now ≤ 65535 }
    ensures found { IfOk result (λ place. IsFirstWith ClassKind.DuplicateClass classes.now place) }
    ensures memory { OnErr result (result ≡ Err ProfileRefusal.Memory) }
{
    let mut names = TextSet::new(alloc);
    for (place, class) in classes.iter().enumerate() {
        if !names.add(name_of(class))?.is_new {
            return Ok(Some(place as u32));
        }
    }
    Ok(None)
}

/// Whether a class meets the rule of a kind that looks at the class alone.
fn meets(alloc: Global, kind: ClassKind, class: &ClassRecord) -> Result<bool, ProfileRefusal>
    requires { IsOwn kind }
    ensures told { IfOk result (λ met. (before : _) → IsTrue met ↔ Meets kind before class.now) }
    ensures memory { OnErr result (result ≡ Err ProfileRefusal.Memory) }
{
    match kind {
        ClassKind::DuplicateClass | ClassKind::NoMain => unreachable!(),
        ClassKind::ClassInit => Ok(has_no_class_init(class)),
        ClassKind::InstanceField => Ok(has_static_fields(class)),
        ClassKind::FieldType => Ok(has_plain_types(class)),
        ClassKind::Constructor => Ok(has_plain_constructor(class)),
        ClassKind::ThreadClass => Ok(has_plain_kind(class)),
        ClassKind::NameForm => has_plain_names(alloc, class),
    }
}

/// The first class that doesn't meet the rule of a kind that looks at each class alone.
fn first_breach(
    alloc: Global,
    kind: ClassKind,
    classes: &[ClassRecord],
) -> Result<Option<u32>, ProfileRefusal>
    requires own { IsOwn kind }
    requires few { length classes.now ≤ 65535 }
    ensures found { IfOk result (λ place. IsFirstWith kind classes.now place) }
    ensures memory { OnErr result (result ≡ Err ProfileRefusal.Memory) }
{
    for (place, class) in classes.iter().enumerate() {
        if !meets(alloc, kind, class)? {
            return Ok(Some(place as u32));
        }
    }
    Ok(None)
}

/// The refusal of a class.
fn refusal(kind: ClassKind, place: u32) -> ProfileRefusal
    ensures { result ≡ ProfileRefusal.Refused kind (Some place) }
{
    ProfileRefusal::Refused {
        kind,
        class: Some(place),
    }
}

/// That no class has the name of an earlier one.
fn check_names(alloc: Global, classes: &[ClassRecord]) -> Result<(), ProfileRefusal>
    requires { length classes.now ≤ 65535 }
    ensures ok { OnOk result (AllMeet ClassKind.DuplicateClass classes.now) }
    ensures refused { IfErr result (λ refusal. IsBreach ClassKind.DuplicateClass classes.now refusal) }
{
    match first_duplicate(alloc, classes)? {
        Some(place) => Err(refusal(ClassKind::DuplicateClass, place)),
        None => Ok(()),
    }
}

/// That there is one main.
fn check_main(classes: &[ClassRecord]) -> Result<(), ProfileRefusal>
    ensures ok { OnOk result (HasOneMain classes.now) }
    ensures refused { IfErr result (λ refusal. IsMainless classes.now refusal) }
{
    match main_of(classes) {
        Some(_) => Ok(()),
        None => Err(ProfileRefusal::Refused {
            kind: ClassKind::NoMain,
            class: None,
        }),
    }
}

/// That all classes meet the rule of a kind that looks at each class alone.
fn check_rule(alloc: Global, kind: ClassKind, classes: &[ClassRecord]) -> Result<(), ProfileRefusal>
    requires own { IsOwn kind }
    requires few { length classes.now ≤ 65535 }
    ensures ok { OnOk result (AllMeet kind classes.now) }
    ensures refused { IfErr result (λ refusal. IsBreach kind classes.now refusal) }
{
    match first_breach(alloc, kind, classes)? {
        Some(place) => Err(refusal(kind, place)),
        None => Ok(()),
    }
}

/// Whether the classes are of the profile: the first kind that has a fault refuses, with the first class that has it.
pub fn check_classes(alloc: Global, classes: &[ClassRecord]) -> Result<(), ProfileRefusal>
    requires { length classes.now ≤ 65535 }
    ensures ok { OnOk result (IsOfProfile classes.now) }
    ensures refused { IfErr result (λ refusal. IsRefusedFor classes.now refusal) }
{
    check_names(alloc, classes)?;
    check_main(classes)?;
    check_rule(alloc, ClassKind::ClassInit, classes)?;
    check_rule(alloc, ClassKind::InstanceField, classes)?;
    check_rule(alloc, ClassKind::FieldType, classes)?;
    check_rule(alloc, ClassKind::Constructor, classes)?;
    check_rule(alloc, ClassKind::ThreadClass, classes)?;
    check_rule(alloc, ClassKind::NameForm, classes)
}
