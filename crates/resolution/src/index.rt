//! The classes, with tables of what they declare.

ghost use Rattle.std.specs.Prelude.{◌≡◌, ◌<◌, ◌≤◌, ◌^◌, ◌++◌, [], ◌∷◌, All, Err, IfOk, IfSome, OnOk, OnErr, length, map, position, slice_get, Some};
ghost use Rattle.class_format.specs.ClassText.{IsValid};
ghost use Rattle.class_names.specs.Names.{same_text};
ghost use Rattle.resolution.specs.Places.{is_static_named};
ghost use Rattle.resolution.specs.Resolution.{class_place, thread_place};
ghost use Rattle.resolution.specs.Targets.{is_target, is_target_class, target_place};
ghost use Rattle.resolution.specs.Tables.{FindsClasses, FindsDeclared, FindsMembersOf};

use crate::places::{Places, class_places, static_places};
use crate::refusal::Misnamed;
use crate::targets::is_target;
use class_format::ClassRecord;
use class_names::is_thread_class;
use std::alloc::Global;

/// The first places of a class's static fields and methods.
#[derive(Drop)]
pub struct Declared<'a> {
    pub fields: Places<'a>,
    pub methods: Places<'a>,
}

/// The classes, with tables of their names and of their static members.
#[derive(Drop)]
pub struct ClassIndex<'a> {
    pub classes: &'a [ClassRecord],
    pub names: Places<'a>,
    pub declared: Vec<Declared<'a>>,
    targets: Vec<bool>,
    ghost few: { length classes.now ≤ 65535 },
    ghost finds_classes: { FindsClasses classes.now names },
    ghost finds_members: { FindsMembersOf classes.now declared.items },
    ghost finds_targets: { targets.items ≡ map is_target classes.now },
}

/// The tables of one class.
fn declared_by(alloc: Global, class: &ClassRecord) -> Result<Declared<'_>, Misnamed>
    requires { IsValid class.now }
    ensures found { IfOk result (FindsDeclared class.now) }
    ensures memory { OnErr result (result ≡ Err Misnamed.Memory) }
{
    Ok(Declared {
        fields: static_places(alloc, &class.pool, class.fields.as_slice())?,
        methods: static_places(alloc, &class.pool, class.methods.as_slice())?,
    })
}

/// Adds the tables of one class.
fn push<'a>(declared: &mut Vec<Declared<'a>>, item: Declared<'a>) -> Result<(), Misnamed>
    ensures added { OnOk result (declared.new.items ≡ declared.old.items ++ item.entry ∷ []) }
    ensures memory { OnErr result (result ≡ Err Misnamed.Memory) }
{
    declared.push(item).map_err(|_| Misnamed::Memory)
}

/// The tables of each class.
fn declared_by_all(alloc: Global, classes: &[ClassRecord]) -> Result<Vec<Declared<'_>>, Misnamed>
    requires { All IsValid classes.now }
    ensures found { IfOk result (λ declared. FindsMembersOf classes.now declared.items) }
    ensures memory { OnErr result (result ≡ Err Misnamed.Memory) }
{
    let mut declared = Vec::new(alloc);
    for class in classes {
        push(&mut declared, declared_by(alloc, class)?)?;
    }
    Ok(declared)
}

/// Whether each class is a target class.
fn targets_of(alloc: Global, classes: &[ClassRecord]) -> Result<Vec<bool>, Misnamed>
    ensures targets { IfOk result (λ targets. targets.items ≡ map is_target classes.now) }
    ensures memory { OnErr result (result ≡ Err Misnamed.Memory) }
{
    let mut targets = Vec::new(alloc);
    for class in classes {
        targets
            .push(is_target(class))
            .map_err(|_| Misnamed::Memory)?;
    }
    Ok(targets)
}

/// The flag at a place.
fn flag_at(flags: &[bool], place: usize) -> Option<bool>
    ensures { result ≡ slice_get flags.now place }
{
    flags.get(place).copied()
}

impl<'a> ClassIndex<'a> {
    /// The tables of at most 65535 classes, each of which has a text.
    pub fn of(alloc: Global, classes: &'a [ClassRecord]) -> Result<ClassIndex<'a>, Misnamed>
        requires few { length classes.now ≤ 65535 }
        requires valid { All IsValid classes.now }
        ensures classes { IfOk result (λ index. index.classes.now ≡ classes.now) }
        ensures memory { OnErr result (result ≡ Err Misnamed.Memory) }
    {
        let names = class_places(alloc, classes)?;
        let declared = declared_by_all(alloc, classes)?;
        let targets = targets_of(alloc, classes)?;
        Ok(ClassIndex {
            classes,
            names,
            declared,
            targets,
        })
    }

    /// The place of the first class with this name.
    pub fn class_place(&self, name: &[u8]) -> Option<u32>
        ensures place { result ≡ class_place self.now.classes.now name.now }
        ensures within { IfSome result (λ place. place < length self.now.classes.now) }
    {
        self.names.get(name, b"")
    }

    /// The place of the thread class with this name, if it is one.
    pub fn thread_place(&self, name: &[u8]) -> Option<u32>
        ensures { result ≡ thread_place self.now.classes.now name.now }
    {
        let place = self.class_place(name)?;
        if is_thread_class(&self.classes[place as usize]) {
            Some(place)
        } else {
            None
        }
    }

    /// Whether the class at a place is a target class.
    fn is_target_at(&self, place: u32) -> bool
        ensures { result ≡ is_target_class (slice_get self.now.classes.now place) }
    {
        flag_at(&self.targets, place as usize).unwrap_or(false)
    }

    /// The place of the target class with this name, if it is one.
    pub fn target_place(&self, name: &[u8]) -> Option<u32>
        ensures { result ≡ target_place self.now.classes.now name.now }
    {
        let place = self.class_place(name)?;
        if self.is_target_at(place) {
            Some(place)
        } else {
            None
        }
    }

    /// The place of the first static field with this name and descriptor in the class at a place.
    pub fn field_place(&self, class: u32, name: &[u8], descriptor: &[u8]) -> Option<u32>
        requires { class < length self.now.classes.now }
        ensures { (c : _) → slice_get self.now.classes.now class ≡ Some c → result ≡ position (is_static_named c.pool name.now descriptor.now) c.fields }
    {
        self.declared[class as usize].fields.get(name, descriptor)
    }

    /// The place of the first static method with this name and descriptor in the class at a place.
    pub fn method_place(&self, class: u32, name: &[u8], descriptor: &[u8]) -> Option<u32>
        requires { class < length self.now.classes.now }
        ensures { (c : _) → slice_get self.now.classes.now class ≡ Some c → result ≡ position (is_static_named c.pool name.now descriptor.now) c.methods }
    {
        self.declared[class as usize].methods.get(name, descriptor)
    }
}
