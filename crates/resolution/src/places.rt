//! Tables of first places: of classes by name, and of a class's static members by name and descriptor.

ghost use Rattle.std.specs.Prelude.{◌≡◌, ◌<◌, ◌^◌, ◌&&◌, ℕ, List, length, None, Some, Err, IfOk, OnOk, OnErr, IfSome, if◌then◌else◌};
ghost use Rattle.std.specs.Option.{option_or};
ghost use Rattle.class_names.specs.Names.{same_text};
ghost use Rattle.resolution.specs.Tables.{FindsClasses, FindsMembers, place_of};
ghost use Rattle.resolution.specs.Places.{is_static_named};

use crate::refusal::Misnamed;
use class_format::{ClassRecord, Member, PoolEntries};
use class_names::{STATIC, has_flag, member_descriptor, member_name, name_of};
use indexmap::IndexMap;
use std::alloc::Global;

/// A name and a descriptor. A class has no descriptor.
#[derive(Clone, Copy, PartialEq, Eq, Hash)]
pub struct Key<'a> {
    pub name: &'a [u8],
    pub descriptor: &'a [u8],
}

/// First places by name and descriptor.
#[derive(Drop)]
pub struct Places<'a> {
    pub first: IndexMap<Key<'a>, u32>,
}

impl<'a> Places<'a> {
    /// No place.
    pub fn new(alloc: Global) -> Places<'a>
        ensures { (name descriptor : List ℕ) → place_of result name descriptor ≡ None }
    {
        Places {
            first: IndexMap::new(alloc),
        }
    }

    /// The place of a name and a descriptor.
    pub fn get(&self, name: &[u8], descriptor: &[u8]) -> Option<u32>
        ensures { result ≡ place_of self.now name.now descriptor.now }
    {
        self.first.get(&Key { name, descriptor }).copied()
    }

    /// Adds a place, where there is none yet for the name and the descriptor.
    pub fn add(&mut self, name: &'a [u8], descriptor: &'a [u8], place: u32) -> Result<(), Misnamed>
        ensures added { OnOk result ((n d : List ℕ) → place_of self.new n d ≡ option_or (place_of self.old n d) (if same_text n name.now && same_text d descriptor.now then Some place else None)) }
        ensures memory { OnErr result (result ≡ Err Misnamed.Memory) }
    {
        let key = Key { name, descriptor };
        if self.first.get(&key).is_some() {
            return Ok(());
        }
        match self.first.insert(key, place) {
            Ok(_) => Ok(()),
            Err(_) => Err(Misnamed::Memory),
        }
    }
}

/// Adds the place of a member, where it is static and there is none yet for its name and descriptor.
fn add_static<'a>(
    places: &mut Places<'a>,
    pool: &'a PoolEntries,
    member: &'a Member,
    place: u32,
) -> Result<(), Misnamed>
    ensures added { OnOk result ((n d : List ℕ) → place_of places.new n d ≡ option_or (place_of places.old n d) (if is_static_named pool.now n d member.now then Some place else None)) }
    ensures memory { OnErr result (result ≡ Err Misnamed.Memory) }
{
    if !has_flag(member.flags, STATIC) {
        return Ok(());
    }
    places.add(
        member_name(pool, member),
        member_descriptor(pool, member),
        place,
    )
}

/// The first places of a class's static members.
pub fn static_places<'a>(
    alloc: Global,
    pool: &'a PoolEntries,
    members: &'a [Member],
) -> Result<Places<'a>, Misnamed>
    requires { length members.now < 2 ^ 32 }
    ensures found { IfOk result (FindsMembers pool.now members.now) }
    ensures memory { OnErr result (result ≡ Err Misnamed.Memory) }
{
    let mut places = Places::new(alloc);
    for (place, member) in members.iter().enumerate() {
        add_static(&mut places, pool, member, place as u32)?;
    }
    Ok(places)
}

/// The first places of classes.
pub fn class_places<'a>(alloc: Global, classes: &'a [ClassRecord]) -> Result<Places<'a>, Misnamed>
    requires { length classes.now < 2 ^ 32 }
    ensures found { IfOk result (FindsClasses classes.now) }
    ensures memory { OnErr result (result ≡ Err Misnamed.Memory) }
{
    let mut places = Places::new(alloc);
    for (place, class) in classes.iter().enumerate() {
        places.add(name_of(class), b"", place as u32)?;
    }
    Ok(places)
}
