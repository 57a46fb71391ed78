//! The monitors by their names, in the order of first appearance.

ghost use Rattle.std.specs.Prelude.{◌≡◌, [], IfOk, OnOk, Some, fold, length, slice_get};
ghost use Rattle.std.specs.List.{filter_map};
ghost use Rattle.std.specs.Option.{option_copied};
ghost use Rattle.class_profile.specs.Texts.{with_text};
ghost use Rattle.untyped_program.specs.Monitors.{locks_class, class_named, own_name, names_by, monitors_of, monitor_number};

use class_format::{ClassRecord, Member, PoolEntries};
use class_names::{STATIC, SYNCHRONIZED, class_name_of, has_flag, name_of};
use indexmap::IndexSet;
use ports::Memory;
use program::{Items, Name};
use reached_methods::ReachedMethod;
use resolution::Target;
use std::alloc::Global;
use std::marker::Model;

/// The names of the monitors, no two alike.
#[derive(Drop)]
pub struct MonitorNames<'a> {
    names: IndexSet<&'a [u8]>,
}

impl<'a> Model for MonitorNames<'a> {
    ghost use Rattle.std.specs.Prelude.{List, ℕ, map};

    ghost Value = { List (List ℕ) };

    ghost view = { λ set. map (λ name. name.now) set.names.keys };
}

impl<'a> MonitorNames<'a> {
    /// No monitor.
    fn new(alloc: Global) -> MonitorNames<'a>
        ensures { result ≡ [] }
    {
        MonitorNames {
            names: IndexSet::new(alloc),
        }
    }

    /// Adds a name at the end where it is new.
    fn add(&mut self, name: &'a [u8]) -> Result<(), Memory>
        ensures { OnOk result (self.new ≡ with_text self.old name.now) }
    {
        match self.names.insert_full(name) {
            Ok(_) => Ok(()),
            Err(_) => Err(Memory),
        }
    }

    /// The place of a name.
    fn place_of(&self, name: &[u8]) -> Option<usize>
        ensures { result ≡ monitor_number self.now name.now }
    {
        self.names.get_index_of(name)
    }

    /// The number of a monitor.
    pub fn number_of(&self, name: &[u8]) -> Result<Option<u32>, Memory>
        ensures { IfOk result (λ number. number ≡ monitor_number self.now name.now) }
    {
        match self.place_of(name) {
            Some(place) => match u32::try_from(place) {
                Ok(number) => Ok(Some(number)),
                Err(_) => Err(Memory),
            },
            None => Ok(None),
        }
    }

    /// How many there are.
    fn len(&self) -> usize
        ensures { result ≡ length self.now }
    {
        self.names.len()
    }

    /// The name at a place.
    fn get(&self, at: usize) -> Option<&'a [u8]>
        ensures { option_copied result ≡ slice_get self.now at }
    {
        match self.names.get_index(at) {
            Some(name) => Some(*name),
            None => None,
        }
    }
}

/// The names of the monitors, by number.
pub fn names_of(alloc: Global, monitors: &MonitorNames) -> Result<Items<Name>, Memory>
    ensures { IfOk result (λ names. names ≡ monitors.now) }
{
    let mut names = Items::new(alloc);
    for at in 0..monitors.len() {
        let Some(bytes) = monitors.get(at) else {
            unreachable!()
        };
        let name = Name::copied(alloc, bytes)?;
        names.push(name)?;
    }
    Ok(names)
}

/// Whether a method is static and synchronized.
pub fn locks_class(method: &Member) -> bool
    ensures { result ≡ locks_class method.now }
{
    has_flag(method.flags, STATIC) && has_flag(method.flags, SYNCHRONIZED)
}

/// Adds the name of the class, where the method locks its class's object.
fn add_own<'a>(
    monitors: &mut MonitorNames<'a>,
    class: &'a ClassRecord,
    method: Option<&Member>,
) -> Result<(), Memory>
    ensures { OnOk result (monitors.new ≡ fold with_text monitors.old (own_name class.now (option_copied method.entry))) }
{
    match method {
        Some(method) if locks_class(method) => monitors.add(name_of(class)),
        _ => Ok(()),
    }
}

/// Adds the names of the classes whose objects are named, in order.
fn add_named<'a>(
    monitors: &mut MonitorNames<'a>,
    pool: &'a PoolEntries,
    targets: &[Target],
) -> Result<(), Memory>
    ensures { OnOk result (monitors.new ≡ fold with_text monitors.old (filter_map (class_named pool.now) targets.now)) }
{
    for target in targets {
        if let Target::Class(index) = target {
            monitors.add(class_name_of(pool, *index))?;
        }
    }
    Ok(())
}

/// Adds what a method names.
fn add_method<'a>(
    monitors: &mut MonitorNames<'a>,
    classes: &'a [ClassRecord],
    method: &ReachedMethod,
) -> Result<(), Memory>
    ensures { OnOk result (monitors.new ≡ fold with_text monitors.old (names_by classes.now method.now)) }
{
    let Some(class) = classes.get(method.id.class as usize) else {
        return Ok(());
    };
    let member = class.methods.get(method.id.method as usize);
    add_own(monitors, class, member)?;
    add_named(monitors, &class.pool, method.targets.as_slice())
}

/// The monitors that the methods name.
pub fn monitor_names<'a>(
    alloc: Global,
    classes: &'a [ClassRecord],
    methods: &[ReachedMethod],
) -> Result<MonitorNames<'a>, Memory>
    ensures { IfOk result (λ monitors. monitors ≡ monitors_of classes.now methods.now) }
{
    let mut monitors = MonitorNames::new(alloc);
    for method in methods {
        add_method(&mut monitors, classes, method)?;
    }
    Ok(monitors)
}
