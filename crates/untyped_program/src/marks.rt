//! Which fields of the classes are variables.

ghost use Rattle.std.specs.Prelude.{◌≡◌, ◌<◌, ◌||◌, ℕ, [], All, IfOk, length, map, replicate, slice_set, true, false};
ghost use Rattle.untyped_program.specs.Known.{IsKnown};
ghost use Rattle.untyped_program.specs.Tables.{HasMark, HasMarkFor, HasShapeOf, HasRows, AreMarks, is_marked, with_mark};
ghost use Rattle.untyped_program.specs.Variables.{is_named};

use class_format::ClassRecord;
use ports::Memory;
use reached_methods::ReachedMethod;
use resolution::Target;
use std::alloc::Global;
use std::marker::Model;

/// For each field of a class whether it is a variable.
#[derive(Drop)]
pub struct Marks {
    marks: Vec<bool>,
}

impl Model for Marks {
    ghost use Rattle.std.specs.Prelude.{List, Bool};

    ghost Value = { List Bool };

    ghost view = { λ marks. marks.marks.items };
}

impl Marks {
    /// No field is a variable.
    fn none(alloc: Global, fields: usize) -> Result<Marks, Memory>
        ensures { IfOk result (λ marks. marks ≡ replicate fields false) }
    {
        let marks = vec![in alloc; false; fields].map_err(|_| Memory)?;
        Ok(Marks { marks })
    }

    /// The field at a place is a variable.
    fn set(&mut self, at: usize)
        requires { at < length self.old }
        ensures { self.new ≡ slice_set self.old at true }
    {
        self.marks[at] = true;
    }

    /// All marks, by place.
    pub fn as_slice(&self) -> &[bool]
        ensures { result.now ≡ self.now }
    {
        self.marks.as_slice()
    }
}

/// A row without marks for each class.
fn rows_of(alloc: Global, classes: &[ClassRecord]) -> Result<Vec<Marks>, Memory>
    ensures { IfOk result (λ rows. rows.items ≡ map (λ class. replicate (length class.fields) false) classes.now) }
{
    let mut rows = Vec::new(alloc);
    for class in classes {
        let row = Marks::none(alloc, class.fields.len())?;
        rows.push(row).map_err(|_| Memory)?;
    }
    Ok(rows)
}

/// Marks a field.
fn mark(rows: &mut [Marks], class: u32, field: u32)
    requires { HasMark rows.old class field }
    ensures { rows.new ≡ with_mark rows.old class field }
{
    rows[class as usize].set(field as usize);
}

/// Marks the fields that instructions name.
fn mark_fields(rows: &mut [Marks], targets: &[Target])
    requires { All (HasMarkFor rows.old) targets.now }
    ensures shape { HasShapeOf rows.old rows.new }
    ensures marks { (class_at field_at : ℕ) → is_marked rows.new class_at field_at ≡ (is_marked rows.old class_at field_at || is_named targets.now class_at field_at) }
{
    for target in targets {
        if let Target::Field { class, field } = target {
            mark(rows, *class, *field);
        }
    }
}

/// Which fields the reached methods name.
pub fn marks_of(
    alloc: Global,
    classes: &[ClassRecord],
    methods: &[ReachedMethod],
) -> Result<Vec<Marks>, Memory>
    requires { All (λ m. All (IsKnown classes.now) m.targets) methods.now }
    ensures { IfOk result (λ rows. AreMarks classes.now methods.now rows.items) }
{
    let mut rows = rows_of(alloc, classes)?;
    for method in methods {
        mark_fields(&mut rows, method.targets.as_slice());
    }
    Ok(rows)
}
