//! The numbers that fields have as variables.

ghost use Rattle.std.specs.Prelude.{◌≡◌, ◌++◌, [], ◌∷◌, IfOk, OnOk, length};
ghost use Rattle.untyped_program.specs.Tables.{AreNumbersFrom, AreNumbers, HasRows, marked_in, marked_from};
ghost use Rattle.untyped_program.specs.Variables.{variable_of};

use crate::marks::Marks;
use class_format::{ClassRecord, Member};
use class_names::{VOLATILE, has_flag, member_name, name_of};
use ports::Memory;
use program::{Items, Name, Variable};
use std::alloc::Global;

/// The variable that a field of the class is.
fn variable_of(alloc: Global, class: &ClassRecord, field: &Member) -> Result<Variable, Memory>
    ensures { IfOk result (λ v. v ≡ variable_of class.now field.now) }
{
    let class_name = Name::copied(alloc, name_of(class))?;
    let name = Name::copied(alloc, member_name(&class.pool, field))?;
    Ok(Variable {
        class: class_name,
        name,
        volatile: has_flag(field.flags, VOLATILE),
    })
}

/// Adds the fields of the class that are marked.
fn add_variables(
    alloc: Global,
    class: &ClassRecord,
    marks: &[bool],
    variables: &mut Items<Variable>,
) -> Result<(), Memory>
    requires { length marks.now ≡ length class.now.fields }
    ensures { OnOk result (variables.new ≡ variables.old ++ marked_in class.now marks.now class.now.fields) }
{
    for (place, field) in class.fields.as_slice().iter().enumerate() {
        if marks[place] {
            let variable = variable_of(alloc, class, field)?;
            variables.push(variable)?;
        }
    }
    Ok(())
}

/// How many marks are set before each place, counted from a start.
fn numbers_from(alloc: Global, start: u32, marks: &[bool]) -> Result<Items<u32>, Memory>
    ensures { IfOk result (λ numbers. AreNumbersFrom start marks.now numbers) }
{
    let mut numbers = Items::new(alloc);
    let mut next = start;
    for mark in marks {
        numbers.push(next)?;
        if *mark {
            next = next.checked_add(1).ok_or(Memory)?;
        }
    }
    Ok(numbers)
}

/// The numbers of a class's fields, behind so many variables.
fn numbers_behind(
    alloc: Global,
    variables: &Items<Variable>,
    marks: &[bool],
) -> Result<Items<u32>, Memory>
    ensures { IfOk result (λ numbers. AreNumbersFrom (length variables.now) marks.now numbers) }
{
    let Ok(start) = u32::try_from(variables.len()) else {
        return Err(Memory);
    };
    numbers_from(alloc, start, marks)
}

/// The variables, and for each class the numbers that its fields have as variables.
#[derive(Drop)]
pub struct Fields {
    pub variables: Items<Variable>,
    pub numbers: Vec<Items<u32>>,
}

/// Adds the numbers of one more class.
fn add_row(numbers: &mut Vec<Items<u32>>, row: Items<u32>) -> Result<(), Memory>
    ensures { OnOk result (numbers.new.items ≡ numbers.old.items ++ row ∷ []) }
{
    match numbers.push(row) {
        Ok(()) => Ok(()),
        Err(_) => Err(Memory),
    }
}

/// Numbers the marked fields.
pub fn number_fields(
    alloc: Global,
    classes: &[ClassRecord],
    rows: &[Marks],
) -> Result<Fields, Memory>
    requires { HasRows classes.now rows.now }
    ensures variables { IfOk result (λ n. n.variables ≡ marked_from rows.now classes.now) }
    ensures numbers { IfOk result (λ n. AreNumbers classes.now rows.now n.numbers.items) }
{
    let mut variables = Items::new(alloc);
    let mut numbers = Vec::new(alloc);
    for (place, class) in classes.iter().enumerate() {
        let marks = rows[place].as_slice();
        let row = numbers_behind(alloc, &variables, marks)?;
        add_row(&mut numbers, row)?;
        add_variables(alloc, class, marks, &mut variables)?;
    }
    Ok(Fields { variables, numbers })
}
