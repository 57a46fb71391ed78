//! The fields that are variables, and their numbers.

ghost use Rattle.std.specs.Prelude.{◌≡◌, All, IfOk};
ghost use Rattle.untyped_program.specs.Known.{IsKnown};
ghost use Rattle.untyped_program.specs.Tables.{TellsNumbers, number_in};
ghost use Rattle.untyped_program.specs.Variables.{variables_of};

use crate::marks::marks_of;
use crate::numbers::{Fields, number_fields};
use class_format::ClassRecord;
use ports::Memory;
use reached_methods::ReachedMethod;
use std::alloc::Global;

/// The variables of the reached methods, and the numbers of the fields.
pub fn fields_of(
    alloc: Global,
    classes: &[ClassRecord],
    methods: &[ReachedMethod],
) -> Result<Fields, Memory>
    requires { All (λ m. All (IsKnown classes.now) m.targets) methods.now }
    ensures variables { IfOk result (λ n. n.variables ≡ variables_of classes.now methods.now) }
    ensures numbers { IfOk result (λ n. TellsNumbers classes.now methods.now n.numbers.items) }
{
    let rows = marks_of(alloc, classes, methods)?;
    number_fields(alloc, classes, &rows)
}
