//! What the code of one method has.

ghost use Rattle.std.specs.Prelude.{◌≡◌, ◌↔◌, All, Bool, true, false, IfOk, IsTrue};
ghost use Rattle.class_format.specs.ClassText.{IsValid};
ghost use Rattle.opcodes.specs.Listing.{IsByPc};
ghost use Rattle.reached_methods.specs.FirstFault.{IsFirstOrNone};
ghost use Rattle.reached_methods.specs.Reached.{is_method};
ghost use Rattle.reached_methods.specs.Surveys.{HasCode, HasLoopFaultIn, IsSurveyed};

use crate::code::code_of;
use crate::fault::{Fault, earlier};
use crate::loops::first_in_loop;
use crate::method::ReachedMethod;
use crate::naming::name_all;
use crate::reading::read_code;
use class_format::ClassRecord;
use opcodes::Listed;
use ports::Memory;
use program::MethodId;
use resolution::ClassIndex;
use std::alloc::Global;

/// The survey of a method: its reached instructions, what they name, and the first fault that it has without regard to other
/// methods. Where a name is refused, the instruction stands as one that names nothing.
#[derive(Debug, Drop)]
pub struct Surveyed {
    pub method: ReachedMethod,
    pub fault: Option<Fault>,
}

/// Whether the two are one method.
pub fn is_method(a: MethodId, b: MethodId) -> bool
    ensures value { result ≡ is_method a b }
    ensures same { IsTrue result ↔ (a ≡ b) }
{
    a.class == b.class && a.method == b.method
}

/// The first thread that main makes in a loop; none in other methods.
fn first_thread_in_loop(main: bool, listing: &[Listed]) -> Option<Fault>
    requires { IsByPc listing.now }
    ensures { IsFirstOrNone (HasLoopFaultIn main listing.now) result }
{
    if main { first_in_loop(listing) } else { None }
}

/// Surveys a method.
pub fn survey(
    alloc: Global,
    index: &ClassIndex,
    classes: &[ClassRecord],
    main: MethodId,
    id: MethodId,
) -> Result<Surveyed, Memory>
    requires index { index.now.classes.now ≡ classes.now }
    requires texts { All IsValid classes.now }
    requires code { HasCode classes.now id }
    ensures id { IfOk result (λ surveyed. surveyed.method.id ≡ id) }
    ensures surveyed { IfOk result (λ surveyed. IsSurveyed classes.now main surveyed) }
{
    let code = code_of(classes, id);
    let in_main = is_method(id, main);
    let read = read_code(alloc, code.body.code.as_slice())?;
    let listing = read.listing;
    let names = name_all(alloc, index, in_main, &code.class.pool, listing.as_slice())?;
    let looped = first_thread_in_loop(in_main, listing.as_slice());
    Ok(Surveyed {
        method: ReachedMethod {
            id,
            listing,
            targets: names.targets,
        },
        fault: earlier(earlier(read.fault, names.fault), looped),
    })
}
