//! The code of a method.

ghost use Rattle.std.specs.Prelude.{◌<◌, ◌≤◌, length, All, IfSome, IfNone};
ghost use Rattle.class_format.specs.ClassText.{IsValid};
ghost use Rattle.reached_methods.specs.Reached.{HasCodeAt};
ghost use Rattle.reached_methods.specs.Surveys.{HasCode};

use class_format::{ClassRecord, CodeBody};
use class_names::body_of;
use program::MethodId;

/// A method's class and code.
#[derive(Clone, Copy)]
pub struct MethodCode<'a> {
    pub class: &'a ClassRecord,
    pub body: &'a CodeBody,
}

/// The code of a method, where it has code.
pub fn find_code(classes: &[ClassRecord], id: MethodId) -> Option<MethodCode<'_>>
    ensures some { IfSome result (λ found. HasCodeAt classes.now id found.class.now found.body.now) }
    ensures none { IfNone result (HasCode classes.now id → ⊥) }
{
    let class = classes.get(id.class as usize)?;
    let method = class.methods.get(id.method as usize)?;
    let body = body_of(method)?;
    Some(MethodCode { class, body })
}

/// The code of a method that has code.
pub fn code_of(classes: &[ClassRecord], id: MethodId) -> MethodCode<'_>
    requires texts { All IsValid classes.now }
    requires code { HasCode classes.now id }
    ensures there { HasCodeAt classes.now id result.class.now result.body.now }
    ensures some { 0 < length result.body.now.code }
    ensures short { length result.body.now.code ≤ 65535 }
{
    match find_code(classes, id) {
        Some(code) => code,
        None => unreachable!(),
    }
}
