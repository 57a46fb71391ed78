//! Names and code of fields and methods, and the classes of threads.

ghost use Rattle.std.specs.Prelude.{◌≡◌, ◌↔◌, IsTrue};
ghost use Rattle.std.specs.Option.{option_copied};
ghost use Rattle.class_format.specs.ClassText.{is_code};
ghost use Rattle.class_names.specs.Members.{member_name, member_descriptor, is_int, is_int_field, parent_name, IsSpelled, HasCode, body_in, body_of, IsThreadClass};

use crate::names::{STATIC, class_name_of, has_flag, same_text, text_of};
use class_format::{Attribute, ClassRecord, CodeBody, Member, PoolEntries};

/// The name of a member.
pub fn member_name<'a>(pool: &'a PoolEntries, member: &Member) -> &'a [u8]
    ensures { result.now ≡ member_name pool.now member.now }
{
    text_of(pool, member.name)
}

/// The descriptor of a member.
pub fn member_descriptor<'a>(pool: &'a PoolEntries, member: &Member) -> &'a [u8]
    ensures { result.now ≡ member_descriptor pool.now member.now }
{
    text_of(pool, member.descriptor)
}

/// Whether a member has this name and this descriptor.
pub fn is_spelled(pool: &PoolEntries, name: &[u8], descriptor: &[u8], member: &Member) -> bool
    ensures { IsTrue result ↔ IsSpelled pool.now name.now descriptor.now member.now }
{
    same_text(member_name(pool, member), name)
        && same_text(member_descriptor(pool, member), descriptor)
}

/// Whether a method has code.
pub fn has_code(method: &Member) -> bool
    ensures { IsTrue result ↔ HasCode method.now }
{
    method.attributes.as_slice().iter().any(is_code)
}

/// Whether an attribute is a Code attribute.
fn is_code(attribute: &Attribute) -> bool
    ensures { result ≡ is_code attribute.now }
{
    matches!(attribute, Attribute::Code(_))
}

/// The code of an attribute, if it is a Code attribute.
fn body_in(attribute: &Attribute) -> Option<&CodeBody>
    ensures { option_copied result ≡ body_in attribute.now }
{
    match attribute {
        Attribute::Code(body) => Some(body),
        Attribute::Other { .. } => None,
    }
}

/// The code of a method; the first, where there are several.
pub fn body_of(method: &Member) -> Option<&CodeBody>
    ensures { option_copied result ≡ body_of method.now }
{
    for attribute in method.attributes.as_slice() {
        if let Some(body) = body_in(attribute) {
            return Some(body);
        }
    }
    None
}

/// Whether a field's type is int or boolean.
pub fn is_int(pool: &PoolEntries, field: &Member) -> bool
    ensures { result ≡ is_int pool.now field.now }
{
    let descriptor = member_descriptor(pool, field);
    same_text(descriptor, b"I") || same_text(descriptor, b"Z")
}

/// Whether a field is a static int or boolean.
pub fn is_int_field(pool: &PoolEntries, field: &Member) -> bool
    ensures { result ≡ is_int_field pool.now field.now }
{
    has_flag(field.flags, STATIC) && is_int(pool, field)
}

/// Whether the class's superclass has this name.
pub fn extends(class: &ClassRecord, name: &[u8]) -> bool
    ensures { IsTrue result ↔ (parent_name class.now ≡ name.now) }
{
    same_text(class_name_of(&class.pool, class.parent), name)
}

/// Whether a class is a thread class.
pub fn is_thread_class(class: &ClassRecord) -> bool
    ensures { IsTrue result ↔ IsThreadClass class.now }
{
    extends(class, b"java/lang/Thread")
}
