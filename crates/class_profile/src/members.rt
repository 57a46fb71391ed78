//! What is asked of fields and methods.

ghost use Rattle.std.specs.Prelude.{◌≡◌, ◌≢◌, ◌↔◌, All, Any, IsTrue, codes};
ghost use Rattle.class_names.specs.Members.{member_name, is_int};
ghost use Rattle.class_profile.specs.Members.{attribute_name, IsPlainVariable, HasPlainType, HasNoClassInit, HasStaticFields, HasPlainTypes};

use class_format::{Attribute, ClassRecord, Member, PoolEntries};
use class_names::{FINAL, STATIC, has_flag, is_int, member_name, same_text, text_of};

/// Whether an attribute has this name.
fn is_named(pool: &PoolEntries, name: &[u8], attribute: &Attribute) -> bool
    ensures { IsTrue result ↔ (attribute_name pool.now attribute.now ≡ name.now) }
{
    let index = match attribute {
        Attribute::Code(body) => body.name,
        Attribute::Other { name, .. } => *name,
    };
    same_text(text_of(pool, index), name)
}

/// Whether no attribute of a field gives it a value.
fn has_no_value(pool: &PoolEntries, field: &Member) -> bool
    ensures { IsTrue result ↔ All (λ a. attribute_name pool.now a ≢ codes "ConstantValue") field.now.attributes }
{
    field
        .attributes
        .as_slice()
        .iter()
        .all(|attribute| !is_named(pool, b"ConstantValue", attribute))
}

/// Whether a field is an int or a boolean that begins as 0.
fn is_plain_variable(pool: &PoolEntries, field: &Member) -> bool
    ensures { IsTrue result ↔ IsPlainVariable pool.now field.now }
{
    is_int(pool, field) && has_no_value(pool, field)
}

/// Whether a field has a type of the profile.
fn has_plain_type(pool: &PoolEntries, field: &Member) -> bool
    ensures { IsTrue result ↔ HasPlainType pool.now field.now }
{
    !has_flag(field.flags, STATIC) || has_flag(field.flags, FINAL) || is_plain_variable(pool, field)
}

/// Whether no method is a class's initializer.
pub fn has_no_class_init(class: &ClassRecord) -> bool
    ensures { IsTrue result ↔ HasNoClassInit class.now }
{
    class.methods.as_slice().iter().all(|method| !same_text(
        member_name(&class.pool, method),
        b"<clinit>",
    ))
}

/// Whether each field is static.
pub fn has_static_fields(class: &ClassRecord) -> bool
    ensures { IsTrue result ↔ HasStaticFields class.now }
{
    class
        .fields
        .as_slice()
        .iter()
        .all(|field| has_flag(field.flags, STATIC))
}

/// Whether each field has a type of the profile.
pub fn has_plain_types(class: &ClassRecord) -> bool
    ensures { IsTrue result ↔ HasPlainTypes class.now }
{
    class
        .fields
        .as_slice()
        .iter()
        .all(|field| has_plain_type(&class.pool, field))
}
