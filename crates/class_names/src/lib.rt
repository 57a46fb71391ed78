//! What the entries of a constant pool spell and name (JVMS 4.4).
#![tactic(auto)]

mod members;
mod names;

pub use members::{
    body_of, extends, has_code, is_int, is_int_field, is_spelled, is_thread_class,
    member_descriptor, member_name,
};
pub use names::{
    ABSTRACT, Expected, FINAL, INTERFACE, Reference, STATIC, SYNCHRONIZED, VOLATILE, class_name_of,
    descriptor_of, has_flag, is_reference, member_name_of, name_of, same_text, text_of,
};
