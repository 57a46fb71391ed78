//! The names of methods.

ghost use Rattle.std.specs.Prelude.{◌≡◌};
ghost use Rattle.program_listing.specs.NameTexts.{method_with};
ghost use Rattle.program_listing.specs.Pieces.{reference_in};

use class_format::ClassRecord;
use class_names::{name_of, text_of};
use program::MethodId;

/// A method by its class's name, its own name and its descriptor.
#[derive(Clone, Copy, Debug)]
pub struct MethodName<'a> {
    pub class: &'a [u8],
    pub name: &'a [u8],
    pub descriptor: &'a [u8],
}

/// A method that the classes do not have: all its names are empty.
const NO_METHOD: MethodName<'static> = MethodName {
    class: b"",
    name: b"",
    descriptor: b"",
};

/// The method with this id, as its class spells it; of empty names where the classes have no such method.
pub fn method_with(classes: &[ClassRecord], id: MethodId) -> MethodName<'_>
    ensures { reference_in result ≡ method_with classes.now id }
{
    let Some(class) = classes.get(id.class as usize) else {
        return NO_METHOD;
    };
    match class.methods.get(id.method as usize) {
        Some(method) => MethodName {
            class: name_of(class),
            name: text_of(&class.pool, method.name),
            descriptor: text_of(&class.pool, method.descriptor),
        },
        None => NO_METHOD,
    }
}
