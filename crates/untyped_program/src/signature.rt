//! Descriptors of methods that take ints and booleans, and return one of them or nothing (JVMS 4.3.3).

ghost use Rattle.std.specs.Prelude.{◌≡◌, ◌+◌, ◌<◌, ◌^◌, length};
ghost use Rattle.std.specs.Option.{option_map};
ghost use Rattle.resolution.specs.Signatures.{is_int_letter, result_of, signature_from, signature_of};
ghost use Rattle.untyped_program.specs.Methods.{signature_at};
ghost use Rattle.untyped_program.specs.Descriptors.{spelled};

use class_format::ClassRecord;
use class_names::member_descriptor;
use program::MethodId;

/// How many ints a method takes, and whether it returns one.
#[derive(Clone, Copy)]
pub struct Signature {
    pub parameters: usize,
    pub result: bool,
}

/// Whether a letter is that of int or boolean.
fn is_int_letter(letter: u8) -> bool
    ensures { result ≡ is_int_letter letter }
{
    letter == b'I' || letter == b'Z'
}

/// What stands behind the parenthesis: whether an int is returned.
fn result_of(letters: &[u8]) -> Option<bool>
    ensures { result ≡ result_of letters.now }
{
    match letters {
        [b'V'] => Some(false),
        [letter] if is_int_letter(*letter) => Some(true),
        _ => None,
    }
}

/// The signature with so many parameters, and this result.
fn with_result(parameters: usize, letters: &[u8]) -> Option<Signature>
    ensures { option_map spelled result ≡ option_map (λ r. record { parameters = parameters; result = r }) (result_of letters.now) }
{
    match result_of(letters) {
        Some(result) => Some(Signature { parameters, result }),
        None => None,
    }
}

/// The signature by what stands behind the first parenthesis.
fn signature_behind(letters: &[u8]) -> Option<Signature>
    ensures { option_map spelled result ≡ signature_from 0 letters.now }
{
    for (place, letter) in letters.iter().enumerate() {
        if *letter == b')' {
            return with_result(place, &letters[place + 1..]);
        }
        if !is_int_letter(*letter) {
            return None;
        }
    }
    None
}

/// The signature that a descriptor spells.
pub fn signature_of(descriptor: &[u8]) -> Option<Signature>
    ensures { option_map spelled result ≡ signature_of descriptor.now }
{
    match descriptor {
        [b'(', letters @ ..] => signature_behind(letters),
        _ => None,
    }
}

/// The signature of a method.
pub fn signature_at(classes: &[ClassRecord], id: MethodId) -> Option<Signature>
    ensures { option_map spelled result ≡ signature_at classes.now id }
{
    let class = classes.get(id.class as usize)?;
    let method = class.methods.get(id.method as usize)?;
    signature_of(member_descriptor(&class.pool, method))
}
