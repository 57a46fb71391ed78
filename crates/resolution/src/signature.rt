//! Descriptors of methods that take ints and booleans, and return one of them or nothing (JVMS 4.3.3).

ghost use Rattle.std.specs.Prelude.{◌≡◌};
ghost use Rattle.resolution.specs.Signatures.{is_int_letter, result_of, signature_from, signature_of};

/// How many ints a method takes, and whether it returns one.
#[derive(Clone, Copy, Debug, PartialEq, Eq)]
pub struct Signature {
    pub parameters: usize,
    pub result: bool,
}

/// Whether a letter is that of an int or a boolean.
fn is_int_letter(letter: u8) -> bool
    ensures { result ≡ is_int_letter letter }
{
    letter == b'I' || letter == b'Z'
}

/// What is returned, by what stands behind the parenthesis.
fn result_of(text: &[u8]) -> Option<bool>
    ensures { result ≡ result_of text.now }
{
    match text {
        [letter] => {
            if is_int_letter(*letter) {
                Some(true)
            } else if *letter == b'V' {
                Some(false)
            } else {
                None
            }
        }
        _ => None,
    }
}

/// The signature, by what stands behind the opening parenthesis.
fn signature_behind(text: &[u8]) -> Option<Signature>
    ensures { result ≡ signature_from 0 text.now }
{
    for (parameters, letter) in text.iter().enumerate() {
        if *letter == b')' {
            let result = result_of(&text[parameters + 1..])?;
            return Some(Signature { parameters, result });
        }
        if !is_int_letter(*letter) {
            return None;
        }
    }
    None
}

/// The signature of a descriptor; none where it has other types.
pub fn signature_of(descriptor: &[u8]) -> Option<Signature>
    ensures { result ≡ signature_of descriptor.now }
{
    match descriptor {
        [b'(', text @ ..] => signature_behind(text),
        _ => None,
    }
}
