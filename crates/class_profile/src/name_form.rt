//! What is asked of names.

ghost use Rattle.std.specs.Prelude.{◌≡◌, ◌↔◌, ◌++◌, [], ◌∷◌, Err, IfOk, OnOk, OnErr, IsTrue, Some, map};
ghost use Rattle.std.specs.List.{position_or_len};
ghost use Rattle.class_names.specs.Names.{same_text, text_in};
ghost use Rattle.class_names.specs.Members.{is_int_field};
ghost use Rattle.class_profile.specs.NameForm.{int_fields, HasWritableFields, HasDistinctFields, HasDistinctMethods, HasPlainNames};
ghost use Rattle.class_profile.specs.Texts.{with_text, number_at, NumbersTexts};
ghost use Rattle.program.specs.Names.{IsNameByte, IsName};

use crate::distinct::are_distinct;
use crate::refusal::ProfileRefusal;
use crate::text_set::TextSet;
use class_format::{ClassRecord, PoolEntries, PoolEntry};
use class_names::{is_int_field, member_name, name_of};
use std::alloc::Global;

/// The most bytes of a name that can be written.
const MOST_BYTES: usize = 200;

/// Whether a byte may stand in a name that can be written.
fn is_name_byte(byte: u8) -> bool
    ensures { IsTrue result ↔ IsNameByte byte }
{
    (0x21..=0x7e).contains(&byte) && byte != b'.' && byte != b';' && byte != b'['
}

/// Whether a text is a name that can be written (docs/TEXTS.md, "Names").
pub fn is_name(text: &[u8]) -> bool
    ensures { IsTrue result ↔ IsName text.now }
{
    !text.is_empty() && text.len() <= MOST_BYTES && text.iter().all(|byte| is_name_byte(*byte))
}

/// Whether the names of the static fields of type int or boolean can be written.
fn has_writable_fields(class: &ClassRecord) -> bool
    ensures { IsTrue result ↔ HasWritableFields class.now }
{
    class.fields.as_slice().iter().all(|field| {
        !is_int_field(&class.pool, field) || is_name(member_name(&class.pool, field))
    })
}

/// The bytes of an entry, where it is a text.
fn text_in(entry: &PoolEntry) -> &[u8]
    ensures { result.now ≡ text_in (Some entry.now) }
{
    match entry {
        PoolEntry::Utf8(bytes) => bytes.as_slice(),
        _ => b"".as_slice(),
    }
}

/// Adds the number of a text, which may be new.
fn push_number<'a>(
    texts: &mut TextSet<'a>,
    numbers: &mut Vec<usize>,
    text: &'a [u8],
) -> Result<(), ProfileRefusal>
    ensures texts { OnOk result (texts.new ≡ with_text texts.old text.now) }
    ensures numbers { OnOk result (numbers.new.items ≡ numbers.old.items ++ position_or_len (same_text text.now) texts.old ∷ []) }
    ensures memory { OnErr result (result ≡ Err ProfileRefusal.Memory) }
{
    let added = texts.add(text)?;
    numbers
        .push(added.number)
        .map_err(|_| ProfileRefusal::Memory)
}

/// Numbers for the texts that the indices of a pool name, from index 0 on: the same number for the same text.
fn text_numbers(alloc: Global, pool: &PoolEntries) -> Result<Vec<usize>, ProfileRefusal>
    ensures numbers { IfOk result (λ numbers. NumbersTexts pool.now numbers.items) }
    ensures memory { OnErr result (result ≡ Err ProfileRefusal.Memory) }
{
    let mut texts = TextSet::new(alloc);
    let mut numbers = Vec::new(alloc);
    push_number(&mut texts, &mut numbers, b"")?;
    for entry in pool.as_slice() {
        push_number(&mut texts, &mut numbers, text_in(entry))?;
    }
    Ok(numbers)
}

/// The number of the text that an index names.
fn number_at(numbers: &[usize], index: u16) -> usize
    ensures { result ≡ number_at numbers.now index }
{
    match numbers.get(index as usize) {
        Some(number) => *number,
        None => numbers.first().copied().unwrap_or(0),
    }
}

/// The numbers of the names of the static fields of type int or boolean.
fn field_keys(
    alloc: Global,
    class: &ClassRecord,
    numbers: &[usize],
) -> Result<Vec<usize>, ProfileRefusal>
    ensures keys { IfOk result (λ keys. keys.items ≡ map (λ f. number_at numbers.now f.name) (int_fields class.now)) }
    ensures memory { OnErr result (result ≡ Err ProfileRefusal.Memory) }
{
    let mut keys = Vec::new(alloc);
    for field in class.fields.as_slice() {
        if is_int_field(&class.pool, field) {
            keys.push(number_at(numbers, field.name))
                .map_err(|_| ProfileRefusal::Memory)?;
        }
    }
    Ok(keys)
}

/// The numbers of the names and of the descriptors of the methods.
fn method_keys(
    alloc: Global,
    class: &ClassRecord,
    numbers: &[usize],
) -> Result<Vec<(usize, usize)>, ProfileRefusal>
    ensures keys { IfOk result (λ keys. keys.items ≡ map (λ m. (number_at numbers.now m.name, number_at numbers.now m.descriptor)) class.now.methods) }
    ensures memory { OnErr result (result ≡ Err ProfileRefusal.Memory) }
{
    let mut keys = Vec::new(alloc);
    for method in class.methods.as_slice() {
        let key = (
            number_at(numbers, method.name),
            number_at(numbers, method.descriptor),
        );
        keys.push(key).map_err(|_| ProfileRefusal::Memory)?;
    }
    Ok(keys)
}

/// Whether no two static fields of type int or boolean have one name.
fn has_distinct_fields(
    alloc: Global,
    class: &ClassRecord,
    numbers: &[usize],
) -> Result<bool, ProfileRefusal>
    requires { NumbersTexts class.now.pool numbers.now }
    ensures told { IfOk result (λ distinct. IsTrue distinct ↔ HasDistinctFields class.now) }
    ensures memory { OnErr result (result ≡ Err ProfileRefusal.Memory) }
{
    let keys = field_keys(alloc, class, numbers)?;
    are_distinct(alloc, &keys)
}

/// Whether no two methods have one name and descriptor.
fn has_distinct_methods(
    alloc: Global,
    class: &ClassRecord,
    numbers: &[usize],
) -> Result<bool, ProfileRefusal>
    requires { NumbersTexts class.now.pool numbers.now }
    ensures told { IfOk result (λ distinct. IsTrue distinct ↔ HasDistinctMethods class.now) }
    ensures memory { OnErr result (result ≡ Err ProfileRefusal.Memory) }
{
    let keys = method_keys(alloc, class, numbers)?;
    are_distinct(alloc, &keys)
}

/// Whether the class is none of the library's, its name and those of its variables can be written, and no member stands twice.
pub fn has_plain_names(alloc: Global, class: &ClassRecord) -> Result<bool, ProfileRefusal>
    ensures told { IfOk result (λ plain. IsTrue plain ↔ HasPlainNames class.now) }
    ensures memory { OnErr result (result ≡ Err ProfileRefusal.Memory) }
{
    let name = name_of(class);
    if !is_name(name) || name.starts_with(b"java/") || !has_writable_fields(class) {
        return Ok(false);
    }
    let numbers = text_numbers(alloc, &class.pool)?;
    if !has_distinct_fields(alloc, class, &numbers)? {
        return Ok(false);
    }
    has_distinct_methods(alloc, class, &numbers)
}
