//! What an index of the constant pool names (JVMS 4.4).

ghost use Rattle.std.specs.Prelude.{◌≡◌, length};
ghost use Rattle.std.specs.Option.{option_copied};
ghost use Rattle.class_format.specs.Pool.{entry_at, names_utf8, names_class, names_name_and_type, names_code, takes_two_numbers};
ghost use Rattle.class_format.specs.ClassText.{entry_text};

use crate::record::{PoolEntries, PoolEntry};

/// The entry with a number, counted from 1; none with the number 0 or past the last.
pub fn entry_at(pool: &PoolEntries, index: u16) -> Option<&PoolEntry>
    ensures { option_copied result ≡ entry_at pool.now index }
{
    if index == 0 {
        return None;
    }
    pool.get(index as usize - 1)
}

/// Whether an index names a Utf8 entry.
pub fn names_utf8(pool: &PoolEntries, index: u16) -> bool
    ensures { result ≡ names_utf8 pool.now index }
{
    matches!(entry_at(pool, index), Some(PoolEntry::Utf8(_)))
}

/// Whether an index names a Class entry.
pub fn names_class(pool: &PoolEntries, index: u16) -> bool
    ensures { result ≡ names_class pool.now index }
{
    matches!(entry_at(pool, index), Some(PoolEntry::Class(_)))
}

/// Whether an index names a NameAndType entry.
pub fn names_name_and_type(pool: &PoolEntries, index: u16) -> bool
    ensures { result ≡ names_name_and_type pool.now index }
{
    matches!(entry_at(pool, index), Some(PoolEntry::NameAndType(_, _)))
}

/// Whether an index names the text "Code".
pub fn names_code(pool: &PoolEntries, index: u16) -> bool
    ensures { result ≡ names_code pool.now index }
{
    match entry_at(pool, index) {
        Some(PoolEntry::Utf8(text)) => text.as_slice() == b"Code".as_slice(),
        _ => false,
    }
}

/// Whether an entry takes two numbers (JVMS 4.4.5).
pub fn takes_two_numbers(entry: &PoolEntry) -> bool
    ensures { result ≡ takes_two_numbers entry.now }
{
    matches!(entry, PoolEntry::Long(_, _) | PoolEntry::Double(_, _))
}

/// How many bytes an entry takes in the file.
#[tactic(auto, unfolding(crate::specs::ClassText::u2, crate::specs::ClassText::u4))]
pub fn size(entry: &PoolEntry) -> u64
    ensures { result ≡ length (entry_text entry.now) }
{
    match entry {
        PoolEntry::Utf8(bytes) => 3 + bytes.len() as u64,
        PoolEntry::Integer(_) | PoolEntry::Float(_) => 5,
        PoolEntry::Long(_, _) | PoolEntry::Double(_, _) => 9,
        PoolEntry::Class(_) | PoolEntry::Text(_) => 3,
        PoolEntry::Field(_, _)
        | PoolEntry::Method(_, _)
        | PoolEntry::InterfaceMethod(_, _)
        | PoolEntry::NameAndType(_, _) => 5,
        PoolEntry::Gap => 0,
    }
}
