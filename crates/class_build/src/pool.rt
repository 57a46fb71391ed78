//! The constant pool as bytes (JVMS 4.4).

ghost use Rattle.std.specs.Prelude.{◌≡◌, [], ◌∷◌, ◌++◌, OnOk, All};
ghost use Rattle.std.specs.List.{flat_map};
ghost use Rattle.class_format.specs.ClassText.{u2, u4, entry_text};
ghost use Rattle.class_build.specs.Lengths.{EntryFits};

use crate::fields::{put_bytes, put_u1, put_u2, put_u4};
use class_format::{ByteText, PoolEntry};
use ports::Memory;

fn put_tagged_u2(out: &mut ByteText, tag: u8, number: u16) -> Result<(), Memory>
    ensures { OnOk result (out.new ≡ out.old ++ (tag ∷ [] ++ u2 number)) }
{
    put_u1(out, tag)?;
    put_u2(out, number)
}

fn put_tagged_u4(out: &mut ByteText, tag: u8, number: u32) -> Result<(), Memory>
    ensures { OnOk result (out.new ≡ out.old ++ (tag ∷ [] ++ u4 number)) }
{
    put_u1(out, tag)?;
    put_u4(out, number)
}

fn put_two_indices(out: &mut ByteText, tag: u8, first: u16, second: u16) -> Result<(), Memory>
    ensures { OnOk result (out.new ≡ out.old ++ (tag ∷ [] ++ u2 first ++ u2 second)) }
{
    put_tagged_u2(out, tag, first)?;
    put_u2(out, second)
}

fn put_two_words(out: &mut ByteText, tag: u8, high: u32, low: u32) -> Result<(), Memory>
    ensures { OnOk result (out.new ≡ out.old ++ (tag ∷ [] ++ u4 high ++ u4 low)) }
{
    put_tagged_u4(out, tag, high)?;
    put_u4(out, low)
}

fn put_entry(out: &mut ByteText, entry: &PoolEntry) -> Result<(), Memory>
    requires { EntryFits entry.now }
    ensures { OnOk result (out.new ≡ out.old ++ entry_text entry.now) }
{
    match entry {
        PoolEntry::Utf8(bytes) => {
            put_tagged_u2(out, 1, bytes.len() as u16)?;
            put_bytes(out, bytes.as_slice())
        }
        PoolEntry::Integer(bits) => put_tagged_u4(out, 3, *bits),
        PoolEntry::Float(bits) => put_tagged_u4(out, 4, *bits),
        PoolEntry::Long(high, low) => put_two_words(out, 5, *high, *low),
        PoolEntry::Double(high, low) => put_two_words(out, 6, *high, *low),
        PoolEntry::Class(name) => put_tagged_u2(out, 7, *name),
        PoolEntry::Text(text) => put_tagged_u2(out, 8, *text),
        PoolEntry::Field(class, member) => put_two_indices(out, 9, *class, *member),
        PoolEntry::Method(class, member) => put_two_indices(out, 10, *class, *member),
        PoolEntry::InterfaceMethod(class, member) => put_two_indices(out, 11, *class, *member),
        PoolEntry::NameAndType(name, descriptor) => put_two_indices(out, 12, *name, *descriptor),
        PoolEntry::Gap => Ok(()),
    }
}

/// Adds the entries of a pool, without their count.
pub fn put_entries(out: &mut ByteText, entries: &[PoolEntry]) -> Result<(), Memory>
    requires { All EntryFits entries.now }
    ensures { OnOk result (out.new ≡ out.old ++ flat_map entry_text entries.now) }
{
    for entry in entries {
        put_entry(out, entry)?;
    }
    Ok(())
}
