//! Reading the constant pool (JVMS 4.4).

ghost use Rattle.std.specs.Prelude.{◌≡◌, ◌+◌, ◌^◌, ◌<◌, length};
ghost use Rattle.std.specs.List.{flat_map};
ghost use Rattle.class_format.specs.Input.{Gives, number_from};
ghost use Rattle.class_format.specs.ClassText.{entry_text};
ghost use Rattle.class_format.specs.Pool.{names_utf8, names_class};
ghost use Rattle.class_format.specs.Reading.{utf8_from, two_shorts_from, two_words_from, content_from, entry_from, numbered_from, pool_from, check_entry, check_entries, checked_pool_from, index_from};

use crate::byte_text::ByteText;
use crate::fault::{POOL_INDEX, POOL_TAG, demand};
use crate::pool::{names_class, names_name_and_type, names_utf8, size, takes_two_numbers};
use crate::reader::Reader;
use crate::record::{PoolEntries, PoolEntry};
use crate::refusal::FormatRefusal;
use std::alloc::Global;

#[tactic(auto, unfolding(crate::specs::Reading::utf8_from))]
fn utf8(alloc: Global, reader: &mut Reader) -> Result<PoolEntry, FormatRefusal>
    ensures { Gives (λ entry. (entry, reader.new)) result (utf8_from reader.old) }
{
    let count = reader.u2()?;
    let bytes = reader.take(count as usize)?;
    Ok(PoolEntry::Utf8(ByteText::copied(alloc, bytes)?))
}

/// What follows a tag that stood at `place`, where `numbers` pool numbers are left behind the entry's first.
#[tactic(auto, unfolding(crate::specs::Reading::content_from, crate::specs::Reading::short_from, crate::specs::Reading::word_from, crate::specs::Reading::two_shorts_from, crate::specs::Reading::two_words_from))]
fn content(
    alloc: Global,
    tag: u8,
    place: u64,
    numbers: u16,
    reader: &mut Reader,
) -> Result<PoolEntry, FormatRefusal>
    ensures { Gives (λ entry. (entry, reader.new)) result (content_from tag place numbers reader.old) }
{
    match tag {
        1 => utf8(alloc, reader),
        3 => Ok(PoolEntry::Integer(reader.u4()?)),
        4 => Ok(PoolEntry::Float(reader.u4()?)),
        5 if numbers > 0 => Ok(PoolEntry::Long(reader.u4()?, reader.u4()?)),
        6 if numbers > 0 => Ok(PoolEntry::Double(reader.u4()?, reader.u4()?)),
        7 => Ok(PoolEntry::Class(reader.u2()?)),
        8 => Ok(PoolEntry::Text(reader.u2()?)),
        9 => Ok(PoolEntry::Field(reader.u2()?, reader.u2()?)),
        10 => Ok(PoolEntry::Method(reader.u2()?, reader.u2()?)),
        11 => Ok(PoolEntry::InterfaceMethod(reader.u2()?, reader.u2()?)),
        12 => Ok(PoolEntry::NameAndType(reader.u2()?, reader.u2()?)),
        _ => Err(FormatRefusal::Refused {
            kind: POOL_TAG,
            place,
        }),
    }
}

#[tactic(auto, unfolding(crate::specs::Reading::entry_from))]
fn entry(alloc: Global, numbers: u16, reader: &mut Reader) -> Result<PoolEntry, FormatRefusal>
    ensures { Gives (λ entry. (entry, reader.new)) result (entry_from numbers reader.old) }
{
    let place = reader.place();
    let tag = reader.u1()?;
    content(alloc, tag, place, numbers, reader)
}

/// The entry of the next number, a gap where the entry before takes two numbers.
fn numbered(
    alloc: Global,
    wide: bool,
    numbers: u16,
    reader: &mut Reader,
) -> Result<PoolEntry, FormatRefusal>
    ensures { Gives (λ entry. (entry, reader.new)) result (numbered_from wide numbers reader.old) }
{
    if wide {
        return Ok(PoolEntry::Gap);
    }
    entry(alloc, numbers, reader)
}

fn entries(alloc: Global, count: u16, reader: &mut Reader) -> Result<PoolEntries, FormatRefusal>
    ensures { Gives (λ pool. (pool, reader.new)) result (pool_from count reader.old) }
{
    let mut pool = PoolEntries::new(alloc);
    let mut wide = false;
    for number in 0..count {
        let entry = numbered(alloc, wide, count - 1 - number, reader)?;
        wide = takes_two_numbers(&entry);
        pool.push(entry)?;
    }
    Ok(pool)
}

/// The indices of an entry that begins at `place`.
fn check_entry(pool: &PoolEntries, entry: &PoolEntry, place: u64) -> Result<(), FormatRefusal>
    requires { place + 3 < 2 ^ 64 }
    ensures { Gives (λ _. tt) result (check_entry pool.now entry.now place) }
{
    match entry {
        PoolEntry::Class(name) => demand(names_utf8(pool, *name), POOL_INDEX, place + 1),
        PoolEntry::Text(text) => demand(names_utf8(pool, *text), POOL_INDEX, place + 1),
        PoolEntry::Field(class, name_and_type)
        | PoolEntry::Method(class, name_and_type)
        | PoolEntry::InterfaceMethod(class, name_and_type) => {
            demand(names_class(pool, *class), POOL_INDEX, place + 1)?;
            demand(
                names_name_and_type(pool, *name_and_type),
                POOL_INDEX,
                place + 3,
            )
        }
        PoolEntry::NameAndType(name, descriptor) => {
            demand(names_utf8(pool, *name), POOL_INDEX, place + 1)?;
            demand(names_utf8(pool, *descriptor), POOL_INDEX, place + 3)
        }
        _ => Ok(()),
    }
}

/// The indices in the entries of a pool, the first of which begins at `start`.
fn check_entries(pool: &PoolEntries, entries: &[PoolEntry], start: u64) -> Result<(), FormatRefusal>
    requires { start + length (flat_map entry_text entries.now) + 3 < 2 ^ 64 }
    ensures { Gives (λ _. tt) result (check_entries pool.now entries.now start) }
{
    let mut place = start;
    for entry in entries {
        check_entry(pool, entry, place)?;
        place += size(entry);
    }
    Ok(())
}

/// A pool of `count` numbers, and the indices in it.
#[tactic(auto, unfolding(crate::specs::Reading::checked_pool_from))]
pub fn read_pool(
    alloc: Global,
    count: u16,
    reader: &mut Reader,
) -> Result<PoolEntries, FormatRefusal>
    ensures { Gives (λ pool. (pool, reader.new)) result (checked_pool_from count reader.old) }
{
    let start = reader.place();
    let pool = entries(alloc, count, reader)?;
    check_entries(&pool, pool.as_slice(), start)?;
    Ok(pool)
}

/// An index that has to name a Utf8 entry.
#[tactic(auto, unfolding(crate::specs::Reading::index_from))]
pub fn utf8_index(pool: &PoolEntries, reader: &mut Reader) -> Result<u16, FormatRefusal>
    ensures { Gives (λ index. (index, reader.new)) result (index_from names_utf8 pool.now reader.old) }
{
    let place = reader.place();
    let index = reader.u2()?;
    demand(names_utf8(pool, index), POOL_INDEX, place)?;
    Ok(index)
}

/// An index that has to name a Class entry.
#[tactic(auto, unfolding(crate::specs::Reading::index_from))]
pub fn class_index(pool: &PoolEntries, reader: &mut Reader) -> Result<u16, FormatRefusal>
    ensures { Gives (λ index. (index, reader.new)) result (index_from names_class pool.now reader.old) }
{
    let place = reader.place();
    let index = reader.u2()?;
    demand(names_class(pool, index), POOL_INDEX, place)?;
    Ok(index)
}
