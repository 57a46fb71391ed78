//! Reading a class file (JVMS 4.1).

ghost use Rattle.std.specs.Prelude.{◌≡◌, ℕ, ◌<◌, IfOk, IfErr, Ok, Err};
ghost use Rattle.class_format.specs.declared.record.ClassRecord.{ClassRecord};
ghost use Rattle.class_format.specs.ClassText.{ClassText};
ghost use Rattle.class_format.specs.FirstFault.{fault_at};
ghost use Rattle.class_format.specs.Refusals.{IsFirstFault, IsRefusedFor};
ghost use Rattle.class_format.specs.Input.{Gives, each_from};
ghost use Rattle.class_format.specs.Pool.{names_class};
ghost use Rattle.class_format.specs.Reading.{index_from, member_from, header_from, names_from, body_of_class_from, class_from};

use crate::attribute_reader::attributes;
use crate::fault::{MAGIC, POOL_INDEX, TRAILING, VERSION, demand};
use crate::indices::Indices;
use crate::pool_reader::{class_index, read_pool, utf8_index};
use crate::reader::Reader;
use crate::record::{ClassRecord, Member, Members, PoolEntries};
use crate::refusal::FormatRefusal;
use std::alloc::Global;

/// The first number of a class file.
const MAGIC_NUMBER: u32 = 0xCAFE_BABE;
/// The version of the profile: Java 5.
const MINOR_VERSION: u16 = 0;

const MAJOR_VERSION: u16 = 49;

/// A field, or where Code attributes are allowed a method.
#[tactic(auto, unfolding(crate::specs::Reading::member_from))]
fn member(
    alloc: Global,
    pool: &PoolEntries,
    allowed: bool,
    reader: &mut Reader,
) -> Result<Member, FormatRefusal>
    ensures { Gives (λ member. (member, reader.new)) result (member_from pool.now allowed reader.old) }
{
    let flags = reader.u2()?;
    let name = utf8_index(pool, reader)?;
    let descriptor = utf8_index(pool, reader)?;
    let attributes = attributes(alloc, pool, allowed, reader)?;
    Ok(Member {
        flags,
        name,
        descriptor,
        attributes,
    })
}

fn members(
    alloc: Global,
    pool: &PoolEntries,
    allowed: bool,
    reader: &mut Reader,
) -> Result<Members, FormatRefusal>
    ensures { Gives (λ members. (members, reader.new)) result (each_from (member_from pool.now allowed) reader.old) }
{
    let count = reader.u2()?;
    let mut members = Members::new(alloc);
    for _ in 0..count {
        let member = member(alloc, pool, allowed, reader)?;
        members.push(member)?;
    }
    Ok(members)
}

fn interfaces(
    alloc: Global,
    pool: &PoolEntries,
    reader: &mut Reader,
) -> Result<Indices, FormatRefusal>
    ensures { Gives (λ indices. (indices, reader.new)) result (each_from (index_from names_class pool.now) reader.old) }
{
    let count = reader.u2()?;
    let mut indices = Indices::new(alloc);
    for _ in 0..count {
        let index = class_index(pool, reader)?;
        indices.push(index)?;
    }
    Ok(indices)
}

/// The magic number, the version and the pool's count, which is above 0.
#[tactic(auto, unfolding(crate::specs::Reading::header_from))]
fn header(reader: &mut Reader) -> Result<u16, FormatRefusal>
    ensures count { Gives (λ count. (count, reader.new)) result (header_from reader.old) }
    ensures above { IfOk result (λ count. 0 < count) }
{
    let magic_place = reader.place();
    let magic = reader.u4()?;
    demand(magic == MAGIC_NUMBER, MAGIC, magic_place)?;
    let version_place = reader.place();
    let minor = reader.u2()?;
    let major = reader.u2()?;
    demand(
        minor == MINOR_VERSION && major == MAJOR_VERSION,
        VERSION,
        version_place,
    )?;
    let count_place = reader.place();
    let count = reader.u2()?;
    if count == 0 {
        return Err(FormatRefusal::Refused {
            kind: POOL_INDEX,
            place: count_place,
        });
    }
    Ok(count)
}

/// The access flags and the indices of the class and of its superclass.
#[tactic(auto, unfolding(crate::specs::Reading::names_from))]
fn names(pool: &PoolEntries, reader: &mut Reader) -> Result<(u16, u16, u16), FormatRefusal>
    ensures { Gives (λ names. (names, reader.new)) result (names_from pool.now reader.old) }
{
    let flags = reader.u2()?;
    let this = class_index(pool, reader)?;
    let parent = class_index(pool, reader)?;
    Ok((flags, this, parent))
}

/// What stands behind the pool.
#[tactic(auto, unfolding(crate::specs::Reading::body_of_class_from))]
fn body(alloc: Global, pool: PoolEntries, reader: &mut Reader) -> Result<ClassRecord, FormatRefusal>
    ensures { Gives (λ class. (class, reader.new)) result (body_of_class_from pool reader.old) }
{
    let (flags, this, parent) = names(&pool, reader)?;
    let interfaces = interfaces(alloc, &pool, reader)?;
    let fields = members(alloc, &pool, false, reader)?;
    let methods = members(alloc, &pool, true, reader)?;
    let attributes = attributes(alloc, &pool, false, reader)?;
    Ok(ClassRecord {
        pool,
        flags,
        this,
        parent,
        interfaces,
        fields,
        methods,
        attributes,
    })
}

/// The whole of a file up to the first fault.
#[tactic(auto, unfolding(crate::specs::Reading::class_from))]
fn whole(alloc: Global, bytes: &[u8]) -> Result<ClassRecord, FormatRefusal>
    ensures { Gives (λ class. class) result (class_from bytes.now) }
{
    let mut reader = Reader::new(bytes);
    let count = header(&mut reader)?;
    let pool = read_pool(alloc, count - 1, &mut reader)?;
    let class = body(alloc, pool, &mut reader)?;
    demand(reader.left() == 0, TRAILING, reader.place())?;
    Ok(class)
}

/// The class record that the bytes are the text of (JVMS 4; docs/PROFILE.md, "Class files").
///
/// Bytes that are no text of a record are refused with their first fault, its kind from 1 to 8 and its
/// place. `FormatRefusal::Memory` comes from want of memory alone.
pub fn read_class(alloc: Global, bytes: &[u8]) -> Result<ClassRecord, FormatRefusal>
    // What is read has these bytes as its text.
    ensures found { IfOk result (λ class. ClassText class bytes.now) }
    // The record of a text is read, unless memory runs out.
    ensures only { (class : ClassRecord) → ClassText class bytes.now → Gives (λ read. read) result (Ok class) }
    // Bytes are refused where they are no text, with their first fault.
    ensures refused { IfErr result (IsRefusedFor bytes.now) }
    // Bytes with a first fault are refused with it, unless memory runs out.
    ensures faulty { (kind place : ℕ) → IsFirstFault bytes.now kind place → Gives (λ read. read) result (Err (fault_at kind place)) }
{
    whole(alloc, bytes)
}
