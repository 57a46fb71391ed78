//! A class file as bytes (JVMS 4.1).

ghost use Rattle.std.specs.Prelude.{◌≡◌, ◌++◌, length, OnOk, IfOk};
ghost use Rattle.class_format.specs.ClassText.{u2, IsU2, table, member_text, IsValid, ClassText};
ghost use Rattle.class_build.specs.Lengths.{MemberFits, MembersFit};

use crate::attributes::put_attributes;
use crate::fields::{put_u2, put_u4};
use crate::pool::put_entries;
use class_format::{ByteText, ClassRecord, Member};
use ports::Memory;
use std::alloc::Global;

/// The first number of a class file.
const MAGIC_NUMBER: u32 = 0xCAFE_BABE;
/// The version of the profile: Java 5.
const MINOR_VERSION: u16 = 0;

const MAJOR_VERSION: u16 = 49;

fn put_member(alloc: Global, out: &mut ByteText, member: &Member) -> Result<(), Memory>
    requires { MemberFits member.now }
    ensures { OnOk result (out.new ≡ out.old ++ member_text member.now) }
{
    put_u2(out, member.flags)?;
    put_u2(out, member.name)?;
    put_u2(out, member.descriptor)?;
    put_attributes(alloc, out, member.attributes.as_slice())
}

fn put_members(alloc: Global, out: &mut ByteText, members: &[Member]) -> Result<(), Memory>
    requires { MembersFit members.now }
    ensures { OnOk result (out.new ≡ out.old ++ table member_text members.now) }
{
    put_u2(out, members.len() as u16)?;
    for member in members {
        put_member(alloc, out, member)?;
    }
    Ok(())
}

fn put_interfaces(out: &mut ByteText, interfaces: &[u16]) -> Result<(), Memory>
    requires { IsU2 (length interfaces.now) }
    ensures { OnOk result (out.new ≡ out.old ++ table u2 interfaces.now) }
{
    put_u2(out, interfaces.len() as u16)?;
    for index in interfaces {
        put_u2(out, *index)?;
    }
    Ok(())
}

/// The text of a class record: the bytes of its class file (JVMS 4; docs/PROFILE.md, "Class files").
///
/// The record has to be valid, as each one that `class_format::read_class` gives is. The one error is want
/// of memory.
pub fn write_class(alloc: Global, class: &ClassRecord) -> Result<ByteText, Memory>
    requires { IsValid class.now }
    ensures { IfOk result (ClassText class.now) }
{
    let mut out = ByteText::new(alloc);
    put_u4(&mut out, MAGIC_NUMBER)?;
    put_u2(&mut out, MINOR_VERSION)?;
    put_u2(&mut out, MAJOR_VERSION)?;
    put_u2(&mut out, (class.pool.len() + 1) as u16)?;
    put_entries(&mut out, class.pool.as_slice())?;
    put_u2(&mut out, class.flags)?;
    put_u2(&mut out, class.this)?;
    put_u2(&mut out, class.parent)?;
    put_interfaces(&mut out, class.interfaces.as_slice())?;
    put_members(alloc, &mut out, class.fields.as_slice())?;
    put_members(alloc, &mut out, class.methods.as_slice())?;
    put_attributes(alloc, &mut out, class.attributes.as_slice())?;
    Ok(out)
}
