//! Reading attributes (JVMS 4.7).

ghost use Rattle.std.specs.Prelude.{◌≡◌};
ghost use Rattle.class_format.specs.Input.{Gives, each_from};
ghost use Rattle.class_format.specs.ClassText.{is_code};
ghost use Rattle.class_format.specs.Reading.{handler_from, other_from, inner_from, instructions_from, body_from, code_from, attribute_from, attributes_from};

use crate::byte_text::ByteText;
use crate::fault::{ATTRIBUTE_LENGTH, CODE_LENGTH, demand};
use crate::pool::names_code;
use crate::pool_reader::utf8_index;
use crate::reader::Reader;
use crate::record::{Attribute, Attributes, CodeBody, Handler, Handlers, PoolEntries};
use crate::refusal::FormatRefusal;
use std::alloc::Global;

#[tactic(auto, unfolding(crate::specs::Reading::handler_from))]
fn handler(reader: &mut Reader) -> Result<Handler, FormatRefusal>
    ensures { Gives (λ handler. (handler, reader.new)) result (handler_from reader.old) }
{
    Ok(Handler {
        start: reader.u2()?,
        end: reader.u2()?,
        target: reader.u2()?,
        catch: reader.u2()?,
    })
}

fn handlers(alloc: Global, reader: &mut Reader) -> Result<Handlers, FormatRefusal>
    ensures { Gives (λ handlers. (handlers, reader.new)) result (each_from handler_from reader.old) }
{
    let count = reader.u2()?;
    let mut handlers = Handlers::new(alloc);
    for _ in 0..count {
        let handler = handler(reader)?;
        handlers.push(handler)?;
    }
    Ok(handlers)
}

/// An attribute that is kept as bytes, behind its name and its length.
#[tactic(auto, unfolding(crate::specs::Reading::other_from))]
fn other(
    alloc: Global,
    name: u16,
    count: u32,
    reader: &mut Reader,
) -> Result<Attribute, FormatRefusal>
    ensures { Gives (λ attribute. (attribute, reader.new)) result (other_from name count reader.old) }
{
    let bytes = reader.take(count as usize)?;
    let bytes = ByteText::copied(alloc, bytes)?;
    Ok(Attribute::Other { name, bytes })
}

/// An attribute inside a Code attribute.
#[tactic(auto, unfolding(crate::specs::Reading::inner_from))]
fn inner(alloc: Global, pool: &PoolEntries, reader: &mut Reader) -> Result<Attribute, FormatRefusal>
    ensures { Gives (λ attribute. (attribute, reader.new)) result (inner_from pool.now reader.old) }
{
    let name = utf8_index(pool, reader)?;
    let count = reader.u4()?;
    other(alloc, name, count, reader)
}

fn inner_attributes(
    alloc: Global,
    pool: &PoolEntries,
    reader: &mut Reader,
) -> Result<Attributes, FormatRefusal>
    ensures { Gives (λ attributes. (attributes, reader.new)) result (each_from (inner_from pool.now) reader.old) }
{
    let count = reader.u2()?;
    let mut attributes = Attributes::new(alloc);
    for _ in 0..count {
        let attribute = inner(alloc, pool, reader)?;
        attributes.push(attribute)?;
    }
    Ok(attributes)
}

#[tactic(auto, unfolding(crate::specs::Reading::instructions_from))]
fn instructions(alloc: Global, reader: &mut Reader) -> Result<ByteText, FormatRefusal>
    ensures { Gives (λ code. (code, reader.new)) result (instructions_from reader.old) }
{
    let place = reader.place();
    let count = reader.u4()?;
    demand(0 < count && count <= 65535, CODE_LENGTH, place)?;
    let bytes = reader.take(count as usize)?;
    ByteText::copied(alloc, bytes)
}

/// The parts of a Code attribute.
#[tactic(auto, unfolding(crate::specs::Reading::body_from))]
fn body(
    alloc: Global,
    pool: &PoolEntries,
    name: u16,
    reader: &mut Reader,
) -> Result<CodeBody, FormatRefusal>
    ensures { Gives (λ body. (body, reader.new)) result (body_from pool.now name reader.old) }
{
    let max_stack = reader.u2()?;
    let max_locals = reader.u2()?;
    let code = instructions(alloc, reader)?;
    let handlers = handlers(alloc, reader)?;
    let attributes = inner_attributes(alloc, pool, reader)?;
    Ok(CodeBody {
        name,
        max_stack,
        max_locals,
        code,
        handlers,
        attributes,
    })
}

/// The fields in front of an attribute's content.
#[derive(Clone, Copy)]
struct Heading {
    name: u16,
    /// The place of the length.
    place: u64,
    length: u32,
}

/// A Code attribute behind its heading.
#[tactic(auto, unfolding(crate::specs::Reading::code_from))]
fn code(
    alloc: Global,
    pool: &PoolEntries,
    allowed: bool,
    heading: &Heading,
    reader: &mut Reader,
) -> Result<Attribute, FormatRefusal>
    ensures { Gives (λ attribute. (attribute, reader.new)) result (code_from pool.now allowed heading.now.name heading.now.place heading.now.length reader.old) }
{
    demand(allowed, ATTRIBUTE_LENGTH, heading.place)?;
    let end = reader.place() + u64::from(heading.length);
    let body = body(alloc, pool, heading.name, reader)?;
    demand(reader.place() == end, ATTRIBUTE_LENGTH, heading.place)?;
    Ok(Attribute::Code(body))
}

/// An attribute of a class, a field or a method. A Code attribute has to be allowed.
#[tactic(auto, unfolding(crate::specs::Reading::attribute_from))]
fn attribute(
    alloc: Global,
    pool: &PoolEntries,
    allowed: bool,
    reader: &mut Reader,
) -> Result<Attribute, FormatRefusal>
    ensures { Gives (λ attribute. (attribute, reader.new)) result (attribute_from pool.now allowed reader.old) }
{
    let name = utf8_index(pool, reader)?;
    let place = reader.place();
    let length = reader.u4()?;
    if names_code(pool, name) {
        let heading = Heading {
            name,
            place,
            length,
        };
        return code(alloc, pool, allowed, &heading, reader);
    }
    other(alloc, name, length, reader)
}

/// Whether an attribute is a Code attribute.
fn is_code(attribute: &Attribute) -> bool
    ensures { result ≡ is_code attribute.now }
{
    matches!(attribute, Attribute::Code(_))
}

/// The attributes of a class, a field or a method, of which one may be a Code attribute where that is allowed.
pub fn attributes(
    alloc: Global,
    pool: &PoolEntries,
    allowed: bool,
    reader: &mut Reader,
) -> Result<Attributes, FormatRefusal>
    ensures { Gives (λ attributes. (attributes, reader.new)) result (attributes_from pool.now allowed reader.old) }
{
    let count = reader.u2()?;
    let mut attributes = Attributes::new(alloc);
    let mut allowed = allowed;
    for _ in 0..count {
        let attribute = attribute(alloc, pool, allowed, reader)?;
        allowed = allowed & !is_code(&attribute);
        attributes.push(attribute)?;
    }
    Ok(attributes)
}
