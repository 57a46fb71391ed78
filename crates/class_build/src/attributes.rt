//! Attributes as bytes (JVMS 4.7).

ghost use Rattle.std.specs.Prelude.{◌≡◌, ◌++◌, length, OnOk, IfOk, All};
ghost use Rattle.class_format.specs.ClassText.{u2, u4, IsU2, IsU4, table, other_text, inner_text, handler_text, code_text, attribute_text};
ghost use Rattle.class_build.specs.Lengths.{InnerFits, BodyFits, AttributeFits, AttributesFit};

use crate::fields::{put_bytes, put_u2, put_u4};
use class_format::{Attribute, ByteText, CodeBody, Handler};
use ports::Memory;
use std::alloc::Global;

/// Adds an attribute that is kept as bytes.
fn put_other(out: &mut ByteText, name: u16, bytes: &ByteText) -> Result<(), Memory>
    requires { IsU4 (length bytes.now) }
    ensures { OnOk result (out.new ≡ out.old ++ other_text name bytes.now) }
{
    put_u2(out, name)?;
    put_u4(out, bytes.len() as u32)?;
    put_bytes(out, bytes.as_slice())
}

fn put_inner(out: &mut ByteText, attribute: &Attribute) -> Result<(), Memory>
    requires { InnerFits attribute.now }
    ensures { OnOk result (out.new ≡ out.old ++ inner_text attribute.now) }
{
    match attribute {
        Attribute::Other { name, bytes } => put_other(out, *name, bytes),
        Attribute::Code(_) => unreachable!(),
    }
}

fn put_inners(out: &mut ByteText, attributes: &[Attribute]) -> Result<(), Memory>
    requires count { IsU2 (length attributes.now) }
    requires each { All InnerFits attributes.now }
    ensures { OnOk result (out.new ≡ out.old ++ table inner_text attributes.now) }
{
    put_u2(out, attributes.len() as u16)?;
    for attribute in attributes {
        put_inner(out, attribute)?;
    }
    Ok(())
}

fn put_handler(out: &mut ByteText, handler: &Handler) -> Result<(), Memory>
    ensures { OnOk result (out.new ≡ out.old ++ handler_text handler.now) }
{
    put_u2(out, handler.start)?;
    put_u2(out, handler.end)?;
    put_u2(out, handler.target)?;
    put_u2(out, handler.catch)
}

fn put_handlers(out: &mut ByteText, handlers: &[Handler]) -> Result<(), Memory>
    requires { IsU2 (length handlers.now) }
    ensures { OnOk result (out.new ≡ out.old ++ table handler_text handlers.now) }
{
    put_u2(out, handlers.len() as u16)?;
    for handler in handlers {
        put_handler(out, handler)?;
    }
    Ok(())
}

/// The content of a Code attribute.
fn content(alloc: Global, body: &CodeBody) -> Result<ByteText, Memory>
    requires { BodyFits body.now }
    ensures { IfOk result (λ text. text ≡ code_text body.now) }
{
    let mut out = ByteText::new(alloc);
    put_u2(&mut out, body.max_stack)?;
    put_u2(&mut out, body.max_locals)?;
    put_u4(&mut out, body.code.len() as u32)?;
    put_bytes(&mut out, body.code.as_slice())?;
    put_handlers(&mut out, body.handlers.as_slice())?;
    put_inners(&mut out, body.attributes.as_slice())?;
    Ok(out)
}

fn put_attribute(alloc: Global, out: &mut ByteText, attribute: &Attribute) -> Result<(), Memory>
    requires { AttributeFits attribute.now }
    ensures { OnOk result (out.new ≡ out.old ++ attribute_text attribute.now) }
{
    match attribute {
        Attribute::Other { name, bytes } => put_other(out, *name, bytes),
        Attribute::Code(body) => {
            let content = content(alloc, body)?;
            put_other(out, body.name, &content)
        }
    }
}

/// Adds a table of attributes of a class, a field or a method.
pub fn put_attributes(
    alloc: Global,
    out: &mut ByteText,
    attributes: &[Attribute],
) -> Result<(), Memory>
    requires { AttributesFit attributes.now }
    ensures { OnOk result (out.new ≡ out.old ++ table attribute_text attributes.now) }
{
    put_u2(out, attributes.len() as u16)?;
    for attribute in attributes {
        put_attribute(alloc, out, attribute)?;
    }
    Ok(())
}
