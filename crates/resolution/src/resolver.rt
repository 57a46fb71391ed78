//! What an instruction names.

ghost use Rattle.std.specs.Prelude.{◌≡◌, ◌<◌, ◌++◌, Some, None, Err, IfOk, IfErr, OnOk, OnErr, IsTrue, length, slice_get};
ghost use Rattle.std.specs.List.{list_all};
ghost use Rattle.class_names.specs.Names.{reference_of, method_at, is_system_out, is_println};
ghost use Rattle.class_names.specs.Names as spec;
ghost use Rattle.class_format.specs.Pool as pools;
ghost use Rattle.opcodes.specs.Listing.{IsByPc};
ghost use Rattle.resolution.specs.Signatures.{signature_of};
ghost use Rattle.resolution.specs.Misnamings.{Tells};
ghost use Rattle.resolution.specs.Resolution.{resolve, field_named, foreign_field, field_resolved, own_field, own_method, field_of_class, static_call, method_of_class, method_resolved, virtual_call, object_call, special_call, constructor_named, main_constructor, class_made, object_made, main_made, thread_run, constant_named, class_object, is_called, is_bare, of_thread, of_thread_class, field_spelling, method_spelling, is_callable, is_name_byte, is_writable};

use crate::forms::{form_at, form_before};
use crate::index::ClassIndex;
use crate::refusal::Misnamed;
use crate::signature::signature_of;
use crate::target::Target;
use class_format::{ClassRecord, Member, PoolEntries, PoolEntry, entry_at};
use class_names::{
    Expected, FINAL, Reference, body_of, class_name_of, descriptor_of, has_flag, is_reference,
    member_name_of, same_text, text_of,
};
use opcodes::{Instr, Listed};
use program::{MethodId, Name};
use std::alloc::Global;

/// Where an instruction stands: in a method of a class with this pool, among these reached instructions.
#[derive(Clone, Copy)]
struct Site<'a, 'c> {
    index: &'a ClassIndex<'c>,
    pool: &'a PoolEntries,
    listing: &'a [Listed],
    pc: u32,
}

/// The most bytes of a name that can be written.
const MOST_BYTES: usize = 200;

/// Adds bytes to a name.
fn extend(name: &mut Name, bytes: &[u8]) -> Result<(), Misnamed>
    ensures added { OnOk result (name.new ≡ name.old ++ bytes.now) }
    ensures memory { OnErr result (result ≡ Err Misnamed.Memory) }
{
    for byte in bytes {
        name.push(*byte).map_err(|_| Misnamed::Memory)?;
    }
    Ok(())
}

/// A name of these bytes.
fn name_of(alloc: Global, bytes: &[u8]) -> Result<Name, Misnamed>
    ensures name { IfOk result (λ name. name ≡ bytes.now) }
    ensures memory { OnErr result (result ≡ Err Misnamed.Memory) }
{
    Name::copied(alloc, bytes).map_err(|_| Misnamed::Memory)
}

/// A field as a refusal spells it.
fn field_spelling(alloc: Global, pool: &PoolEntries, reference: Reference) -> Result<Name, Misnamed>
    ensures name { IfOk result (λ name. name ≡ field_spelling (reference_of pool.now reference.class reference.name_and_type)) }
    ensures memory { OnErr result (result ≡ Err Misnamed.Memory) }
{
    let mut name = name_of(alloc, class_name_of(pool, reference.class))?;
    extend(&mut name, b".")?;
    extend(&mut name, member_name_of(pool, reference.name_and_type))?;
    Ok(name)
}

/// A method as a refusal spells it.
fn method_spelling(
    alloc: Global,
    pool: &PoolEntries,
    reference: Reference,
) -> Result<Name, Misnamed>
    ensures name { IfOk result (λ name. name ≡ method_spelling (reference_of pool.now reference.class reference.name_and_type)) }
    ensures memory { OnErr result (result ≡ Err Misnamed.Memory) }
{
    let mut name = field_spelling(alloc, pool, reference)?;
    extend(&mut name, descriptor_of(pool, reference.name_and_type))?;
    Ok(name)
}

/// The refusal of a field or a method that is known nowhere.
fn unknown(name: Result<Name, Misnamed>) -> Misnamed
    requires { OnErr name (name ≡ Err Misnamed.Memory) }
    ensures told { IfOk name (λ n. result ≡ Misnamed.Unknown (Some n)) }
    ensures memory { OnErr name (result ≡ Misnamed.Memory) }
{
    match name {
        Ok(name) => Misnamed::Unknown { name: Some(name) },
        Err(refusal) => refusal,
    }
}

/// The refusal of a call that the profile does not have.
fn forbidden(name: Result<Name, Misnamed>) -> Misnamed
    requires { OnErr name (name ≡ Err Misnamed.Memory) }
    ensures told { IfOk name (λ n. result ≡ Misnamed.Forbidden n) }
    ensures memory { OnErr name (result ≡ Misnamed.Memory) }
{
    match name {
        Ok(name) => Misnamed::Forbidden { name },
        Err(refusal) => refusal,
    }
}

/// Whether a reference is `java/lang/System.out`.
fn is_system_out(pool: &PoolEntries, reference: Reference) -> bool
    ensures { result ≡ is_system_out (reference_of pool.now reference.class reference.name_and_type) }
{
    let expected = Expected {
        class: b"java/lang/System",
        name: b"out",
        descriptor: b"Ljava/io/PrintStream;",
    };
    is_reference(pool, reference, &expected)
}

/// Whether a reference is `java/io/PrintStream.println(I)V`.
fn is_println(pool: &PoolEntries, reference: Reference) -> bool
    ensures { result ≡ is_println (reference_of pool.now reference.class reference.name_and_type) }
{
    let expected = Expected {
        class: b"java/io/PrintStream",
        name: b"println",
        descriptor: b"(I)V",
    };
    is_reference(pool, reference, &expected)
}

/// A field that was found in a class.
fn field_at(class: u32, field: u32, member: &Member) -> Result<Target, Misnamed>
    ensures { (r : _) → Tells (field_resolved class field (Some member.now) r) result }
{
    if has_flag(member.flags, FINAL) {
        return Err(Misnamed::Final);
    }
    Ok(Target::Field { class, field })
}

/// A field of a class, by its place among the fields.
fn field_in(
    alloc: Global,
    class: u32,
    found: &ClassRecord,
    field: Option<u32>,
    pool: &PoolEntries,
    reference: Reference,
) -> Result<Target, Misnamed>
    ensures { Tells (own_field class found.now (reference_of pool.now reference.class reference.name_and_type) field) result }
{
    let Some(field) = field else {
        return Err(unknown(field_spelling(alloc, pool, reference)));
    };
    match found.fields.get(field as usize) {
        Some(member) => field_at(class, field, member),
        None => Err(unknown(field_spelling(alloc, pool, reference))),
    }
}

/// A field of the class at a place.
fn field_of_class(
    alloc: Global,
    index: &ClassIndex,
    class: u32,
    pool: &PoolEntries,
    reference: Reference,
) -> Result<Target, Misnamed>
    requires { class < length index.now.classes.now }
    ensures { Tells (field_of_class class (slice_get index.now.classes.now class) (reference_of pool.now reference.class reference.name_and_type)) result }
{
    let name = member_name_of(pool, reference.name_and_type);
    let descriptor = descriptor_of(pool, reference.name_and_type);
    let Some(found) = index.classes.get(class as usize) else {
        unreachable!()
    };
    let field = index.field_place(class, name, descriptor);
    field_in(alloc, class, found, field, pool, reference)
}

/// A field of a class that is not listed.
fn foreign_field(
    alloc: Global,
    reads: bool,
    pool: &PoolEntries,
    reference: Reference,
) -> Result<Target, Misnamed>
    ensures { Tells (foreign_field reads (reference_of pool.now reference.class reference.name_and_type)) result }
{
    if reads && is_system_out(pool, reference) {
        return Ok(Target::Out);
    }
    Err(unknown(field_spelling(alloc, pool, reference)))
}

/// What a `getstatic`, which reads, or a `putstatic` names.
fn field_named(
    alloc: Global,
    index: &ClassIndex,
    reads: bool,
    pool: &PoolEntries,
    entry: u16,
) -> Result<Target, Misnamed>
    ensures { Tells (field_named index.now.classes.now reads (spec.field_at pool.now entry)) result }
{
    let Some(PoolEntry::Field(class, name_and_type)) = entry_at(pool, entry) else {
        return Err(Misnamed::Unknown { name: None });
    };
    let reference = Reference {
        class: *class,
        name_and_type: *name_and_type,
    };
    match index.class_place(class_name_of(pool, reference.class)) {
        Some(place) => field_of_class(alloc, index, place, pool, reference),
        None => foreign_field(alloc, reads, pool, reference),
    }
}

/// Whether a method with this descriptor takes ints, returns one or nothing, and has code.
fn is_callable(member: &Member, descriptor: &[u8]) -> bool
    ensures { result ≡ is_callable member.now (signature_of descriptor.now) }
{
    match signature_of(descriptor) {
        Some(_) => body_of(member).is_some(),
        None => false,
    }
}

/// A method that was found in a class.
fn method_found(
    alloc: Global,
    id: MethodId,
    member: &Member,
    pool: &PoolEntries,
    reference: Reference,
) -> Result<Target, Misnamed>
    ensures { (own : _) → Tells (method_resolved own id.class id.method (Some member.now) (reference_of pool.now reference.class reference.name_and_type)) result }
{
    if is_callable(member, descriptor_of(pool, reference.name_and_type)) {
        return Ok(Target::Call(id));
    }
    Err(forbidden(method_spelling(alloc, pool, reference)))
}

/// A method of a class, by its place among the methods.
fn method_in(
    alloc: Global,
    class: u32,
    found: &ClassRecord,
    method: Option<u32>,
    pool: &PoolEntries,
    reference: Reference,
) -> Result<Target, Misnamed>
    ensures { Tells (own_method class found.now (reference_of pool.now reference.class reference.name_and_type) method) result }
{
    let Some(method) = method else {
        return Err(unknown(method_spelling(alloc, pool, reference)));
    };
    match found.methods.get(method as usize) {
        Some(member) => method_found(alloc, MethodId { class, method }, member, pool, reference),
        None => Err(unknown(method_spelling(alloc, pool, reference))),
    }
}

/// A method of the class at a place.
fn method_of_class(
    alloc: Global,
    index: &ClassIndex,
    class: u32,
    pool: &PoolEntries,
    reference: Reference,
) -> Result<Target, Misnamed>
    requires { class < length index.now.classes.now }
    ensures { Tells (method_of_class class (slice_get index.now.classes.now class) (reference_of pool.now reference.class reference.name_and_type)) result }
{
    let name = member_name_of(pool, reference.name_and_type);
    let descriptor = descriptor_of(pool, reference.name_and_type);
    let Some(found) = index.classes.get(class as usize) else {
        unreachable!()
    };
    let method = index.method_place(class, name, descriptor);
    method_in(alloc, class, found, method, pool, reference)
}

/// What an `invokestatic` names.
fn static_call(
    alloc: Global,
    index: &ClassIndex,
    pool: &PoolEntries,
    entry: u16,
) -> Result<Target, Misnamed>
    ensures { Tells (static_call index.now.classes.now (method_at pool.now entry)) result }
{
    let Some(PoolEntry::Method(class, name_and_type)) = entry_at(pool, entry) else {
        return Err(Misnamed::Unknown { name: None });
    };
    let reference = Reference {
        class: *class,
        name_and_type: *name_and_type,
    };
    match index.class_place(class_name_of(pool, reference.class)) {
        Some(place) => method_of_class(alloc, index, place, pool, reference),
        None => Err(forbidden(method_spelling(alloc, pool, reference))),
    }
}

/// Whether a method has this name and this descriptor.
fn is_called(pool: &PoolEntries, name: &[u8], descriptor: &[u8], reference: Reference) -> bool
    ensures { result ≡ is_called name.now descriptor.now (reference_of pool.now reference.class reference.name_and_type) }
{
    same_text(member_name_of(pool, reference.name_and_type), name)
        && same_text(descriptor_of(pool, reference.name_and_type), descriptor)
}

/// Whether a method has this name, no parameters and no result.
fn is_bare(pool: &PoolEntries, name: &[u8], reference: Reference) -> bool
    ensures { result ≡ is_bare name.now (reference_of pool.now reference.class reference.name_and_type) }
{
    is_called(pool, name, b"()V", reference)
}

/// Whether the class of a reference is a listed thread class.
fn of_thread_class(index: &ClassIndex, pool: &PoolEntries, reference: Reference) -> bool
    ensures { result ≡ of_thread_class index.now.classes.now (reference_of pool.now reference.class reference.name_and_type) }
{
    index
        .thread_place(class_name_of(pool, reference.class))
        .is_some()
}

/// Whether the class of a reference is `java/lang/Thread` or a listed thread class.
fn of_thread(index: &ClassIndex, pool: &PoolEntries, reference: Reference) -> bool
    ensures { result ≡ of_thread index.now.classes.now (reference_of pool.now reference.class reference.name_and_type) }
{
    same_text(class_name_of(pool, reference.class), b"java/lang/Thread")
        || of_thread_class(index, pool, reference)
}

/// What a call of an object's method names.
fn object_call(
    alloc: Global,
    index: &ClassIndex,
    main: bool,
    pool: &PoolEntries,
    reference: Reference,
) -> Result<Target, Misnamed>
    ensures { Tells (object_call index.now.classes.now main (reference_of pool.now reference.class reference.name_and_type)) result }
{
    if is_println(pool, reference) {
        return Ok(Target::Print);
    }
    if main && is_bare(pool, b"start", reference) && of_thread(index, pool, reference) {
        return Ok(Target::Start);
    }
    if main && is_bare(pool, b"join", reference) && of_thread(index, pool, reference) {
        return Ok(Target::Join);
    }
    if main && is_called(pool, b"isAlive", b"()Z", reference) && of_thread(index, pool, reference) {
        return Ok(Target::Alive);
    }
    Err(forbidden(method_spelling(alloc, pool, reference)))
}

/// What an `invokevirtual` names.
fn virtual_call(
    alloc: Global,
    index: &ClassIndex,
    main: bool,
    pool: &PoolEntries,
    entry: u16,
) -> Result<Target, Misnamed>
    ensures { Tells (virtual_call index.now.classes.now main (method_at pool.now entry)) result }
{
    match entry_at(pool, entry) {
        Some(PoolEntry::Method(class, name_and_type)) => {
            let reference = Reference {
                class: *class,
                name_and_type: *name_and_type,
            };
            object_call(alloc, index, main, pool, reference)
        }
        _ => Err(Misnamed::Unknown { name: None }),
    }
}

/// What a call of a constructor names in main.
fn main_constructor(alloc: Global, site: &Site, reference: Reference) -> Result<Target, Misnamed>
    requires { IsByPc site.now.listing.now }
    ensures { Tells (main_constructor site.now.index.now.classes.now site.now.pool.now site.now.listing.now site.now.pc (reference_of site.now.pool.now reference.class reference.name_and_type)) result }
{
    if is_bare(site.pool, b"<init>", reference)
        && of_thread_class(site.index, site.pool, reference)
    {
        return Ok(Target::Construct);
    }
    if form_before(site.index, site.pool, site.listing, 8, site.pc).is_some() {
        return Ok(Target::ConstructTarget);
    }
    if form_before(site.index, site.pool, site.listing, 11, site.pc).is_some() {
        return Ok(Target::Wrap);
    }
    Err(forbidden(method_spelling(alloc, site.pool, reference)))
}

/// What a call of a constructor names.
fn constructor_named(
    alloc: Global,
    main: bool,
    site: &Site,
    reference: Reference,
) -> Result<Target, Misnamed>
    requires { IsByPc site.now.listing.now }
    ensures { Tells (constructor_named site.now.index.now.classes.now main site.now.pool.now site.now.listing.now site.now.pc (reference_of site.now.pool.now reference.class reference.name_and_type)) result }
{
    if main {
        main_constructor(alloc, site, reference)
    } else {
        Err(forbidden(method_spelling(alloc, site.pool, reference)))
    }
}

/// What an `invokespecial` names.
fn special_call(alloc: Global, main: bool, site: &Site, entry: u16) -> Result<Target, Misnamed>
    requires { IsByPc site.now.listing.now }
    ensures { Tells (special_call site.now.index.now.classes.now main site.now.pool.now site.now.listing.now site.now.pc (method_at site.now.pool.now entry)) result }
{
    match entry_at(site.pool, entry) {
        Some(PoolEntry::Method(class, name_and_type)) => {
            let reference = Reference {
                class: *class,
                name_and_type: *name_and_type,
            };
            constructor_named(alloc, main, site, reference)
        }
        _ => Err(Misnamed::Unknown { name: None }),
    }
}

/// The place of the class whose run a thread has that a `new` in main makes.
fn thread_run(site: &Site, name: &[u8]) -> Option<u32>
    requires { IsByPc site.now.listing.now }
    ensures { result ≡ thread_run site.now.index.now.classes.now site.now.pool.now site.now.listing.now site.now.pc name.now }
{
    if same_text(name, b"java/lang/Thread") {
        form_at(site.index, site.pool, site.listing, u64::from(site.pc))
    } else {
        site.index.thread_place(name)
    }
}

/// What a `new` of the class with this name names in main.
fn main_made(alloc: Global, site: &Site, name: &[u8]) -> Result<Target, Misnamed>
    requires { IsByPc site.now.listing.now }
    ensures { Tells (main_made site.now.index.now.classes.now site.now.pool.now site.now.listing.now site.now.pc name.now) result }
{
    if let Some(place) = thread_run(site, name) {
        return Ok(Target::New(place));
    }
    if form_before(site.index, site.pool, site.listing, 4, site.pc).is_some() {
        return Ok(Target::NewTarget);
    }
    Err(forbidden(name_of(alloc, name)))
}

/// What a `new` of the class with this name names.
fn object_made(alloc: Global, main: bool, site: &Site, name: &[u8]) -> Result<Target, Misnamed>
    requires { IsByPc site.now.listing.now }
    ensures { Tells (object_made site.now.index.now.classes.now main site.now.pool.now site.now.listing.now site.now.pc name.now) result }
{
    if main {
        main_made(alloc, site, name)
    } else {
        Err(forbidden(name_of(alloc, name)))
    }
}

/// What a `new` names.
fn class_made(alloc: Global, main: bool, site: &Site, entry: u16) -> Result<Target, Misnamed>
    requires { IsByPc site.now.listing.now }
    ensures { Tells (class_made site.now.index.now.classes.now main site.now.pool.now site.now.listing.now site.now.pc (pools.entry_at site.now.pool.now entry)) result }
{
    match entry_at(site.pool, entry) {
        Some(PoolEntry::Class(name)) => object_made(alloc, main, site, text_of(site.pool, *name)),
        _ => Err(Misnamed::Unknown { name: None }),
    }
}

/// Whether a byte may stand in a name that can be written.
fn is_name_byte(byte: u8) -> bool
    ensures { result ≡ is_name_byte byte }
{
    byte >= 0x21 && byte <= 0x7e && !(byte == b'.' || byte == b';' || byte == b'[')
}

/// Whether all bytes may stand in a name that can be written.
fn are_name_bytes(bytes: &[u8]) -> bool
    ensures { result ≡ list_all is_name_byte bytes.now }
{
    for byte in bytes {
        if !is_name_byte(*byte) {
            return false;
        }
    }
    true
}

/// Whether a text is a name that can be written (docs/TEXTS.md, "Names").
fn is_writable(name: &[u8]) -> bool
    ensures { result ≡ is_writable name.now }
{
    name.len() > 0 && name.len() <= MOST_BYTES && are_name_bytes(name)
}

/// What an `ldc` of a class names.
fn class_object(alloc: Global, entry: u16, name: &[u8]) -> Result<Target, Misnamed>
    ensures { Tells (class_object entry name.now) result }
{
    if is_writable(name) {
        return Ok(Target::Class(entry));
    }
    Err(unknown(name_of(alloc, name)))
}

/// What an `ldc` names.
fn constant_named(alloc: Global, pool: &PoolEntries, entry: u16) -> Result<Target, Misnamed>
    ensures { Tells (constant_named pool.now entry (pools.entry_at pool.now entry)) result }
{
    match entry_at(pool, entry) {
        Some(PoolEntry::Integer(value)) => Ok(Target::Constant(value.cast_signed())),
        Some(PoolEntry::Class(name)) => class_object(alloc, entry, text_of(pool, *name)),
        _ => Err(Misnamed::Unknown { name: None }),
    }
}

/// What a listed instruction of a class with this pool names; main alone makes, starts, joins and asks threads.
///
/// # Errors
/// `Unknown`, `Forbidden` and `Final` as docs/PROFILE.md, "Names", has them; `Memory` where there is no room for the name
/// that a refusal spells.
pub fn resolve(
    alloc: Global,
    index: &ClassIndex,
    main: bool,
    pool: &PoolEntries,
    listing: &[Listed],
    item: &Listed,
) -> Result<Target, Misnamed>
    requires { IsByPc listing.now }
    ensures { Tells (resolve index.now.classes.now main pool.now listing.now item.now) result }
{
    let site = Site {
        index,
        pool,
        listing,
        pc: item.pc,
    };
    match &item.instr {
        Instr::IconstM1 => Ok(Target::Constant(-1)),
        Instr::Iconst0 => Ok(Target::Constant(0)),
        Instr::Iconst1 => Ok(Target::Constant(1)),
        Instr::Iconst2 => Ok(Target::Constant(2)),
        Instr::Iconst3 => Ok(Target::Constant(3)),
        Instr::Iconst4 => Ok(Target::Constant(4)),
        Instr::Iconst5 => Ok(Target::Constant(5)),
        Instr::Bipush { value } => Ok(Target::Constant(i32::from(*value))),
        Instr::Sipush { value } => Ok(Target::Constant(i32::from(*value))),
        Instr::Ldc { index: entry } => constant_named(alloc, pool, u16::from(*entry)),
        Instr::LdcW { index: entry } => constant_named(alloc, pool, *entry),
        Instr::Getstatic { index: entry } => field_named(alloc, index, true, pool, *entry),
        Instr::Putstatic { index: entry } => field_named(alloc, index, false, pool, *entry),
        Instr::Invokevirtual { index: entry } => virtual_call(alloc, index, main, pool, *entry),
        Instr::Invokespecial { index: entry } => special_call(alloc, main, &site, *entry),
        Instr::Invokestatic { index: entry } => static_call(alloc, index, pool, *entry),
        Instr::New { index: entry } => class_made(alloc, main, &site, *entry),
        _ => Ok(Target::Nothing),
    }
}
