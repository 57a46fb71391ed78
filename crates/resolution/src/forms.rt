//! The form in which main makes a thread around a target (docs/PROFILE.md, "Targets").

ghost use Rattle.std.specs.Prelude.{◌≡◌, ◌<◌, ◌≤◌, ◌^◌, length};
ghost use Rattle.std.specs.List.{AllWithin};
ghost use Rattle.std.specs.Option.{option_copied};
ghost use Rattle.opcodes.specs.Listing.{IsByPc};
ghost use Rattle.resolution.specs.Targets.{form_at, form_before, instr_at, is_call, is_dup, is_thread_name, made_name, special_name, target_made};

use crate::index::ClassIndex;
use class_format::{PoolEntries, PoolEntry, entry_at};
use class_names::{Expected, Reference, is_reference, same_text, text_of};
use opcodes::{Instr, Listed};

/// The first place of a listing with an instruction at `pc` or behind it.
fn place_from(listing: &[Listed], pc: u64) -> usize
    requires { IsByPc listing.now }
    ensures within { result ≤ length listing.now }
    ensures before { AllWithin (λ l. l.pc < pc) listing.now 0 result }
    ensures behind { AllWithin (λ l. pc ≤ l.pc) listing.now result (length listing.now) }
{
    listing.partition_point(|listed| u64::from(listed.pc) < pc)
}

/// The listed instruction at a place of the code.
fn instr_at(listing: &[Listed], pc: u64) -> Option<Instr>
    requires { IsByPc listing.now }
    ensures { result ≡ instr_at listing.now pc }
{
    let place = place_from(listing, pc);
    if place >= listing.len() {
        return None;
    }
    if u64::from(listing[place].pc) != pc {
        return None;
    }
    Some(listing[place].instr)
}

/// The name of the class of which a `new` makes an object.
fn made_name(pool: &PoolEntries, instr: Option<Instr>) -> Option<&[u8]>
    ensures { option_copied result ≡ made_name pool.now instr }
{
    let Some(Instr::New { index }) = instr else {
        return None;
    };
    match entry_at(pool, index) {
        Some(PoolEntry::Class(name)) => Some(text_of(pool, *name)),
        _ => None,
    }
}

/// Whether an instruction is a `dup`.
fn is_dup(instr: Option<Instr>) -> bool
    ensures { result ≡ is_dup instr }
{
    matches!(instr, Some(Instr::Dup))
}

/// Whether a `new` makes a `java/lang/Thread`.
fn makes_thread(pool: &PoolEntries, instr: Option<Instr>) -> bool
    ensures { result ≡ is_thread_name (made_name pool.now instr) }
{
    match made_name(pool, instr) {
        Some(name) => same_text(name, b"java/lang/Thread"),
        None => false,
    }
}

/// Whether a call is that of a method.
fn calls(pool: &PoolEntries, instr: Option<Instr>, expected: &Expected) -> bool
    ensures { result ≡ is_call expected.now.class.now expected.now.name.now expected.now.descriptor.now (special_name pool.now instr) }
{
    let Some(Instr::Invokespecial { index }) = instr else {
        return false;
    };
    match entry_at(pool, index) {
        Some(PoolEntry::Method(class, name_and_type)) => is_reference(
            pool,
            Reference {
                class: *class,
                name_and_type: *name_and_type,
            },
            expected,
        ),
        _ => false,
    }
}

/// The place of the target class of which a `new` makes an object, where a call is that of its constructor.
fn target_made(
    index: &ClassIndex,
    pool: &PoolEntries,
    made: Option<Instr>,
    called: Option<Instr>,
) -> Option<u32>
    ensures { result ≡ target_made index.now.classes.now (made_name pool.now made) (special_name pool.now called) }
{
    let name = made_name(pool, made)?;
    let constructor = Expected {
        class: name,
        name: b"<init>",
        descriptor: b"()V",
    };
    if calls(pool, called, &constructor) {
        index.target_place(name)
    } else {
        None
    }
}

/// The place of the target class, where the form begins at this place of the code.
pub fn form_at(index: &ClassIndex, pool: &PoolEntries, listing: &[Listed], pc: u64) -> Option<u32>
    requires by_pc { IsByPc listing.now }
    requires small { pc < 2 ^ 32 }
    ensures { result ≡ form_at index.now.classes.now pool.now listing.now pc }
{
    let wrapping = Expected {
        class: b"java/lang/Thread",
        name: b"<init>",
        descriptor: b"(Ljava/lang/Runnable;)V",
    };
    let is_form = makes_thread(pool, instr_at(listing, pc))
        && is_dup(instr_at(listing, pc + 3))
        && is_dup(instr_at(listing, pc + 7))
        && calls(pool, instr_at(listing, pc + 11), &wrapping);
    if !is_form {
        return None;
    }
    target_made(
        index,
        pool,
        instr_at(listing, pc + 4),
        instr_at(listing, pc + 8),
    )
}

/// The same so far before a place.
pub fn form_before(
    index: &ClassIndex,
    pool: &PoolEntries,
    listing: &[Listed],
    back: u32,
    pc: u32,
) -> Option<u32>
    requires { IsByPc listing.now }
    ensures { result ≡ form_before index.now.classes.now pool.now listing.now back pc }
{
    if back <= pc {
        form_at(index, pool, listing, u64::from(pc - back))
    } else {
        None
    }
}
