//! The methods of the program, typed.

ghost use Rattle.std.specs.Prelude.{◌≡◌, ◌++◌, [], ◌∷◌, All, IfErr, IfOk, length};
ghost use Rattle.linking.specs.Linking.{AreTypedMethods, IsTypedMethod};
ghost use Rattle.linking.specs.Phases.{CanBeTyped, IsFirstRefusalOf, IsRefusalOf, only_methods};
ghost use Rattle.program.specs.Program.{IsNewMethod, with_method};
ghost use Rattle.typing.specs.Typing.{IsTyping};
ghost use Rattle.untyped_program.specs.Limits.{AreByPlace};

use crate::operands::operands_of;
use crate::refusal::ProgramRefusal;
use opcodes::Listing;
use ports::Memory;
use program::{Items, Method, Program, TypedState};
use std::alloc::Global;
use typing::{TypeRefusal, UntypedMethod, type_method};

/// What is known before each instruction of a method.
fn type_one(alloc: Global, method: &UntypedMethod) -> Result<Items<TypedState>, ProgramRefusal>
    requires { CanBeTyped method.now }
    ensures typed { IfOk result (IsTyping method.now) }
    ensures refused { IfErr result (IsRefusalOf method.now) }
{
    match type_method(alloc, method) {
        Ok(typed) => Ok(typed),
        Err(TypeRefusal::Refused { kind, pc }) => Err(ProgramRefusal::Typing {
            kind,
            method: method.id,
            pc,
        }),
        Err(TypeRefusal::Memory) => Err(ProgramRefusal::Memory),
    }
}

/// The same listing once more.
fn copied(listing: &Listing) -> Result<Listing, Memory>
    ensures { IfOk result (λ copy. copy ≡ listing.now) }
{
    match listing.clone() {
        Ok(copy) => Ok(copy),
        Err(_) => Err(Memory),
    }
}

/// A method with these typed states.
fn with_types(
    alloc: Global,
    method: &UntypedMethod,
    typed: Items<TypedState>,
) -> Result<Method, Memory>
    requires can_be_typed { CanBeTyped method.now }
    requires typing { IsTyping method.now typed }
    ensures { IfOk result (λ m. IsTypedMethod method.now m) }
{
    let listing = copied(&method.listing)?;
    let operands = operands_of(
        alloc,
        method.listing.as_slice(),
        method.symbols.as_slice(),
        typed.as_slice(),
    )?;
    Ok(Method {
        id: method.id,
        frame: method.frame,
        listing,
        operands,
        typed,
    })
}

/// A method, typed.
fn typed_method(alloc: Global, method: &UntypedMethod) -> Result<Method, ProgramRefusal>
    requires { CanBeTyped method.now }
    ensures typed { IfOk result (λ m. IsTypedMethod method.now m) }
    ensures refused { IfErr result (IsRefusalOf method.now) }
{
    let typed = type_one(alloc, method)?;
    match with_types(alloc, method, typed) {
        Ok(method) => Ok(method),
        Err(Memory) => Err(ProgramRefusal::Memory),
    }
}

/// Adds a method to a program.
fn add_method(
    program: &mut Program,
    untyped: &UntypedMethod,
    method: Method,
) -> Result<(), ProgramRefusal>
    requires can_be_typed { CanBeTyped untyped.now }
    requires typed { IsTypedMethod untyped.now method }
    requires new { IsNewMethod program.old method }
    ensures ok { IfOk result (λ _. program.new ≡ with_method program.old method) }
    ensures err { IfErr result (λ e. e ≡ ProgramRefusal.Memory) }
{
    match program.add_method(method) {
        Ok(()) => Ok(()),
        Err(Memory) => Err(ProgramRefusal::Memory),
    }
}

/// The program that has the methods alone, each of them typed.
pub fn typed_methods(alloc: Global, methods: &[UntypedMethod]) -> Result<Program, ProgramRefusal>
    requires can_be_typed { All CanBeTyped methods.now }
    requires by_place { AreByPlace methods.now }
    ensures typed { IfOk result (λ p. AreTypedMethods methods.now p.methods) }
    ensures alone { IfOk result (λ p. p ≡ only_methods p.methods) }
    ensures refused { IfErr result (IsFirstRefusalOf methods.now) }
{
    let mut program = Program::new(alloc);
    for untyped in methods {
        let method = typed_method(alloc, untyped)?;
        add_method(&mut program, untyped, method)?;
    }
    Ok(program)
}
