//! The types on the operand stack.

ghost use Rattle.std.specs.Prelude.{◌≡◌, ◌≤◌, ◌<◌, ◌^◌, [], ◌∷◌, map, length, MatchOption, OnOk, OnErr, IfOk, IsTrue, ◌↔◌};
ghost use Rattle.typing.specs.Objects.{constructed};

use crate::object::Object;
use program::ValueType;
use std::alloc::{AllocError, Global};
use std::marker::Model;

/// A stack of types, seen from the top down.
#[derive(Debug, Drop)]
pub struct TypeStack {
    items: Vec<ValueType>,
}

impl Model for TypeStack {
    ghost use Rattle.std.specs.Prelude.{List, reverse};
    ghost use Rattle.program.specs.declared.value_type.ValueType.{ValueType};

    ghost Value = { List ValueType };

    ghost view = { λ s. reverse s.items.items };
}

/// The type behind the constructor's call of an object.
pub fn constructed(object: Object, holds: ValueType) -> ValueType
    ensures { result ≡ constructed object holds }
{
    match holds {
        ValueType::Fresh(thread) if object.same(Object::Thread(thread)) => {
            ValueType::Thread(thread)
        }
        ValueType::FreshTarget(thread) if object.same(Object::Target(thread)) => {
            ValueType::Target(thread)
        }
        other => other,
    }
}

/// Whether the lists have the same types.
fn are_same(a: &[ValueType], b: &[ValueType]) -> bool
    ensures { IsTrue result ↔ (a.now ≡ b.now) }
{
    if a.len() != b.len() {
        return false;
    }
    for i in 0..a.len() {
        if a[i] != b[i] {
            return false;
        }
    }
    true
}

/// The constructor of an object was called.
fn construct_all(items: &mut [ValueType], object: Object)
    ensures { items.new ≡ map (constructed object) items.old }
{
    for item in items.iter_mut() {
        *item = constructed(object, *item);
    }
}

impl TypeStack {
    ghost use Rattle.std.specs.Prelude.{reverse};

    /// An empty stack.
    pub fn new(alloc: Global) -> TypeStack
        ensures { result ≡ [] }
    {
        TypeStack {
            items: Vec::new(alloc),
        }
    }

    /// How many types there are.
    pub fn len(&self) -> usize
        ensures { result ≡ length self.now }
    {
        self.items.len()
    }

    /// Puts a type on top. Where memory is short, the stack is unchanged.
    pub fn push(&mut self, item: ValueType) -> Result<(), AllocError>
        ensures ok { OnOk result (self.new ≡ item ∷ self.old) }
        ensures err { OnErr result (self.new ≡ self.old) }
    {
        self.items.push(item)?;
        Ok(())
    }

    /// Takes the top type.
    pub fn pop(&mut self) -> Option<ValueType>
        ensures { MatchOption result ((self.old ≡ []) × (self.new ≡ [])) (λ t. self.old ≡ t ∷ self.new) }
    {
        self.items.pop()
    }

    /// Another stack of the same types.
    pub fn copied(&self, alloc: Global) -> Result<TypeStack, AllocError>
        ensures { IfOk result (λ s. s ≡ self.now) }
    {
        let mut items = Vec::new(alloc);
        items.extend_from_slice(&self.items)?;
        Ok(TypeStack { items })
    }

    /// Whether the stacks have the same types.
    pub fn is_same(&self, other: &TypeStack) -> bool
        ensures { IsTrue result ↔ (self.now ≡ other.now) }
    {
        are_same(&self.items, &other.items)
    }

    /// The types, the lowest first.
    pub fn as_slice(&self) -> &[ValueType]
        ensures { self.now ≡ reverse result.now }
    {
        self.items.as_slice()
    }

    /// The constructor of an object was called.
    pub fn construct(&mut self, object: Object)
        ensures { self.new ≡ map (constructed object) self.old }
    {
        construct_all(&mut self.items, object);
    }
}
