//! The program, as its accessors show it.

ghost use Rattle.std.specs.Prelude.{◌≡◌, ◌≢◌, ◌<◌, ◌^◌, ◌++◌, [], ◌∷◌, is_ok, if◌then◌else◌, suc, Some, length, map, slice_get, All, AllPairs, Contains, OnOk, OnErr};
ghost use Rattle.program.specs.Program.{IsSpeltVariable, IsMethod, HasOperands, IsNewMethod, no_program, with_variable, with_monitor, with_thread, with_method};

use crate::method::{Method, MethodId};
use crate::name::Name;
use ports::Memory;
use std::alloc::Global;
use std::marker::Model;

/// A static field of type int or boolean that the program reaches.
#[derive(Debug, Drop)]
pub struct Variable {
    pub class: Name,
    pub name: Name,
    pub volatile: bool,
}

/// The program that some classes make (docs/MODEL.md, "The program of the classes").
#[derive(Debug, Drop)]
pub struct Program {
    variables: Vec<Variable>,
    monitors: Vec<Name>,
    threads: Vec<MethodId>,
    ids: Vec<MethodId>,
    methods: Vec<Method>,
}

impl Model for Program {
    ghost use Rattle.std.specs.Prelude.{◌≡◌, map};
    ghost use Rattle.program.specs.Program.{Prog, IsProgram};

    ghost Value = { Prog };

    ghost view = { λ p. record { variables = p.variables.items; monitors = p.monitors.items; threads = p.threads.items; methods = p.methods.items } };

    ghost invariant = { λ p. IsProgram (record { variables = p.variables.items; monitors = p.monitors.items; threads = p.threads.items; methods = p.methods.items }) × (p.ids.items ≡ map (λ m. m.id) p.methods.items) };
}

/// Adds a method to both lists, or to neither.
fn push_both(
    ids: &mut Vec<MethodId>,
    methods: &mut Vec<Method>,
    method: Method,
) -> Result<(), Memory>
    ensures ids { ids.new.items ≡ (if (is_ok result) then ids.old.items ++ method.id ∷ [] else ids.old.items) }
    ensures methods { methods.new.items ≡ (if (is_ok result) then methods.old.items ++ method ∷ [] else methods.old.items) }
{
    ids.push(method.id).map_err(|_| Memory)?;
    if methods.push(method).is_err() {
        ids.pop();
        return Err(Memory);
    }
    Ok(())
}

impl Program {
    /// A program of nothing.
    pub fn new(alloc: Global) -> Program
        ensures { result ≡ no_program }
    {
        Program {
            variables: Vec::new(alloc),
            monitors: Vec::new(alloc),
            threads: Vec::new(alloc),
            ids: Vec::new(alloc),
            methods: Vec::new(alloc),
        }
    }

    /// Adds a variable behind the last one. Where memory is short, the program is unchanged, as with the other calls that add.
    pub fn add_variable(&mut self, variable: Variable) -> Result<(), Memory>
        requires { IsSpeltVariable variable }
        ensures ok { OnOk result (self.new ≡ with_variable self.old variable) }
        ensures err { OnErr result (self.new ≡ self.old) }
    {
        self.variables.push(variable).map_err(|_| Memory)
    }

    /// Adds a monitor behind the last one.
    pub fn add_monitor(&mut self, class: Name) -> Result<(), Memory>
        ensures ok { OnOk result (self.new ≡ with_monitor self.old class) }
        ensures err { OnErr result (self.new ≡ self.old) }
    {
        self.monitors.push(class).map_err(|_| Memory)
    }

    /// Adds a thread behind the last one, by the method that it runs.
    pub fn add_thread(&mut self, entry: MethodId) -> Result<(), Memory>
        requires { suc (length self.old.threads) < 2 ^ 32 }
        ensures ok { OnOk result (self.new ≡ with_thread self.old entry) }
        ensures err { OnErr result (self.new ≡ self.old) }
    {
        self.threads.push(entry).map_err(|_| Memory)
    }

    /// Adds a reached method behind the last one.
    pub fn add_method(&mut self, method: Method) -> Result<(), Memory>
        requires operands { HasOperands method }
        requires new { IsNewMethod self.old method }
        ensures ok { OnOk result (self.new ≡ with_method self.old method) }
        ensures err { OnErr result (self.new ≡ self.old) }
    {
        push_both(&mut self.ids, &mut self.methods, method)
    }

    /// How many threads there are, main included.
    pub fn threads(&self) -> u32
        ensures { result ≡ length self.now.threads }
    {
        self.threads.len() as u32
    }

    /// The variables, by class and by place in the class.
    pub fn variables(&self) -> &[Variable]
        ensures value { result.now ≡ self.now.variables }
        ensures spelt { All IsSpeltVariable self.now.variables }
    {
        self.variables.as_slice()
    }

    /// The monitors by class name, in the order of their first appearance.
    pub fn monitors(&self) -> &[Name]
        ensures { result.now ≡ self.now.monitors }
    {
        self.monitors.as_slice()
    }

    /// The method that a thread runs.
    pub fn entry(&self, thread: u32) -> MethodId
        requires { thread < length self.now.threads }
        ensures { slice_get self.now.threads thread ≡ Some result }
    {
        self.threads[thread as usize]
    }

    /// The reached methods, by class and by place in the class.
    pub fn methods(&self) -> &[MethodId]
        ensures value { result.now ≡ map (λ m. m.id) self.now.methods }
        ensures distinct { AllPairs (λ m n. m.id ≢ n.id) self.now.methods }
    {
        self.ids.as_slice()
    }

    /// A reached method: its frame, its instructions and what they name.
    pub fn method(&self, id: MethodId) -> &Method
        requires { Contains (map (λ m. m.id) self.now.methods) id }
        ensures { IsMethod self.now id result.now }
    {
        self.reached(id)
    }

    /// A reached method, the one that has this id. Each of its instructions has its operand.
    pub(crate) fn reached(&self, id: MethodId) -> &Method
        requires { Contains (map (λ m. m.id) self.now.methods) id }
        ensures named { IsMethod self.now id result.now }
        ensures only { (m : Method) → IsMethod self.now id m → m ≡ result.now }
        ensures operands { HasOperands result.now }
    {
        for method in &self.methods {
            if method.id == id {
                return method;
            }
        }
        unreachable!()
    }
}
