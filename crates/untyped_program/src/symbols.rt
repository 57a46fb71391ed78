//! What the instructions of a method name, by numbers.

ghost use Rattle.std.specs.Prelude.{◌≡◌, ◌<◌, ◌+◌, if◌then◌else◌, [], All, IfOk, IsSome, Some, length, map, slice_index_or};
ghost use Rattle.std.specs.Option.{option_map};
ghost use Rattle.typing.specs.declared.symbol.Symbol.TheVariants as symbol;
ghost use Rattle.untyped_program.specs.Known.{HasSymbol};
ghost use Rattle.untyped_program.specs.Methods.{called, is_new, signature_at, symbol_of, symbols_from};
ghost use Rattle.untyped_program.specs.Monitors.{monitor_number};
ghost use Rattle.untyped_program.specs.Tables.{HasNumberFor, number_in};

use crate::monitors::MonitorNames;
use crate::signature::signature_at;
use class_format::{ClassRecord, PoolEntries};
use class_names::class_name_of;
use ports::Memory;
use program::{Items, MethodId};
use resolution::Target;
use std::alloc::Global;
use typing::Symbol;

/// What the names of instructions are looked up in: the classes, the numbers of their fields, and the monitors.
#[derive(Drop)]
pub struct Names<'c, 'm> {
    pub classes: &'c [ClassRecord],
    pub numbers: Vec<Items<u32>>,
    pub monitors: MonitorNames<'m>,
}

/// A number of 32 bits.
pub fn short(number: usize) -> Result<u32, Memory>
    ensures { IfOk result (λ n. n ≡ number) }
{
    match u32::try_from(number) {
        Ok(number) => Ok(number),
        Err(_) => Err(Memory),
    }
}

/// The call of a method that has a signature.
fn call_of(classes: &[ClassRecord], id: MethodId) -> Result<Symbol, Memory>
    requires { IsSome (signature_at classes.now id) }
    ensures { IfOk result (λ s. option_map (called id) (signature_at classes.now id) ≡ Some s) }
{
    let Some(signature) = signature_at(classes, id) else {
        unreachable!()
    };
    Ok(Symbol::Call {
        method: id,
        parameters: short(signature.parameters)?,
        result: signature.result,
    })
}

/// The monitor of a name that has a number.
fn monitor_of(monitors: &MonitorNames, name: &[u8]) -> Result<Symbol, Memory>
    requires { IsSome (monitor_number monitors.now name.now) }
    ensures { IfOk result (λ s. option_map (λ n. symbol.Monitor n) (monitor_number monitors.now name.now) ≡ Some s) }
{
    match monitors.number_of(name)? {
        Some(number) => Ok(Symbol::Monitor(number)),
        None => unreachable!(),
    }
}

/// The number of a field.
fn number_in(numbers: &[Items<u32>], class: u32, field: u32) -> u32
    requires class { class < length numbers.now }
    requires field { field < length (slice_index_or numbers.now class []) }
    ensures { result ≡ number_in numbers.now class field }
{
    numbers[class as usize].as_slice()[field as usize]
}

/// How many threads are made behind an instruction, by what it names.
fn made_behind(made: u32, target: Target) -> Result<u32, Memory>
    ensures { IfOk result (λ n. n ≡ made + (if is_new target then 1 else 0)) }
{
    match target {
        Target::New(_) => made.checked_add(1).ok_or(Memory),
        _ => Ok(made),
    }
}

impl Names<'_, '_> {
    /// What is named, behind so many threads made.
    fn symbol_of(&self, pool: &PoolEntries, made: u32, target: Target) -> Result<Symbol, Memory>
        requires number { HasNumberFor self.now.numbers.items target }
        requires symbol { HasSymbol self.now.classes.now self.now.monitors pool.now target }
        ensures { IfOk result (λ s. symbol_of self.now.classes.now (number_in self.now.numbers.items) self.now.monitors pool.now made target ≡ Some s) }
    {
        match target {
            Target::Constant(value) => Ok(Symbol::Constant(value)),
            Target::Class(index) => monitor_of(&self.monitors, class_name_of(pool, index)),
            Target::Field { class, field } => {
                Ok(Symbol::Variable(number_in(&self.numbers, class, field)))
            }
            Target::Out => Ok(Symbol::Out),
            Target::Print => Ok(Symbol::Print),
            Target::New(_) => Ok(Symbol::Make(made.checked_add(1).ok_or(Memory)?)),
            Target::NewTarget => Ok(Symbol::MakeTarget(made)),
            Target::Construct => Ok(Symbol::Construct),
            Target::ConstructTarget => Ok(Symbol::ConstructTarget),
            Target::Wrap => Ok(Symbol::Wrap),
            Target::Start => Ok(Symbol::Start),
            Target::Join => Ok(Symbol::Join),
            Target::Alive => Ok(Symbol::Alive),
            Target::Call(id) => call_of(self.classes, id),
            Target::Nothing => Ok(Symbol::Nothing),
        }
    }

    /// What the instructions of a method name, in order.
    pub fn symbols(
        &self,
        alloc: Global,
        pool: &PoolEntries,
        targets: &[Target],
    ) -> Result<Items<Symbol>, Memory>
        requires numbers { All (HasNumberFor self.now.numbers.items) targets.now }
        requires symbols { All (HasSymbol self.now.classes.now self.now.monitors pool.now) targets.now }
        ensures { IfOk result (λ symbols. map Some symbols ≡ symbols_from self.now.classes.now (number_in self.now.numbers.items) self.now.monitors pool.now 0 targets.now) }
    {
        let mut symbols = Items::new(alloc);
        let mut made = 0u32;
        for target in targets {
            let symbol = self.symbol_of(pool, made, *target)?;
            symbols.push(symbol)?;
            made = made_behind(made, *target)?;
        }
        Ok(symbols)
    }
}
