//! How the orders are made.

ghost use Rattle.std.specs.Prelude.{◌≡◌, ◌↔◌, ℕ, List, Contains, IfOk};
ghost use Rattle.action_orders.specs.Actions.{variables};
ghost use Rattle.orders.specs.Symbols.{OfVariable, IsDistinct, symbols};
ghost use Rattle.orders.specs.Flat.{IsOrdered};
ghost use Rattle.orders.specs.Made.{IsMade};

use crate::answers::Orders;
use crate::channel::Channel;
use crate::channels::Channels;
use crate::flat::Flat;
use action_orders::Execution;
use clocks::Clocks;
use ports::Memory;
use program::Program;
use std::alloc::Global;

/// The names of the program's variables.
fn names_of<'a>(alloc: Global, program: &'a Program) -> Result<Channels<'a>, Memory>
    ensures named { IfOk result (λ names. (class name : List ℕ) → Contains (symbols names) (OfVariable class name) ↔ Contains (variables program.now) (record { class = class; name = name })) }
    ensures apart { IfOk result (λ names. IsDistinct (symbols names)) }
{
    let mut names = Channels::new(alloc);
    for variable in program.variables() {
        names.number(Channel::Variable {
            class: variable.class.as_slice(),
            name: variable.name.as_slice(),
        })?;
    }
    Ok(names)
}

/// The orders of an execution that meets the first two clauses of well-formedness for the program (docs/MODEL.md). It takes
/// time and memory in proportion to the actions and the variables.
///
/// # Errors
///
/// `Memory` where an allocation fails.
pub fn orders<'a>(
    alloc: Global,
    program: &'a Program,
    execution: &'a Execution,
) -> Result<Orders<'a>, Memory>
    requires { IsOrdered program.now execution.now }
    ensures of_program { IfOk result (λ orders. orders.flat.program.now ≡ program.now) }
    ensures of_execution { IfOk result (λ orders. orders.flat.execution.now ≡ execution.now) }
    ensures made { IfOk result IsMade }
{
    let flat = Flat::new(alloc, program, execution)?;
    let places = flat.sync_places(alloc)?;
    let before = flat.last_syncs(alloc)?;
    let mut channels = Channels::new(alloc);
    let events = flat.events(alloc, &mut channels, &places)?;
    let clocks = Clocks::new(alloc, events, channels.len())?;
    let variables = names_of(alloc, program)?;
    Ok(Orders {
        flat,
        places,
        before,
        channels,
        variables,
        clocks,
    })
}
