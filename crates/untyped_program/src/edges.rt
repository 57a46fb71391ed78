//! The calls between the methods of a program, by their places.

ghost use Rattle.std.specs.Prelude.{◌≡◌, ◌++◌, IfOk, OnOk, position};
ghost use Rattle.std.specs.List.{filter_map};
ghost use Rattle.std.specs.Option.{option_map};
ghost use Rattle.reached_methods.specs.Reached.{is_method};
ghost use Rattle.untyped_program.specs.Edges.{IsPlaceFrom, edge_of, edges_from};
ghost use Rattle.untyped_program.specs.Limits.{AreByPlace};

use crate::order::{is_earlier, is_method};
use ports::Memory;
use program::MethodId;
use std::alloc::Global;
use typing::{Symbol, UntypedMethod};

/// A call: the places of the method that calls and of that called.
#[derive(Clone, Copy)]
pub struct Edge {
    pub caller: usize,
    pub called: usize,
}

/// The place where a method stands or would stand.
fn place_from(methods: &[UntypedMethod], id: MethodId) -> usize
    requires { AreByPlace methods.now }
    ensures { IsPlaceFrom methods.now id result }
{
    methods.partition_point(|method| is_earlier(method.id, id))
}

/// The place of a method.
fn place_of(methods: &[UntypedMethod], id: MethodId) -> Option<usize>
    requires { AreByPlace methods.now }
    ensures { result ≡ position (λ m. is_method m.id id) methods.now }
{
    let place = place_from(methods, id);
    if place < methods.len() && is_method(methods[place].id, id) {
        Some(place)
    } else {
        None
    }
}

/// The call of the method at a place, if it is at one.
fn edge_to(caller: usize, called: Option<usize>) -> Option<Edge>
    ensures { result ≡ option_map (λ place. record { caller = caller; called = place }) called }
{
    match called {
        Some(called) => Some(Edge { caller, called }),
        None => None,
    }
}

/// The call that a symbol makes, where the method called is one of these.
fn edge_of(methods: &[UntypedMethod], caller: usize, symbol: &Symbol) -> Option<Edge>
    requires { AreByPlace methods.now }
    ensures { result ≡ edge_of methods.now caller symbol.now }
{
    match symbol {
        Symbol::Call { method, .. } => edge_to(caller, place_of(methods, *method)),
        _ => None,
    }
}

/// Adds the calls of one method.
fn add_edges(
    methods: &[UntypedMethod],
    caller: usize,
    symbols: &[Symbol],
    edges: &mut Vec<Edge>,
) -> Result<(), Memory>
    requires { AreByPlace methods.now }
    ensures { OnOk result (edges.new.items ≡ edges.old.items ++ filter_map (edge_of methods.now caller) symbols.now) }
{
    for symbol in symbols {
        if let Some(edge) = edge_of(methods, caller, symbol) {
            edges.push(edge).map_err(|_| Memory)?;
        }
    }
    Ok(())
}

/// The calls between the methods.
pub fn edges_of(alloc: Global, methods: &[UntypedMethod]) -> Result<Vec<Edge>, Memory>
    requires { AreByPlace methods.now }
    ensures { IfOk result (λ edges. edges.items ≡ edges_from methods.now 0 methods.now) }
{
    let mut edges = Vec::new(alloc);
    for (place, method) in methods.iter().enumerate() {
        add_edges(methods, place, method.symbols.as_slice(), &mut edges)?;
    }
    Ok(edges)
}
