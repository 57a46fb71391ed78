//! What the letters of a table range over.

ghost use Rattle.std.specs.Prelude.{◌≡◌, ◌<◌, ◌≤◌, ◌^◌, ◌&&◌, length, nat_lt};
ghost use Rattle.rule_base.specs.Domains.{domain};

use crate::choices::Choices;
use crate::instructions::{
    has_result, inner_bits_of, inner_gate_of, inner_rows, is_gated, is_int_slot, is_jump,
    result_rows, slots_above,
};
use crate::letter::Letter;
use crate::nodes::{
    has_nodes, is_begin, is_begin_of, is_beside, is_end, is_from, is_start_of, is_to, to_of,
};
use crate::question::Question;

impl<'a> Question<'a> {
    /// How many nodes there are.
    fn nodes(&self) -> u64
        ensures value { result ≡ length self.now.graph.now.details }
        ensures few { result < 2 ^ 31 }
    {
        self.graph.details.len() as u64
    }

    /// How many edges there are.
    fn edges(&self) -> u64
        ensures value { result ≡ length self.now.graph.now.edges }
        ensures few { result < 2 ^ 31 }
    {
        self.graph.edges.len() as u64
    }

    /// A number above all that a letter ranges over, after these choices.
    pub fn size(&self, letter: Letter, before: &Choices) -> u64
        ensures value { result ≡ (domain self.now letter before.now).size }
        ensures few { result ≤ 2 ^ 32 }
    {
        match letter {
            Letter::Copy => u64::from(self.steps) + 1,
            Letter::Edge
            | Letter::EdgeBeside(_)
            | Letter::EdgeFrom(_)
            | Letter::EdgeTo(_)
            | Letter::JumpEdge => self.edges(),
            Letter::Bit | Letter::HighBit => 32,
            Letter::Sign => 2,
            Letter::IntSlotTo(edge) => slots_above(self.graph, to_of(self.graph, before.at(edge))),
            Letter::InnerBitOf(node) => u64::from(inner_bits_of(self.graph, before.at(node))),
            Letter::InnerRow(node, bit) => {
                u64::from(inner_rows(self.graph, before.at(node), before.at(bit)))
            }
            Letter::ResultRow(node, bit) => {
                u64::from(result_rows(self.graph, before.at(node), before.at(bit)))
            }
            Letter::Unused => 0,
            _ => self.nodes(),
        }
    }

    /// Whether a letter takes a number, which is below the size, after these choices.
    pub fn fits(&self, letter: Letter, before: &Choices, x: u32) -> bool
        ensures { result ≡ (domain self.now letter before.now).fits x }
    {
        match letter {
            Letter::NodeNotBegin => !is_begin(self.graph, x),
            Letter::NodeNotEnd => !is_end(self.graph, x),
            Letter::BeginOfThread(thread) => is_begin_of(self.graph, thread, x),
            Letter::BeginOf(at) => is_begin_of(self.graph, before.at(at), x),
            Letter::EdgeBeside(at) => {
                before.at(at) < x && is_beside(self.graph, before.at(at), x)
            }
            Letter::EdgeFrom(at) => is_from(self.graph, before.at(at), x),
            Letter::EdgeTo(at) => is_to(self.graph, before.at(at), x),
            Letter::JumpEdge => is_jump(self.graph, x),
            Letter::LaterThread => 0 < x && has_nodes(self.graph, x),
            Letter::StartOf(at) => is_start_of(self.graph, before.at(at), x),
            Letter::IntSlotTo(edge) => {
                is_int_slot(self.graph, to_of(self.graph, before.at(edge)), x)
            }
            Letter::InnerBitOf(node) => inner_gate_of(self.graph, before.at(node), x).is_some(),
            Letter::GatedNode => is_gated(self.graph, x),
            Letter::ResultNode => has_result(self.graph, x),
            Letter::HighBit => self.graph.bounds.width <= x,
            _ => true,
        }
    }

    /// Whether a letter takes a number, after these choices.
    pub fn takes(&self, letter: Letter, before: &Choices, x: u32) -> bool
        ensures { result ≡ (nat_lt x (domain self.now letter before.now).size && (domain self.now letter before.now).fits x) }
    {
        u64::from(x) < self.size(letter, before) && self.fits(letter, before, x)
    }
}
