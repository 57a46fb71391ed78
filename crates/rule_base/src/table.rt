//! Tables of rules, by the letters of their arguments.

ghost use Rattle.std.specs.Prelude.{◌≡◌, ◌<◌, IfSome, IsTrue, length, slice_get};
ghost use Rattle.rule_base.specs.Tables.{are_rows, is_filled, letter_or_none, letters_in, letters_of};

use crate::letter::Letter;

/// The letters of each rule's arguments: a row for each rule, filled up behind its last letter. Each rule has an argument.
#[derive(Clone, Copy, Drop)]
pub struct Table<'a> {
    pub rows: &'a [[Letter; 5]],
    ghost filled: { IsTrue (are_rows rows.now) },
}

/// The letter, if it is one.
fn used(letter: Letter) -> Option<Letter>
    ensures { result ≡ letter_or_none letter }
{
    if letter.is_used() { Some(letter) } else { None }
}

/// The letter at a place of a row.
fn letter_in(row: &[Letter], at: usize) -> Option<Letter>
    requires { IsTrue (is_filled row.now) }
    ensures { result ≡ slice_get (letters_in row.now) at }
{
    match row.get(at) {
        Some(letter) => used(*letter),
        None => None,
    }
}

impl<'a> Table<'a> {
    /// The letter of an argument of the rule at a place.
    pub fn letter(&self, place: usize, argument: usize) -> Option<Letter>
        ensures letter { result ≡ slice_get (letters_of self.now.rows.now place) argument }
        ensures few { IfSome result (λ _. argument < 5) }
    {
        if 5 <= argument {
            return None;
        }
        match self.rows.get(place) {
            Some(row) => letter_in(row, argument),
            None => None,
        }
    }

    /// How many rules there are.
    pub fn len(&self) -> usize
        ensures { result ≡ length self.now.rows.now }
    {
        self.rows.len()
    }
}
