//! Handles of clauses.

ghost use Rattle.std.specs.Prelude.{◌≡◌, ℕ, ◌<◌, ◌^◌, Option};
ghost use Rattle.clause_pool.specs.Links.{no_link, link_of, word_of};

use std::marker::Model;

/// The word that stands for no clause.
pub const NO_LINK: u32 = u32::MAX;

/// The handle of a clause that was put into a pool, which clauses see as its number.
#[derive(Clone, Copy, Debug, PartialEq, Eq)]
pub struct ClauseRef {
    number: u32,
}

impl Model for ClauseRef {
    ghost use Rattle.std.specs.Prelude.{ℕ, ◌<◌};
    ghost use Rattle.clause_pool.specs.Links.{no_link};

    ghost Value = { ℕ };

    ghost view = { λ c. c.number };

    ghost invariant = { λ c. c.number < no_link };

    ghost inverse = { λ n. record { number = n } };
}

impl ClauseRef {
    pub(crate) fn new(number: u32) -> ClauseRef
        requires { number < no_link }
        ensures { result ≡ number }
    {
        ClauseRef { number }
    }

    pub(crate) fn word(self) -> u32
        ensures number { result ≡ self }
        ensures linkable { result < no_link }
    {
        self.number
    }

    /// The handle's number, which is below those of the pool.
    pub fn index(self) -> usize
        ensures number { result ≡ self }
        ensures linkable { result < no_link }
    {
        self.number as usize
    }
}

/// The word of a link.
pub(crate) fn word_of_link(link: Option<ClauseRef>) -> u32
    ensures word { result ≡ word_of link }
    ensures back { link_of result ≡ link }
{
    match link {
        Some(clause) => clause.word(),
        None => NO_LINK,
    }
}

/// The link that a word stands for.
pub(crate) fn link_of_word(word: u32) -> Option<ClauseRef>
    ensures { result ≡ link_of word }
{
    if word == NO_LINK {
        None
    } else {
        Some(ClauseRef::new(word))
    }
}
