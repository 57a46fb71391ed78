ghost use Rattle.std.specs.Prelude.{◌++◌, ◌<◌, ◌≡◌, ◌≤◌, [], ◌∷◌, length, slice_get};
ghost use Rattle.var_names.specs.Arguments.{is_number};

use std::marker::Model;

/// An argument of a variable or of a rule: a number, or the default write.
#[derive(Clone, Copy, Debug, PartialEq, Eq, Hash, Drop)]
pub enum Arg {
    Number(u32),
    D,
}

/// At most five arguments, which lie in the value itself.
#[derive(Clone, Copy, Debug, PartialEq, Eq, Hash, Drop)]
pub struct Args {
    items: [Arg; 5],
    len: usize,
}

impl Model for Args {
    ghost use Rattle.std.specs.Prelude.{List};
    ghost use Rattle.var_names.specs.declared.args.Arg.{Arg};

    ghost Value = { List Arg };

    ghost use Rattle.var_names.specs.ArgPlaces.{arguments_in, filled_up, filled_up-arguments, IsFilledUp};

    ghost view = { arguments_in };

    ghost invariant = { IsFilledUp };

    ghost inverse = { filled_up };

    ghost inverse_ok = { filled_up-arguments };
}

impl Args {
    /// No argument.
    pub fn new() -> Args
        ensures { result ≡ [] }
    {
        Args {
            items: [Arg::D; 5],
            len: 0,
        }
    }

    /// Adds an argument at the end, on condition that there are fewer than five.
    pub fn push(&mut self, arg: Arg)
        requires { length self.old < 5 }
        ensures { self.new ≡ self.old ++ arg ∷ [] }
    {
        self.items[self.len] = arg;
        self.len += 1;
    }

    /// How many arguments there are.
    pub fn len(&self) -> usize
        ensures len { result ≡ length self.now }
        ensures few { length self.now ≤ 5 }
    {
        self.len
    }

    /// The argument at a place, or `None` exactly at or past the length.
    pub fn get(&self, at: usize) -> Option<Arg>
        ensures { result ≡ slice_get self.now at }
    {
        self.as_slice().get(at).copied()
    }

    /// All of them.
    pub fn as_slice(&self) -> &[Arg]
        ensures value { result.now ≡ self.now }
        ensures few { length self.now ≤ 5 }
    {
        &self.items[..self.len]
    }
}

impl Arg {
    /// Whether it is a number.
    pub fn is_number(&self) -> bool
        ensures { result ≡ is_number self.now }
    {
        matches!(self, Arg::Number(_))
    }
}
