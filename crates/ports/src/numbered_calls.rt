ghost use Rattle.std.specs.Prelude.{◌+◌, ◌==◌, ◌≡◌, min};
ghost use Rattle.std.specs.List.{list_any};

/// The calls of an object in memory, numbered from 0, of which those listed fail.
#[derive(Debug, Drop)]
pub(crate) struct NumberedCalls {
    failing: Vec<u64>,
    next: u64,
}

impl NumberedCalls {
    pub(crate) fn new(failing: Vec<u64>) -> NumberedCalls
        ensures failing { result.failing ≡ failing }
        ensures next { result.next ≡ 0 }
    {
        NumberedCalls { failing, next: 0 }
    }

    /// Whether the next call fails, which it is then past.
    pub(crate) fn next_fails(&mut self) -> bool
        ensures fails { result ≡ list_any (λ number. number == self.old.next) self.old.failing.items }
        ensures next { self.new.next ≡ min (self.old.next + 1) 18446744073709551615 }
        ensures failing { self.new.failing.items ≡ self.old.failing.items }
    {
        let call = self.next;
        self.next = call.saturating_add(1);
        self.failing.contains(&call)
    }
}
