/// The reads of an object in memory, numbered from 0, of which those listed fail.
#[derive(Debug, Drop)]
pub(crate) struct NumberedCalls {
    failing: Vec<u64>,
    next: u64,
}

impl NumberedCalls {
    pub(crate) fn new(failing: Vec<u64>) -> NumberedCalls {
        NumberedCalls { failing, next: 0 }
    }

    /// Whether the next call fails, which it is then past.
    pub(crate) fn next_fails(&mut self) -> bool {
        let call = self.next;
        self.next = call.saturating_add(1);
        self.failing.contains(&call)
    }
}
