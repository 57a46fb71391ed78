//! What is known of a thread on the paths to a place.

ghost use Rattle.std.specs.Prelude.{◌≡◌};
ghost use Rattle.typing.specs.Joining.{either_stage};

/// What is known of how far a thread has come on the paths to a place: as much as a call of `start`, `join` or `isAlive`
/// asks.
#[derive(Clone, Copy, Debug, PartialEq, Eq)]
pub struct Stage {
    /// On some path it isn't ready.
    pub unready: bool,
    /// On some path it isn't started, or its end was waited for or asked for.
    pub unstarted: bool,
    /// On some path it isn't started, or its end was asked for.
    pub unawaited: bool,
}

/// It isn't made, its constructor isn't called, or its end was asked for: no such call is right.
pub const APART: Stage = Stage {
    unready: true,
    unstarted: true,
    unawaited: true,
};

/// Its constructor was called.
pub const READY: Stage = Stage {
    unready: false,
    unstarted: true,
    unawaited: true,
};

/// It was started.
pub const STARTED: Stage = Stage {
    unready: true,
    unstarted: false,
    unawaited: false,
};

/// Its end was waited for.
pub const JOINED: Stage = Stage {
    unready: true,
    unstarted: true,
    unawaited: false,
};

impl Stage {
    /// What is known on the paths of two kinds.
    pub fn either(self, other: Stage) -> Stage
        ensures { result ≡ either_stage self other }
    {
        Stage {
            unready: self.unready | other.unready,
            unstarted: self.unstarted | other.unstarted,
            unawaited: self.unawaited | other.unawaited,
        }
    }
}
