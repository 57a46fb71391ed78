//! Methods by their places.

ghost use Rattle.std.specs.Prelude.{◌≡◌};
ghost use Rattle.reached_methods.specs.Reached.{is_method};
ghost use Rattle.untyped_program.specs.Edges.{is_earlier};

use program::MethodId;

/// Whether two are one method.
pub fn is_method(a: MethodId, b: MethodId) -> bool
    ensures { result ≡ is_method a b }
{
    a.class == b.class && a.method == b.method
}

/// Whether a stands before b: in an earlier class, or earlier in one class.
pub fn is_earlier(a: MethodId, b: MethodId) -> bool
    ensures { result ≡ is_earlier a b }
{
    a.class < b.class || (a.class == b.class && a.method < b.method)
}
