//! The places of methods among those that were surveyed.

ghost use Rattle.std.specs.Prelude.{◌≡◌, ◌<◌, Contains, length};
ghost use Rattle.reached_methods.specs.Cycles.{StandsIn};
ghost use Rattle.reached_methods.specs.Exploring.{AreByPlace, ids_of, is_before};

use crate::survey::Surveyed;
use program::MethodId;

/// Whether a method stands before another: in an earlier class, or earlier in one class.
pub fn is_before(a: MethodId, b: MethodId) -> bool
    ensures { result ≡ is_before a b }
{
    a.class < b.class || a.class == b.class && a.method < b.method
}

/// The place of a method among methods by place.
pub fn place_of(surveys: &[Surveyed], id: MethodId) -> usize
    requires by_place { AreByPlace surveys.now }
    requires known { Contains (ids_of surveys.now) id }
    ensures within { result < length surveys.now }
    ensures there { StandsIn surveys.now result id }
{
    surveys.partition_point(|s| is_before(s.method.id, id))
}
