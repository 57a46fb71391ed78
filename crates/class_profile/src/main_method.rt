//! The one main of all classes.

ghost use Rattle.std.specs.Prelude.{◌≡◌, ◌↔◌, ◌≤◌, ◌<◌, ◌^◌, IsTrue, MatchOption, length};
ghost use Rattle.class_profile.specs.Members.{IsMain, IsOneMain, HasOneMain};

use class_format::{ClassRecord, Member, PoolEntries};
use class_names::{STATIC, SYNCHRONIZED, has_code, has_flag, is_spelled};

/// Where a method stands: the place of its class, and its place among the class's methods, both from 0.
#[derive(Clone, Copy, Debug, PartialEq, Eq)]
pub struct MainPlace {
    pub class: usize,
    pub method: usize,
}

/// Whether a method is main.
fn is_main(pool: &PoolEntries, method: &Member) -> bool
    ensures { IsTrue result ↔ IsMain pool.now method.now }
{
    is_spelled(pool, b"main", b"([Ljava/lang/String;)V", method)
        && has_flag(method.flags, STATIC)
        && !has_flag(method.flags, SYNCHRONIZED)
        && has_code(method)
}

/// Where the one main stands; none where there is no main or more than one.
pub fn main_of(classes: &[ClassRecord]) -> Option<MainPlace>
    ensures { MatchOption result (HasOneMain classes.now → ⊥) (λ place. IsOneMain classes.now place.class place.method) }
{
    let mut found = None;
    for (class_place, class) in classes.iter().enumerate() {
        for (method_place, method) in class.methods.as_slice().iter().enumerate() {
            if is_main(&class.pool, method) {
                if found.is_some() {
                    return None;
                }
                found = Some(MainPlace {
                    class: class_place,
                    method: method_place,
                });
            }
        }
    }
    found
}
