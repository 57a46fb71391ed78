//! What the instructions of a method name.

ghost use Rattle.std.specs.Prelude.{◌≡◌, ◌++◌, [], ◌∷◌, IfOk, OnOk, map};
ghost use Rattle.std.specs.Option.{option_or};
ghost use Rattle.opcodes.specs.Listing.{IsByPc};
ghost use Rattle.resolution.specs.Misnamings.{IsMisnamed};
ghost use Rattle.resolution.specs.Resolution.{Resolved, resolve};
ghost use Rattle.reached_methods.specs.FirstFault.{IsFirstOrNone};
ghost use Rattle.reached_methods.specs.Surveys.{HasNameFault, IsNameFault, IsNamed, target_of};

use crate::fault::Fault;
use crate::refusal::{CodeKind, Detail};
use class_format::PoolEntries;
use opcodes::Listed;
use ports::Memory;
use program::Items;
use resolution::{ClassIndex, Misnamed, Target, resolve};
use std::alloc::Global;

/// What the instructions of a method name, and the first that is refused for its name.
#[derive(Drop)]
pub struct Names {
    pub targets: Items<Target>,
    pub fault: Option<Fault>,
}

/// What one instruction names, or what is wrong with it.
#[derive(Drop)]
struct Named {
    target: Target,
    fault: Option<Fault>,
}

/// The fault of an instruction that is refused for its name.
fn name_fault(pc: u32, misnamed: Misnamed) -> Result<Fault, Memory>
    ensures place { IfOk result (λ fault. fault.pc ≡ pc) }
    ensures fault { IfOk result (λ fault. (names : Resolved) → IsMisnamed names misnamed → IsNameFault names fault.kind fault.detail) }
{
    let (kind, detail) = match misnamed {
        Misnamed::Unknown { name: Some(name) } => (CodeKind::UnknownName, Detail::Name(name)),
        Misnamed::Unknown { name: None } => (CodeKind::UnknownName, Detail::Nothing),
        Misnamed::Forbidden { name } => (CodeKind::ForbiddenCall, Detail::Name(name)),
        Misnamed::Final => (CodeKind::FinalAccess, Detail::Nothing),
        Misnamed::Memory => return Err(Memory),
    };
    Ok(Fault { pc, kind, detail })
}

/// What an instruction names.
fn name_one(
    alloc: Global,
    index: &ClassIndex,
    main: bool,
    pool: &PoolEntries,
    listing: &[Listed],
    item: &Listed,
) -> Result<Named, Memory>
    requires { IsByPc listing.now }
    ensures { IfOk result (λ named. IsNamed item.now.pc (resolve index.now.classes.now main pool.now listing.now item.now) named.target named.fault) }
{
    match resolve(alloc, index, main, pool, listing, item) {
        Ok(target) => Ok(Named {
            target,
            fault: None,
        }),
        Err(misnamed) => Ok(Named {
            target: Target::Nothing,
            fault: Some(name_fault(item.pc, misnamed)?),
        }),
    }
}

impl Names {
    /// Adds what the next instruction names.
    fn add(&mut self, named: Named) -> Result<(), Memory>
        ensures targets { OnOk result (self.new.targets ≡ self.old.targets ++ named.target ∷ []) }
        ensures fault { OnOk result (self.new.fault ≡ option_or self.old.fault named.fault) }
    {
        self.targets.push(named.target)?;
        if self.fault.is_none() {
            self.fault = named.fault;
        }
        Ok(())
    }
}

/// What the instructions of a method name, in order.
pub fn name_all(
    alloc: Global,
    index: &ClassIndex,
    main: bool,
    pool: &PoolEntries,
    listing: &[Listed],
) -> Result<Names, Memory>
    requires { IsByPc listing.now }
    ensures targets { IfOk result (λ names. names.targets ≡ map (λ item. target_of (resolve index.now.classes.now main pool.now listing.now item)) listing.now) }
    ensures fault { IfOk result (λ names. IsFirstOrNone (HasNameFault index.now.classes.now main pool.now listing.now listing.now) names.fault) }
{
    let mut names = Names {
        targets: Items::new(alloc),
        fault: None,
    };
    for item in listing {
        let named = name_one(alloc, index, main, pool, listing, item)?;
        names.add(named)?;
    }
    Ok(names)
}
