//! Pairs of places in a row.

ghost use Rattle.std.specs.Prelude.{◌≡◌, ◌≤◌, ◌+◌, IfOk, IfSome, length};
ghost use Rattle.same_orders.specs.Lines.{AreGreatest, AreLeast, IsEither, IsGreatestBelow, IsLeastFrom, IsLine};

use ports::Memory;
use std::alloc::Global;
use step_members::Member;

/// Pairs of places with, for each number of the last ones, the least place in the committed execution among them, and for each
/// number of the first ones the greatest.
#[derive(Debug, Drop)]
pub struct Line {
    pub members: Vec<Member>,
    pub least: Vec<Option<usize>>,
    pub greatest: Vec<Option<usize>>,
}

/// The lesser of the two, where there is one already.
fn lesser(least: Option<usize>, place: usize) -> usize
    ensures below { result ≤ place }
    ensures either { IsEither least place result }
    ensures under { IfSome least (λ x. result ≤ x) }
{
    match least {
        Some(found) => found.min(place),
        None => place,
    }
}

/// The greater of the two, where there is one already.
fn greater(greatest: Option<usize>, place: usize) -> usize
    ensures above { place ≤ result }
    ensures either { IsEither greatest place result }
    ensures over { IfSome greatest (λ x. x ≤ result) }
{
    match greatest {
        Some(found) => found.max(place),
        None => place,
    }
}

/// For each number of the last members, none to all, the least place among them.
fn least_places(alloc: Global, members: &[Member]) -> Result<Vec<Option<usize>>, Memory>
    ensures { IfOk result (λ least. AreLeast members.now (length members.now + 1) least.items) }
{
    let mut all = Vec::new(alloc);
    let mut least = None;
    for back in 0..members.len() {
        all.push(least).map_err(|_| Memory)?;
        least = Some(lesser(least, members[members.len() - 1 - back].whole));
    }
    all.push(least).map_err(|_| Memory)?;
    Ok(all)
}

/// For each number of the first members, none to all, the greatest place among them.
fn greatest_places(alloc: Global, members: &[Member]) -> Result<Vec<Option<usize>>, Memory>
    ensures { IfOk result (λ greatest. AreGreatest members.now (length members.now + 1) greatest.items) }
{
    let mut all = Vec::new(alloc);
    let mut greatest = None;
    for member in members {
        all.push(greatest).map_err(|_| Memory)?;
        greatest = Some(greater(greatest, member.whole));
    }
    all.push(greatest).map_err(|_| Memory)?;
    Ok(all)
}

impl Line {
    /// The line of these members.
    pub fn new(alloc: Global, members: Vec<Member>) -> Result<Line, Memory>
        ensures members { IfOk result (λ line. line.members.items ≡ members.items) }
        ensures made { IfOk result IsLine }
    {
        let least = least_places(alloc, &members)?;
        let greatest = greatest_places(alloc, &members)?;
        Ok(Line {
            members,
            least,
            greatest,
        })
    }

    /// The least place in the committed execution among the members from one on.
    pub fn least_from(&self, from: usize) -> Option<usize>
        requires made { IsLine self.now }
        requires inside { from ≤ length self.now.members.items }
        ensures { IsLeastFrom self.now.members.items from result }
    {
        self.least[self.members.len() - from]
    }

    /// The greatest place in the committed execution among the members before one.
    pub fn greatest_below(&self, below: usize) -> Option<usize>
        requires made { IsLine self.now }
        requires inside { below ≤ length self.now.members.items }
        ensures { IsGreatestBelow self.now.members.items below result }
    {
        self.greatest[below]
    }
}
