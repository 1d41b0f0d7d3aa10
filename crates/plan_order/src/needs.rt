// What is planned, and what each planned module needs.
ghost use Rattle.std.specs.Prelude.{◌≡◌, ◌<◌, [], ℕ, List, length, All, IfOk, OnOk};
ghost use Rattle.relation_order.specs.Sets.{marked};
ghost use Rattle.relation_order.specs.Search.{Inside, Marks};
ghost use Rattle.plan_order.specs.Finding.{Asked};
ghost use Rattle.plan_order.specs.Lists.{items_of, IsPlanned};

use crate::need_lists::NeedLists;
use relation_order::{find_all, unmarked};
use std::alloc::{AllocError, Global};

/// What a module needs.
#[derive(Drop)]
pub struct Needed {
    /// The modules that come before it.
    pub before: Vec<usize>,
    /// The modules that are to come after it.
    pub after: Vec<usize>,
}

/// Knows what each of some modules needs. Each planned module is asked for once, and no other.
pub trait Needs {
    /// How many modules there are.
    ghost count: { Self → ℕ };

    /// The modules that come before one.
    ghost before: { Self → ℕ → List ℕ };

    /// The modules that are to come after one.
    ghost after: { Self → ℕ → List ℕ };

    /// Returns what a module needs. What it finds out may be kept for later calls. There are as
    /// many modules as before, and each needs what it needed.
    fn needed(&mut self, alloc: Global, place: usize) -> Result<Needed, AllocError>
        requires { place < count self.old }
        ensures before { IfOk result (λ n. n.before.items ≡ before self.old place) }
        ensures after { IfOk result (λ n. n.after.items ≡ after self.old place) }
        ensures before_inside { IfOk result (λ n. All (λ y. y < count self.old) n.before.items) }
        ensures after_inside { IfOk result (λ n. All (λ y. y < count self.old) n.after.items) }
        ensures count_stays { count self.new ≡ count self.old }
        ensures before_stays { before self.new ≡ before self.old }
        ensures after_stays { after self.new ≡ after self.old };
}

/// Which modules are planned, and what each of them needs. The lists of the others are empty.
#[derive(Drop)]
pub struct Planned {
    /// A mark for each module that is planned.
    pub marks: Vec<bool>,
    /// For each planned module, the modules that come before it.
    pub before: NeedLists,
    /// For each planned module, the modules that are to come after it.
    pub after: NeedLists,
}

/// Finds what is planned for some requests: the least set that has the requested modules, and with
/// each member all that it needs. Only modules that are marked as free can be planned. `needs`
/// knows what each module needs.
pub fn find_planned<N: Needs>(
    alloc: Global,
    needs: &mut N,
    free: &[bool],
    requests: &[Vec<usize>],
) -> Result<Planned, AllocError>
    requires free { length free.now ≡ N.count needs.old }
    requires requests { Inside (N.count needs.old) requests.now }
    ensures planned { IfOk result
        (IsPlanned (N.count needs.old) (N.before needs.old) (marked free.now) (N.after needs.old)
        (items_of requests.now)) }
    ensures count_stays { N.count needs.new ≡ N.count needs.old }
    ensures before_stays { N.before needs.new ≡ N.before needs.old }
    ensures after_stays { N.after needs.new ≡ N.after needs.old }
{
    let mut marks = unmarked(alloc, free.len())?;
    let mut before = NeedLists::new(alloc, free.len())?;
    let mut after = NeedLists::new(alloc, free.len())?;
    let mut found = Vec::new(alloc);
    find_requested(&mut marks, &mut found, free, requests)?;
    let mut next = 0;
    while next < found.len() {
        let place = found[next];
        let needed = needs.needed(alloc, place)?;
        find_all(&mut marks, &mut found, free, &needed.before)?;
        find_all(&mut marks, &mut found, free, &needed.after)?;
        before.put(place, needed.before)?;
        after.put(place, needed.after)?;
        next += 1;
    }
    Ok(Planned {
        marks,
        before,
        after,
    })
}

/// Finds the requested modules that are free.
fn find_requested(
    marks: &mut Vec<bool>,
    found: &mut Vec<usize>,
    free: &[bool],
    requests: &[Vec<usize>],
) -> Result<(), AllocError>
    requires long { length marks.old.items ≡ length free.now }
    requires marks { Marks [] marks.old.items }
    requires found { found.old.items ≡ [] }
    requires requests { Inside (length free.now) requests.now }
    ensures asked { OnOk result
        (Asked (length free.now) free.now requests.now (length requests.now) found.new.items
        marks.new.items) }
{
    for request in requests {
        find_all(marks, found, free, request)?;
    }
    Ok(())
}
