//! Finds which members of a set lie on a cycle, in one pass over the members and their steps. This
//! is the path-based search for strongly connected components (Purdom and Munro 1968, Dijkstra
//! 1976, Gabow 2000).
ghost use Rattle.std.specs.Prelude.{◌≡◌, ◌+◌, ◌<◌, ◌≤◌, ◌-◌, ◌++◌, ◌∷◌, ◌&&◌, [], ℕ, List, Bool};
ghost use Rattle.std.specs.Prelude.{true, false, length, All, IfOk, OnOk, nat_eq, nat_lt};
ghost use Rattle.std.specs.Prelude.{slice_index};
ghost use Rattle.std.specs.Global.{Vec};
ghost use Rattle.std.proofs.Common.{replicate};
ghost use Rattle.relation_order.specs.Sets.{Relation, goes, has, marked};
ghost use Rattle.relation_order.specs.Graphs.{members_of};
ghost use Rattle.relation_order.specs.Search.{Inside};
ghost use Rattle.relation_order.specs.Components.{Searching, SearchOf, EndsIn, Enters, KeepsMet};
ghost use Rattle.relation_order.specs.Components.{DropsAbove, Finishes, state_of, is_new};
ghost use Rattle.relation_order.specs.Components.{is_on_cycle, with_step, work};

use crate::cycle::stands_in;
use crate::graph::Graph;
use crate::order::zeros;
use std::alloc::{AllocError, Global};

/// How far a search has got with an item.
#[derive(Clone, Copy)]
pub(crate) enum State {
    /// The search hasn't met it.
    New,
    /// Its component isn't whole yet. The number is the place of the item among the open items.
    Open(usize),
    /// Its component is whole; whether the item lies on a cycle.
    Done(bool),
}

/// A search for the strongly connected components of a set. The open items are in the order in
/// which they were met, and the items of one component are side by side.
#[derive(Drop)]
pub(crate) struct CycleSearch {
    /// The state of each item.
    pub(crate) states: Vec<State>,
    /// How many of the items that each goes to have been looked at.
    pub(crate) looked: Vec<usize>,
    /// The open items.
    pub(crate) stack: Vec<usize>,
    /// The place of the first open item of each component.
    pub(crate) starts: Vec<usize>,
    /// The places of the open items that were met on the way to the last and not left.
    pub(crate) path: Vec<usize>,
}

impl CycleSearch {
    /// Begins a search that has met nothing.
    pub(crate) fn new(alloc: Global, count: usize) -> Result<CycleSearch, AllocError>
        ensures search { IfOk result (λ search. (lists : List (Vec ℕ)) (members : List Bool)
            → length lists ≡ count → SearchOf lists members search []) }
        ensures path { IfOk result (λ search. search.path.items ≡ []) }
    {
        Ok(CycleSearch {
            states: new_states(alloc, count)?,
            looked: zeros(alloc, count)?,
            stack: Vec::new(alloc),
            starts: Vec::new(alloc),
            path: Vec::new(alloc),
        })
    }

    /// Searches from a member, unless it was met before: all that are met are done then.
    pub(crate) fn search_from(&mut self, graph: &Graph<'_>, start: usize) -> Result<(), AllocError>
        requires member { has (members_of graph.now) start ≡ true }
        requires search { SearchOf graph.now.lists.now graph.now.members.now self.old [] }
        requires path { self.old.path.items ≡ [] }
        ensures search { OnOk result
            (SearchOf graph.now.lists.now graph.now.members.now self.new []) }
        ensures path { OnOk result (self.new.path.items ≡ []) }
        ensures met { OnOk result (is_new (state_of self.new.states.items start) ≡ false) }
        ensures kept { OnOk result (KeepsMet self.old.states.items self.new.states.items) }
    {
        if let State::New = self.states[start] {
            self.enter(start)?;
        }
        while let Some(at) = self.path.pop() {
            self.step(graph, at)?;
        }
        Ok(())
    }

    /// Looks at the next step of the item at a place, or leaves the item if it has no further step.
    fn step(&mut self, graph: &Graph<'_>, at: usize) -> Result<(), AllocError>
        requires search { SearchOf graph.now.lists.now graph.now.members.now self.old
            (self.old.path.items ++ at ∷ []) }
        ensures search { OnOk result (SearchOf graph.now.lists.now graph.now.members.now self.new
            self.new.path.items) }
        ensures work { OnOk result
            (work graph.now.lists.now self.new ≤ work graph.now.lists.now self.old) }
        ensures kept { OnOk result (KeepsMet self.old.states.items self.new.states.items) }
    {
        let lists = graph.lists;
        let item = self.stack[at];
        let targets = &lists[item];
        let next = self.looked[item];
        if next < targets.len() {
            self.path.push(at)?;
            self.looked[item] = next + 1;
            self.look(graph.members, at, targets[next])
        } else {
            self.leave(lists, at);
            Ok(())
        }
    }

    /// Looks at a step from the item at the last place of the path to another item.
    fn look(&mut self, members: &[bool], at: usize, target: usize) -> Result<(), AllocError>
        requires at { at < length self.old.stack.items }
        requires last { EndsIn self.old.path.items at }
        requires target { target < length members.now }
        requires long { length self.old.states.items ≡ length members.now }
        ensures search { OnOk result ((r looked : Relation)
            → r (slice_index self.old.stack.items at) target ≡ true
            → Searching r looked (marked members.now) self.old.states.items
            self.old.stack.items self.old.starts.items self.old.path.items
            → Searching r (with_step looked (slice_index self.old.stack.items at) target)
            (marked members.now) self.new.states.items self.new.stack.items
            self.new.starts.items self.new.path.items) }
        ensures looked { OnOk result (self.new.looked.items ≡ self.old.looked.items) }
        ensures long { OnOk result (length self.new.states.items ≡ length self.old.states.items) }
        ensures path { OnOk result (length self.new.path.items ≤ length self.old.path.items + 1) }
        ensures kept { OnOk result (KeepsMet self.old.states.items self.new.states.items) }
    {
        if members[target] {
            match self.states[target] {
                State::New => self.enter(target)?,
                State::Open(place) => drop_above(&mut self.starts, place),
                State::Done(_) => {}
            }
        }
        Ok(())
    }

    /// Makes an item the last open one, with a component of its own.
    fn enter(&mut self, item: usize) -> Result<(), AllocError>
        requires { item < length self.old.states.items }
        ensures { OnOk result (Enters self.old self.new item) }
    {
        let place = self.stack.len();
        self.states[item] = State::Open(place);
        self.stack.push(item)?;
        self.starts.push(place)?;
        self.path.push(place)?;
        Ok(())
    }

    /// Leaves the item at a place, after all its steps have been looked at. If its component begins
    /// with it, that component is whole.
    fn leave(&mut self, lists: &[Vec<usize>], at: usize)
        requires at { at < length self.old.stack.items }
        requires within { All (λ x. x < length lists.now) self.old.stack.items }
        requires long { length self.old.states.items ≡ length lists.now }
        ensures search { (looked : Relation) (set : List ℕ)
            → ((y : ℕ) → has set y ≡ true → goes lists.now (slice_index self.old.stack.items at) y
            ≡ true → looked (slice_index self.old.stack.items at) y ≡ true)
            → Searching (goes lists.now) looked set self.old.states.items self.old.stack.items
            self.old.starts.items (self.old.path.items ++ at ∷ [])
            → Searching (goes lists.now) looked set self.new.states.items self.new.stack.items
            self.new.starts.items self.new.path.items }
        ensures looked { self.new.looked.items ≡ self.old.looked.items }
        ensures long { length self.new.states.items ≡ length self.old.states.items }
        ensures path { self.new.path.items ≡ self.old.path.items }
        ensures kept { KeepsMet self.old.states.items self.new.states.items }
    {
        if ends_in(&self.starts, at) {
            self.starts.pop();
            finish(&mut self.states, &self.stack, lists, at);
            self.stack.truncate(at);
        }
    }

    /// Returns whether an item was found to lie on a cycle.
    pub(crate) fn is_on_cycle(&self, item: usize) -> bool
        requires { item < length self.now.states.items }
        ensures { result ≡ is_on_cycle (state_of self.now.states.items item) }
    {
        match self.states[item] {
            State::New | State::Open(_) => false,
            State::Done(on_cycle) => on_cycle,
        }
    }
}

/// Makes the states of as many items that weren't met.
fn new_states(alloc: Global, count: usize) -> Result<Vec<State>, AllocError>
    ensures { IfOk result (λ states. states.items ≡ replicate count State.New) }
{
    vec![in alloc; State::New; count]
}

/// Returns whether a list ends in a number.
fn ends_in(items: &[usize], item: usize) -> bool
    ensures { result ≡ (nat_lt 0 (length items.now)
        && nat_eq (slice_index items.now (length items.now - 1)) item) }
{
    match items {
        [] => false,
        [.., last] => *last == item,
    }
}

/// Drops the last of rising numbers, as long as they are above another.
fn drop_above(starts: &mut Vec<usize>, place: usize)
    ensures { DropsAbove starts.old.items starts.new.items place }
{
    let mut count = starts.len();
    while count > 0 && starts[count - 1] > place {
        count -= 1;
    }
    starts.truncate(count);
}

/// Finishes the component that is made of the open items from a place on. Each of them lies on a
/// cycle if it has another beside it, or goes to itself.
fn finish(states: &mut Vec<State>, stack: &[usize], lists: &[Vec<usize>], from: usize)
    requires from { from < length stack.now }
    requires within { All (λ x. x < length lists.now) stack.now }
    requires long { length states.old.items ≡ length lists.now }
    ensures long { length states.new.items ≡ length states.old.items }
    ensures finished { Finishes (goes lists.now) stack.now from states.old.items states.new.items }
{
    let many = from + 1 < stack.len();
    for item in &stack[from..] {
        states[*item] = State::Done(many || stands_in(&lists[*item], *item));
    }
}
