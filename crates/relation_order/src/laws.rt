// Laws of what is reached, of distances, and of what is spread to.
ghost use Rattle.std.specs.Prelude.{◌≡◌, ◌↔◌, ℕ, Bool, List, true};
ghost use Rattle.relation_order.specs.Sets.{Relation, has};
ghost use Rattle.relation_order.specs.Reached.{reached};
ghost use Rattle.relation_order.specs.Walks.{Walk};
ghost use Rattle.relation_order.specs.Cycle.{distance};
ghost use Rattle.relation_order.specs.Distances.{IsDistance};
ghost use Rattle.relation_order.specs.Spread.{spread, IsLeastClosed};

/// States a law: what is reached from an item within a set is what walks of one step or more lead
/// to.
pub fn walks_reach()
    ensures { (r : Relation) (set : List ℕ) (from y : ℕ)
        → (has (reached r set from) y ≡ true) ↔ Walk r set from y }
{}

/// States a law: the distance of a member from a goal is how many steps the shortest walk between
/// them has.
pub fn distance_is_shortest()
    ensures { (r : Relation) (set : List ℕ) (goal x : ℕ) → has set x ≡ true
        → IsDistance r set goal x (distance r set goal x) }
{}

/// States a law: what is spread to from the starts of a set is the least list that has these and is
/// closed.
pub fn spread_is_least()
    ensures { (r : Relation) (set : List ℕ) (start : ℕ → Bool)
        → IsLeastClosed r set start (spread r set start) }
{}
