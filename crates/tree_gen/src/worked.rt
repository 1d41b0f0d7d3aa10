// A law of the draws, and the draws of small seeds as laws that the check computes.
ghost use Rattle.std.specs.Prelude.{◌≡◌, ◌<◌, ◌-◌, ◌^◌, ℕ, [], ◌∷◌, codes, All};
ghost use Rattle.tree_gen.specs.Trial.{drawn, drawn_from, module_path};

/// States that a module of a trial draws only modules before it. So no module needs itself, and
/// they can be loaded in the order of their numbers.
#[tactic(auto, using(crate::proofs::TrialLemmas::drawn_before))]
pub fn draws_stand_before()
    ensures { (i x : ℕ) → All (λ k. k < i) (drawn i x) }
{}

/// States which modules each module of a trial draws, for the seeds 0, 1, 7 and the greatest. A
/// separate program worked them out. It also states the path of a module.
#[tactic(auto, unfolding(crate::specs::Trial::drawn, crate::specs::Trial::next, crate::specs::Trial::module_path))]
pub fn draws_of_small_seeds()
    ensures zero { drawn_from 0 5 ≡ [] ∷ (0 ∷ []) ∷ (1 ∷ 0 ∷ []) ∷ (2 ∷ []) ∷ (0 ∷ 3 ∷ []) ∷ [] }
    ensures one { drawn_from 1 4 ≡ [] ∷ (0 ∷ []) ∷ (0 ∷ []) ∷ (0 ∷ 2 ∷ []) ∷ [] }
    ensures seven { drawn_from 7 6
        ≡ [] ∷ (0 ∷ []) ∷ (1 ∷ []) ∷ (1 ∷ 2 ∷ []) ∷ (0 ∷ []) ∷ (4 ∷ 1 ∷ []) ∷ [] }
    ensures greatest { drawn_from (2 ^ 64 - 1) 4
        ≡ [] ∷ (0 ∷ []) ∷ (1 ∷ 0 ∷ []) ∷ (0 ∷ 2 ∷ []) ∷ [] }
    ensures path { module_path 1234 ≡ codes "/t/lib/modules/trial/kernel/m1234.ko" }
{}
