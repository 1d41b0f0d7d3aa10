// The numbers that a trial draws.
ghost use Rattle.std.specs.Prelude.{◌≡◌, ◌<◌, ◌+◌, ℕ, IfOk};
ghost use Rattle.tree_gen.specs.Trial.{next, draw, drawn, start_of};

use std::alloc::{AllocError, Global};

/// The factor that a number is multiplied by to make the next one.
const MULTIPLIER: u64 = 6_364_136_223_846_793_005;

/// The number that is added to the product.
const INCREMENT: u64 = 1_442_695_040_888_963_407;

/// The number of low bits that a draw leaves out, since they repeat soon.
const LOW_BITS: u32 = 33;

/// Numbers of 64 bits, each made of the one before it, that are drawn from. Knuth's MMIX generator.
#[derive(Drop)]
pub(crate) struct Draws {
    last: u64,
}

impl Draws {
    /// Returns the numbers after a seed.
    pub(crate) fn new(seed: u64) -> Draws
        ensures { result.last ≡ seed }
    {
        Draws { last: seed }
    }

    /// Draws a number below `end`.
    #[tactic(auto, using(crate::proofs::TrialLemmas::next_wraps), unfolding(crate::specs::Trial::next))]
    fn draw(&mut self, end: u32) -> u32
        requires { 0 < end }
        ensures last { self.new.last ≡ next self.old.last }
        ensures drawn { result ≡ draw end self.new.last }
    {
        self.last = self.last.wrapping_mul(MULTIPLIER).wrapping_add(INCREMENT);
        ((self.last >> LOW_BITS) % u64::from(end)) as u32
    }

    /// Draws the modules that the module of this number needs: none for the first, and otherwise
    /// the next two numbers below its own, or one if they are equal.
    #[tactic(auto, unfolding(crate::specs::Trial::drawn))]
    pub(crate) fn modules(&mut self, alloc: Global, number: u32) -> Result<Vec<u32>, AllocError>
        ensures modules { IfOk result (λ v. v.items ≡ drawn number self.old.last) }
        ensures next { IfOk result
            (λ _. (seed : ℕ) → self.old.last ≡ start_of seed number
            → self.new.last ≡ start_of seed (number + 1)) }
    {
        let mut modules = Vec::new(alloc);
        if number > 0 {
            let first = self.draw(number);
            let second = self.draw(number);
            modules.push(first)?;
            if second != first {
                modules.push(second)?;
            }
        }
        Ok(modules)
    }
}
