// Laws on small trees that the check computes.
ghost use Rattle.std.specs.Prelude.{◌≡◌, ◌∷◌, [], true, false, codes};
ghost use Rattle.symbol_binding.specs.Provider.{uses};
ghost use Rattle.symbol_binding.specs.Unmet.{unmet};
ghost use Rattle.symbol_binding.specs.Worked.{printing, unknown, a_gives_x, b_gives_x, c_needs_x};
ghost use Rattle.symbol_binding.specs.Worked.{n_needs_two, gives_gpl, gives_in_space, needs_fa};
ghost use Rattle.symbol_binding.specs.Worked.{gives_printk, gives_gpl_1, needs_fa_2};
ghost use Rattle.symbol_binding.specs.declared.unbound.Unbound.TheVariants.{Missing, Gpl, Version};
ghost use Rattle.symbol_binding.specs.declared.unbound.Unbound.TheVariants.{Namespace, Double};

/// States the lines of modules.unmet of small trees, one for each kind, and trees without a line.
#[tactic(auto, unfolding(crate::specs::Unmet::unmet, crate::specs::Needs::agree))]
pub fn lines_of_small_trees()
    ensures double { unmet (a_gives_x ∷ b_gives_x ∷ c_needs_x ∷ []) printing
        ≡ Double (codes "x") (codes "kernel/a.ko") (codes "kernel/b.ko") ∷ [] }
    ensures first_provides { uses (a_gives_x ∷ b_gives_x ∷ c_needs_x ∷ []) printing c_needs_x
        ≡ a_gives_x ∷ [] }
    ensures version { unmet (b_gives_x ∷ c_needs_x ∷ []) printing
        ≡ Version (codes "kernel/c.ko") (codes "x") (codes "kernel/b.ko") ∷ [] }
    ensures missing { unmet (n_needs_two ∷ []) printing
        ≡ Missing (codes "kernel/n.ko") (codes "x") ∷ [] }
    ensures unknown_kernel { unmet (n_needs_two ∷ []) unknown ≡ [] }
    ensures gpl { unmet (gives_gpl ∷ needs_fa false false [] ∷ []) printing
        ≡ Gpl (codes "kernel/b.ko") (codes "fa") (codes "kernel/a.ko") ∷ [] }
    ensures free { unmet (gives_gpl ∷ needs_fa false true [] ∷ []) printing ≡ [] }
    ensures weak { unmet (gives_gpl ∷ needs_fa true false [] ∷ []) printing ≡ [] }
    ensures weak_is_used { uses (gives_gpl ∷ needs_fa true false [] ∷ []) printing
        (needs_fa true false [])
        ≡ gives_gpl ∷ [] }
    ensures space { unmet (gives_in_space ∷ needs_fa true false [] ∷ []) printing
        ≡ Namespace (codes "kernel/b.ko") (codes "fa") (codes "kernel/a.ko") ∷ [] }
    ensures unseen { unmet (gives_gpl_1 ∷ needs_fa_2 ∷ []) printing ≡ [] }
    ensures kernel_first { uses (gives_printk ∷ c_needs_x ∷ []) printing c_needs_x ≡ [] }
    ensures kernel_double { unmet (gives_printk ∷ []) printing
        ≡ Double (codes "printk") (codes "vmlinux") (codes "kernel/p.ko") ∷ [] }
    ensures unknown_kernel_last { uses (gives_printk ∷ c_needs_x ∷ []) unknown c_needs_x
        ≡ gives_printk ∷ [] }
    ensures imported { unmet (gives_in_space ∷ needs_fa false false (codes "NS" ∷ []) ∷ []) printing
        ≡ [] }
{}
