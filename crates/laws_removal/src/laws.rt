// The laws.
ghost use Rattle.std.specs.Prelude.{◌≡◌, ◌∷◌, [], true, false, Some, codes};
ghost use Rattle.kernel_exports.specs.declared.kernel.Kernel.{Kernel};
ghost use Rattle.modprobe_conf.specs.declared.rule.Rule.TheVariants.{Remove};
ghost use Rattle.module_region.specs.declared.region.Region.{Region};
ghost use Rattle.remove_plan.specs.Removal.{left_after};
ghost use Rattle.remove_plan.specs.Steps.{removal_fault, removal_steps};
ghost use Rattle.remove_plan.specs.declared.step.RemoveStep.TheVariants.{Rmmod, Command};
ghost use Rattle.remove_plan.specs.declared.step.RemoveFault.TheVariants.{InUse};
ghost use Rattle.laws_removal.specs.Rows.{a, b, c, d, e, machine_of};
ghost use Rattle.laws_removal.specs.Back.{OlderAreLeft, RemovalsTakeBack};
ghost use Rattle.laws_removal.specs.Loads.{LoadsAreUndone, LoadsAreUnloaded};
ghost use Rattle.laws_removal.specs.Removals.{RemovalsAreUnloaded, RemovalsPass, RemovalsStaySound};

/// States that loads are undone by removing the modules that were loaded, youngest first: by their
/// places, and by their names.
pub fn loads_are_undone()
    ensures places { LoadsAreUndone }
    ensures names { LoadsAreUnloaded }
{}

/// States that the modules of a removal are removed one after the other, and the others are left,
/// unless a module that is asked for is in use. It holds by places and by names. A sound machine
/// stays sound.
pub fn removals_pass()
    ensures places { RemovalsPass }
    ensures names { RemovalsAreUnloaded }
    ensures sound { RemovalsStaySound }
{}

/// States that removals take loads back. For every split of loaded modules into older and newer
/// ones, if the removed ones are the newer ones, the machine of only the older ones is left.
pub fn removals_take_back()
    ensures older { OlderAreLeft }
    ensures back { RemovalsTakeBack }
{}

/// States removals of modules that become unused. As `b` uses `a`, both are removed for `b`, and
/// `e` is left; asked for without `b`, `a` is in use. A name that occurs twice counts once, and one
/// that isn't loaded is skipped.
#[tactic(auto, unfolding(remove_plan::specs::Removal::removed))]
pub fn unused_modules_go_too()
    ensures both { (kernel : Kernel) (region : Region)
        → removal_steps (machine_of kernel region (e ∷ a ∷ b ∷ [])) [] false (codes "b" ∷ [])
        ≡ Rmmod (codes "b") ∷ Rmmod (codes "a") ∷ [] }
    ensures left { (kernel : Kernel) (region : Region)
        → left_after (machine_of kernel region (e ∷ a ∷ b ∷ [])) (codes "b" ∷ [])
        ≡ machine_of kernel region (e ∷ []) }
    ensures in_use { (kernel : Kernel) (region : Region)
        → removal_fault (machine_of kernel region (e ∷ a ∷ b ∷ [])) (codes "a" ∷ [])
        ≡ Some (InUse (codes "a") (codes "b")) }
    ensures twice { (kernel : Kernel) (region : Region)
        → removal_steps (machine_of kernel region (e ∷ a ∷ b ∷ [])) [] false
        (codes "b" ∷ codes "b" ∷ codes "x" ∷ [])
        ≡ Rmmod (codes "b") ∷ Rmmod (codes "a") ∷ [] }
    ensures older { (kernel : Kernel) (region : Region)
        → removal_steps (machine_of kernel region (e ∷ a ∷ b ∷ [])) [] false
        (codes "a" ∷ codes "b" ∷ [])
        ≡ Rmmod (codes "b") ∷ Rmmod (codes "a") ∷ [] }
{}

/// States that a module with two users is removed only with both.
#[tactic(auto, unfolding(remove_plan::specs::Removal::removed))]
pub fn used_modules_stay()
    ensures one { (kernel : Kernel) (region : Region)
        → removal_steps (machine_of kernel region (a ∷ b ∷ d ∷ [])) [] false (codes "b" ∷ [])
        ≡ Rmmod (codes "b") ∷ [] }
    ensures two { (kernel : Kernel) (region : Region)
        → removal_steps (machine_of kernel region (a ∷ b ∷ d ∷ [])) [] false
        (codes "b" ∷ codes "d" ∷ [])
        ≡ Rmmod (codes "d") ∷ Rmmod (codes "b") ∷ Rmmod (codes "a") ∷ [] }
    ensures in_use { (kernel : Kernel) (region : Region)
        → removal_fault (machine_of kernel region (a ∷ b ∷ d ∷ [])) (codes "a" ∷ codes "b" ∷ [])
        ≡ Some (InUse (codes "a") (codes "d")) }
{}

/// States that a chain is removed from its youngest module down.
#[tactic(auto, unfolding(remove_plan::specs::Removal::removed))]
pub fn chains_go()
    ensures all { (kernel : Kernel) (region : Region)
        → removal_steps (machine_of kernel region (a ∷ b ∷ c ∷ [])) [] false (codes "c" ∷ [])
        ≡ Rmmod (codes "c") ∷ Rmmod (codes "b") ∷ Rmmod (codes "a") ∷ [] }
    ensures in_use { (kernel : Kernel) (region : Region)
        → removal_fault (machine_of kernel region (a ∷ b ∷ c ∷ [])) (codes "b" ∷ [])
        ≡ Some (InUse (codes "b") (codes "c")) }
{}

/// States that a command is run instead of removing a module, unless the module is asked for and
/// commands are ignored.
#[tactic(auto, unfolding(remove_plan::specs::Removal::removed))]
pub fn commands_are_chosen()
    ensures chosen { (kernel : Kernel) (region : Region)
        → removal_steps (machine_of kernel region (a ∷ b ∷ []))
        (Remove (codes "a") (codes "x") ∷ []) true (codes "b" ∷ [])
        ≡ Rmmod (codes "b") ∷ Command (codes "a") (codes "x") ∷ [] }
    ensures ignored { (kernel : Kernel) (region : Region)
        → removal_steps (machine_of kernel region (a ∷ b ∷ []))
        (Remove (codes "b") (codes "x") ∷ []) true (codes "b" ∷ [])
        ≡ Rmmod (codes "b") ∷ Rmmod (codes "a") ∷ [] }
{}
