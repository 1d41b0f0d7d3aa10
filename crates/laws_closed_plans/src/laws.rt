// The laws.
ghost use Rattle.std.specs.Prelude.{◌≡◌, true, false, Some, None, [], ◌∷◌, codes};
ghost use Rattle.load_fault.specs.declared.fault.LoadFault.TheVariants.{AlreadyLoaded};
ghost use Rattle.load_fault.specs.declared.fault.LoadFault.TheVariants.{MissingSymbol};
ghost use Rattle.load_fault.specs.declared.fault.LoadFault.TheVariants.{VersionDiffers};
ghost use Rattle.load_fault.specs.declared.fault.LoadFault.TheVariants.{ExportTaken};
ghost use Rattle.laws_closed_plans.specs.Names.{first_name_fault};
ghost use Rattle.laws_closed_plans.specs.Plan.{ClosedPlansPass, faces_of};
ghost use Rattle.laws_closed_plans.specs.Binding.{AddressesAreUnseen, ClosedPlansBind, LoadsBind};
ghost use Rattle.laws_closed_plans.specs.Instance.{TwoAreClosed};
ghost use Rattle.laws_closed_plans.specs.Loads.{LoadsFollow};
ghost use Rattle.laws_closed_plans.specs.Premises.{premises, all_but, bare, hidden, wanting, p, q};

/// States that no module of a closed plan is refused for its names.
pub fn closed_plans_pass()
    ensures { ClosedPlansPass }
{}

/// States that loads of modules one after the other can be split in two, and that a new machine is
/// sound after any loads.
pub fn loads_bind()
    ensures follow { LoadsFollow }
    ensures bind { LoadsBind }
{}

/// States that addresses added to the table of a kernel change nothing of what is seen of it.
pub fn addresses_are_unseen()
    ensures { AddressesAreUnseen }
{}

/// States that a closed plan of modules of an indexed tree, loaded after listed modules that load,
/// binds. It is refused only for lack of room or for a word that doesn't fit.
pub fn closed_plans_bind()
    ensures { ClosedPlansBind }
{}

/// States that each premise of the first law is needed: if only that one fails, a module is
/// refused.
#[tactic(auto, unfolding(crate::specs::Names::name_fault, symbol_binding::specs::Unmet::unmet, symbol_binding::specs::Needs::agree, crate::specs::Premises::premises))]
pub fn premises_are_needed()
    ensures all { premises (p ∷ wanting false ∷ []) bare [] (p ∷ wanting false ∷ []) ≡ all_but 8 }
    ensures loads { first_name_fault bare [] (faces_of (p ∷ wanting false ∷ [])) ≡ None }
    ensures known { premises (wanting false ∷ []) hidden [] (wanting false ∷ []) ≡ all_but 0 }
    ensures known_refused { first_name_fault hidden [] (faces_of (wanting false ∷ []))
        ≡ Some (MissingSymbol (codes "x")) }
    ensures listed { premises (wanting true ∷ []) bare (q ∷ []) (wanting true ∷ []) ≡ all_but 1 }
    ensures listed_refused { first_name_fault bare (faces_of (q ∷ []))
        (faces_of (wanting true ∷ []))
        ≡ Some (VersionDiffers (codes "x")) }
    ensures loaded { premises (p ∷ q ∷ wanting false ∷ []) bare (q ∷ p ∷ []) (wanting false ∷ [])
        ≡ all_but 2 }
    ensures loaded_refused { first_name_fault bare (faces_of (q ∷ p ∷ []))
        (faces_of (wanting false ∷ []))
        ≡ Some (VersionDiffers (codes "x")) }
    ensures tree { premises [] bare [] (wanting false ∷ []) ≡ all_but 3 }
    ensures tree_refused { first_name_fault bare [] (faces_of (wanting false ∷ []))
        ≡ Some (MissingSymbol (codes "x")) }
    ensures fresh { premises (p ∷ []) bare (p ∷ []) (p ∷ []) ≡ all_but 4 }
    ensures fresh_refused { first_name_fault bare (faces_of (p ∷ [])) (faces_of (p ∷ []))
        ≡ Some AlreadyLoaded }
    ensures behind { premises (p ∷ wanting false ∷ []) bare [] (wanting false ∷ []) ≡ all_but 5 }
    ensures behind_refused { first_name_fault bare [] (faces_of (wanting false ∷ []))
        ≡ Some (MissingSymbol (codes "x")) }
    ensures weak { premises (p ∷ q ∷ wanting true ∷ []) bare [] (q ∷ wanting true ∷ [])
        ≡ all_but 5 }
    ensures weak_refused { first_name_fault bare [] (faces_of (q ∷ wanting true ∷ []))
        ≡ Some (VersionDiffers (codes "x")) }
    ensures alone { premises (p ∷ q ∷ []) bare [] (p ∷ q ∷ []) ≡ all_but 6 }
    ensures alone_refused { first_name_fault bare [] (faces_of (p ∷ q ∷ []))
        ≡ Some (ExportTaken (codes "x") (codes "p")) }
    ensures clear { premises (wanting false ∷ []) bare [] (wanting false ∷ []) ≡ all_but 7 }
    ensures clear_refused { first_name_fault bare [] (faces_of (wanting false ∷ []))
        ≡ Some (MissingSymbol (codes "x")) }
{}

/// States that the premises of the law on plans hold for a tree of two modules.
pub fn two_modules_are_closed()
    ensures { TwoAreClosed }
{}
