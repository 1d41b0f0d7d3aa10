// The files of small trees, as laws that the check computes.
ghost use Rattle.std.specs.Prelude.{◌≡◌, ◌∷◌, [], codes};
ghost use Rattle.index_format.specs.Worked.{two_modules};
ghost use Rattle.depmod_core.specs.Dependencies.{dep_text, dep_map};
ghost use Rattle.stated_texts.specs.Stated.{alias_text, softdep_text, symbols_text};
ghost use Rattle.depmod_core.specs.BuiltIn.{built_in_names};
ghost use Rattle.depmod_core.specs.Worked.{a_ko, b_ko, c_ko, x_ko};

/// States the texts of small trees: one of three modules that each depend on those before it, and
/// one of a module that states something.
#[tactic(auto, unfolding(crate::specs::Dependencies::dep_text, stated_texts::specs::Stated::alias_text, stated_texts::specs::Stated::softdep_text, stated_texts::specs::Stated::symbols_text, stated_texts::specs::Stated::is_usable_alias, stated_texts::specs::Stated::is_usable_softdep, crate::specs::BuiltIn::built_in_names, km_names::specs::Ascii::is_graphic, km_names::specs::AliasForm::normal_alias, km_names::specs::Lines::lines_of))]
pub fn texts_of_small_trees()
    ensures dep { dep_text (a_ko ∷ b_ko ∷ c_ko ∷ []) ([] ∷ (0 ∷ []) ∷ (0 ∷ 1 ∷ []) ∷ [])
        ≡ codes "kernel/a.ko:\nkernel/b.ko: kernel/a.ko\nkernel/c.ko: kernel/b.ko kernel/a.ko\n" }
    ensures alias { alias_text (x_ko ∷ [])
        ≡ codes "# Aliases extracted from modules themselves.\nalias pci-x:v0000[!a-f]d* x\n" }
    ensures softdep { softdep_text (x_ko ∷ [])
        ≡ codes "# Soft dependencies extracted from modules themselves.\nsoftdep x pre: a-b\n" }
    ensures symbols { symbols_text (x_ko ∷ [])
        ≡ codes "# Aliases for symbols, used by symbol_request().\nalias symbol:fx x\n" }
    ensures built_in { built_in_names (codes "kernel/lib/b-c.ko\n\nkernel/b_c.ko\nkernel/d.ko")
        ≡ codes "b_c" ∷ codes "d" ∷ [] }
{}

/// States the map of modules.dep.bin for two modules, one depending on the other.
pub fn index_of_a_small_tree()
    ensures { dep_map (a_ko ∷ b_ko ∷ []) ([] ∷ (0 ∷ []) ∷ []) ≡ two_modules }
{}
