// Words of relocations, as laws that the check computes.
ghost use Rattle.std.specs.Prelude.{◌≡◌, negsuc, pos};
ghost use Rattle.x86_relocate.specs.Word.{word};
ghost use Rattle.x86_relocate.specs.declared.word.Written.TheVariants.{Eight, Four, Nothing};

/// States words of the psABI's table at the edges of its fields, worked by hand. The definition
/// computes each.
#[tactic(auto, unfolding(crate::specs::Word::word, km_names::specs::Number::signed))]
pub fn worked_words()
    ensures signed_is_extended { word 11 0xffff_ffff_8000_0000 (pos 0) 0 ≡ Ok (Four 0x8000_0000) }
    ensures signed_is_too_wide { word 11 0x8000_0000 (pos 0) 0 ≡ Err (record {}) }
    ensures unsigned_is_extended { word 10 0xffff_ffff (pos 0) 0 ≡ Ok (Four 0xffff_ffff) }
    ensures unsigned_is_too_wide { word 10 0x1_0000_0000 (pos 0) 0 ≡ Err (record {}) }
    ensures unsigned_below_zero { word 10 0 (negsuc 0) 0 ≡ Err (record {}) }
    ensures highest_relative { word 2 0x8000_0000 (negsuc 0) 0 ≡ Ok (Four 0x7fff_ffff) }
    ensures above_highest_relative { word 2 0x8000_0000 (pos 0) 0 ≡ Err (record {}) }
    ensures lowest_relative { word 2 0 (pos 0) 0x8000_0000 ≡ Ok (Four 0x8000_0000) }
    ensures below_lowest_relative { word 2 0 (pos 0) 0x8000_0001 ≡ Err (record {}) }
    ensures linkage_is_relative { word 4 0x1000 (negsuc 3) 0x2000 ≡ Ok (Four 0xffff_effc) }
    ensures wide_relative_wraps { word 24 0 (pos 0) 1 ≡ Ok (Eight 0xffff_ffff_ffff_ffff) }
    ensures sum_wraps { word 1 0xffff_ffff_ffff_ffff (pos 1) 0 ≡ Ok (Eight 0) }
    ensures none_is_nothing { word 0 5 (pos 5) 5 ≡ Ok Nothing }
{}
