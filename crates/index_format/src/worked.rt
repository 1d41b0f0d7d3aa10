// Small files, as laws that the check computes.
ghost use Rattle.std.specs.Prelude.{◌≡◌, Some, None, [], ◌∷◌, ◌++◌, codes};
ghost use Rattle.index_format.specs.Node.{root};
ghost use Rattle.index_format.specs.Walk.{at, visits};
ghost use Rattle.index_format.specs.Check.{index_fault, BadNode, Revisited, BadMagic, BadVersion};
ghost use Rattle.index_format.specs.Nodes.{node_count};
ghost use Rattle.index_format.specs.File.{file};
ghost use Rattle.index_format.specs.Worked.{head, no_keys, no_keys_file, five_keys, five_keys_file};
ghost use Rattle.index_format.specs.Worked.{two_modules, two_modules_file, child_after_parent};
ghost use Rattle.index_format.specs.Worked.{node_reached_twice, value_cut_off};
ghost use Rattle.index_format.specs.Worked.{child_at_parent, child_without_field, byte_over_127};
ghost use Rattle.index_format.specs.Worked.{byte_0, range_turned, offset_cut_off, prefix_cut_off};
ghost use Rattle.index_format.specs.Worked.{count_cut_off, root_at_11, bit_28};
ghost use Rattle.index_format.specs.Worked.{reached_without_field, grandchild_at_10, version_2_0};
ghost use Rattle.index_format.specs.Worked.{three_bytes};

/// States the files of three small maps: one without keys, one with five keys that begin alike in
/// part, and one with the dependencies of two modules.
pub fn small_files()
    ensures no_keys { file no_keys ≡ no_keys_file }
    ensures five_keys { file five_keys ≡ five_keys_file }
    ensures two_modules { file two_modules ≡ two_modules_file }
{}

/// States what keys reach in the file of the five keys and in the file of two modules. The keys are
/// one of the map, one that begins others, a front of a key, one whose last bytes are no prefix,
/// the empty key, and a module.
pub fn small_lookups()
    ensures key { at five_keys_file (root five_keys_file) (codes "once") ≡ (3, codes "x") ∷ [] }
    ensures begins { at five_keys_file (root five_keys_file) (codes "on") ≡ (2, codes "x") ∷ [] }
    ensures part { at five_keys_file (root five_keys_file) (codes "onc") ≡ [] }
    ensures absent { at five_keys_file (root five_keys_file) (codes "asp") ≡ [] }
    ensures empty { at five_keys_file (root five_keys_file) [] ≡ [] }
    ensures module { at two_modules_file (root two_modules_file) (codes "b")
        ≡ (1, codes "kernel/b.ko: kernel/a.ko") ∷ [] }
{}

/// States the number of nodes on the walks of keys through the file of the five keys, and the
/// number of its nodes.
pub fn small_walks()
    ensures key { visits five_keys_file (codes "once") ≡ 3 }
    ensures begins { visits five_keys_file (codes "on") ≡ 2 }
    ensures part { visits five_keys_file (codes "onc") ≡ 3 }
    ensures absent { visits five_keys_file (codes "b") ≡ 1 }
    ensures all { node_count five_keys_file ≡ 7 }
{}

/// States that the small files are accepted and these other ones refused.
pub fn refused_files()
    ensures no_keys { index_fault no_keys_file ≡ None }
    ensures five_keys { index_fault five_keys_file ≡ None }
    ensures two_modules { index_fault two_modules_file ≡ None }
    ensures empty { index_fault [] ≡ Some BadMagic }
    ensures magic { index_fault (codes "kernel/a.ko:") ≡ Some BadMagic }
    ensures version { index_fault (0xb0 ∷ 0x07 ∷ 0xf4 ∷ 0x57 ∷ []) ≡ Some BadVersion }
    ensures short { index_fault head ≡ Some (BadNode 8) }
    ensures after { index_fault child_after_parent ≡ Some (BadNode 18) }
    ensures twice { index_fault node_reached_twice ≡ Some (Revisited 12) }
    ensures cut_off { index_fault value_cut_off ≡ Some (BadNode 12) }
{}

/// States a reader's answers to files that only one of its tests, or their order, distinguishes
/// from sound ones.
pub fn odd_files()
    ensures three_bytes { index_fault three_bytes ≡ Some BadMagic }
    ensures version { index_fault version_2_0 ≡ Some BadVersion }
    ensures short { index_fault (head ++ (0 ∷ 0 ∷ 0 ∷ [])) ≡ Some (BadNode 8) }
    ensures itself { index_fault child_at_parent ≡ Some (BadNode 12) }
    ensures without_field { index_fault child_without_field ≡ Some (BadNode 12) }
    ensures over_127 { index_fault byte_over_127 ≡ Some (BadNode 12) }
    ensures byte_0 { index_fault byte_0 ≡ Some (BadNode 12) }
    ensures turned { index_fault range_turned ≡ Some (BadNode 12) }
    ensures offset { index_fault offset_cut_off ≡ Some (BadNode 12) }
    ensures prefix { index_fault prefix_cut_off ≡ Some (BadNode 12) }
    ensures count { index_fault count_cut_off ≡ Some (BadNode 12) }
    ensures in_header { index_fault root_at_11 ≡ Some (BadNode 11) }
    ensures bit_28 { index_fault bit_28 ≡ None }
    ensures twice { index_fault reached_without_field ≡ Some (Revisited 12) }
    ensures depth_first { index_fault grandchild_at_10 ≡ Some (BadNode 10) }
{}
