// What a text finds in the index of the built-in aliases.
ghost use Rattle.laws_builtin_aliases.specs.Found.{AreFound};

/// States what a text finds in any index that holds the map of the built-in aliases. Its values
/// name exactly the built-in modules that state a matching alias, in the order modules are first
/// seen in.
pub fn aliases_are_found()
    ensures { AreFound }
{}
