// Each match is decided.
ghost use Rattle.std.specs.Prelude.{ℕ, List};
ghost use Rattle.glob_pattern.specs.Pattern.{Matches};

/// States that each text matches a pattern or doesn't.
pub fn matches_are_decided()
    ensures { (pattern text : List ℕ) → Dec (Matches pattern text) }
{}
