// The laws of removals.
ghost use Rattle.remove_plan.specs.Removal.{RemovedAreLeast, RemovedAreOne};

/// States that one pass from the youngest entry down gives the least set of modules that are
/// removed, youngest first. No other list of places is that set, youngest first.
pub fn removed_are_least()
    ensures least { RemovedAreLeast }
    ensures one { RemovedAreOne }
{}
