// Values that follow one another in a file.
ghost use Rattle.std.specs.Prelude.{◌≡◌, ◌++◌, ◌∷◌, [], IfNone, IfSome, List};
ghost use Rattle.index_format.specs.Map.{Value};
ghost use Rattle.index_nodes.specs.Places.{IsPlaceOf, values_left, value_at};
ghost use Rattle.index_nodes.specs.Runs.{IsRunOf, run_end, run_start, run_values, start_of};

use crate::place::Place;
use crate::read::{NUMBER_SIZE, place_at, text_at};

/// Values that follow one another in a file: where the first one begins, how many there are, and
/// where the last one ends.
#[derive(Clone, Copy)]
pub struct Run {
    pub(crate) start: usize,
    pub(crate) count: u32,
    pub(crate) end: usize,
}

impl Run {
    /// Returns where the first value begins.
    pub fn start(&self) -> usize
        ensures { result ≡ run_start self.now }
    {
        self.start
    }

    /// Returns where the last value ends, behind its NUL.
    pub fn end(&self) -> usize
        ensures { result ≡ run_end self.now }
    {
        self.end
    }
}

/// Returns the run of the value at a place.
pub(crate) fn run_at(bytes: &[u8], at: &Place) -> Run
    requires { IsPlaceOf bytes.now at.now }
    ensures run { IsRunOf bytes.now result }
    ensures start { run_start result ≡ start_of at.now }
    ensures values { run_values bytes.now result ≡ value_at bytes.now at.now ∷ [] }
{
    Run {
        start: at.start,
        count: 1,
        end: at.start + NUMBER_SIZE + text_at(bytes, at).len() + 1,
    }
}

/// Returns the run of two, of which the second begins where the first one ends. Returns `None` if
/// it begins elsewhere, or if they have too many values.
pub(crate) fn joined(bytes: &[u8], first: &Run, second: &Run) -> Option<Run>
    requires first { IsRunOf bytes.now first.now }
    requires second { IsRunOf bytes.now second.now }
    ensures run { IfSome result (IsRunOf bytes.now) }
    ensures start { IfSome result (λ run. run_start run ≡ run_start first.now) }
    ensures values { IfSome result
        (λ run. run_values bytes.now run
        ≡ run_values bytes.now first.now ++ run_values bytes.now second.now) }
{
    if second.start != first.end {
        return None;
    }
    let count = first.count.checked_add(second.count)?;
    Some(Run {
        start: first.start,
        count,
        end: second.end,
    })
}

/// Returns the place of the value after a run that begins at a place. Returns `None` if the run has
/// all values that are left of the place's node.
pub(crate) fn place_after(bytes: &[u8], at: &Place, run: &Run) -> Option<Place>
    requires place { IsPlaceOf bytes.now at.now }
    requires run { IsRunOf bytes.now run.now }
    requires start { run_start run.now ≡ start_of at.now }
    ensures none { IfNone result ((more : List Value)
        × (values_left bytes.now at.now ++ more ≡ run_values bytes.now run.now)) }
    ensures some { IfSome result
        (λ next. values_left bytes.now at.now
        ≡ run_values bytes.now run.now ++ values_left bytes.now next) }
    ensures place { IfSome result (IsPlaceOf bytes.now) }
{
    if at.left <= run.count {
        return None;
    }
    place_at(bytes, run.end, at.left - run.count)
}
