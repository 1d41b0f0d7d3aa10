// The search for a gap.

ghost use Rattle.std.specs.Prelude.{◌≡◌, ◌+◌, ◌%◌, ◌^◌, ◌≤◌, ◌<◌, All, IfOk, map, true};
ghost use Rattle.std.specs.List.Sorted.{IsNonDecreasingBy, IsPermutation};
ghost use Rattle.model_loader.specs.Gap.{gap_among};
ghost use Rattle.model_loader.specs.Runs.{IsLowest, IsPaged, run_of};
ghost use Rattle.model_loader.specs.declared.gap.Run.{Run};
ghost use Rattle.model_loader.specs.declared.entry.Entry.{Entry};

use crate::Region;
use crate::entry::Entry;
use std::alloc::{AllocError, Global};

/// The addresses of an image.
#[derive(Clone, Copy)]
pub(crate) struct Run {
    base: u64,
    size: u64,
}

/// Returns the lowest page of a region such that `size` bytes from there on are free, among these
/// entries.
pub(crate) fn lowest_gap(
    alloc: Global,
    region: &Region,
    entries: &[Entry],
    size: u128,
) -> Result<Option<u64>, AllocError>
    requires some { 4096 ≤ size }
    requires size { size < 2 ^ 100 }
    requires paged { All (λ (e : Entry). IsPaged (run_of e)) entries.now }
    ensures { IfOk result (λ gap. gap ≡ gap_among region.now entries.now size) }
{
    let runs = sorted_runs(alloc, entries)?;
    let at = lowest_free(region.base, &runs, size);
    if at + size <= u128::from(region.base) + u128::from(region.size) {
        Ok(Some(at as u64))
    } else {
        Ok(None)
    }
}

/// Returns the addresses of the images of some entries, by rising address.
fn sorted_runs(alloc: Global, entries: &[Entry]) -> Result<Vec<Run>, AllocError>
    ensures runs { IfOk result (λ v. IsPermutation (map run_of entries.now) v.items) }
    ensures sorted { IfOk result (λ v. IsNonDecreasingBy (λ (r : Run). r.base) v.items) }
{
    let mut runs = runs_of(alloc, entries)?;
    if are_sorted(&runs) {
        return Ok(runs);
    }
    runs.sort_unstable_by_key(|run| run.base);
    Ok(runs)
}

/// Returns the lowest page from `base` on such that `size` bytes meet no run.
fn lowest_free(base: u64, runs: &[Run], size: u128) -> u128
    requires base { base % 4096 ≡ 0 }
    requires size { size < 2 ^ 100 }
    requires paged { All IsPaged runs.now }
    requires sorted { IsNonDecreasingBy (λ (r : Run). r.base) runs.now }
    ensures lowest { IsLowest base runs.now size result }
    ensures near { result < 2 ^ 66 }
{
    let mut at = u128::from(base);
    for run in runs {
        if at + size <= u128::from(run.base) {
            return at;
        }
        at = at.max(u128::from(run.base) + u128::from(run.size));
    }
    at
}

/// Returns the addresses of the images of some entries.
fn runs_of(alloc: Global, entries: &[Entry]) -> Result<Vec<Run>, AllocError>
    ensures { IfOk result (λ v. v.items ≡ map run_of entries.now) }
{
    let mut runs = Vec::with_capacity(alloc, entries.len())?;
    for entry in entries {
        runs.push(Run {
            base: entry.loaded.base,
            size: entry.image.as_bytes().len() as u64,
        })?;
    }
    Ok(runs)
}

/// Returns whether the runs are in order of rising address, and may return false if they are.
fn are_sorted(runs: &[Run]) -> bool
    ensures { result ≡ true → IsNonDecreasingBy (λ (r : Run). r.base) runs.now }
{
    let mut last = 0;
    for run in runs {
        if run.base < last {
            return false;
        }
        last = run.base;
    }
    true
}
