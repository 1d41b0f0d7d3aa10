// What is listed of the paths of files in memory.

ghost use Rattle.std.specs.Prelude.{◌≡◌, IfOk, map, length};
ghost use Rattle.std.specs.BTreeMap as tree;
ghost use Rattle.std.specs.List.Sorted.{IsStrictlySortedBy};
ghost use Rattle.outside_calls.specs.Contents.{by_bytes};
ghost use Rattle.outside_calls.specs.Listing.{test_of, listed_of};

use crate::listing::Listing;
use km_names::{Blob, Bytes, List};
use std::alloc::{AllocError, Global};
use std::collections::BTreeMap;

/// Returns how many paths below the folder are listed. The prefix is the folder and a slash.
pub(crate) fn count_listed(
    files: &BTreeMap<Vec<u8>, Blob>,
    listing: Listing,
    prefix: &[u8],
) -> usize
    ensures count { result
        ≡ length (listed_of (test_of listing) prefix.now
        (map (λ path. path.items) (tree.keys files.now))) }
    ensures rising { IsStrictlySortedBy by_bytes (map (λ path. path.items) (tree.keys files.now)) }
{
    let mut count = 0;
    for path in files.keys() {
        if listing.rest(prefix, path.as_slice()).is_some() {
            count += 1;
        }
    }
    count
}

/// Returns the paths below the folder that are listed, in their order.
pub(crate) fn collect_listed<K>(
    alloc: Global,
    files: &BTreeMap<Vec<u8>, Blob>,
    listing: Listing,
    prefix: &[u8],
) -> Result<List<Bytes<K>>, AllocError>
    ensures { IfOk result
        (λ names. names
        ≡ listed_of (test_of listing) prefix.now
        (map (λ path. path.items) (tree.keys files.now))) }
{
    let mut names = List::new(alloc);
    for path in files.keys() {
        if let Some(rest) = listing.rest(prefix, path.as_slice()) {
            names.push(Bytes::from_slice(alloc, rest)?)?;
        }
    }
    Ok(names)
}
