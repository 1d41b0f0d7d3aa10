// What walks reach from each item, of a relation without a cycle.
ghost use Rattle.std.specs.Prelude.{◌≡◌, ◌<◌, ◌≤◌, ◌*◌, ◌/◌, ◌^◌, ◌&&◌, ◌||◌, ◌==◌, [], ℕ, true};
ghost use Rattle.std.specs.Prelude.{not, length, map, filter, All, IfOk, slice_index_or};
ghost use Rattle.std.specs.List.{sum_by};
ghost use Rattle.std.specs.Int.{div_ceil};
ghost use Rattle.std.proofs.Common.{replicate};
ghost use Rattle.relation_order.specs.Sets.{goes, has, below};
ghost use Rattle.relation_order.specs.Least.{least_order};
ghost use Rattle.relation_order.specs.Cycle.{cycle};
ghost use Rattle.relation_order.specs.Search.{Inside};
ghost use Rattle.relation_order.specs.Closures.{closures};
ghost use Rattle.relation_order.specs.Rows.{has_mark, marked_in, row_at, AreReached, Fitting};

use std::alloc::{AllocError, Global};
use std::marker::Model;

/// How many marks a word of a row has.
const WORD_BITS: usize = 64;

/// The closures of all items: what walks reach from each, in the least order. Contracts see them as
/// a list for each item. They take a bit for each pair of items, and none for the items that go
/// nowhere, until they are asked for.
#[derive(Drop)]
pub struct Closures {
    rows: Vec<Vec<u64>>,
    // The items that are in a closure, in the least order.
    order: Vec<usize>,
}

impl Model for Closures {
    ghost use Rattle.std.specs.Prelude.{List, ℕ, map};
    ghost use Rattle.relation_order.specs.Rows.{Fitting, marked_in};

    ghost Value = { List (List ℕ) };

    ghost view = { λ c. map (marked_in c.order.items) c.rows.items };

    ghost invariant = { λ c. Fitting c.rows.items c.order.items };
}

impl Closures {
    /// Makes the closures of the items below `lists.len()`, by their least order. Each item goes to
    /// those in its list, and no walk leads back to its start.
    pub fn new(
        alloc: Global,
        lists: &[Vec<usize>],
        order: Vec<usize>,
    ) -> Result<Closures, AllocError>
        requires inside { Inside (length lists.now) lists.now }
        requires order { order.items ≡ least_order (goes lists.now) (below (length lists.now)) }
        requires acyclic { cycle (goes lists.now) (below (length lists.now)) ≡ [] }
        ensures { IfOk result (λ all. all ≡ closures (goes lists.now) (length lists.now)) }
    {
        let mut rows = empty_rows(alloc, lists.len())?;
        for i in 0..order.len() {
            let x = order[i];
            rows[x] = row_of(alloc, lists, &rows, x)?;
        }
        // Most items are in no closure, and are never looked at again.
        let order = marked_anywhere(alloc, &rows, &order)?;
        Ok(Closures { rows, order })
    }

    /// Counts the items of all closures together.
    pub fn count(&self) -> u64
        requires { length self.now < 2 ^ 32 }
        ensures { result ≡ sum_by length self.now }
    {
        let mut count = 0;
        for row in &self.rows {
            count += count_marks(row);
        }
        count
    }

    /// Lists the closure of the item `x`.
    pub fn closure(&self, alloc: Global, x: usize) -> Result<Vec<usize>, AllocError>
        requires { x < length self.now }
        ensures { IfOk result (λ found. found.items ≡ slice_index_or self.now x []) }
    {
        marked_items(alloc, &self.order, &self.rows[x])
    }
}

/// Makes as many rows, without a mark, and without room for one.
fn empty_rows(alloc: Global, count: usize) -> Result<Vec<Vec<u64>>, AllocError>
    ensures long { IfOk result (λ rows. length rows.items ≡ count) }
    ensures empty { IfOk result (λ rows. All (λ row. row.items ≡ []) rows.items) }
{
    let mut rows = Vec::new(alloc);
    for _ in 0..count {
        rows.push(Vec::new(alloc))?;
    }
    Ok(rows)
}

/// Makes a row without a mark, with room for a mark for each of as many items.
fn unmarked_row(alloc: Global, count: usize) -> Result<Vec<u64>, AllocError>
    ensures { IfOk result (λ row. row.items ≡ replicate (div_ceil count 64) 0) }
{
    vec![in alloc; 0; count.div_ceil(WORD_BITS)]
}

/// Makes the row of what is reached from an item, by the rows of those that it goes to. One that is
/// reached already isn't added again.
fn row_of(
    alloc: Global,
    lists: &[Vec<usize>],
    rows: &[Vec<u64>],
    x: usize,
) -> Result<Vec<u64>, AllocError>
    requires inside { Inside (length lists.now) lists.now }
    requires place { x < length lists.now }
    requires rows { length rows.now ≡ length lists.now }
    requires rows_long { All (λ row. length row.items ≤ div_ceil (length lists.now) 64) rows.now }
    requires known { (y : ℕ) → goes lists.now x y ≡ true
        → AreReached (goes lists.now) (length lists.now) (row_at rows.now y) y }
    ensures long { IfOk result (λ row. length row.items ≤ div_ceil (length lists.now) 64) }
    ensures reached { IfOk result
        (λ row. AreReached (goes lists.now) (length lists.now) row.items x) }
{
    let items = lists[x].as_slice();
    if items.is_empty() {
        return Ok(Vec::new(alloc));
    }
    let mut row = unmarked_row(alloc, lists.len())?;
    let mut at = items.len();
    while at > 0 {
        at -= 1;
        let y = items[at];
        if !is_marked(&row, y) {
            add_row(&mut row, &rows[y], y);
        }
    }
    Ok(row)
}

/// Returns whether an item is marked.
fn is_marked(row: &[u64], item: usize) -> bool
    ensures { result ≡ has_mark row.now item }
{
    match row.get(item / WORD_BITS) {
        Some(word) => (*word >> (item % WORD_BITS)) & 1 == 1,
        None => false,
    }
}

/// Marks an item.
fn mark(row: &mut Vec<u64>, item: usize)
    requires { item / 64 < length row.old.items }
    ensures long { length row.new.items ≡ length row.old.items }
    ensures marks { (y : ℕ) → has_mark row.new.items y ≡ (has_mark row.old.items y || y == item) }
{
    row[item / WORD_BITS] |= 1 << (item % WORD_BITS);
}

/// Marks an item, and all that are marked in another row.
fn add_row(row: &mut Vec<u64>, other: &[u64], item: usize)
    requires long { length other.now ≤ length row.old.items }
    requires item { item / 64 < length row.old.items }
    ensures long { length row.new.items ≡ length row.old.items }
    ensures marks { (y : ℕ) → has_mark row.new.items y
        ≡ (has_mark row.old.items y || (y == item || has_mark other.now y)) }
{
    mark(row, item);
    add_marks(row, other);
}

/// Marks all that are marked in another row.
fn add_marks(row: &mut Vec<u64>, other: &[u64])
    requires { length other.now ≤ length row.old.items }
    ensures long { length row.new.items ≡ length row.old.items }
    ensures marks { (y : ℕ) → has_mark row.new.items y
        ≡ (has_mark row.old.items y || has_mark other.now y) }
{
    for k in 0..other.len() {
        row[k] |= other[k];
    }
}

/// Lists the items of an order that are marked in one of the rows.
fn marked_anywhere(
    alloc: Global,
    rows: &[Vec<u64>],
    order: &[usize],
) -> Result<Vec<usize>, AllocError>
    requires { All (λ row. length row.items ≤ div_ceil (length rows.now) 64) rows.now }
    ensures same { IfOk result
        (λ found. map (marked_in found.items) rows.now ≡ map (marked_in order.now) rows.now) }
    ensures fitting { IfOk result
        (λ found. Fitting rows.now order.now → Fitting rows.now found.items) }
{
    let mut all = unmarked_row(alloc, rows.len())?;
    for row in rows {
        add_marks(&mut all, row);
    }
    marked_items(alloc, order, &all)
}

/// Lists the marked items of an order. At a row without a word the order isn't looked at.
fn marked_items(alloc: Global, order: &[usize], row: &[u64]) -> Result<Vec<usize>, AllocError>
    ensures { IfOk result (λ found. found.items ≡ filter (has_mark row.now) order.now) }
{
    if row.is_empty() {
        return Ok(Vec::new(alloc));
    }
    order
        .iter()
        .copied()
        .filter(|y| is_marked(row, *y))
        .collect(alloc)
}

/// Counts the marked items.
fn count_marks(row: &[u64]) -> u64
    requires { length row.now < 2 ^ 32 }
    ensures { result ≡ length (filter (has_mark row.now) (below (64 * length row.now))) }
{
    let mut count = 0;
    for word in row {
        count += u64::from(word.count_ones());
    }
    count
}
