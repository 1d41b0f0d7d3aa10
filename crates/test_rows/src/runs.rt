// Rows that are run.
use crate::difference::{Difference, compare_all, compare_seen};
use crate::objects::{Objects, words_of};
use crate::row::{RowOf, TreeRow};
use km_names::Word;
use kmod_cli::run;
use std::alloc::{AllocError, Global};

/// Runs each row of each tree, and compares what comes out, with every file.
pub fn run_trees(alloc: Global, trees: &[TreeRow<'_>]) -> Result<(), Difference> {
    for tree in trees {
        run_tree(alloc, tree)?;
    }
    Ok(())
}

/// Runs each row of a tree over objects of its own, and compares what comes out, with every file.
/// The tree's name, or else its words, tell a row that differs.
pub fn run_tree(alloc: Global, tree: &TreeRow<'_>) -> Result<(), Difference> {
    for row in tree.rows {
        run_row(alloc, tree, *row)?;
    }
    Ok(())
}

/// Puts the files of a tree into objects, and runs a row over them.
pub fn run_over(
    alloc: Global,
    objects: &mut Objects,
    tree: &TreeRow<'_>,
    row: RowOf<'_>,
) -> Result<(), Difference> {
    objects.fill(alloc, tree)?;
    run_first(alloc, objects, tree.first)?;
    run_next(alloc, objects, tree, row)
}

/// Runs a row over the files that are there, which the tree's are to be put into afterwards.
pub fn run_next(
    alloc: Global,
    objects: &mut Objects,
    tree: &TreeRow<'_>,
    row: RowOf<'_>,
) -> Result<(), Difference> {
    let (words, ..) = row;
    objects.want_after(alloc, tree)?;
    run_words(alloc, objects, words)?;
    compare_all(alloc, objects, row, name_of(tree, words))
}

/// Runs words that are to be done and write nothing, if there are any. What they leave is to stay.
pub fn run_first(alloc: Global, objects: &mut Objects, words: &str) -> Result<(), Difference> {
    if words.is_empty() {
        return Ok(());
    }
    run_words(alloc, objects, words)?;
    compare_seen(alloc, objects, (words, 0, "", ""), words)?;
    Ok(objects.want_all(alloc)?)
}

/// Runs words, with one space between each and the next. The only error is out of memory.
pub fn run_words(alloc: Global, objects: &mut Objects, words: &str) -> Result<(), AllocError> {
    let words = words_of(alloc, words)?;
    run_listed(alloc, words.as_slice(), objects);
    Ok(())
}

/// Runs a row of a tree over objects of its own.
fn run_row(alloc: Global, tree: &TreeRow<'_>, row: RowOf<'_>) -> Result<(), Difference> {
    let mut objects = Objects::new(alloc)?;
    let outcome = run_over(alloc, &mut objects, tree, row);
    drop(objects);
    outcome
}

/// Returns what tells a row: the name of its tree, or else its words.
fn name_of<'a>(tree: &TreeRow<'a>, words: &'a str) -> &'a str {
    if tree.name.is_empty() {
        words
    } else {
        tree.name
    }
}

/// Runs words. It promises nothing, so that no contract is carried along.
fn run_listed(alloc: Global, words: &[Word], objects: &mut Objects) {
    let (files, out, err) = (&mut objects.files, &mut objects.out, &mut objects.err);
    objects.status = run(alloc, words, files, out, err);
}
