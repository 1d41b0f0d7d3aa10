ghost use Rattle.std.specs.Prelude.{◌≡◌, length};
ghost use Rattle.relation_order.specs.Search.{Inside};

/// A set and a relation between its items: `lists[x]` has the items that `x` goes to, and the
/// members are marked.
#[derive(Clone, Copy)]
pub(crate) struct Graph<'a> {
    pub(crate) lists: &'a [Vec<usize>],
    pub(crate) members: &'a [bool],
    ghost long: { length members.now ≡ length lists.now },
    ghost inside: { Inside (length lists.now) lists.now },
}
