// Names as keys of tables, and their hash.
ghost use Rattle.std.specs.Prelude.{◌≡◌, nat_eq, [], ◌∷◌};
ghost use Rattle.std.specs.Cmp.Lexicographic.{bytes_decides, pointwise, nat_list_eq_equiv};
ghost use Rattle.std.specs.Cmp.{partial_equiv_from_equiv, on_per, on_equiv};
ghost use Rattle.std.proofs.Common.{ap};
ghost use Rattle.name_table.specs.Keys.{name_of};

use km_names::Name;
use std::hash::{BuildHasherDefault, DefaultHasher, Hash, Hasher};

/// The hasher of the names of a table: SipHash-1-3 with both keys 0. Names come from files, which
/// anybody may have written. The library's fast hasher multiplies its input by a product that can
/// be made 0, so names with one hash can be computed. For SipHash nothing better than trying is
/// known.
pub type NameHash = BuildHasherDefault<DefaultHasher>;

/// A name as a key of a table that borrows its names. The hasher gets the name as a whole. A slice
/// would give it the length and then each byte by itself, which takes twice as long.
#[derive(Clone, Copy)]
pub struct NameKey<'a> {
    /// The name.
    pub bytes: &'a [u8],
}

impl<'a> NameKey<'a> {
    /// Returns the key of a name.
    pub fn new(bytes: &'a [u8]) -> Self
        ensures { result.bytes.now ≡ bytes.now }
    {
        NameKey { bytes }
    }
}

impl<'a> PartialEq for NameKey<'a> {
    ghost eq = { λ x y. pointwise nat_eq x.bytes.now y.bytes.now };

    ghost laws = { on_per (λ k. k.bytes.now) (partial_equiv_from_equiv nat_list_eq_equiv) };

    fn eq(&self, other: &Self) -> bool {
        self.bytes == other.bytes
    }
}

impl<'a> Eq for NameKey<'a> {
    ghost laws = { on_equiv (λ k. k.bytes.now) nat_list_eq_equiv };
}

impl<'a> Hash for NameKey<'a> {
    ghost hash_input = { λ k. k.bytes.now ∷ [] };

    ghost respects_eq = { λ x y same. ap (λ bytes. bytes ∷ [])
        ((bytes_decides x.bytes.now y.bytes.now).0 same) };

    fn hash<H: Hasher>(&self, state: &mut H) {
        state.write(self.bytes);
    }
}

/// A name as a key of a table that owns its names. The hasher gets the name as a whole, as with
/// [`NameKey`].
#[derive(Drop)]
pub enum OwnedNameKey<'a> {
    /// A name that the table owns.
    Owned(Name),
    /// A name that is borrowed: it is looked up, or it outlives the table.
    Asked(&'a [u8]),
}

impl<'a> OwnedNameKey<'a> {
    /// Returns the name.
    pub fn bytes(&self) -> &[u8]
        ensures { result.now ≡ name_of self.now }
    {
        match self {
            OwnedNameKey::Owned(name) => name.as_bytes(),
            OwnedNameKey::Asked(name) => name,
        }
    }
}

impl<'a> PartialEq for OwnedNameKey<'a> {
    ghost eq = { λ x y. pointwise nat_eq (name_of x) (name_of y) };

    ghost laws = { on_per name_of (partial_equiv_from_equiv nat_list_eq_equiv) };

    fn eq(&self, other: &Self) -> bool {
        self.bytes() == other.bytes()
    }
}

impl<'a> Eq for OwnedNameKey<'a> {
    ghost laws = { on_equiv name_of nat_list_eq_equiv };
}

impl<'a> Hash for OwnedNameKey<'a> {
    ghost hash_input = { λ k. name_of k ∷ [] };

    ghost respects_eq = { λ x y same. ap (λ bytes. bytes ∷ [])
        ((bytes_decides (name_of x) (name_of y)).0 same) };

    fn hash<H: Hasher>(&self, state: &mut H) {
        state.write(self.bytes());
    }
}
