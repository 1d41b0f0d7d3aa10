// Lists of bytes by their kind: texts, names, paths and aliases.
ghost use Rattle.std.specs.Prelude.{◌≡◌, ◌≤◌, ◌↔◌, ◌==◌, [], ◌∷◌, ◌++◌, length, map, IsNone, OnOk};
ghost use Rattle.std.specs.Prelude.{◌⊎◌, OnErr, IfOk, slice_get, option_copied, take};
ghost use Rattle.std.specs.List.{flat_map};
ghost use Rattle.km_names.specs.Texts.{spaced};

use bstr::BStr;
use std::alloc::{AllocError, Global};
use std::fmt;
use std::marker::{Model, PhantomData};

/// How many bytes a copy may have to be kept in the list itself. Seven in eight names of symbols
/// have no more.
const FEW: usize = 23;

/// A growing list of bytes of the kind `K`, an empty enum that separates paths, names and texts. A
/// copy of at most 23 bytes takes no other memory. Contracts see it as the list of its bytes.
#[derive(Drop)]
pub struct Bytes<K> {
    // Without bytes if some are in the list itself.
    bytes: Vec<u8>,
    few: [u8; FEW],
    few_count: u8,
    kind: PhantomData<K>,
}

impl<K> Model for Bytes<K> {
    ghost use Rattle.std.specs.Prelude.{◌≡◌, ◌≤◌, ◌⊎◌, ◌++◌, [], List, ℕ, take};

    ghost Value = { List ℕ };

    ghost view = { λ b. take b.few_count b.few ++ b.bytes.items };

    ghost invariant = { λ b. (b.few_count ≤ 23) × ((b.few_count ≡ 0) ⊎ (b.bytes.items ≡ [])) };
}

/// Shows the bytes as text in quotes, with escapes for what isn't UTF-8.
impl<K> fmt::Debug for Bytes<K> {
    fn fmt<W: fmt::Write>(&self, f: &mut fmt::Formatter<W>) -> fmt::Result {
        fmt::Debug::fmt(&BStr::new(self.as_bytes()), f)
    }
}

/// The kind of bytes that are any text or the content of a file.
#[derive(Drop)]
pub enum BlobKind {}

/// The kind of bytes that name a module, a symbol, a section or a key.
#[derive(Drop)]
pub enum NameKind {}

/// The kind of bytes that are the path of a file or a folder.
#[derive(Drop)]
pub enum PathKind {}

/// The kind of bytes that are a module alias in its normal form, maybe a pattern.
#[derive(Drop)]
pub enum AliasKind {}

/// Any bytes: a text, or the content of a file.
pub type Blob = Bytes<BlobKind>;

/// The bytes of a name: of a module, a symbol, a section or a key.
pub type Name = Bytes<NameKind>;

/// The bytes of a path.
pub type PathText = Bytes<PathKind>;

/// The bytes of a module alias in its normal form, maybe a pattern.
pub type Alias = Bytes<AliasKind>;

impl<K> Bytes<K> {
    /// Returns the empty list of bytes. It takes no memory.
    pub fn new(alloc: Global) -> Self
        ensures { result ≡ [] }
    {
        Bytes::from_vec(Vec::new(alloc))
    }

    /// Returns a copy of the bytes.
    pub fn from_slice(alloc: Global, bytes: &[u8]) -> Result<Self, AllocError>
        ensures { IfOk result (λ b. b ≡ bytes.now) }
    {
        if bytes.len() > FEW {
            return Ok(Bytes::from_vec(Vec::from_slice(alloc, bytes)?));
        }
        let mut few = [0; FEW];
        few[..bytes.len()].copy_from_slice(bytes);
        Ok(Bytes {
            bytes: Vec::new(alloc),
            few,
            few_count: bytes.len() as u8,
            kind: PhantomData,
        })
    }

    /// Returns the bytes of these pieces, one piece after the other. It takes memory once, for all.
    pub fn concat(alloc: Global, pieces: &[&[u8]]) -> Result<Self, AllocError>
        ensures { IfOk result (λ b. b ≡ flat_map (λ piece. piece.now) pieces.now) }
    {
        let mut bytes = Vec::with_capacity(alloc, total_length(pieces))?;
        for piece in pieces {
            bytes.extend_from_slice(piece)?;
        }
        Ok(Bytes::from_vec(bytes))
    }

    /// Returns the bytes of these pieces, with a space between each and the next. It takes memory
    /// once, for all.
    pub fn spaced(alloc: Global, pieces: &[&[u8]]) -> Result<Self, AllocError>
        ensures { IfOk result (λ b. b ≡ spaced (map (λ piece. piece.now) pieces.now)) }
    {
        let length = total_length(pieces).saturating_add(pieces.len());
        let mut bytes = Vec::with_capacity(alloc, length)?;
        for i in 0..pieces.len() {
            if i > 0 {
                bytes.push(b' ')?;
            }
            bytes.extend_from_slice(pieces[i])?;
        }
        Ok(Bytes::from_vec(bytes))
    }

    /// Returns the bytes of a vector. It takes no memory.
    pub fn from_vec(bytes: Vec<u8>) -> Self
        ensures { result ≡ bytes.items }
    {
        Bytes {
            bytes,
            few: [0; FEW],
            few_count: 0,
            kind: PhantomData,
        }
    }

    /// Returns the vector of the bytes. If they are a copy of at most 23 bytes, it takes memory.
    pub fn into_vec(self) -> Result<Vec<u8>, AllocError>
        ensures { IfOk result (λ v. v.items ≡ self) }
    {
        let Bytes {
            mut bytes,
            few,
            mut few_count,
            kind: _,
        } = self;
        move_few(&few, &mut few_count, &mut bytes)?;
        Ok(bytes)
    }

    /// Returns the same bytes as a list of another kind. It takes no memory.
    pub fn into_kind<L>(self) -> Bytes<L>
        ensures { result ≡ self }
    {
        let Bytes {
            bytes,
            few,
            few_count,
            kind: _,
        } = self;
        Bytes {
            bytes,
            few,
            few_count,
            kind: PhantomData,
        }
    }

    /// Puts a byte at the end. After a refusal the list is as before.
    pub fn push(&mut self, item: u8) -> Result<(), AllocError>
        ensures ok { OnOk result (self.new ≡ self.old ++ item ∷ []) }
        ensures err { OnErr result (self.new ≡ self.old) }
    {
        move_few(&self.few, &mut self.few_count, &mut self.bytes)?;
        self.bytes.push(item)?;
        Ok(())
    }

    /// Puts bytes at the end. After a refusal the list is as before.
    pub fn extend(&mut self, bytes: &[u8]) -> Result<(), AllocError>
        ensures ok { OnOk result (self.new ≡ self.old ++ bytes.now) }
        ensures err { OnErr result (self.new ≡ self.old) }
    {
        move_few(&self.few, &mut self.few_count, &mut self.bytes)?;
        self.bytes.extend_from_slice(bytes)
    }

    /// Returns the byte at place `i`, from 0.
    pub fn get(&self, i: usize) -> Option<&u8>
        ensures item { option_copied result ≡ slice_get self.now i }
        ensures past_end { IsNone result ↔ (length self.now ≤ i) }
    {
        self.as_bytes().get(i)
    }

    /// Returns how many bytes there are.
    pub fn len(&self) -> usize
        ensures { result ≡ length self.now }
    {
        self.as_bytes().len()
    }

    /// Returns whether there is no byte.
    pub fn is_empty(&self) -> bool
        ensures { result ≡ (length self.now == 0) }
    {
        self.len() == 0
    }

    /// Returns the bytes as a slice.
    pub fn as_bytes(&self) -> &[u8]
        ensures { result.now ≡ self.now }
    {
        if self.few_count > 0 {
            &self.few[..usize::from(self.few_count)]
        } else {
            self.bytes.as_slice()
        }
    }
}

/// Moves bytes that are in a list itself into its vector. After a refusal both are as before.
fn move_few(few: &[u8; FEW], count: &mut u8, bytes: &mut Vec<u8>) -> Result<(), AllocError>
    requires count { count.old ≤ 23 }
    requires one { (count.old ≡ 0) ⊎ (bytes.old.items ≡ []) }
    ensures count { OnOk result (count.new ≡ 0) }
    ensures bytes { OnOk result (bytes.new.items ≡ take count.old few.now ++ bytes.old.items) }
    ensures count_kept { OnErr result (count.new ≡ count.old) }
    ensures bytes_kept { OnErr result (bytes.new.items ≡ bytes.old.items) }
{
    if *count > 0 {
        bytes.extend_from_slice(&few[..usize::from(*count)])?;
        *count = 0;
    }
    Ok(())
}

/// Returns how many bytes the pieces have together, as far as a `usize` counts.
fn total_length(pieces: &[&[u8]]) -> usize {
    let mut length = 0usize;
    for piece in pieces {
        length = length.saturating_add(piece.len());
    }
    length
}
