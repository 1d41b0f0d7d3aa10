// Texts in the making.
ghost use Rattle.std.specs.Prelude.{◌≡◌, List, ℕ, OnOk, IfOk, flat_map};
ghost use Rattle.stated_texts.specs.Text.{measured, kept, with_piece};

use km_names::Blob;
use std::alloc::{AllocError, Global};

/// A text in the making: how long it is so far, and its bytes if they are kept.
#[derive(Drop)]
pub struct Text {
    length: u64,
    kept: Option<Blob>,
}

impl Text {
    /// Returns the empty text, whose bytes won't be kept.
    pub fn measured() -> Text
        ensures { result ≡ measured }
    {
        Text {
            length: 0,
            kept: None,
        }
    }

    /// Returns the empty text, whose bytes will be kept, with room for this many. The only error is
    /// out of memory.
    pub fn with_capacity(alloc: Global, capacity: usize) -> Result<Text, AllocError>
        ensures { IfOk result (λ text. text ≡ kept) }
    {
        Ok(Text {
            length: 0,
            kept: Some(Blob::from_vec(Vec::with_capacity(alloc, capacity)?)),
        })
    }

    /// Puts bytes at the end. The only error is out of memory.
    #[tactic(auto, unfolding(crate::specs::Text::with_piece))]
    pub fn put(&mut self, piece: &[u8]) -> Result<(), AllocError>
        ensures { OnOk result (self.new ≡ with_piece self.old piece.now) }
    {
        self.length = self.length.saturating_add(piece.len() as u64);
        if let Some(bytes) = &mut self.kept {
            bytes.extend(piece)?;
        }
        Ok(())
    }

    /// Puts pieces at the end, one after the other. The only error is out of memory.
    pub fn put_all(&mut self, pieces: &[&[u8]]) -> Result<(), AllocError>
        ensures { OnOk result
            (self.new ≡ with_piece self.old (flat_map (λ piece. piece.now) pieces.now)) }
    {
        for piece in pieces {
            self.put(piece)?;
        }
        Ok(())
    }

    /// Returns how long the text is. A length past 64 bits is given as the greatest number of 64.
    pub fn length(&self) -> u64
        ensures { result ≡ self.now.length }
    {
        self.length
    }

    /// Returns the bytes that were kept. It takes no memory.
    pub fn into_bytes(self, alloc: Global) -> Blob
        ensures { (bytes : List ℕ) → self ≡ with_piece kept bytes → result ≡ bytes }
    {
        let Text { length: _, kept } = self;
        kept.unwrap_or(Blob::new(alloc))
    }
}
