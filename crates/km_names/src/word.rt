ghost use Rattle.std.specs.Prelude.{◌≡◌, ◌≤◌, ◌↔◌, length, IsNone, IfOk, slice_get, option_copied};

use std::alloc::{AllocError, Global};
use std::marker::Model;

/// A word of a command line: UTF-8 text. Contracts see it as its bytes.
#[derive(Debug, Drop)]
pub struct Word {
    text: String,
}

impl Model for Word {
    ghost use Rattle.std.specs.Prelude.{List, ℕ};
    ghost use Rattle.std.specs.String.{string_bytes};

    ghost Value = { List ℕ };

    ghost view = { λ w. string_bytes w.text };
}

impl Word {
    /// Returns a word of this text.
    pub fn from_text(alloc: Global, text: &str) -> Result<Word, AllocError>
        ensures { IfOk result (λ w. w ≡ text.now) }
    {
        Ok(Word {
            text: String::from_str(alloc, text)?,
        })
    }

    /// Returns the word as text.
    pub fn as_str(&self) -> &str
        ensures { result.now ≡ self.now }
    {
        self.text.as_str()
    }

    /// Returns the word's bytes.
    pub fn as_bytes(&self) -> &[u8]
        ensures { result.now ≡ self.now }
    {
        self.text.as_bytes()
    }

    /// Returns the byte at place `i`, from 0.
    pub fn get(&self, i: usize) -> Option<&u8>
        ensures item { option_copied result ≡ slice_get self.now i }
        ensures past_end { IsNone result ↔ (length self.now ≤ i) }
    {
        self.as_bytes().get(i)
    }

    /// Returns how many bytes the word has.
    pub fn len(&self) -> usize
        ensures { result ≡ length self.now }
    {
        self.text.len()
    }
}
