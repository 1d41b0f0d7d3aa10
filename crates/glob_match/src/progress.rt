// The progress of a pattern that is read byte by byte, and progress that was saved.
ghost use Rattle.std.specs.Prelude.{◌≡◌, ℕ, ◌+◌, ◌-◌, ◌<◌, ◌≤◌, ◌^◌, take, drop, List, [], ◌∷◌};
ghost use Rattle.std.specs.Prelude.{◌++◌, IfOk, IfSome, OnOk, IsTrue, ◌↔◌, length};
ghost use Rattle.glob_pattern.specs.Pattern.{Matches};
ghost use Rattle.glob_match.specs.Runs.{AreRuns};
ghost use Rattle.glob_match.specs.Ends.{AreEnds};
ghost use Rattle.glob_match.specs.Progress.{IsOver, HasRead, WasRead, IsSaved, IsWhole};

use crate::ends::Ends;
use crate::place::{Pending, Place, last_low};
use crate::reading::read;
use crate::runs::Runs;
use crate::state::State;
use crate::words::{BITS, has, is_empty, meet};
use std::alloc::{AllocError, Global};

/// How far a pattern, which is read byte by byte, can match one text. It can be saved and taken up
/// again, so that patterns that begin alike share the work on their front.
///
/// It keeps the places of the text that the pattern so far can reach, with a bit for each. So a
/// byte of a pattern costs at most one step for every 64 bytes of the text, and a single step as
/// long as the pattern has no `*`.
#[derive(Drop)]
pub struct Progress {
    /// The bytes of the text, and 64 zeros.
    pub(crate) bytes: Vec<u8>,
    /// The length of the text.
    pub(crate) size: usize,
    pub(crate) place: Place,
    pub(crate) state: State,
}

/// A pattern whose progress was saved, but for its words.
#[derive(Clone, Copy)]
pub struct Saved {
    pub(crate) place: Place,
    pub(crate) first: usize,
    /// Half the number of its words.
    pub(crate) count: usize,
}

impl Saved {
    /// Returns the number of words that were saved.
    pub fn words(&self) -> usize
        requires { self.now.count + self.now.count < 2 ^ 64 }
        ensures { result ≡ self.now.count + self.now.count }
    {
        self.count + self.count
    }
}

impl Progress {
    /// Begins with the empty pattern.
    pub fn new(alloc: Global, text: &[u8]) -> Result<Progress, AllocError>
        ensures whole { IfOk result IsWhole }
        ensures over { IfOk result (λ p. IsOver p text.now) }
        ensures read { IfOk result (λ p. HasRead p text.now []) }
    {
        let mut bytes = Vec::from_slice(alloc, text)?;
        bytes.resize(text.len() + BITS, 0)?;
        Ok(Progress {
            bytes,
            size: text.len(),
            place: Place::Outside,
            state: State {
                first: 0,
                reached: vec![in alloc; 1u64; 1]?,
                listed: vec![in alloc; 0u64; 1]?,
                marks: Vec::new(alloc),
            },
        })
    }

    /// Reads one more byte of the pattern.
    ///
    /// # Errors
    ///
    /// Out of memory. What was read is unknown then.
    pub fn push(&mut self, byte: u8) -> Result<(), AllocError>
        requires { IsWhole self.old }
        ensures whole { OnOk result (IsWhole self.new) }
        ensures over { OnOk result ((text : List ℕ) → IsOver self.old text → IsOver self.new text) }
        ensures read { OnOk result
            ((text pattern : List ℕ) → IsOver self.old text → HasRead self.old text pattern
            → HasRead self.new text (pattern ++ byte ∷ [])) }
    {
        self.place = read(self.place, &mut self.state, &self.bytes, self.size, byte)?;
        Ok(())
    }

    /// Reads the bytes of a file from a place on: one, or a run of `*` or of items of a set.
    /// Returns the place after them.
    ///
    /// # Errors
    ///
    /// Out of memory. What was read is unknown then.
    pub fn push_next(
        &mut self,
        file: &[u8],
        from: usize,
        to: usize,
        runs: &Runs,
    ) -> Result<usize, AllocError>
        requires whole { IsWhole self.old }
        requires runs { AreRuns file.now runs.now }
        requires order { from < to }
        requires within { to ≤ length file.now }
        ensures whole { OnOk result (IsWhole self.new) }
        ensures over { OnOk result ((text : List ℕ) → IsOver self.old text → IsOver self.new text) }
        ensures more { IfOk result (λ next. from < next) }
        ensures high { IfOk result (λ next. next ≤ to) }
        ensures read { IfOk result
            (λ next. (text pattern : List ℕ) → IsOver self.old text → HasRead self.old text pattern
            → HasRead self.new text (pattern ++ take (next - from) (drop from file.now))) }
    {
        if let Place::Outside = self.place
            && file[from] == b'*'
        {
            self.state.fill(self.size)?;
            return Ok(runs.end(file, from + 1, to));
        }
        if let Some((negated, low)) = last_low(self.place)
            && let Some(items) = runs.items(file, from, to, low)
        {
            self.state.list_set(&self.bytes, self.size, &items.listed)?;
            self.place = Place::Inside(negated, Pending::Low(file[items.end]));
            return Ok(items.end + 1);
        }
        self.push(file[from])?;
        Ok(from + 1)
    }

    /// Returns whether the pattern so far matches the text.
    pub fn is_match(&self) -> bool
        requires { IsWhole self.now }
        ensures { (text pattern : List ℕ) → IsOver self.now text → HasRead self.now text pattern
            → (IsTrue result ↔ Matches pattern text) }
    {
        match self.place {
            Place::Outside => self.state.has(self.size),
            Place::Opened | Place::Inside(_, _) => false,
        }
    }

    /// Returns whether the pattern so far, with the bytes of a file from a place up to another
    /// after it, matches the text. The result is `None` if it isn't known what these bytes match.
    pub fn is_match_with(&self, ends: &Ends, at: usize, to: usize) -> Option<bool>
        requires whole { IsWhole self.now }
        ensures { (file text pattern : List ℕ) → AreEnds file text ends.now → IsOver self.now text
            → HasRead self.now text pattern
            → IfSome result
            (λ r. IsTrue r ↔ Matches (pattern ++ take (to - at) (drop at file)) text) }
    {
        match self.place {
            Place::Outside => {
                let words = ends.words(at, to, self.size)?;
                Some(meet(&self.state.reached, self.state.first, words))
            }
            Place::Opened | Place::Inside(_, _) => None,
        }
    }

    /// Returns whether no pattern that begins with the one so far matches the text.
    pub fn is_lost(&self) -> bool
        ensures { (text pattern : List ℕ) → IsOver self.now text → HasRead self.now text pattern
            → IsTrue result → (rest : List ℕ) → ¬ Matches (pattern ++ rest) text }
    {
        is_empty(&self.state.reached)
    }

    /// Adds the words of the pattern so far at the end.
    pub fn save(&self, words: &mut Vec<u64>) -> Result<Saved, AllocError>
        requires { IsWhole self.now }
        ensures { IfOk result (λ saved. IsSaved self.now saved words.old.items words.new.items) }
    {
        words.extend_from_slice(&self.state.reached)?;
        words.extend_from_slice(&self.state.listed)?;
        Ok(Saved {
            place: self.place,
            first: self.state.first,
            count: self.state.reached.len(),
        })
    }

    /// Takes a pattern up again that was saved.
    ///
    /// # Errors
    ///
    /// Out of memory. What was read is unknown then.
    pub fn restore(&mut self, saved: &Saved, words: &[u64]) -> Result<(), AllocError>
        requires whole { IsWhole self.old }
        requires size { length words.now ≡ saved.now.count + saved.now.count }
        ensures whole { OnOk result
            ((text pattern : List ℕ) → IsOver self.old text
            → WasRead text pattern saved.now words.now → IsWhole self.new) }
        ensures over { OnOk result ((text : List ℕ) → IsOver self.old text → IsOver self.new text) }
        ensures read { OnOk result
            ((text pattern : List ℕ) → WasRead text pattern saved.now words.now
            → HasRead self.new text pattern) }
    {
        self.place = saved.place;
        self.state.first = saved.first;
        self.state.reached.truncate(0);
        self.state.reached.extend_from_slice(&words[..saved.count])?;
        self.state.listed.truncate(0);
        self.state.listed.extend_from_slice(&words[saved.count..])?;
        Ok(())
    }
}
