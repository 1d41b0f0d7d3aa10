// One byte of a pattern, by what it does to the places of a text that the pattern reaches.
ghost use Rattle.std.specs.Prelude.{◌≡◌, ℕ, ◌+◌, ◌≤◌, ◌&&◌, ◌||◌, nat_le, Bool, List, [], ◌∷◌};
ghost use Rattle.std.specs.Prelude.{◌++◌, length, slice_index, OnOk, IfOk};
ghost use Rattle.glob_pattern.specs.Pattern.{closing};
ghost use Rattle.glob_pattern.specs.Parts.{is_listed};
ghost use Rattle.glob_match.specs.Words.{is_between, HasBits, HasPlaces, moved};
ghost use Rattle.glob_match.specs.States.{IsKept, SamePlaces};
ghost use Rattle.glob_match.specs.Progress.{Stands, IsText, IsOpen, pending_items};
ghost use Rattle.glob_match.specs.declared.place.Place.TheVariants.{Outside, Opened, Inside};

use crate::place::{Pending, Place};
use crate::state::State;
use crate::words::BITS;
use std::alloc::AllocError;

/// Reads a byte of a pattern, and returns where the pattern ends after it.
pub(crate) fn read(
    place: Place,
    state: &mut State,
    bytes: &[u8],
    size: usize,
    byte: u8,
) -> Result<Place, AllocError>
    requires kept { IsKept size state.old }
    requires padded { size + BITS ≤ length bytes.now }
    ensures kept { OnOk result (IsKept size state.new) }
    ensures read { IfOk result
        (λ next. (text pattern : List ℕ) → IsText text bytes.now size
        → Stands text pattern place state.old.first state.old.reached.items
        state.old.listed.items
        → Stands text (pattern ++ byte ∷ []) next state.new.first state.new.reached.items
        state.new.listed.items) }
{
    match place {
        Place::Outside => read_outside(state, bytes, size, byte),
        Place::Opened => Ok(read_opened(state, size, byte)),
        Place::Inside(negated, pending) => {
            Ok(read_inside(state, bytes, size, negated, pending, byte))
        }
    }
}

/// Takes a byte of the text in a range.
fn take_range(state: &mut State, bytes: &[u8], size: usize, low: u8, high: u8)
    requires kept { IsKept size state.old }
    requires padded { size + BITS ≤ length bytes.now }
    ensures kept { IsKept size state.new }
    ensures places { (test : ℕ → Bool) → HasPlaces state.old.first state.old.reached.items test
        → HasPlaces state.new.first state.new.reached.items
        (λ n. nat_le n size
        && moved test (λ m. is_between low high (slice_index bytes.now m)) n) }
{
    state.unlist();
    state.list(bytes, size, low, high);
    state.take(size);
}

/// Reads a byte outside of a set.
fn read_outside(state: &mut State, bytes: &[u8], size: usize, byte: u8) -> Result<Place, AllocError>
    requires kept { IsKept size state.old }
    requires padded { size + BITS ≤ length bytes.now }
    ensures kept { OnOk result (IsKept size state.new) }
    ensures read { IfOk result
        (λ next. (text pattern : List ℕ) → IsText text bytes.now size
        → Stands text pattern Outside state.old.first state.old.reached.items
        state.old.listed.items
        → Stands text (pattern ++ byte ∷ []) next state.new.first state.new.reached.items
        state.new.listed.items) }
{
    match byte {
        b'*' => {
            state.fill(size)?;
            Ok(Place::Outside)
        }
        b'?' => {
            take_range(state, bytes, size, 0, u8::MAX);
            Ok(Place::Outside)
        }
        b'[' => Ok(Place::Opened),
        own => {
            take_range(state, bytes, size, own, own);
            Ok(Place::Outside)
        }
    }
}

/// Reads the first byte of a set.
fn read_opened(state: &mut State, size: usize, byte: u8) -> Place
    requires { IsKept size state.old }
    ensures kept { IsKept size state.new }
    ensures read { (text pattern : List ℕ) → length text ≡ size
        → Stands text pattern Opened state.old.first state.old.reached.items state.old.listed.items
        → Stands text (pattern ++ byte ∷ []) result state.new.first state.new.reached.items
        state.new.listed.items }
{
    state.unlist();
    match byte {
        b']' => {
            state.take(size);
            Place::Outside
        }
        b'!' => Place::Inside(true, Pending::Nothing),
        low => Place::Inside(false, Pending::Low(low)),
    }
}

/// Reads a byte of a set after its first.
fn read_inside(
    state: &mut State,
    bytes: &[u8],
    size: usize,
    negated: bool,
    pending: Pending,
    byte: u8,
) -> Place
    requires kept { IsKept size state.old }
    requires padded { size + BITS ≤ length bytes.now }
    ensures kept { IsKept size state.new }
    ensures read { (text pattern : List ℕ) → IsText text bytes.now size
        → Stands text pattern (Inside negated pending) state.old.first state.old.reached.items
        state.old.listed.items
        → Stands text (pattern ++ byte ∷ []) result state.new.first state.new.reached.items
        state.new.listed.items }
{
    if byte == b']' {
        close(state, bytes, size, negated, pending);
        Place::Outside
    } else {
        Place::Inside(negated, add_item(state, bytes, size, pending, byte))
    }
}

/// Reads the bracket that closes a set.
fn close(state: &mut State, bytes: &[u8], size: usize, negated: bool, pending: Pending)
    requires kept { IsKept size state.old }
    requires padded { size + BITS ≤ length bytes.now }
    ensures kept { IsKept size state.new }
    ensures read { (text pattern : List ℕ) → IsText text bytes.now size
        → Stands text pattern (Inside negated pending) state.old.first state.old.reached.items
        state.old.listed.items
        → Stands text (pattern ++ closing ∷ []) Outside state.new.first state.new.reached.items
        state.new.listed.items }
{
    add_pending(state, bytes, size, pending);
    if negated {
        state.list_others();
    }
    state.take(size);
}

/// Adds what is pending, at the end of a set.
fn add_pending(state: &mut State, bytes: &[u8], size: usize, pending: Pending)
    requires kept { IsKept size state.old }
    requires padded { size + BITS ≤ length bytes.now }
    ensures same { SamePlaces state.old state.new }
    ensures listed { (test : ℕ → Bool) → HasBits state.old.listed.items test
        → HasBits state.new.listed.items
        (λ n. test n
        || is_listed (pending_items pending)
        (slice_index bytes.now (state.old.first + n))) }
{
    match pending {
        Pending::Nothing => {}
        Pending::Low(low) => state.list(bytes, size, low, low),
        Pending::Dash(low) => {
            state.list(bytes, size, low, low);
            state.list(bytes, size, b'-', b'-');
        }
    }
}

/// Reads one more item of a set, and returns what is pending after it.
fn add_item(state: &mut State, bytes: &[u8], size: usize, pending: Pending, byte: u8) -> Pending
    requires kept { IsKept size state.old }
    requires padded { size + BITS ≤ length bytes.now }
    ensures same { SamePlaces state.old state.new }
    ensures items { (text : List ℕ) (negated : Bool) (items : List ℕ) → IsText text bytes.now size
        → IsOpen text negated state.old.first (pending_items pending) items state.old.listed.items
        → IsOpen text negated state.old.first (pending_items result) (items ++ byte ∷ [])
        state.new.listed.items }
{
    match pending {
        Pending::Nothing => Pending::Low(byte),
        Pending::Low(low) => {
            if byte == b'-' {
                return Pending::Dash(low);
            }
            state.list(bytes, size, low, low);
            Pending::Low(byte)
        }
        Pending::Dash(low) => {
            state.list(bytes, size, low, byte);
            Pending::Nothing
        }
    }
}
