//! Tables of names: for each name the place of the first item of a list that states it.
//!
//! A table is filled item by item, from the first on. It keeps each name once, in the order the
//! names are first stated in. `NameTable` borrows the names from the items. `OwnedNameTable` keeps
//! copies, for tables that outlive the items. Other tables of names take `NameKey`, `OwnedNameKey`
//! or keys of their own, and `NameHash` for the hasher. `keep_first` fills those in which the first
//! value of a key counts.
//!
//! The crate uses `indexmap` and hashes names by SipHash-1-3. Inserting a name and looking one up
//! take the same time however many there are, except for names that were chosen against the hash.
//! The keys of the hash are fixed, so names that collide in a table can be found. Each takes as
//! many trials as the table has places; no way is known to compute them. The only error is out of
//! memory.
#![tactic(auto)]

mod borrowed;
mod first;
mod key;
mod owned;
mod set;

pub use borrowed::NameTable;
pub use first::keep_first;
pub use key::{NameHash, NameKey, OwnedNameKey};
pub use owned::OwnedNameTable;
pub use set::NameSet;
