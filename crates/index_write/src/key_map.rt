// A map from keys to values, and the values that it stores.
ghost use Rattle.std.specs.Prelude.{◌≡◌, OnOk, OnErr, IfOk, string_bytes};
ghost use Rattle.std.specs.List.{AllByRecursion};
ghost use Rattle.std.specs.FinMap as map;
ghost use Rattle.index_format.specs.Map.{IsKey, IsText, with_value};

use crate::lists::add_value;
use crate::node::KeyEntry;
use km_names::Blob;
use std::alloc::{AllocError, Global};
use std::collections::BTreeMap;
use std::marker::Model;

/// A value of a key.
#[derive(Drop)]
pub(crate) struct StoredValue {
    pub(crate) priority: u32,
    pub(crate) text: Blob,
}

/// A map from keys to values, each with a priority and a text. The values of a key are ordered by
/// rising priority. Values of one priority are in the order they were added in.
#[derive(Drop)]
pub struct KeyMap {
    alloc: Global,
    // Strings are compared many bytes at a time, and slices byte by byte.
    lists: BTreeMap<String, Vec<StoredValue>>,
}

impl Model for KeyMap {
    ghost use Rattle.index_format.specs.Map.{KeyValues, key_values_code};

    ghost Value = { KeyValues };

    ghost coded = { key_values_code };

    ghost use Rattle.index_write.specs.Lists.{map_of, AreStorable};

    ghost view = { λ m. map_of m.lists.entries };

    ghost invariant = { λ m. AreStorable m.lists.entries };
}

/// Returns a key as a string. Its bytes are of ASCII.
fn key_text(key: Vec<u8>) -> String
    requires { IsKey key.items }
    ensures { string_bytes result ≡ key.items }
{
    String::from_utf8(key).unwrap()
}

impl KeyMap {
    ghost use Rattle.index_format.specs.Tree.{Rises};
    ghost use Rattle.index_write.specs.Lists.{IsStorableEntry};
    ghost use Rattle.index_write.specs.Groups.{entries_shown};

    /// Returns the map without keys. It takes no memory.
    pub fn new(alloc: Global) -> KeyMap
        ensures { result ≡ map.empty }
    {
        KeyMap {
            alloc,
            lists: BTreeMap::new(alloc),
        }
    }

    /// Adds a value to a key. It goes after the last value of the key whose priority isn't greater.
    /// After a refusal the map is as before.
    pub fn add(&mut self, key: &[u8], priority: u32, text: &[u8]) -> Result<(), AllocError>
        requires key { IsKey key.now }
        requires text { IsText text.now }
        ensures ok { OnOk result (self.new ≡ with_value self.old key.now (priority, text.now)) }
        ensures err { OnErr result (self.new ≡ self.old) }
    {
        self.add_owned(Vec::from_slice(self.alloc, key)?, priority, text)
    }

    /// Adds a value to a key as [`KeyMap::add`] does. It takes the key over, so it doesn't copy it.
    pub fn add_owned(&mut self, key: Vec<u8>, priority: u32, text: &[u8]) -> Result<(), AllocError>
        requires key { IsKey key.items }
        requires text { IsText text.now }
        ensures ok { OnOk result (self.new ≡ with_value self.old key.items (priority, text.now)) }
        ensures err { OnErr result (self.new ≡ self.old) }
    {
        let value = StoredValue {
            priority,
            text: Blob::from_slice(self.alloc, text)?,
        };
        add_value(self.alloc, &mut self.lists, key_text(key), value)
    }

    /// Returns the keys in their order, each with its values.
    pub(crate) fn entries(&self, alloc: Global) -> Result<Vec<KeyEntry<'_>>, AllocError>
        ensures shown { IfOk result (λ v. entries_shown v.items ≡ map.entries self.now) }
        ensures rises { OnOk result (Rises (map.entries self.now)) }
        ensures sound { OnOk result (AllByRecursion IsStorableEntry (map.entries self.now)) }
    {
        let mut entries = Vec::with_capacity(alloc, self.lists.len())?;
        for (key, list) in &self.lists {
            entries.push(KeyEntry {
                key: key.as_bytes(),
                values: list.as_slice(),
            })?;
        }
        Ok(entries)
    }
}
