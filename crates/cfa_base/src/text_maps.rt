// Maps from texts.
ghost use Rattle.std.specs.Prelude.{◌≡◌, OnOk, OnErr, option_copied};
ghost use Rattle.std.specs.FinMap as map;
ghost use Rattle.cfa_base.specs.TextMaps.{has_front, is_leaf, count_leaves};

use crate::{Name, NoMemory};
use std::alloc::Global;
use std::collections::BTreeMap;
use std::marker::Model;
use std::rc::RcStr;

/// A map from texts. Contracts see a finite map from the bytes of the texts. A look-up and a change cost a logarithm of
/// comparisons.
#[derive(Debug, Drop)]
pub struct TextMap<V> {
    rows: BTreeMap<RcStr, V>,
}

impl<V> Model for TextMap<V> {
    ghost use Rattle.std.specs.Coded.{coded_list, coded_ℕ};
    ghost use Rattle.std.specs.FinMap as map;
    ghost use Rattle.std.specs.Rc.{rc_str_bytes};
    ghost use Rattle.cfa_base.specs.TextMaps.{TextMap, text_map};

    ghost Value = { TextMap V };

    ghost coded = { map.code (coded_list coded_ℕ) V.code };

    ghost view = { λ m. text_map rc_str_bytes m.rows.entries };
}

impl<V> TextMap<V> {
    /// The empty map, without taking memory.
    pub fn new(alloc: Global) -> TextMap<V>
        ensures { result ≡ map.empty }
    {
        TextMap {
            rows: BTreeMap::new(alloc),
        }
    }

    /// The value at a text, without taking memory.
    pub fn get(&self, key: &str) -> Option<&V>
        ensures { option_copied result ≡ map.get self.now key.now }
    {
        self.rows.get(key)
    }

    /// Whether a value is at a text, without taking memory.
    pub fn contains(&self, key: &str) -> bool
        ensures { result ≡ map.contains_key self.now key.now }
    {
        self.rows.contains_key(key)
    }

    /// Puts a value at a text, in the place of the one that is there. After want of memory the map is as it was.
    pub fn insert(&mut self, key: Name, value: V) -> Result<(), NoMemory>
    where
        V: Drop,
        ensures ok { OnOk result (self.new ≡ map.insert self.old key value) }
        ensures err { OnErr result (self.new ≡ self.old) }
    {
        self.rows.insert(key.into_key(), value)?;
        Ok(())
    }

    /// Takes out what is at a text, without taking memory.
    pub fn remove(&mut self, key: &str)
    where
        V: Drop,
        ensures { self.new ≡ map.remove self.old key.now }
    {
        let _ = self.rows.remove(key);
    }

    /// Whether some text of the map begins with this one, without taking memory. The first text from there on tells,
    /// since such texts stand together.
    pub fn has_front(&self, front: &Name) -> bool
        ensures { result ≡ has_front self.now front.now }
    {
        match self.rows.range(front.as_key()..).next() {
            Some((key, _)) => key
                .as_str()
                .as_bytes()
                .starts_with(front.as_str().as_bytes()),
            None => false,
        }
    }

    /// How many texts of the map begin with this one and have no slash behind it, without taking memory. Only texts
    /// that begin so are visited.
    pub fn count_leaves(&self, front: &Name) -> u64
        ensures { result ≡ count_leaves self.now front.now }
    {
        let mut count = 0;
        for (key, _) in self.rows.range(front.as_key()..) {
            if !key
                .as_str()
                .as_bytes()
                .starts_with(front.as_str().as_bytes())
            {
                break;
            }
            if is_leaf(front.as_str(), key.as_str()) {
                count += 1;
            }
        }
        count
    }
}

// Whether a text begins with this one and has no slash behind it.
fn is_leaf(front: &str, text: &str) -> bool
    ensures { result ≡ is_leaf front.now text.now }
{
    match text.as_bytes().strip_prefix(front.as_bytes()) {
        Some(rest) => !rest.contains(&b'/'),
        None => false,
    }
}
