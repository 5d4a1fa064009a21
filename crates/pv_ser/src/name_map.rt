use pv_text::{Memory, Text};
use std::alloc::Global;
use std::collections::BTreeMap;
use std::marker::Model;

/// Names with what belongs to them, each name once, in the order of the names.
#[derive(Drop)]
pub struct NameMap<T> {
    inner: BTreeMap<Text, T>,
}

impl<T> Model for NameMap<T> {
    ghost use Rattle.std.specs.Prelude.{List, ℕ};
    ghost use Rattle.std.specs.Coded.{coded_list, coded×, coded_ℕ};

    ghost Value = { List (List ℕ × T) };

    ghost coded = { coded_list (coded× (coded_list coded_ℕ) T.code) };

    ghost view = { λ m. m.inner.entries };
}

impl<T: Drop> NameMap<T> {
    ghost use Rattle.std.specs.Prelude.{◌≡◌, [], OnOk, OnErr};
    ghost use Rattle.std.specs.Option.{option_copied};
    ghost use Rattle.std.specs.BTreeMap.{insert_entry};
    ghost use Rattle.pv_tree.specs.Merging.{name_cmp};

    /// No names.
    pub fn new(alloc: Global) -> NameMap<T>
        ensures { result ≡ [] }
    {
        NameMap {
            inner: BTreeMap::new(alloc),
        }
    }

    /// Puts a value under a name, in place of the one that is there.
    pub fn put(&mut self, name: Text, value: T) -> Result<(), Memory>
        ensures ok { OnOk result (self.new ≡ insert_entry name_cmp self.old name value) }
        ensures err { OnErr result (self.new ≡ self.old) }
    {
        self.inner.insert(name, value)?;
        Ok(())
    }
}

impl<T> NameMap<T> {
    ghost use Rattle.std.specs.Prelude.{◌≡◌, length};
    ghost use Rattle.std.specs.Option.{option_copied};
    ghost use Rattle.pv_ser.specs.Names.{value_under};

    /// How many names there are.
    pub fn len(&self) -> usize
        ensures { result ≡ length self.now }
    {
        self.inner.len()
    }

    /// What stands under a name, where it is there. The time grows with the logarithm of the number
    /// of names.
    pub fn get(&self, name: &Text) -> Option<&T>
        ensures { option_copied result ≡ value_under name.now self.now }
    {
        self.inner.get(name)
    }
}
