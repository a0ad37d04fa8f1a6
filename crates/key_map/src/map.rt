ghost use Rattle.std.specs.Prelude.{◌≡◌, [], cond, None, Some, OnErr, OnOk};
ghost use Rattle.std.specs.Map.{lookup};
ghost use Rattle.std.specs.Option.{option_copied};
ghost use Rattle.view_types.specs.Keys.{same_key};
ghost use Rattle.view_types.specs.declared.key.ViewKey.{ViewKey as KeyData};

use cell_core::Memory;
use std::alloc::Global;
use std::collections::BTreeMap;
use std::marker::Model;
use view_types::ViewKey;

/// Values under view keys.
#[derive(Debug, Drop)]
pub struct KeyMap<V> {
    entries: BTreeMap<ViewKey, V>,
}

impl<V> Model for KeyMap<V> {
    ghost use Rattle.std.specs.Prelude.{List};
    ghost use Rattle.view_types.specs.declared.key.ViewKey.{ViewKey};

    ghost Value = { List (ViewKey × V) };

    ghost view = { λ map. map.entries.entries };
}

impl<V> KeyMap<V> {
    /// The empty map. It takes no memory.
    pub fn new(alloc: Global) -> KeyMap<V>
        ensures { result ≡ [] }
    {
        KeyMap {
            entries: BTreeMap::new(alloc),
        }
    }

    /// The value under a key.
    #[tactic(auto, using(crate::proofs::ByKey::by_key))]
    pub fn get(&self, key: &ViewKey) -> Option<&V>
        ensures { option_copied result ≡ lookup (same_key key.now) self.now }
    {
        self.entries.get(key)
    }
}

impl<V: Drop> KeyMap<V> {
    /// Puts a value under a key, in place of the one there. After want of memory the map is as before, and the key
    /// and the value are gone.
    #[tactic(auto, using(crate::proofs::ByKey::by_key))]
    pub fn insert(&mut self, key: ViewKey, value: V) -> Result<(), Memory>
        ensures ok { (q : KeyData) → OnOk result (lookup (same_key q) self.new ≡ cond (same_key key q) (Some value) (lookup (same_key q) self.old)) }
        ensures err { OnErr result (self.new ≡ self.old) }
    {
        drop(self.entries.insert(key, value)?);
        Ok(())
    }

    /// Takes the value under a key out. It takes no memory.
    #[tactic(auto, using(crate::proofs::ByKey::by_key))]
    pub fn remove(&mut self, key: &ViewKey) -> Option<V>
        ensures taken { result ≡ lookup (same_key key.now) self.old }
        ensures rest { (q : KeyData) → lookup (same_key q) self.new ≡ cond (same_key key.now q) None (lookup (same_key q) self.old) }
    {
        self.entries.remove(key)
    }
}
