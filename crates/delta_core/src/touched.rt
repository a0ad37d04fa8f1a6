ghost use Rattle.std.specs.Prelude.{◌≡◌, [], length, map, OnOk, OnErr};
ghost use Rattle.delta_core.specs.DirtySets.{joined, with_touched, without};

use cell_core::{Copies, Memory};
use std::alloc::Global;
use std::collections::BTreeMap;
use std::marker::Model;
use view_types::ViewKey;

type Entries = BTreeMap<ViewKey, Touch>;

/// What is known of a key that a step touched.
#[derive(Clone, Copy, Debug, Drop, PartialEq, Eq)]
pub struct Touch {
    /// Whether the key was shown before the step.
    pub was_shown: bool,
}

/// The keys that a step touched, each beside what is known of it. They ascend by the order of keys, and none
/// stands twice.
#[derive(Debug, Drop)]
pub struct TouchedKeys {
    entries: Entries,
}

impl Model for TouchedKeys {
    ghost use Rattle.std.specs.Prelude.{List};
    ghost use Rattle.view_types.specs.declared.key.ViewKey.{ViewKey};
    ghost use Rattle.delta_core.specs.declared.touched.Touch.{Touch};

    ghost Value = { List (ViewKey × Touch) };

    ghost view = { λ t. t.entries.entries };
}

impl TouchedKeys {
    pub fn new(alloc: Global) -> TouchedKeys
        ensures { result ≡ [] }
    {
        TouchedKeys {
            entries: Entries::new(alloc),
        }
    }

    /// Adds a key, and what is known of it. A key that is there stays as it is. Want of memory is the only
    /// refusal, and then nothing changed.
    pub fn add(&mut self, key: ViewKey, touch: Touch) -> Result<(), Memory>
        ensures ok { OnOk result (self.new ≡ with_touched self.old (key, touch)) }
        ensures err { OnErr result (self.new ≡ self.old) }
    {
        insert_new(&mut self.entries, key, touch)
    }

    /// The keys, ascending.
    pub fn entries(&self) -> &BTreeMap<ViewKey, Touch>
        ensures { result.now.entries ≡ self.now }
    {
        &self.entries
    }

    /// Adds the keys of a further step, in the time of a look-up for each of them. Want of memory is the only
    /// refusal, and then nothing changed: what was added by then is taken out again.
    pub(crate) fn join(&mut self, alloc: Global, more: &TouchedKeys) -> Result<(), Memory>
        ensures ok { OnOk result (self.new ≡ joined self.old more.now) }
        ensures err { OnErr result (self.new ≡ self.old) }
    {
        let mut added = Vec::new(alloc);
        let all = add_all(alloc, &mut self.entries, &mut added, &more.entries);
        if all.is_err() {
            take_out(&mut self.entries, added);
        }
        all
    }

    pub(crate) fn len(&self) -> usize
        ensures { result ≡ length self.now }
    {
        self.entries.len()
    }

    /// Forgets all keys.
    pub(crate) fn clear(&mut self)
        ensures { self.new ≡ [] }
    {
        self.entries.clear();
    }
}

/// What a step touched in a view.
#[derive(Debug, Drop)]
pub struct Touched {
    pub keys: TouchedKeys,
    /// Whether the header changed.
    pub header: bool,
}

/// Puts a key in its place, with what is known of it. A key that is there stays as it is.
fn insert_new(keys: &mut Entries, key: ViewKey, touch: Touch) -> Result<(), Memory>
    ensures ok { OnOk result (keys.new.entries ≡ with_touched keys.old.entries (key, touch)) }
    ensures err { OnErr result (keys.new.entries ≡ keys.old.entries) }
{
    // The keys ascend, as `len` says: so one that is there isn't looked for in vain.
    let _ascending = keys.len();
    if !keys.contains_key(&key) {
        drop(keys.insert(key, touch)?);
    }
    Ok(())
}

/// Adds the keys of a further step until memory is wanted, and notes those that weren't there.
fn add_all<'m>(
    alloc: Global,
    keys: &mut Entries,
    added: &mut Vec<&'m ViewKey>,
    more: &'m Entries,
) -> Result<(), Memory>
    ensures ok { OnOk result (keys.new.entries ≡ joined keys.old.entries more.now.entries) }
    ensures added { without (map (λ k. k.now) added.new.items) keys.new.entries
        ≡ without (map (λ k. k.now) added.old.items) keys.old.entries }
{
    for (key, touch) in more {
        add_one(alloc, keys, added, key, *touch)?;
    }
    Ok(())
}

/// Adds a key, and notes it if it wasn't there.
fn add_one<'m>(
    alloc: Global,
    keys: &mut Entries,
    added: &mut Vec<&'m ViewKey>,
    key: &'m ViewKey,
    touch: Touch,
) -> Result<(), Memory>
    ensures ok { OnOk result (keys.new.entries ≡ with_touched keys.old.entries (key.now, touch)) }
    ensures added { without (map (λ k. k.now) added.new.items) keys.new.entries
        ≡ without (map (λ k. k.now) added.old.items) keys.old.entries }
{
    // The keys ascend, as `len` says: so one that is there isn't looked for in vain.
    let _ascending = keys.len();
    if keys.contains_key(key) {
        return Ok(());
    }
    added.push(key)?;
    drop(keys.insert(key.copy(alloc)?, touch)?);
    Ok(())
}

/// Takes keys out, the last first.
fn take_out(keys: &mut Entries, mut added: Vec<&ViewKey>)
    ensures { keys.new.entries ≡ without (map (λ k. k.now) added.entry.items) keys.old.entries }
{
    while let Some(key) = added.pop() {
        drop(keys.remove(key));
    }
}
