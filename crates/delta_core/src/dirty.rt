ghost use Rattle.std.specs.Prelude.{◌≡◌, nat_lt, [], List, Bool, true, false, not, ◌||◌, length, IfOk, OnOk, OnErr};
ghost use Rattle.view_types.specs.Rows.{AreShownRows};
ghost use Rattle.view_types.specs.declared.key.ViewKey.{ViewKey};
ghost use Rattle.view_types.specs.declared.shown.Shown.{Shown};
ghost use Rattle.delta_core.specs.Deltas.{delta_of};
ghost use Rattle.plain_data.specs.Lists.{is_empty};
ghost use Rattle.delta_core.specs.DirtySets.{dirty_of, joined};
ghost use Rattle.delta_core.specs.Rows.{position_of, row_at};
ghost use Rattle.delta_core.specs.declared.touched.Touch.{Touch};

use crate::delta::{Delta, Mark};
use crate::making::{puts_of, removed_of};
use crate::touched::{Touched, TouchedKeys};
use cell_core::Memory;
use std::alloc::Global;
use std::marker::Model;
use view_types::{Header, ShownRow, ViewKey};

/// What is shown now, asked by key.
pub trait ShownNow {
    ghost shown: { Self → Shown };

    /// The position of the row with that key, counted from 0, and none exactly where no row has it.
    fn position(&self, key: &ViewKey) -> Option<usize>
        ensures position { result ≡ position_of key.now (shown self.now).rows }
        ensures rows { AreShownRows (shown self.now).rows };

    /// A copy of the row with that key, and none exactly where no row has it.
    fn row(&self, alloc: Global, key: &ViewKey) -> Result<Option<ShownRow>, Memory>
        ensures { IfOk result (λ row. row ≡ row_at key.now (shown self.now).rows) };

    /// A copy of the header.
    fn header(&self, alloc: Global) -> Result<Header, Memory>
        ensures { IfOk result (λ header. header ≡ (shown self.now).header) };
}

/// The keys that steps touched since it was made or cleared, and whether one touched the header. Once the
/// keys are more than the bound it knows only that.
///
/// Contracts see it as `dirty_of` of the union of all keys that were joined, each beside what is known of it from
/// the step that touched it first.
#[derive(Debug, Drop)]
pub struct DirtySet {
    bound: u64,
    keys: TouchedKeys,
    over: bool,
    header: bool,
}

impl Model for DirtySet {
    ghost use Rattle.delta_core.specs.DirtySets.{DirtyData};

    ghost Value = { DirtyData };

    ghost view = { λ d. record { bound = d.bound; keys = d.keys; over = d.over; header = d.header } };
}

impl DirtySet {
    /// A set that nothing was joined to. It takes no memory.
    pub fn new(alloc: Global, bound: u64) -> DirtySet
        ensures { result ≡ dirty_of bound [] false }
    {
        DirtySet {
            bound,
            keys: TouchedKeys::new(alloc),
            over: false,
            header: false,
        }
    }

    /// Joins what a step touched, in the time of a look-up for each key that it touched. After want of memory
    /// the set is as before.
    pub fn join(&mut self, alloc: Global, touched: &Touched) -> Result<(), Memory>
        ensures ok { (keys : List (ViewKey × Touch)) (header : Bool) → self.old ≡ dirty_of self.old.bound keys header
            → OnOk result (self.new ≡ dirty_of self.old.bound (joined keys touched.now.keys) (header || touched.now.header)) }
        ensures err { OnErr result (self.new ≡ self.old) }
    {
        self.over = join_keys(alloc, self.bound, self.over, &mut self.keys, &touched.keys)?;
        self.header |= touched.header;
        Ok(())
    }

    /// Whether more keys than the bound were joined.
    pub fn is_over(&self) -> bool
        ensures over { result ≡ self.now.over }
        ensures count { (keys : List (ViewKey × Touch)) (header : Bool) → self.now ≡ dirty_of self.now.bound keys header
            → result ≡ nat_lt self.now.bound (length keys) }
    {
        self.over
    }

    /// Whether a key was joined, or a step that touched the header.
    pub fn is_dirty(&self) -> bool
        ensures known { result ≡ (self.now.over || self.now.header || not (is_empty self.now.keys)) }
        ensures joined { (keys : List (ViewKey × Touch)) (header : Bool) → self.now ≡ dirty_of self.now.bound keys header
            → result ≡ (not (is_empty keys) || header) }
    {
        self.over || self.header || self.keys.len() > 0
    }

    /// Forgets all that was joined.
    pub fn clear(&mut self)
        ensures { self.new ≡ dirty_of self.old.bound [] false }
    {
        self.keys.clear();
        self.over = false;
        self.header = false;
    }

    /// The delta from one mark to another of a view of which all touched keys were joined between them.
    ///
    /// Want of memory is the only refusal.
    pub fn make_delta<V: ShownNow>(
        &self,
        alloc: Global,
        view: &V,
        from: Mark,
        to: Mark,
    ) -> Result<Delta, Memory>
        requires { self.now.over ≡ false }
        ensures { IfOk result (λ delta. delta ≡ delta_of self.now.keys self.now.header (V.shown view.now) from to) }
    {
        let removed = removed_of(alloc, self.keys.entries(), view)?;
        let puts = puts_of(alloc, self.keys.entries(), view)?;
        let header = if self.header {
            Some(view.header(alloc)?)
        } else {
            None
        };
        Ok(Delta {
            from,
            to,
            removed,
            puts,
            header,
        })
    }
}

/// Adds the keys that a step touched to those that a set knows, and forgets them all once they are more than the
/// bound. The answer is whether they are.
fn join_keys(
    alloc: Global,
    bound: u64,
    over: bool,
    keys: &mut TouchedKeys,
    touched: &TouchedKeys,
) -> Result<bool, Memory>
    ensures keys { (all : List (ViewKey × Touch)) → over ≡ (dirty_of bound all false).over
        → keys.old ≡ (dirty_of bound all false).keys
        → OnOk result (keys.new ≡ (dirty_of bound (joined all touched.now) false).keys) }
    ensures over { (all : List (ViewKey × Touch)) → over ≡ (dirty_of bound all false).over
        → keys.old ≡ (dirty_of bound all false).keys
        → IfOk result (λ past. past ≡ (dirty_of bound (joined all touched.now) false).over) }
    ensures err { OnErr result (keys.new ≡ keys.old) }
{
    if over {
        return Ok(true);
    }
    keys.join(alloc, touched)?;
    if keys.len() as u64 > bound {
        keys.clear();
        return Ok(true);
    }
    Ok(false)
}
