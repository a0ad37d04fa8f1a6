ghost use Rattle.std.specs.Prelude.{◌≡◌, List, [], Bool, IfOk, OnErr, OnOk, false};
ghost use Rattle.cell_core.specs.RawViews.{raw_view};
ghost use Rattle.view_types.specs.declared.key.ViewKey.{ViewKey as KeyData};
ghost use Rattle.delta_core.specs.DirtySets.{dirty_of};
ghost use Rattle.delta_core.specs.declared.touched.Touch.{Touch};
ghost use Rattle.plain_kept.specs.Plans.{IsViewPlan};
ghost use Rattle.hub_spec.specs.Giving.{IsOfViews};
ghost use Rattle.hub_spec.specs.Plans.{plan_asked};
ghost use Rattle.hub_views.specs.Changing.{AnswersChange, HasOpening, IsGroupChecked, IsReplanned, deepened, effect_of, opened_to, replanned};
ghost use Rattle.hub_views.specs.Live.{fresh_live, live_data, live_take_answer, rebased_live};
ghost use Rattle.hub_views.specs.Refreshing.{IsBrought};

use crate::change::Change;
use crate::groups::{opening_after, reopened};
use crate::plans::plan_asked;
use crate::refused;
use crate::showing::show_all;
use cell_core::{Copies, Memory, Path, Raw, Steps};
use delta_core::{DirtySet, Mark, ShownNow, Touched, TouchedKeys};
use frame_types::{Body, Refusal};
use live_rows::LiveRows;
use plan_types::Plan;
use row_batch::RowChange;
use std::alloc::Global;
use std::sync::ledger::Ledger;
use table_core::Table;
use view_kept::KeptView;
use view_shape::OpenState;
use view_types::ViewKey;

/// What a view shows, and what was touched since its base.
#[derive(Drop)]
pub struct LiveView {
    /// The most keys that may be touched since its base before all that it shows is sent anew.
    pub bound: u64,
    /// How many edits of its plan or its opening were answered.
    pub edit: u64,
    /// The rows that it shows.
    pub rows: LiveRows,
    /// Which of its groups are open.
    pub opening: OpenState,
    /// The mark of its last opening, delta or resynchronisation.
    pub base: Mark,
    /// The keys that were touched since then, as far as they are known.
    pub dirty: DirtySet,
}

impl LiveView {
    /// A view whose base is this mark.
    pub fn new(
        alloc: Global,
        rows: LiveRows,
        opening: OpenState,
        base: Mark,
        bound: u64,
    ) -> LiveView
        ensures { result ≡ fresh_live bound base rows opening }
    {
        LiveView {
            bound,
            edit: base.edit,
            rows,
            opening,
            base,
            dirty: DirtySet::new(alloc, bound),
        }
    }

    /// The delta from its base to a mark, or all that it shows, where more keys were touched than the bound.
    pub fn take_answer(&self, alloc: Global, view: u64, mark: Mark) -> Result<Body, Memory>
        ensures value { (keys : List (KeyData × Touch)) (header : Bool) → self.now.dirty ≡ dirty_of self.now.bound keys header
            → IfOk result (λ answer. answer ≡ live_take_answer (live_data self.now) keys header view mark) }
        ensures about { IfOk result (IsOfViews mark.version) }
    {
        if self.dirty.is_over() {
            return Ok(Body::Resync {
                bound: self.bound,
                edit: mark.edit,
                shown: show_all(alloc, &self.rows)?,
                view,
            });
        }
        let delta = self.dirty.make_delta(alloc, &self.rows, self.base, mark)?;
        Ok(Body::Delta { delta, view })
    }

    /// Makes a mark its base.
    pub fn rebase(&mut self, mark: Mark)
        ensures { self.new ≡ rebased_live mark self.old }
    {
        self.base = mark;
        self.dirty.clear();
    }

    /// Brings the view to the table's rows, to which the changes led, and notes what that touched. After want of memory
    /// nothing is said of the view.
    pub fn refresh<L: Ledger>(
        &mut self,
        alloc: Global,
        table: &Table,
        changes: &[RowChange],
        steps: &mut Steps<L>,
    ) -> Result<(), Memory>
        ensures { OnOk result (IsBrought changes.now table.now self.old self.new) }
    {
        let mut touched = no_touched(alloc);
        self.rows.apply(alloc, table, changes, &mut touched, steps)?;
        self.dirty.join(alloc, &touched)?;
        Ok(())
    }

    /// Makes a change of it for a table's rows, notes what that touched, and answers how many edits there were by then.
    /// After a refusal the view is as before. `steps` counts the visits of rows.
    pub fn change<L: Ledger>(
        &mut self,
        alloc: Global,
        change: &Change,
        table: &Table,
        steps: &mut Steps<L>,
    ) -> Result<u64, Refusal>
        ensures { AnswersChange (effect_of table.now.schema change.now) table.now self.old self.new result }
    {
        match change {
            Change::Plan(plan) => self.edit(alloc, plan, table, steps),
            Change::Depth(depth) => self.set_depth(alloc, *depth, table, steps),
            Change::Expand(path) => self.set_open(alloc, path, true, table, steps),
            Change::Collapse(path) => self.set_open(alloc, path, false, table, steps),
        }
    }

    /// Changes its plan to the one that a value stands for.
    fn edit<L: Ledger>(
        &mut self,
        alloc: Global,
        plan: &Raw,
        table: &Table,
        steps: &mut Steps<L>,
    ) -> Result<u64, Refusal>
        ensures { AnswersChange (replanned table.now.schema.columns (plan_asked table.now.schema (raw_view plan.now))) table.now self.old self.new result }
    {
        let plan = plan_asked(alloc, table.schema(), plan)??;
        self.replan(alloc, plan, table, steps)?;
        Ok(self.edit)
    }

    /// Opens all groups whose paths are shorter than a depth, and closes the others.
    fn set_depth<L: Ledger>(
        &mut self,
        alloc: Global,
        depth: u64,
        table: &Table,
        steps: &mut Steps<L>,
    ) -> Result<u64, Refusal>
        ensures { AnswersChange (deepened depth) table.now self.old self.new result }
    {
        let mut opening = OpenState::new(alloc, 0);
        opening.set_depth(depth);
        self.reopen(alloc, opening, table, steps)?;
        Ok(self.edit)
    }

    /// Opens or closes a group that is shown.
    fn set_open<L: Ledger>(
        &mut self,
        alloc: Global,
        path: &Path,
        opened: bool,
        table: &Table,
        steps: &mut Steps<L>,
    ) -> Result<u64, Refusal>
        ensures { AnswersChange (opened_to path.now opened) table.now self.old self.new result }
    {
        check_group(alloc, &self.rows, path)?;
        let opening = reopened(alloc, &self.opening, path, opened)?;
        self.reopen(alloc, opening, table, steps)?;
        Ok(self.edit)
    }

    /// Shows the table's rows by another plan. The new rows are built beside the old ones, which go once all that was
    /// touched is noted: after want of memory the view is as before.
    fn replan<L: Ledger>(
        &mut self,
        alloc: Global,
        plan: Plan,
        table: &Table,
        steps: &mut Steps<L>,
    ) -> Result<(), Memory>
        requires { IsViewPlan table.now.schema.columns plan }
        ensures ok { OnOk result (IsReplanned plan table.now self.old self.new) }
        ensures err { OnErr result (self.new ≡ self.old) }
    {
        let mut touched = no_touched(alloc);
        let opening = opening_after(
            alloc,
            table.schema(),
            self.rows.plan(),
            &plan,
            &self.opening,
        )?;
        let rows = self
            .rows
            .reshape(alloc, plan, &opening, table, &mut touched, steps)?;
        self.dirty.join(alloc, &touched)?;
        self.rows = rows;
        self.opening = opening;
        self.edit = self.edit.saturating_add(1);
        Ok(())
    }

    /// Shows the same rows by another opening of their groups, in the same way.
    fn reopen<L: Ledger>(
        &mut self,
        alloc: Global,
        opening: OpenState,
        table: &Table,
        steps: &mut Steps<L>,
    ) -> Result<(), Memory>
        ensures ok { OnOk result (HasOpening opening table.now self.old self.new) }
        ensures err { OnErr result (self.new ≡ self.old) }
    {
        let mut touched = no_touched(alloc);
        let rows = self
            .rows
            .reopened(alloc, &opening, table, &mut touched, steps)?;
        self.dirty.join(alloc, &touched)?;
        if let Some(rows) = rows {
            self.rows = rows;
        }
        self.opening = opening;
        self.edit = self.edit.saturating_add(1);
        Ok(())
    }
}

fn no_touched(alloc: Global) -> Touched
    ensures keys { result.keys ≡ [] }
    ensures header { result.header ≡ false }
{
    Touched {
        keys: TouchedKeys::new(alloc),
        header: false,
    }
}

/// Whether a group is shown, and has groups below it.
fn check_group(alloc: Global, rows: &LiveRows, path: &Path) -> Result<(), Refusal>
    ensures { IsGroupChecked path.now rows.now result }
{
    let key = ViewKey::Group(path.copy(alloc)?);
    if rows.position(&key).is_none() {
        return Err(refused::no_row());
    }
    if path.len() == rows.plan().group_by.len() {
        return Err(refused::not_a_group());
    }
    Ok(())
}
