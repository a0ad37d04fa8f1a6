ghost use Rattle.std.specs.Prelude.{◌≡◌, ◌<◌, ◌^◌, ℕ, Bool, length, IfOk, OnErr, MatchResult};
ghost use Rattle.cell_core.specs.RawViews.{raw_view};
ghost use Rattle.frame_types.specs.Asks.{Ask};
ghost use Rattle.frame_types.specs.Asks as ask;
ghost use Rattle.frame_types.specs.Limits.{sessions};
ghost use Rattle.plain_kept.specs.Plans.{IsViewPlan};
ghost use Rattle.hub_spec.specs.Giving.{AfterEach, AnswersAfter, IsOfViews, body_in, with_step};
ghost use Rattle.hub_spec.specs.Ports as ports;
ghost use Rattle.hub_views.specs.Changing.{asked_by};
ghost use Rattle.hub_views.specs.Keeping.{HasNoViews, HoldsViews, IsOpened, asked_at};
ghost use Rattle.hub_views.specs.Refreshing.{AreLosses, AreSteps, HasRoom, applied_body};
ghost use Rattle.hub_views.specs.Tables.{HoldsTable};
ghost use Rattle.table_core.specs.Tables.{TableData};

use crate::change::Change;
use crate::groups::first_opening;
use crate::list::{count_views, drop_view, drop_views, find_view, place_of, rebase, refresh_each};
use crate::live::LiveView;
use crate::plans::plan_asked;
use crate::refused;
use crate::showing::{show_all, show_window};
use crate::view::{View, ViewState};
use cell_core::{Listed, Memory, Raw, Steps};
use delta_core::Mark;
use frame_types::{Body, Lost, Refusal, SESSIONS};
use live_rows::build;
use plan_types::Plan;
use row_batch::RowChange;
use std::alloc::Global;
use std::sync::ledger::Ledger;
use table_core::Table;
use view_kept::KeptView;

/// The most views that are held, over all sessions.
pub const MAX_VIEWS: usize = 16;

/// The views that sessions hold over one table.
#[derive(Drop)]
pub struct Views {
    alloc: Global,
    items: Vec<View>,
    /// How many views each session has opened.
    opened: [u64; SESSIONS],
}

/// Room for the names of the views that an update loses.
#[derive(Drop)]
pub struct LossRoom {
    names: Vec<(u32, u64)>,
}

impl Views {
    /// No views. It takes no memory.
    pub fn new(alloc: Global) -> Views
        ensures { (t : TableData) → AfterEach HasNoViews (HoldsViews result t) }
    {
        Views {
            alloc,
            items: Vec::new(alloc),
            opened: [0; SESSIONS],
        }
    }

    /// Opens a view of a table to which `version` batches were applied, and shows it. More than `bound` keys
    /// touched between two takes are answered by all that it shows. `steps` counts the visits of rows.
    pub fn open<L: Ledger>(
        &mut self,
        session: u32,
        plan: &Raw,
        bound: u64,
        table: &Table,
        version: u64,
        steps: &mut Steps<L>,
    ) -> Result<Body, Refusal>
        requires { session < sessions }
        ensures gives { AnswersAfter (λ past. HoldsViews self.old table.now past × HoldsTable table.now version past)
            session (ask.open_view (raw_view plan.now) bound) (body_in result) (HoldsViews self.new table.now) }
        ensures about { (at : ℕ) → IsOfViews at (body_in result) }
    {
        let plan = match plan_asked(self.alloc, table.schema(), plan) {
            Ok(Ok(plan)) => plan,
            Ok(Err(why)) => return Err(why),
            Err(_) => return Err(refused::memory()),
        };
        if self.items.len() >= MAX_VIEWS {
            return Err(refused::too_many_views());
        }
        match self.add(session, plan, bound, table, version, steps) {
            Ok(answer) => Ok(answer),
            Err(_) => Err(refused::memory()),
        }
    }

    /// Adds a view, and shows it. After want of memory nothing has changed.
    fn add<L: Ledger>(
        &mut self,
        session: u32,
        plan: Plan,
        bound: u64,
        table: &Table,
        version: u64,
        steps: &mut Steps<L>,
    ) -> Result<Body, Memory>
        requires session { session < sessions }
        requires fits { IsViewPlan table.now.schema.columns plan }
        ensures ok { AfterEach (HoldsViews self.old table.now) (λ past. HoldsTable table.now version past → length past < 2 ^ 53
            → IfOk result (λ answer. IsOpened past session plan bound answer (HoldsViews self.new table.now))) }
        ensures about { (at : ℕ) → IfOk result (IsOfViews at) }
        ensures err { AfterEach (HoldsViews self.old table.now) (λ past. OnErr result (HoldsViews self.new table.now past)) }
    {
        let opening = first_opening(self.alloc, &plan);
        let rows = build(self.alloc, plan, &opening, table, steps)?;
        let shown = show_all(self.alloc, &rows)?;
        let edit = 0;
        let live = LiveView::new(self.alloc, rows, opening, Mark { version, edit }, bound);
        let number = self.opened[session as usize];
        self.items.push(View {
            session,
            number,
            state: ViewState::Live(live),
        })?;
        self.opened[session as usize] = number.saturating_add(1);
        Ok(Body::Opened {
            edit,
            shown,
            view: number,
        })
    }

    /// Makes a change of a view, which keeps its base. `steps` counts the visits of rows.
    pub fn change<L: Ledger>(
        &mut self,
        session: u32,
        view: u64,
        change: &Change,
        table: &Table,
        steps: &mut Steps<L>,
    ) -> Result<Body, Refusal>
        ensures gives { (version : ℕ) → AnswersAfter (λ past. HoldsViews self.old table.now past × HoldsTable table.now version past)
            session (asked_by view change.now) (body_in result) (HoldsViews self.new table.now) }
        ensures about { (at : ℕ) → IsOfViews at (body_in result) }
    {
        let Some(place) = place_of(self.items.as_slice(), session, view) else {
            return Err(refused::no_view());
        };
        let edit = self.items[place].change(self.alloc, change, table, steps)?;
        Ok(Body::Edited { edit, view })
    }

    /// Tells what changed in a view since its base, or all that it shows, where more keys were touched than
    /// its bound. `version` is how many batches were applied. The view's base is then this step.
    pub fn take(&mut self, session: u32, view: u64, version: u64) -> Result<Body, Refusal>
        ensures gives { (t : TableData) (wait : Bool) → AnswersAfter (λ past. HoldsViews self.old t past × (version ≡ ports.version past))
            session (ask.take view wait) (body_in result) (HoldsViews self.new t) }
        ensures about { IsOfViews version (body_in result) }
    {
        let live = self.live(session, view)?;
        let mark = Mark {
            version,
            edit: live.edit,
        };
        let Ok(answer) = live.take_answer(self.alloc, view, mark) else {
            return Err(refused::memory());
        };
        rebase(&mut self.items, session, view, mark);
        Ok(answer)
    }

    /// Shows the rows of a view at positions `from` up to and without `to`.
    pub fn rows(&self, session: u32, view: u64, from: u64, to: u64) -> Result<Body, Refusal>
        ensures gives { (t : TableData) → AnswersAfter (HoldsViews self.now t) session (ask.rows view from to) (body_in result) (HoldsViews self.now t) }
        ensures about { (at : ℕ) → IsOfViews at (body_in result) }
    {
        let live = self.live(session, view)?;
        if to < from {
            return Err(refused::bad_window(from, to));
        }
        let Ok(shown) = show_window(self.alloc, &live.rows, from, to) else {
            return Err(refused::memory());
        };
        Ok(Body::Rows {
            edit: live.edit,
            from,
            shown,
            size: live.rows.len() as u64,
            view,
        })
    }

    /// Closes a view.
    pub fn close(&mut self, session: u32, view: u64) -> Result<Body, Refusal>
        ensures gives { (t : TableData) → AnswersAfter (HoldsViews self.old t) session (ask.close view) (body_in result) (HoldsViews self.new t) }
        ensures about { (at : ℕ) → IsOfViews at (body_in result) }
    {
        let Some(_held) = find_view(self.items.as_slice(), session, view) else {
            return Err(refused::no_view());
        };
        drop_view(&mut self.items, session, view);
        Ok(Body::Closed { view })
    }

    /// Closes all views that a session holds.
    pub fn leave(&mut self, session: u32) -> Body
        ensures gives { (t : TableData) → AnswersAfter (HoldsViews self.old t) session ask.leave result (HoldsViews self.new t) }
        ensures about { (at : ℕ) → IsOfViews at result }
    {
        let closed = count_views(self.items.as_slice(), session) as u64;
        drop_views(&mut self.items, session);
        Body::Left { closed }
    }

    /// Room for the names of all views.
    pub fn loss_room(&self) -> Result<LossRoom, Memory>
        ensures { IfOk result (λ room. HasRoom room self.now) }
    {
        let names = Vec::with_capacity(self.alloc, self.items.len())?;
        Ok(LossRoom { names })
    }

    /// Brings each view to the table's rows once a batch more was applied, its `version`th; the changes led to
    /// them. The answer names the views of which that found no memory, by session and then by number. They are lost
    /// from then on. `steps` counts the visits of rows.
    pub fn refresh<L: Ledger>(
        &mut self,
        table: &Table,
        changes: &[RowChange],
        version: u64,
        room: LossRoom,
        steps: &mut Steps<L>,
    ) -> Lost
        requires { HasRoom room self.old }
        ensures lost { (was : TableData) → AfterEach (HoldsViews self.old was) (λ past. AreLosses past result) }
        ensures holds { (was : TableData) → AreSteps was changes.now table.now → AfterEach (HoldsViews self.old was) (λ past. (before session n at port seq : ℕ) (request : Ask)
            → HoldsTable was before past
            → HoldsTable table.now version (with_step session request n at (applied_body port seq result) past)
            → HoldsViews self.new table.now (with_step session request n at (applied_body port seq result) past)) }
    {
        let mut names = room.names;
        refresh_each(
            self.alloc,
            table,
            changes,
            version,
            &mut self.items,
            &mut names,
            steps,
        );
        names.sort_unstable();
        Listed::from_vec(names)
    }

    /// The view that the session holds under a number, where it can be asked.
    fn live(&self, session: u32, number: u64) -> Result<&LiveView, Refusal>
        ensures { MatchResult result
            (λ live. asked_at session number self.now.items.items ≡ Ok live.now)
            (λ why. asked_at session number self.now.items.items ≡ Err why) }
    {
        let Some(view) = find_view(self.items.as_slice(), session, number) else {
            return Err(refused::no_view());
        };
        match &view.state {
            ViewState::Live(live) => Ok(live),
            ViewState::Lost(version) => Err(refused::view_lost(*version)),
        }
    }
}
