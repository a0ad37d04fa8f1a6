ghost use Rattle.std.specs.Prelude.{◌≡◌, false};
ghost use Rattle.hub_views.specs.Changing.{AnswersChangeOf, effect_of};
ghost use Rattle.hub_views.specs.Live.{rebased, rebased_at};
ghost use Rattle.hub_views.specs.Refreshing.{IsRefreshed, is_loss};

use crate::change::Change;
use crate::live::LiveView;
use crate::refused;
use cell_core::Steps;
use delta_core::Mark;
use frame_types::Refusal;
use row_batch::RowChange;
use std::alloc::Global;
use std::sync::ledger::Ledger;
use table_core::Table;

/// A view that a session holds.
#[derive(Drop)]
pub struct View {
    pub session: u32,
    /// Its number among the views that the session opened, counted from 0.
    pub number: u64,
    pub state: ViewState,
}

/// Whether a view can still be asked for what it shows.
#[derive(Drop)]
pub enum ViewState {
    Live(LiveView),
    /// An update of it found no memory, at that version.
    Lost(u64),
}

impl View {
    /// Makes a mark its base, if it is the one that the session holds under a number and can still be asked.
    pub fn rebase_at(&mut self, session: u32, number: u64, mark: Mark)
        ensures { self.new ≡ rebased_at session number mark self.old }
    {
        if number == self.number && session == self.session {
            self.state.rebase(mark);
        }
    }

    /// Makes a change of it, where it can be asked, and answers how many edits there were by then. After a refusal the view
    /// is as before.
    pub fn change<L: Ledger>(
        &mut self,
        alloc: Global,
        change: &Change,
        table: &Table,
        steps: &mut Steps<L>,
    ) -> Result<u64, Refusal>
        ensures { AnswersChangeOf (effect_of table.now.schema change.now) table.now self.old self.new result }
    {
        match &mut self.state {
            ViewState::Live(live) => live.change(alloc, change, table, steps),
            ViewState::Lost(version) => Err(refused::view_lost(*version)),
        }
    }

    /// Brings the view to the table's rows, to which the changes led. Where that finds no memory the view is lost at
    /// this version, and the answer is true; a view that was lost before stays so.
    pub fn refresh<L: Ledger>(
        &mut self,
        alloc: Global,
        table: &Table,
        changes: &[RowChange],
        version: u64,
        steps: &mut Steps<L>,
    ) -> bool
        ensures refreshed { IsRefreshed changes.now table.now version self.old self.new }
        ensures lost { result ≡ is_loss self.old.state self.new.state }
    {
        let ViewState::Live(live) = &mut self.state else {
            return false;
        };
        if live.refresh(alloc, table, changes, steps).is_ok() {
            return false;
        }
        self.state = ViewState::Lost(version);
        true
    }
}

impl ViewState {
    fn rebase(&mut self, mark: Mark)
        ensures { self.new ≡ rebased mark self.old }
    {
        if let ViewState::Live(live) = self {
            live.rebase(mark);
        }
    }
}
