ghost use Rattle.std.specs.Prelude.{◌≡◌, ◌+◌, ◌<◌, ◌≤◌, [], ◌∷◌, ◌++◌, length, reverse, IfOk};
ghost use Rattle.std.specs.Vec.{vec_len, vec_capacity};
ghost use Rattle.delta_core.specs.Gaps.{put_at};

use cell_core::Memory;
use std::alloc::Global;
use std::marker::Model;
use view_types::ShownRow;

/// A list of rows with a gap, at which rows come in. To move the gap takes the time of the rows that it passes.
/// The list holds no more rows than it was made for, and takes no memory once it is made.
#[derive(Drop)]
pub(crate) struct GapBuffer {
    /// The rows before the gap.
    front: Vec<ShownRow>,
    /// The rows behind the gap, the last row first.
    back: Vec<ShownRow>,
    capacity: usize,
}

impl Model for GapBuffer {
    ghost use Rattle.std.specs.Prelude.{◌+◌, ◌≤◌, ◌++◌, reverse};
    ghost use Rattle.std.specs.Vec.{vec_len, vec_capacity};
    ghost use Rattle.delta_core.specs.Gaps.{GapRows};

    ghost Value = { GapRows };

    ghost view = { λ b. record { rows = b.front.items ++ reverse b.back.items; capacity = b.capacity } };

    ghost invariant = { λ b. (vec_len b.front + vec_len b.back ≤ b.capacity)
        × (b.capacity ≤ vec_capacity b.front) × (b.capacity ≤ vec_capacity b.back) };
}

impl GapBuffer {
    /// No rows, with room for as many as `capacity`. Want of memory is the only refusal.
    pub fn with_capacity(alloc: Global, capacity: usize) -> Result<GapBuffer, Memory>
        ensures { IfOk result (λ b. b ≡ record { rows = []; capacity = capacity }) }
    {
        Ok(GapBuffer {
            front: Vec::with_capacity(alloc, capacity)?,
            back: Vec::with_capacity(alloc, capacity)?,
            capacity,
        })
    }

    pub fn len(&self) -> usize
        ensures { result ≡ length self.now.rows }
    {
        self.front.len() + self.back.len()
    }

    /// Puts a row at a position, counted from 0, before the row that stands there.
    pub fn put(&mut self, position: usize, row: ShownRow)
        requires within { position ≤ length self.old.rows }
        requires room { length self.old.rows < self.old.capacity }
        ensures { self.new ≡ put_at self.old position row }
    {
        open_at(&mut self.front, &mut self.back, position);
        self.front.push_reserved(row);
    }

    /// The rows, with no copy made.
    pub fn into_rows(self) -> Vec<ShownRow>
        ensures { result.items ≡ self.rows }
    {
        let GapBuffer {
            mut front,
            mut back,
            capacity: _,
        } = self;
        let all = front.len() + back.len();
        shift(&mut back, &mut front, all);
        front
    }
}

/// Moves the gap between rows to a position, counted from 0.
fn open_at(front: &mut Vec<ShownRow>, back: &mut Vec<ShownRow>, position: usize)
    requires within { position ≤ vec_len front.old + vec_len back.old }
    requires front_room { vec_len front.old + vec_len back.old ≤ vec_capacity front.old }
    requires back_room { vec_len front.old + vec_len back.old ≤ vec_capacity back.old }
    ensures rows { front.new.items ++ reverse back.new.items ≡ front.old.items ++ reverse back.old.items }
    ensures place { vec_len front.new ≡ position }
    ensures all { vec_len front.new + vec_len back.new ≡ vec_len front.old + vec_len back.old }
    ensures front_capacity { vec_capacity front.new ≡ vec_capacity front.old }
    ensures back_capacity { vec_capacity back.new ≡ vec_capacity back.old }
{
    let all = front.len() + back.len();
    shift(back, front, position);
    shift(front, back, all - position);
}

/// Moves rows over the gap, until there are at least as many as `size` on the other side.
fn shift(from: &mut Vec<ShownRow>, to: &mut Vec<ShownRow>, size: usize)
    requires enough { size ≤ vec_len from.old + vec_len to.old }
    requires room { size ≤ vec_capacity to.old }
    ensures rows { from.new.items ++ reverse to.new.items ≡ from.old.items ++ reverse to.old.items }
    ensures back { to.new.items ++ reverse from.new.items ≡ to.old.items ++ reverse from.old.items }
    ensures least { size ≤ vec_len to.new }
    ensures exact { vec_len to.old ≤ size → vec_len to.new ≡ size }
    ensures all { vec_len from.new + vec_len to.new ≡ vec_len from.old + vec_len to.old }
    ensures from_capacity { vec_capacity from.new ≡ vec_capacity from.old }
    ensures to_capacity { vec_capacity to.new ≡ vec_capacity to.old }
{
    while to.len() < size {
        let Some(row) = from.pop() else {
            return;
        };
        to.push_reserved(row);
    }
}
