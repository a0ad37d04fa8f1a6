ghost use Rattle.std.specs.Prelude.{◌≡◌, ◌+◌, ◌<◌, ◌≤◌, ◌^◌, ◌++◌, length, filter, fold as fold_list, not, IfOk, IfErr};
ghost use Rattle.delta_core.specs.Folding.{fold_fault, folded, past_end, put_in, RefusesFold};
ghost use Rattle.delta_core.specs.KeySets.{is_among};
ghost use Rattle.delta_core.specs.Preparing.{others, IsPrepared};

use crate::checking::{KeySet, check_delta, dropped_keys, has};
use crate::delta::{Delta, Mark, Put};
use crate::gap::GapBuffer;
use cell_core::{Copies, Listed, Memory};
use std::alloc::Global;
use std::fmt;
use view_types::{Header, Shown, ShownRow, ShownRows, ViewKey};

/// What a client holds of a view: what was shown at a mark.
#[derive(Debug, Drop)]
pub struct Held {
    pub shown: Shown,
    pub mark: Mark,
}

/// Why a delta can't be folded.
#[derive(Debug, Drop)]
pub enum FoldRefused {
    /// The delta begins at another mark than the held one.
    Gap { have: Mark, got: Mark },
    /// The first removed key that isn't held.
    Absent(ViewKey),
    /// The first position past the end of the list as it stands then.
    Past(u64),
    Memory,
}

impl fmt::Display for FoldRefused {
    fn fmt<W: fmt::Write>(&self, f: &mut fmt::Formatter<W>) -> fmt::Result {
        match self {
            FoldRefused::Gap { have, got } => write!(
                f,
                "{have} is held, and the delta begins at {got}"
            ),
            FoldRefused::Absent(key) => write!(f, "a removed key isn't held: {key:?}"),
            FoldRefused::Past(position) => write!(f, "a position past the end: {position}"),
            FoldRefused::Memory => write!(f, "{}", Memory),
        }
    }
}

impl From<Memory> for FoldRefused {
    ghost use Rattle.std.specs.Prelude.{◌≡◌};
    ghost use Rattle.delta_core.specs.declared.folding.FoldRefused.TheVariants as refused;

    ghost from_gives = { λ want made. made ≡ refused.Memory };

    fn from(_refused: Memory) -> FoldRefused {
        FoldRefused::Memory
    }
}

/// Folds a delta into what is held: it drops every held row that the delta removes or puts, inserts the puts
/// in order at their positions, and takes the delta's header, where it has one, and its end as the mark.
///
/// After a refusal the held value comes back as it was. The causes are tested in the order `Gap`, `Absent`,
/// `Past`; want of memory may come in place of any answer. Held rows that stay are moved, and not copied. The time
/// is that of a look-up for each held row and each key of the delta, where the positions of the puts ascend, as
/// those of `DirtySet::make_delta` do.
pub fn fold(alloc: Global, held: Held, delta: &Delta) -> Result<Held, (FoldRefused, Held)>
    ensures ok { IfOk result (λ now. (fold_fault held delta.now ≡ None) × (now ≡ folded held delta.now)) }
    ensures why { IfErr result (λ refused. RefusesFold (fold_fault held delta.now) refused.0) }
    ensures back { IfErr result (λ refused. refused.1 ≡ held) }
{
    match prepare(alloc, &held, delta) {
        Ok(prepared) => Ok(fold_in(held, delta, prepared)),
        Err(why) => Err((why, held)),
    }
}

/// What folding a delta takes memory for.
#[derive(Drop)]
pub(crate) struct Prepared {
    /// The keys that the delta removes or puts.
    dropped: KeySet,
    header: Option<Header>,
    puts: Vec<Put>,
    /// No rows yet, with room for all that are held in the end.
    rows: GapBuffer,
}

/// Checks a delta, and then takes all the memory that folding it needs.
fn prepare(alloc: Global, held: &Held, delta: &Delta) -> Result<Prepared, FoldRefused>
    ensures ok { IfOk result (λ p. fold_fault held.now delta.now ≡ None) }
    ensures prepared { IfOk result (IsPrepared held.now delta.now) }
    ensures why { IfErr result (RefusesFold (fold_fault held.now delta.now)) }
{
    let dropped = dropped_keys(alloc, delta)?;
    let kept = check_delta(alloc, held, delta, &dropped)?;
    let puts = delta.puts.as_slice();
    let rows = GapBuffer::with_capacity(alloc, kept + puts.len())?;
    let puts = copied(alloc, puts)?;
    let header = header_of(alloc, delta)?;
    Ok(Prepared {
        dropped,
        header,
        puts,
        rows,
    })
}

fn copied(alloc: Global, puts: &[Put]) -> Result<Vec<Put>, Memory>
    ensures { IfOk result (λ copies. copies.items ≡ puts.now) }
{
    let mut copies = Vec::with_capacity(alloc, puts.len())?;
    for put in puts {
        copies.push(Put {
            position: put.position,
            row: put.row.copy(alloc)?,
        })?;
    }
    Ok(copies)
}

fn header_of(alloc: Global, delta: &Delta) -> Result<Option<Header>, Memory>
    ensures { IfOk result (λ header. header ≡ delta.now.header) }
{
    match &delta.header {
        Some(header) => Ok(Some(header.copy(alloc)?)),
        None => Ok(None),
    }
}

/// Folds a delta that was checked. It takes no memory.
fn fold_in(held: Held, delta: &Delta, prepared: Prepared) -> Held
    requires { IsPrepared held delta.now prepared }
    ensures { result ≡ folded held delta.now }
{
    let Prepared {
        dropped,
        header,
        puts,
        mut rows,
    } = prepared;
    let Held { shown, mark: _ } = held;
    let Shown {
        header: before,
        rows: held_rows,
    } = shown;
    keep_others(&mut rows, held_rows.into_listed().into_vec(), &dropped);
    put_all(&mut rows, puts);
    let rows = ShownRows::from_listed(Listed::from_vec(rows.into_rows()));
    Held {
        shown: Shown {
            header: header.unwrap_or(before),
            rows,
        },
        mark: delta.to,
    }
}

/// Moves the rows whose keys aren't dropped to the end of a list.
fn keep_others(rows: &mut GapBuffer, held: Vec<ShownRow>, dropped: &KeySet)
    requires { length rows.old.rows + length (others dropped.now.keys held.items) ≤ rows.old.capacity }
    ensures rows { rows.new.rows ≡ rows.old.rows ++ others dropped.now.keys held.items }
    ensures capacity { rows.new.capacity ≡ rows.old.capacity }
{
    for row in held {
        if !has(dropped, &row.key) {
            rows.put(rows.len(), row);
        }
    }
}

/// Puts rows in order at their positions.
fn put_all(rows: &mut GapBuffer, puts: Vec<Put>)
    requires room { length rows.old.rows + length puts.items ≤ rows.old.capacity }
    requires within { past_end rows.old.rows puts.items ≡ None }
    ensures { rows.new.rows ≡ fold_list put_in rows.old.rows puts.items }
{
    for put in puts {
        rows.put(put.position as usize, put.row);
    }
}
