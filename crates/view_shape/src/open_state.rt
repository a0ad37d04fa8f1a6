use cell_core::{Cell, Copies, Memory, Path};
use std::alloc::Global;
use std::collections::BTreeMap;
use std::marker::Model;

/// The most groups of a view that may be opened or closed one by one.
pub const MAX_SINGLES: usize = 4096;

/// Why a group was not opened or closed by itself.
#[derive(Clone, Copy, Debug, Drop, PartialEq, Eq)]
pub enum OpenRefused {
    /// 4,096 other groups are open or closed by themselves.
    TooManyOpen,
    /// Memory was wanted.
    Memory,
}

impl From<Memory> for OpenRefused {
    ghost use Rattle.std.specs.Prelude.{◌≡◌};
    ghost use Rattle.view_shape.specs.declared.open_state.OpenRefused.TheVariants as refused;

    ghost from_gives = { λ want made. made ≡ refused.Memory };

    fn from(_refused: Memory) -> OpenRefused {
        OpenRefused::Memory
    }
}

/// Whether each group of a view is open.
///
/// A group is open where it was opened by itself, closed where it was closed by itself, and else open where its path
/// is shorter than the depth. Paths that no group of the view has count as well.
#[derive(Drop)]
pub struct OpenState {
    depth: u64,
    singles: BTreeMap<Vec<Cell>, bool>,
}

impl Model for OpenState {
    ghost use Rattle.view_spec.specs.Openings.{Opening};
    ghost use Rattle.view_shape.specs.Singles.{by_path};

    ghost Value = { Opening };

    ghost view = { λ s. record { depth = s.depth; singles = by_path s.singles.entries } };
}

impl OpenState {
    ghost use Rattle.std.specs.Prelude.{◌≡◌, ◌≤◌, ◌↔◌, [], nat_lt, length, Err, true, false, IfOk, OnOk, OnErr};
    ghost use Rattle.view_shape.specs.declared.open_state.OpenRefused.TheVariants as refused;
    ghost use Rattle.view_shape.specs.Singles.{other_singles, with_single};
    ghost use Rattle.view_spec.specs.Openings.{is_open as is_open_by, is_visible as is_visible_by};

    /// All groups of a view with so many group columns are open.
    pub fn new(alloc: Global, groups: u32) -> OpenState
        ensures { result ≡ record { depth = groups; singles = [] } }
    {
        OpenState {
            depth: u64::from(groups),
            singles: BTreeMap::new(alloc),
        }
    }

    /// An equal one.
    pub fn copy(&self, alloc: Global) -> Result<OpenState, Memory>
        ensures { IfOk result (λ copy. copy ≡ self.now) }
    {
        let mut singles = BTreeMap::new(alloc);
        for (path, opened) in &self.singles {
            drop(singles.insert(copied(alloc, path.as_slice())?, *opened)?);
        }
        Ok(OpenState {
            depth: self.depth,
            singles,
        })
    }

    /// Opens a group by itself.
    pub fn expand(&mut self, alloc: Global, path: &Path) -> Result<(), OpenRefused>
        ensures ok { OnOk result (self.new ≡ with_single self.old path.now true) }
        ensures too_many { (result ≡ Err refused.TooManyOpen) ↔ (MAX_SINGLES ≤ other_singles self.old path.now) }
        ensures err { OnErr result (self.new ≡ self.old) }
    {
        self.set_single(alloc, path, true)
    }

    /// Closes a group by itself.
    pub fn collapse(&mut self, alloc: Global, path: &Path) -> Result<(), OpenRefused>
        ensures ok { OnOk result (self.new ≡ with_single self.old path.now false) }
        ensures too_many { (result ≡ Err refused.TooManyOpen) ↔ (MAX_SINGLES ≤ other_singles self.old path.now) }
        ensures err { OnErr result (self.new ≡ self.old) }
    {
        self.set_single(alloc, path, false)
    }

    /// Opens all groups whose paths are shorter than `depth` and closes the others. What was opened or closed one by
    /// one is forgotten.
    pub fn set_depth(&mut self, depth: u64)
        ensures { self.new ≡ record { depth = depth; singles = [] } }
    {
        self.depth = depth;
        self.singles.clear();
    }

    /// Whether a group is open.
    pub fn is_open(&self, path: &Path) -> bool
        ensures { result ≡ is_open_by self.now path.now }
    {
        self.is_open_at(path.as_slice())
    }

    /// Whether a group is shown: whether each group above it is open.
    pub fn is_visible(&self, path: &Path) -> bool
        ensures { result ≡ is_visible_by self.now path.now }
    {
        let path = path.as_slice();
        for i in 0..path.len() {
            if !self.is_open_at(&path[..i]) {
                return false;
            }
        }
        true
    }

    fn is_open_at(&self, path: &[Cell]) -> bool
        ensures { result ≡ is_open_by self.now path.now }
    {
        match self.singles.get(path) {
            Some(opened) => *opened,
            None => (path.len() as u64) < self.depth,
        }
    }

    /// Opens or closes a group by itself.
    fn set_single(&mut self, alloc: Global, path: &Path, opened: bool) -> Result<(), OpenRefused>
        ensures ok { OnOk result (self.new ≡ with_single self.old path.now opened) }
        ensures too_many { (result ≡ Err refused.TooManyOpen) ↔ (MAX_SINGLES ≤ other_singles self.old path.now) }
        ensures err { OnErr result (self.new ≡ self.old) }
    {
        if self.others(path.as_slice()) >= MAX_SINGLES {
            return Err(OpenRefused::TooManyOpen);
        }
        let key = copied(alloc, path.as_slice())?;
        self.put(key, opened)?;
        Ok(())
    }

    /// Puts a single opening under a path, in place of the one there.
    fn put(&mut self, path: Vec<Cell>, opened: bool) -> Result<(), Memory>
        ensures ok { OnOk result (self.new ≡ with_single self.old path.items opened) }
        ensures err { OnErr result (self.new ≡ self.old) }
    {
        drop(self.singles.insert(path, opened)?);
        Ok(())
    }

    /// How many other paths have single openings.
    fn others(&self, path: &[Cell]) -> usize
        ensures { result ≡ other_singles self.now path.now }
    {
        let count = self.singles.len();
        if self.singles.contains_key(path) {
            count - 1
        } else {
            count
        }
    }
}

ghost use Rattle.std.specs.Prelude.{◌≡◌, IfOk};

/// The cells of a path, as the key of a map.
fn copied(alloc: Global, path: &[Cell]) -> Result<Vec<Cell>, Memory>
    ensures { IfOk result (λ copy. copy.items ≡ path.now) }
{
    let mut copy = Vec::with_capacity(alloc, path.len())?;
    for cell in path {
        copy.push(cell.copy(alloc)?)?;
    }
    Ok(copy)
}
