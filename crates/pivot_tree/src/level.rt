ghost use Rattle.std.specs.Prelude.{◌≡◌, ℕ, ◌+◌, ◌≤◌, List, false, length, OnOk};
ghost use Rattle.std.specs.List.Sorted.{IsStrictlySortedBy};
ghost use Rattle.std.specs.Option.{option_copied};
ghost use Rattle.cell_core.specs.declared.cell.Cell.{Cell as CellData};
ghost use Rattle.row_batch.specs.Batches.{pair_of};
ghost use Rattle.row_batch.specs.declared.batch.Pair.{Pair};
ghost use Rattle.plan_types.specs.declared.plan.Named.{Named as NamedData};
ghost use Rattle.plan_types.specs.declared.plan.Plan.{Plan as PlanData};
ghost use Rattle.view_spec.specs.Kept.{by_key};
ghost use Rattle.view_spec.specs.Members.{group_of, split_of};
ghost use Rattle.view_spec.specs.Paths.{same_path};
ghost use Rattle.pivot_tree.specs.Families.{at_path};
ghost use Rattle.pivot_tree.specs.Groups.{CanPut, HasRow, with_row, without_row};
ghost use Rattle.pivot_tree.specs.Nodes.{StandsAt};
ghost use Rattle.pivot_tree.specs.Trees.{NodeAt, NodesOf};

use crate::node::Node;
use cell_core::{Cell, Copies, Memory, Path, Row, Steps};
use plan_types::Named;
use std::alloc::Global;
use std::collections::BTreeMap;
use std::sync::ledger::Ledger;

/// The nodes below the total, each under its path.
pub type Nodes = BTreeMap<Path, Node>;

/// Puts a row into the node at one path on its way, which is made if it isn't there.
fn add_at(
    alloc: Global,
    nodes: &mut Nodes,
    used: &[Named],
    path: &Path,
    split: &Path,
    next: Option<&Cell>,
    key: &Cell,
    row: &Row,
) -> Result<(), Memory>
    requires { (plan : PlanData) × (rows : List Pair)
        × NodeAt plan used.now rows (at_path nodes.old.entries path.now) path.now
        × IsStrictlySortedBy by_key rows × CanPut used.now rows (pair_of key.now row.now)
        × StandsAt plan path.now split.now (option_copied next) (pair_of key.now row.now) }
    ensures here { OnOk result ((plan : PlanData) (rows : List Pair)
        → NodeAt plan used.now rows (at_path nodes.old.entries path.now) path.now
        → IsStrictlySortedBy by_key rows → CanPut used.now rows (pair_of key.now row.now)
        → StandsAt plan path.now split.now (option_copied next.entry) (pair_of key.now row.now)
        → NodeAt plan used.now (with_row rows (pair_of key.now row.now)) (at_path nodes.new.entries path.now) path.now) }
    ensures others { OnOk result ((q : List CellData) → same_path path.now q ≡ false
        → at_path nodes.new.entries q ≡ at_path nodes.old.entries q) }
{
    if let Some(node) = nodes.get_mut(path) {
        return node.add(alloc, used, split, next, key, row);
    }
    let mut node = Node::make(alloc, used)?;
    node.add(alloc, used, split, next, key, row)?;
    nodes.insert(path.copy(alloc)?, node)?;
    Ok(())
}

/// Takes a row off the node at one path on its way, which goes with its last member.
fn take_at(nodes: &mut Nodes, path: &Path, split: &Path, next: Option<&Cell>, key: &Cell, row: &Row)
    requires { (plan : PlanData) × (used : List NamedData) × (rows : List Pair)
        × NodeAt plan used rows (at_path nodes.old.entries path.now) path.now
        × HasRow rows (pair_of key.now row.now)
        × StandsAt plan path.now split.now (option_copied next) (pair_of key.now row.now) }
    ensures here { (plan : PlanData) (used : List NamedData) (rows : List Pair)
        → NodeAt plan used rows (at_path nodes.old.entries path.now) path.now
        → HasRow rows (pair_of key.now row.now)
        → StandsAt plan path.now split.now (option_copied next.entry) (pair_of key.now row.now)
        → NodeAt plan used (without_row rows (pair_of key.now row.now)) (at_path nodes.new.entries path.now) path.now }
    ensures others { (q : List CellData) → same_path path.now q ≡ false
        → at_path nodes.new.entries q ≡ at_path nodes.old.entries q }
{
    if let Some(node) = nodes.get_mut(path) {
        node.take_off(split, next, key, row);
        if node.all.rows == 0 {
            nodes.remove(path);
        }
    }
}

/// Puts a row into the nodes below the total on its way.
pub fn add_below<L: Ledger>(
    alloc: Global,
    nodes: &mut Nodes,
    used: &[Named],
    group: &Path,
    split: &Path,
    key: &Cell,
    row: &Row,
    steps: &mut Steps<L>,
) -> Result<(), Memory>
    requires { (plan : PlanData) × (rows : List Pair) × NodesOf plan used.now rows nodes.old.entries
        × IsStrictlySortedBy by_key rows × CanPut used.now rows (pair_of key.now row.now)
        × (group.now ≡ group_of plan (pair_of key.now row.now))
        × (split.now ≡ split_of plan (pair_of key.now row.now)) }
    ensures nodes { OnOk result ((plan : PlanData) (rows : List Pair)
        → NodesOf plan used.now rows nodes.old.entries
        → IsStrictlySortedBy by_key rows → CanPut used.now rows (pair_of key.now row.now)
        → group.now ≡ group_of plan (pair_of key.now row.now)
        → split.now ≡ split_of plan (pair_of key.now row.now)
        → NodesOf plan used.now (with_row rows (pair_of key.now row.now)) nodes.new.entries) }
    ensures steps { OnOk result (steps.new ≡ steps.old + length group.now) }
    ensures at_most { steps.new ≤ steps.old + length group.now }
{
    let mut path = Path::new(alloc);
    for cell in group.as_slice() {
        path.push(cell.copy(alloc)?)?;
        steps.tick();
        add_at(
            alloc,
            nodes,
            used,
            &path,
            split,
            group.get(path.len()),
            key,
            row,
        )?;
    }
    Ok(())
}

/// Takes a row off the nodes below the total on its way.
pub fn take_below<L: Ledger>(
    alloc: Global,
    nodes: &mut Nodes,
    group: &Path,
    split: &Path,
    key: &Cell,
    row: &Row,
    steps: &mut Steps<L>,
) -> Result<(), Memory>
    requires { (plan : PlanData) × (used : List NamedData) × (rows : List Pair)
        × NodesOf plan used rows nodes.old.entries × HasRow rows (pair_of key.now row.now)
        × (group.now ≡ group_of plan (pair_of key.now row.now))
        × (split.now ≡ split_of plan (pair_of key.now row.now)) }
    ensures nodes { OnOk result ((plan : PlanData) (used : List NamedData) (rows : List Pair)
        → NodesOf plan used rows nodes.old.entries → HasRow rows (pair_of key.now row.now)
        → group.now ≡ group_of plan (pair_of key.now row.now)
        → split.now ≡ split_of plan (pair_of key.now row.now)
        → NodesOf plan used (without_row rows (pair_of key.now row.now)) nodes.new.entries) }
    ensures steps { OnOk result (steps.new ≡ steps.old + length group.now) }
    ensures at_most { steps.new ≤ steps.old + length group.now }
{
    let mut path = Path::new(alloc);
    for cell in group.as_slice() {
        path.push(cell.copy(alloc)?)?;
        steps.tick();
        take_at(nodes, &path, split, group.get(path.len()), key, row);
    }
    Ok(())
}
