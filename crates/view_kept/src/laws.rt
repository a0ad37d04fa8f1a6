ghost use Rattle.view_kept.specs.Laws.{BatchesAreSteps, ViewsAreOfTables};

/// A batch that a table prepared and applied is a step of each view of the rows before it, by the changes that the
/// table answers; and a view of a table's rows is of the table. It does nothing, and its contract is the law.
pub fn tables_make_steps()
    ensures batches { BatchesAreSteps }
    ensures tables { ViewsAreOfTables }
{}
