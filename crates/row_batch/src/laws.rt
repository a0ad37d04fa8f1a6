ghost use Rattle.std.specs.Prelude.{◌^◌, ◌<◌, ◌≤◌, length, All};
ghost use Rattle.cell_core.specs.Schemas.{SchemaData, IsSchema};
ghost use Rattle.row_batch.specs.declared.batch.Batch.{Batch};
ghost use Rattle.row_batch.specs.Batches.{Store, put_batch};
ghost use Rattle.row_batch.specs.Changes.{max_rows};
ghost use Rattle.row_batch.specs.Checks.{IsChecked, IsCheckedPatch, patches_of};
ghost use Rattle.row_batch.specs.Tables.{IsTable, IsReordered, OrderDoesNotMatter};

/// Each patch of a checked batch is a checked patch.
pub fn checked_patches_law()
    ensures { (schema : SchemaData) (b : Batch) → IsChecked schema b → All (IsCheckedPatch schema) (patches_of b) }
{}

/// A batch makes of the same rows in another order the same rows, in some order.
pub fn order_law()
    ensures { (schema : SchemaData) (b : Batch) → OrderDoesNotMatter schema b }
{}

/// What every table keeps, it keeps through a checked batch that makes neither too many rows nor too
/// great a number, and in any order.
pub fn table_law()
    ensures kept { (schema : SchemaData) (s : Store) (b : Batch) → IsSchema schema → IsChecked schema b → IsTable schema s
        → length (put_batch schema s b).pairs ≤ max_rows → (put_batch schema s b).number < 2 ^ 63
        → IsTable schema (put_batch schema s b) }
    ensures reordered { (schema : SchemaData) (s t : Store) → IsReordered s t → IsTable schema s → IsTable schema t }
{}
