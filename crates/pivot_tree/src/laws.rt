ghost use Rattle.pivot_tree.specs.Laws.{FoundRowsAreThere, MissingKeysAreApart};

/// What a look-up by key tells of kept rows, which ascend: a row that is found is one that a tree may take off, and where
/// none is found no row has the key. That is the first of the three things that `add_row` asks of a row; the others are
/// that there are fewer than 65,536 rows, and that its cells in the columns that the plan shows or sorts by are null or of
/// types that the columns' aggregates take, whole numbers in range. It does nothing, and its contract is the law.
pub fn keys_tell_rows()
    ensures found { FoundRowsAreThere }
    ensures missing { MissingKeysAreApart }
{}
