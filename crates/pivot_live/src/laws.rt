ghost use Rattle.pivot_live.specs.Laws.{NotedKeysAreTouched, RowsAreTheViews, VisitsAreBounded};

/// A step that sets right what stands under the affected keys gives the view's rows, notes the touched keys, and visits
/// no more groups than the changes and the touched keys allow. It does nothing, and its contract is the law.
pub fn walked_steps_are_right()
    ensures rows { RowsAreTheViews }
    ensures keys { NotedKeysAreTouched }
    ensures visits { VisitsAreBounded }
{}
