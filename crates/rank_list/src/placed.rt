ghost use Rattle.std.specs.Prelude.{◌≡◌};
ghost use Rattle.std.specs.Cmp.{IsTotalOrder};
ghost use Rattle.std.specs.Ordering.{is_lt};
ghost use Rattle.std.specs.declared.cmp.Ordering.{Ordering};
ghost use Rattle.rank_list.specs.Exact.{IsExact};

/// A value that has its place among others of its kind, by a strict total order: of any two that differ one stands
/// before the other, and none stands before itself.
///
/// The order is a comparison, in which a value ties with itself alone.
pub trait Placed {
    ghost order: { Self → Self → Ordering };

    /// Whether this value stands before `other`.
    fn before(&self, other: &Self) -> bool
        ensures { result ≡ is_lt (order self.now other.now) };

    ghost total: { IsTotalOrder order };

    ghost exact: { IsExact order };
}
