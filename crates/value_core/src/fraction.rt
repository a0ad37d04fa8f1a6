ghost use Rattle.std.specs.Prelude.{◌≡◌, ◌*◌, ◌<◌, pos, ◌≤ℤ◌};
ghost use Rattle.std.specs.Int.{int_div_euclid, int_rem_euclid};
ghost use Rattle.std.specs.Ordering.{nat_cmp};
ghost use Rattle.value_core.specs.Divisors.{IsGreatestDivisor};
ghost use Rattle.value_core.specs.Reduced.{IsReduced, IsInReach};

use std::cmp::Ordering;

/// A fraction in its lowest terms: `n` over `d`, where no lesser positive denominator gives the same
/// number. Both parts are at most 2^100 away from 0. Fractions compare as numbers.
#[derive(Clone, Copy, Debug)]
pub struct Fraction {
    /// The numerator, which carries the sign.
    pub n: i128,
    /// The denominator, at least 1.
    pub d: i128,
    pub ghost lowest: { IsReduced n d n d },
    pub ghost n_in_reach: { IsInReach n },
    pub ghost d_in_reach: { IsInReach d },
}

impl Fraction {
    ghost use Rattle.value_core.specs.Fractions.{fraction_order};

    /// The fraction that is `n` over `d`, with the least positive denominator. A whole number has the
    /// denominator 1.
    pub fn reduced(n: i128, d: i128) -> Fraction
        requires positive { pos 1 ≤ℤ d }
        requires n_in_reach { IsInReach n }
        requires d_in_reach { IsInReach d }
        ensures { IsReduced n d result.n result.d }
    {
        let divisor = greatest_divisor(n.unsigned_abs(), d.unsigned_abs()) as i128;
        Fraction {
            n: n / divisor,
            d: d / divisor,
        }
    }

    /// How two fractions stand as numbers. It divides step by step, and forms no product of their
    /// parts.
    pub fn order(&self, other: &Fraction) -> Ordering
        ensures { result ≡ fraction_order self.now other.now }
    {
        let wholes = self.floor().cmp(&other.floor());
        if wholes.is_ne() {
            return wholes;
        }
        order_of_ratios(
            self.above_floor(),
            self.d as u128,
            other.above_floor(),
            other.d as u128,
        )
    }

    /// The greatest whole number that isn't above the fraction.
    fn floor(&self) -> i128
        ensures { result ≡ int_div_euclid self.now.n self.now.d }
    {
        self.n.div_euclid(self.d)
    }

    /// How far the fraction is above its floor, in parts of its denominator.
    fn above_floor(&self) -> u128
        ensures { pos result ≡ int_rem_euclid self.now.n self.now.d }
    {
        self.n.rem_euclid(self.d) as u128
    }
}

impl PartialEq for Fraction {
    ghost use Rattle.std.proofs.Common.{rules};
    ghost use Rattle.std.specs.Cmp.Rules.{comparing};
    ghost use Rattle.std.specs.Ordering.{eq_of_both, on, int_eq};

    ghost eq = { eq_of_both (on (λ f. f.n) int_eq) (on (λ f. f.d) int_eq) };

    ghost laws = { Prim.search (comparing, rules) };

    fn eq(&self, other: &Fraction) -> bool {
        self.n == other.n && self.d == other.d
    }
}

impl Eq for Fraction {
    ghost use Rattle.std.proofs.Common.{rules};
    ghost use Rattle.std.specs.Cmp.Rules.{comparing};

    ghost laws = { Prim.search (comparing, rules) };
}

impl PartialOrd for Fraction {
    ghost use Rattle.std.specs.Cmp.{partial_order_from_own_ties, partial_order_from_total};
    ghost use Rattle.std.specs.Ordering.{as_partial_cmp};
    ghost use Rattle.value_core.specs.Fractions.{fraction_order};
    ghost use Rattle.value_core.specs.FractionLaws.{fraction_order_total, fraction_order-ties};

    ghost partial_cmp = { as_partial_cmp fraction_order };

    ghost laws = { partial_order_from_own_ties
        (partial_order_from_total fraction_order_total) fraction_order-ties };

    fn partial_cmp(&self, other: &Fraction) -> Option<Ordering> {
        Some(self.cmp(other))
    }
}

impl Ord for Fraction {
    ghost use Rattle.std.specs.Prelude.{refl};
    ghost use Rattle.value_core.specs.Fractions.{fraction_order};
    ghost use Rattle.value_core.specs.FractionLaws.{fraction_order_total, fraction_order-ties};

    ghost cmp = { fraction_order };

    ghost total = { fraction_order_total };

    ghost matches_partial_cmp = { λ x y. refl };

    ghost matches_eq = { fraction_order-ties };

    fn cmp(&self, other: &Fraction) -> Ordering {
        self.order(other)
    }
}

/// The greatest common divisor, by Euclid's algorithm.
fn greatest_divisor(a: u128, b: u128) -> u128
    ensures { IsGreatestDivisor a b result }
{
    let mut divisor = a;
    let mut rest = b;
    while rest != 0 {
        (divisor, rest) = (rest, divisor % rest);
    }
    divisor
}

/// How `a` over `b` stands to `c` over `d`: by their whole parts, and where these are equal by what
/// is left, as Euclid's algorithm divides.
fn order_of_ratios(a: u128, b: u128, c: u128, d: u128) -> Ordering
    requires first { 0 < b }
    requires second { 0 < d }
    ensures { result ≡ nat_cmp (a * d) (c * b) }
{
    let wholes = (a / b).cmp(&(c / d));
    if wholes.is_ne() {
        return wholes;
    }
    let left = a % b;
    let right = c % d;
    if left == 0 || right == 0 {
        return left.cmp(&right);
    }
    // Of two ratios above 0 the greater has the lesser reciprocal.
    order_of_ratios(d, right, b, left)
}
