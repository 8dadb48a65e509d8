ghost use Rattle.std.specs.Prelude.{◌≡◌, refl};
ghost use Rattle.std.specs.Cmp.{partial_equiv_from_equiv, partial_order_from_agreeing_total};
ghost use Rattle.std.specs.Ordering.{as_partial_cmp, eq_by_cmp};
ghost use Rattle.distinct_rows.specs.KeyOrder.{key_equivalence, key_order, key_total};

use pgq_base::{Value, row_order};
use std::cmp::Ordering;

/// The values of a row, as they stand in a set.
#[derive(Clone, Copy, Debug)]
pub struct RowKey<'a> {
    pub values: &'a [Value],
}

fn compare(a: &RowKey<'_>, b: &RowKey<'_>) -> Ordering
    ensures { result ≡ key_order a.now b.now }
{
    row_order(a.values, b.values)
}

impl PartialEq for RowKey<'_> {
    ghost eq = { eq_by_cmp key_order };

    ghost laws = { partial_equiv_from_equiv key_equivalence };

    fn eq(&self, other: &RowKey<'_>) -> bool {
        compare(self, other) == Ordering::Equal
    }
}

impl Eq for RowKey<'_> {
    ghost laws = { key_equivalence };
}

impl PartialOrd for RowKey<'_> {
    ghost partial_cmp = { as_partial_cmp key_order };

    ghost laws = { partial_order_from_agreeing_total key_order key_total (λ a b. refl) (λ a b. refl) };

    fn partial_cmp(&self, other: &RowKey<'_>) -> Option<Ordering> {
        Some(compare(self, other))
    }
}

impl Ord for RowKey<'_> {
    ghost cmp = { key_order };

    ghost total = { key_total };

    ghost matches_partial_cmp = { λ a b. refl };

    ghost matches_eq = { λ a b. refl };

    fn cmp(&self, other: &RowKey<'_>) -> Ordering {
        compare(self, other)
    }
}
