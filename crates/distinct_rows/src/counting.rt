ghost use Rattle.std.specs.Prelude.{◌≡◌, ◌||◌, not, List as Sequence, IfOk, OnOk, length, map};
ghost use Rattle.pgq_base.specs.declared.value.Value.{Value as Content};
ghost use Rattle.pgq_base.specs.Instances.{same_values};
ghost use Rattle.graph_meaning.specs.Lists.{distinct};
ghost use Rattle.distinct_rows.specs.Different.{values_of};
ghost use Rattle.distinct_rows.specs.KeyOrder.{holds};

use crate::keys::RowKey;
use pgq_base::{NoMemory, Row};
use std::alloc::Global;
use std::collections::BTreeSet;

// Puts a row into the set, and whether it was not there.
fn add<'a>(seen: &mut BTreeSet<RowKey<'a>>, row: &'a Row) -> Result<bool, NoMemory>
    ensures fresh { IfOk result (λ fresh. fresh ≡ not (holds seen.old row.now.values)) }
    ensures grown { OnOk result ((values : Sequence Content) → holds seen.new values ≡ (same_values values row.now.values || holds seen.old values)) }
{
    let values = row.values.as_slice();
    let fresh = seen.insert(RowKey { values })?;
    Ok(fresh)
}

/// How many different rows there are: the length of the list without its repeats. Null equals Null here.
pub fn distinct(alloc: Global, rows: &[Row]) -> Result<u64, NoMemory>
    ensures { IfOk result (λ count. count ≡ length (distinct same_values (map values_of rows.now))) }
{
    let mut seen = BTreeSet::new(alloc);
    let mut count = 0;
    for row in rows {
        if add(&mut seen, row)? {
            count += 1;
        }
    }
    Ok(count)
}
