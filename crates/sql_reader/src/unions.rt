ghost use Rattle.std.specs.Prelude.{◌≡◌, IfOk, [], map, flat_map};
ghost use Rattle.first_faults.specs.Faults.{first_of};
ghost use Rattle.graph_ast.specs.declared.catalog.Catalog.{Catalog};
ghost use Rattle.sql_algebra.specs.declared.text.SelectText.{SelectText as SelectTree};
ghost use Rattle.sql_reader.specs.Types.{class_of_value};
ghost use Rattle.sql_reader.specs.Levels.{reach_of};
ghost use Rattle.sql_reader.specs.Reaches.{reach_within};
ghost use Rattle.sql_reader.specs.Phases.{column_class, column_classes, differing_items, later_faults, united_faults};

use crate::phases::items_placed;
use crate::reach::{Scope, alone};
use crate::tables::Tables;
use crate::types::{class_of, first_span, same_class};
use first_faults::{Fault, note};
use pgq_base::{Class, Code, List, NoMemory};
use sql_algebra::{ColumnText, SelectText};
use std::alloc::Global;

fn classes_of(
    alloc: Global,
    scope: &Scope<'_, '_, '_>,
    columns: &[ColumnText],
) -> Result<List<Class>, NoMemory>
    ensures { IfOk result (λ classes. classes ≡ map (λ column. class_of_value (reach_of scope.now) column.value) columns.now) }
{
    let mut classes = List::new(alloc);
    for column in columns {
        classes.push(class_of(scope, &column.value.tree))?;
    }
    Ok(classes)
}

// The classes of the columns of a select that stands under none.
fn column_classes<'t, 'c>(
    alloc: Global,
    tables: &'t Tables<'c>,
    select: &'t SelectText,
) -> Result<List<Class>, NoMemory>
    ensures { IfOk result (λ classes. classes ≡ column_classes tables.now select.now) }
{
    let items = items_placed(alloc, tables, select.from.as_slice())?;
    let scope = alone(&items);
    classes_of(alloc, &scope, select.columns.as_slice())
}

// The items whose classes are not those.
fn differing_items(
    found: Option<Fault>,
    scope: &Scope<'_, '_, '_>,
    classes: &[Class],
    columns: &[ColumnText],
) -> Option<Fault>
    ensures { (catalog : Catalog) → (select : SelectTree) → reach_of scope.now ≡ reach_within catalog [] select.from → result ≡ first_of found (differing_items catalog select classes.now columns.now) }
{
    let mut found = found;
    let mut classes = classes;
    let mut columns = columns;
    while let Some((class, later)) = classes.split_first() {
        let Some((column, others)) = columns.split_first() else {
            return found;
        };
        let own = class_of(scope, &column.value.tree);
        let span = first_span(column.value.spans.as_slice());
        found = note(found, !same_class(*class, own), Code::ClassesDiffer, span);
        classes = later;
        columns = others;
    }
    found
}

// A later select has not the number of items of the first, or not their classes.
fn later_faults<'t, 'c>(
    alloc: Global,
    found: Option<Fault>,
    tables: &'t Tables<'c>,
    classes: &[Class],
    select: &'t SelectText,
) -> Result<Option<Fault>, NoMemory>
    ensures { IfOk result (λ all. all ≡ first_of found (later_faults tables.now classes.now select.now)) }
{
    let columns = select.columns.as_slice();
    if classes.len() != columns.len() {
        return Ok(note(found, true, Code::ClassesDiffer, select.word));
    }
    let items = items_placed(alloc, tables, select.from.as_slice())?;
    let scope = alone(&items);
    Ok(differing_items(found, &scope, classes, columns))
}

/// The faults of the selects of a UNION ALL beside one another.
pub(crate) fn united_faults<'t, 'c>(
    alloc: Global,
    found: Option<Fault>,
    tables: &'t Tables<'c>,
    selects: &'t [SelectText],
) -> Result<Option<Fault>, NoMemory>
    ensures { IfOk result (λ all. all ≡ first_of found (united_faults tables.now selects.now)) }
{
    match selects.split_first() {
        None => Ok(found),
        Some((first, later)) => {
            let classes = column_classes(alloc, tables, first)?;
            each_later(alloc, found, tables, classes.as_slice(), later)
        }
    }
}

fn each_later<'t, 'c>(
    alloc: Global,
    found: Option<Fault>,
    tables: &'t Tables<'c>,
    classes: &[Class],
    later: &'t [SelectText],
) -> Result<Option<Fault>, NoMemory>
    ensures { IfOk result (λ all. all ≡ first_of found (flat_map (later_faults tables.now classes.now) later.now)) }
{
    let mut found = found;
    for select in later {
        found = later_faults(alloc, found, tables, classes, select)?;
    }
    Ok(found)
}
