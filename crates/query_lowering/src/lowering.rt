ghost use Rattle.std.specs.Prelude.{◌≡◌, IfOk, [], map};
ghost use Rattle.multisets.specs.Bags.{IsSameMultiset};
ghost use Rattle.pgq_base.specs.Instances.{InstanceRows};
ghost use Rattle.graph_ast.specs.Fits.{Fits};
ghost use Rattle.graph_meaning.specs.Answers.{answer};
ghost use Rattle.normal_form.specs.Checked.{AreNumbered};
ghost use Rattle.sql_algebra.specs.Meaning.{bag, names_of};
ghost use Rattle.sql_algebra.specs.Soundness.{IsSound};
ghost use Rattle.sql_algebra.specs.Printable.{IsPrintable};
ghost use Rattle.path_lowering.specs.Apart.{apart};
ghost use Rattle.path_lowering.specs.Layable.{IsServed};
ghost use Rattle.shortest_lowering.specs.Selected.{selected_query};
ghost use Rattle.query_lowering.specs.Translatable.{IsTranslatable};

use crate::block_lists::candidates_of;
use crate::names::{outputs_are_named, tables_are_named};
use graph_ast::{Catalog, CheckedQuery};
use normal_form::blocks;
use pgq_base::NoMemory;
use shortest_lowering::{lower_selected, printable_law, sound_law};
use sql_algebra::SqlQuery;
use std::alloc::Global;

/// The SQL query of a query, selectors included, from its graph blocks and from the path blocks of each path.
fn selected(alloc: Global, catalog: &Catalog, query: &CheckedQuery) -> Result<SqlQuery, NoMemory>
    requires served { IsServed catalog.now query.now }
    requires numbered { AreNumbered catalog.now query.now }
    ensures exact { IfOk result (λ sql. sql ≡ selected_query catalog.now apart query.now) }
    ensures means { IfOk result (λ sql. (instance : InstanceRows) → Fits catalog.now instance
        → IsSameMultiset (answer catalog.now query.now [] [] instance) (bag catalog.now sql instance)) }
{
    let blocks = blocks(alloc, catalog, query)?;
    let candidates = candidates_of(alloc, catalog, query)?;
    lower_selected(
        alloc,
        catalog,
        query,
        blocks.as_slice(),
        candidates.as_slice(),
    )
}

/// The SQL query of a checked query: sound in the catalog, with a text, with the query's column names, and over every
/// instance that fits with the rows of the answer, each equally often. It fails only for want of memory.
pub fn lower(alloc: Global, catalog: &Catalog, query: &CheckedQuery) -> Result<SqlQuery, NoMemory>
    requires { IsTranslatable catalog.now query.now }
    ensures exact { IfOk result (λ sql. sql ≡ selected_query catalog.now apart query.now) }
    ensures sound { IfOk result (λ sql. IsSound sql catalog.now) }
    ensures printable { IfOk result IsPrintable }
    ensures names { IfOk result (λ sql. names_of sql ≡ map (λ output. output.name) query.now.columns) }
    ensures means { IfOk result (λ sql. (instance : InstanceRows) → Fits catalog.now instance
        → IsSameMultiset (answer catalog.now query.now [] [] instance) (bag catalog.now sql instance)) }
{
    sound_law();
    printable_law();
    tables_are_named(catalog.tables.as_slice());
    outputs_are_named(query.columns.as_slice());
    selected(alloc, catalog, query)
}
