ghost use Rattle.std.specs.Prelude.{◌≡◌, ◌≤◌, ◌<◌, [], IfOk, length, map};
ghost use Rattle.multisets.specs.Bags.{IsIn, IsSameMultiset};
ghost use Rattle.pgq_base.specs.Instances.{InstanceRows};
ghost use Rattle.graph_ast.specs.Fits.{Fits};
ghost use Rattle.graph_meaning.specs.Answers.{answer};
ghost use Rattle.sql_algebra.specs.Meaning.{bag};
ghost use Rattle.graph_ast.specs.declared.blocks.Block.{Block as ABlock};
ghost use Rattle.graph_ast.specs.Lookups.{graph_at, vertex_element};
ghost use Rattle.graph_meaning.specs.Blocks.{blocks as blocks_of};
ghost use Rattle.path_lowering.specs.Lowered.{IsUnselected, lowered_query, or_none as some_or_none, select_of_block as select_of_this_block, select_of_none as select_of_nothing};
ghost use Rattle.path_lowering.specs.Apart.{apart};
ghost use Rattle.path_lowering.specs.Adding.{null_of};
ghost use Rattle.path_lowering.specs.Layable.{IsReady, IsServed};

use crate::blocks::select_of_block;
use crate::columns::alias_name;
use crate::scene::Scene;
use expr_tree::{Expr, class_of};
use graph_ast::{Block, Catalog, CheckedQuery, Output, empty_tables_fit};
use pgq_base::{List, NoMemory, Value};
use sql_algebra::{Conjunct, FromItem, Select, SelectColumn, SqlQuery};
use std::alloc::Global;

/// A Null of the class of each column.
fn nulls(alloc: Global, outputs: &[Output]) -> Result<List<SelectColumn>, NoMemory>
    ensures { IfOk result (λ made. made ≡ map null_of outputs.now) }
{
    let mut made = List::new(alloc);
    for output in outputs {
        made.push(SelectColumn {
            value: Expr::Null(class_of(&output.value)),
            name: output.name.copy(alloc)?,
        })?;
    }
    Ok(made)
}

/// The SELECT where there is no block: no row, with the columns' names and classes.
fn select_of_none(alloc: Global, scene: &Scene<'_>, outputs: &[Output]) -> Result<Select, NoMemory>
    requires letter { scene.now.prefix < 128 }
    requires some { 1 ≤ length scene.now.graph.now.vertices }
    requires table { (vertex_element scene.now.graph.now 0).table < length scene.now.catalog.now.tables }
    ensures { IfOk result (λ select. select ≡ select_of_nothing scene.now.catalog.now scene.now.graph.now scene.now.prefix outputs.now) }
{
    let element = &scene.graph.vertices.as_slice()[0];
    let table = &scene.catalog.tables.as_slice()[element.table as usize];
    let mut from = List::new(alloc);
    from.push(FromItem {
        table: table.name.copy(alloc)?,
        alias: alias_name(alloc, scene.prefix, 0)?,
        on: None,
    })?;
    let mut conjuncts = List::new(alloc);
    conjuncts.push(Conjunct::Plain(Expr::Lit(Value::Truth(false))))?;
    Ok(Select {
        columns: nulls(alloc, outputs)?,
        from,
        conjuncts,
    })
}

/// The SELECT of each of some graph blocks.
fn selects_of(
    alloc: Global,
    scene: &Scene<'_>,
    query: &CheckedQuery,
    blocks: &[Block],
) -> Result<List<Select>, NoMemory>
    requires letter { scene.now.prefix < 128 }
    requires ready { (block : ABlock) → IsIn block blocks.now → IsReady scene.now.catalog.now scene.now.graph.now scene.now.prefix query.now block }
    ensures { IfOk result (λ made. made ≡ map (select_of_this_block scene.now.catalog.now scene.now.graph.now scene.now.prefix apart query.now) blocks.now) }
{
    let mut made = List::new(alloc);
    for block in blocks {
        made.push(select_of_block(alloc, scene, query, block)?)?;
    }
    Ok(made)
}

/// The SELECTs, or the one that gives no row where there is none.
pub fn or_none(
    alloc: Global,
    scene: &Scene<'_>,
    selects: List<Select>,
    outputs: &[Output],
) -> Result<List<Select>, NoMemory>
    requires letter { scene.now.prefix < 128 }
    requires some { 1 ≤ length scene.now.graph.now.vertices }
    requires table { (vertex_element scene.now.graph.now 0).table < length scene.now.catalog.now.tables }
    ensures { IfOk result (λ made. made ≡ some_or_none (select_of_nothing scene.now.catalog.now scene.now.graph.now scene.now.prefix outputs.now) selects) }
{
    let mut selects = selects;
    if selects.as_slice().is_empty() {
        selects.push(select_of_none(alloc, scene, outputs)?)?;
    }
    Ok(selects)
}

fn lowered_of(
    alloc: Global,
    catalog: &Catalog,
    query: &CheckedQuery,
    blocks: &[Block],
) -> Result<SqlQuery, NoMemory>
    requires served { IsServed catalog.now query.now }
    requires blocks { blocks.now ≡ blocks_of (graph_at catalog.now query.now.graph) query.now }
    ensures { IfOk result (λ sql. sql ≡ lowered_query catalog.now apart query.now) }
{
    empty_tables_fit();
    let scene = Scene {
        catalog,
        graph: &catalog.graphs.as_slice()[query.graph as usize],
        prefix: b'A',
    };
    let selects = selects_of(alloc, &scene, query, blocks)?;
    let selects = or_none(alloc, &scene, selects, query.columns.as_slice())?;
    Ok(SqlQuery { selects })
}

/// The SQL query of a query from its graph blocks: one SELECT for each, in their order. Of a query without a selector its
/// rows are those of the answer, each equally often, over every instance that fits.
pub fn lower_blocks(
    alloc: Global,
    catalog: &Catalog,
    query: &CheckedQuery,
    blocks: &[Block],
) -> Result<SqlQuery, NoMemory>
    requires served { IsServed catalog.now query.now }
    requires blocks { blocks.now ≡ blocks_of (graph_at catalog.now query.now.graph) query.now }
    ensures exact { IfOk result (λ sql. sql ≡ lowered_query catalog.now apart query.now) }
    ensures means { IfOk result (λ sql. IsUnselected query.now → (instance : InstanceRows) → Fits catalog.now instance
        → IsSameMultiset (answer catalog.now query.now [] [] instance) (bag catalog.now sql instance)) }
{
    empty_tables_fit();
    lowered_of(alloc, catalog, query, blocks)
}
