ghost use Rattle.std.specs.Prelude.{◌≡◌, IfOk};
ghost use Rattle.graph_ast.specs.Lookups.{graph_at};
ghost use Rattle.graph_meaning.specs.Blocks.{query_path_blocks};
ghost use Rattle.normal_form.specs.Checked.{AreNumbered};

use graph_ast::{Catalog, CheckedQuery, PathBlock};
use normal_form::path_blocks;
use pgq_base::{List, NoMemory};
use std::alloc::Global;

/// The path blocks of each path, among which are the shorter candidates of a path under ALL SHORTEST.
pub(crate) fn candidates_of(
    alloc: Global,
    catalog: &Catalog,
    query: &CheckedQuery,
) -> Result<List<List<PathBlock>>, NoMemory>
    requires { AreNumbered catalog.now query.now }
    ensures { IfOk result (λ all. all ≡ query_path_blocks (graph_at catalog.now query.now.graph) query.now) }
{
    let mut all = List::new(alloc);
    for place in 0..query.paths.as_slice().len() {
        all.push(path_blocks(alloc, catalog, query, place as u32)?)?;
    }
    Ok(all)
}
