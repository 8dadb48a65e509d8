ghost use Rattle.std.specs.Prelude.{◌<◌, All, IfOk, length};
ghost use Rattle.pgq_base.specs.Answers.{Gives};
ghost use Rattle.graph_ast.specs.Catalogs.{IsValidCatalog};
ghost use Rattle.graph_ast.specs.Fits.{Fits};
ghost use Rattle.csv_tables.specs.Constraints.{instance_rows};
ghost use Rattle.csv_tables.specs.Outcomes.{seen};
ghost use Rattle.table_files.specs.TableFiles.{instance_due};

use crate::files::{TableText, TablesRead};
use graph_ast::Catalog;
use pgq_base::{Instance, Stop};
use std::alloc::Global;

/// The instance that the texts of some tables give; a table without a text is empty.
///
/// The texts are read in their order, and the first one that is refused, by 907 or by 901 to 904, decides. Then
/// the first row that breaks a key or a reference is refused, by 905 or 906. Want of memory may be answered
/// at any time.
pub fn instance_of(alloc: Global, catalog: &Catalog, tables: &[TableText]) -> Result<Instance, Stop>
    requires valid { IsValidCatalog catalog.now }
    requires places { All (λ text. text.table < length catalog.now.tables) tables.now }
    ensures value { Gives (instance_due catalog.now tables.now) (seen instance_rows result) }
    ensures fits { IfOk result (λ instance. Fits catalog.now (instance_rows instance)) }
{
    let mut read = TablesRead::new(alloc, catalog)?;
    for text in tables {
        read = read.add(alloc, catalog, text.table, text.bytes.as_slice())?;
    }
    read.finish(alloc, catalog)
}
