ghost use Rattle.std.specs.Prelude.{◌≡◌, ◌↔◌, ℕ, All, Decides, List as Sequence, None, Ok};
ghost use Rattle.multisets.specs.Bags.{IsIn};
ghost use Rattle.pgq_base.specs.declared.value.Value.{Value};
ghost use Rattle.pgq_base.specs.Instances.{InstanceRows, RowValues, TableRows};
ghost use Rattle.graph_ast.specs.declared.catalog.Catalog.{Catalog};
ghost use Rattle.graph_ast.specs.declared.catalog.ColumnType.{ColumnType};
ghost use Rattle.graph_ast.specs.declared.catalog.Table.{Table};
ghost use Rattle.graph_ast.specs.Catalogs.{IsValidCatalog};
ghost use Rattle.graph_ast.specs.Fits.{Fits, IsRowOf, IsWithin};
ghost use Rattle.csv_tables.specs.Constraints.{HasNumbers, instance_refusal};
ghost use Rattle.csv_tables.specs.Reading.{table_rows};
ghost use Rattle.csv_tables.specs.Typed.{IsTyped};
ghost use Rattle.csv_tables.specs.Within.{is_within};

/// The test of a value at a column's type answers whether it lies in the type.
pub fn types_tell()
    ensures { (kind : ColumnType) (value : Value) → Decides (is_within kind value) (IsWithin kind value) }
{}

/// An instance whose rows are of their columns' types fits the catalog exactly where no row breaks a key or a
/// reference.
pub fn checked_instances_fit()
    ensures { (catalog : Catalog) (instance : InstanceRows) → IsTyped catalog instance
        → (instance_refusal catalog instance ≡ None) ↔ Fits catalog instance }
{}

/// The rows of a table's text are rows of its columns.
pub fn read_rows_are_typed()
    ensures { (bytes : Sequence ℕ) (table : Table) (rows : TableRows) → table_rows bytes table ≡ Ok rows
        → (row : RowValues) → IsIn row rows → IsRowOf table.columns row }
{}

/// The columns of a valid catalog have numbers, counted from 1, as the check of instances asks.
pub fn valid_catalogs_number()
    ensures { (catalog : Catalog) → IsValidCatalog catalog → All HasNumbers catalog.tables }
{}
