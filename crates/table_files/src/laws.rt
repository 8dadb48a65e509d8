ghost use Rattle.std.specs.Prelude.{◌≡◌, ◌<◌, ℕ, List, All, Ok, length};
ghost use Rattle.multisets.specs.Bags.{IsWithoutRepeats};
ghost use Rattle.pgq_base.specs.Instances.{InstanceRows};
ghost use Rattle.graph_ast.specs.declared.catalog.Catalog.{Catalog};
ghost use Rattle.table_files.specs.declared.files.TableText.{TableText};
ghost use Rattle.table_files.specs.TableFiles.{instance_due, tables_in, IsGivenBy};

/// The instance of some files, no two of one table, has the rows of each file at the place of its table and no
/// rows at another place; the files have no more bytes together than they may have.
pub fn instances_of_files()
    ensures { (catalog : Catalog) (texts : List TableText) (instance : InstanceRows) → All (λ text. text.table < length catalog.tables) texts
        → IsWithoutRepeats (tables_in texts) → instance_due catalog texts ≡ Ok instance → IsGivenBy catalog texts instance }
{}
