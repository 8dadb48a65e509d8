ghost use Rattle.std.specs.Prelude.{◌≡◌, ◌<◌, ◌≤◌, All, IfOk, IfSome, length};
ghost use Rattle.pgq_base.specs.Files.{IsAsked};
ghost use Rattle.graph_ast.specs.Catalogs.{IsValidCatalog};
ghost use Rattle.graph_ast.specs.Fits.{Fits};
ghost use Rattle.csv_tables.specs.Constraints.{instance_rows};
ghost use Rattle.csv_tables.specs.Outcomes.{seen};
ghost use Rattle.csv_tables.specs.Typed.{IsTyped};
ghost use Rattle.table_files.specs.TableFiles.{most_bytes, none_read, read_of};
ghost use Rattle.table_loads.specs.Loads.{TablesCause, TablesGive, file_at, files_at, instance_at};

use crate::stops::TablesStop;
use graph_ast::Catalog;
use pgq_base::{Instance, LoadStop, Shelf, load};
use std::alloc::Global;
use table_files::{TablesRead, data_too_large};
use table_words::TableWord;

// Reads the file of a table.
fn load_file<F: Shelf>(
    alloc: Global,
    files: &mut F,
    catalog: &Catalog,
    read: TablesRead,
    table: u32,
    name: &str,
) -> Result<TablesRead, TablesStop>
    requires asked { IsAsked name.now (F.words files.old) }
    requires valid { IsValidCatalog catalog.now }
    requires place { table < length catalog.now.tables }
    requires typed { IsTyped catalog.now (instance_rows read.instance) }
    requires few { read.bytes ≤ most_bytes }
    ensures words { F.words files.new ≡ F.words files.old }
    ensures files { F.files files.new ≡ F.files files.old }
    ensures cause { TablesCause (F.faults files.old) (F.faults files.new) result }
    ensures told { IfSome (F.files files.old) (λ told. TablesGive (file_at catalog.now told (read_of read) table name.now) (seen read_of result)) }
    ensures typed { IfOk result (λ read. IsTyped catalog.now (instance_rows read.instance)) }
    ensures few { IfOk result (λ read. read.bytes ≤ most_bytes) }
{
    let here = &catalog.tables.as_slice()[table as usize];
    match load(alloc, files, name, read.room()) {
        Ok(bytes) => Ok(read.add(alloc, catalog, table, bytes.as_slice())?),
        Err(LoadStop::Failed) => Err(TablesStop::ReadFault),
        Err(LoadStop::TooLong) => Err(data_too_large(alloc, &here.name).into()),
        Err(LoadStop::NoMemory) => Err(TablesStop::NoMemory),
    }
}

// Reads the files of the words, in their order.
fn load_files<F: Shelf>(
    alloc: Global,
    files: &mut F,
    catalog: &Catalog,
    words: &[TableWord],
    places: &[u32],
) -> Result<TablesRead, TablesStop>
    requires asked { All (λ word. IsAsked word.file (F.words files.old)) words.now }
    requires valid { IsValidCatalog catalog.now }
    requires each { length places.now ≡ length words.now }
    requires within { All (λ place. place < length catalog.now.tables) places.now }
    ensures words { F.words files.new ≡ F.words files.old }
    ensures files { F.files files.new ≡ F.files files.old }
    ensures cause { TablesCause (F.faults files.old) (F.faults files.new) result }
    ensures told { IfSome (F.files files.old) (λ told. TablesGive (files_at catalog.now told (none_read catalog.now) words.now places.now) (seen read_of result)) }
    ensures typed { IfOk result (λ read. IsTyped catalog.now (instance_rows read.instance)) }
{
    let mut read = TablesRead::new(alloc, catalog)?;
    for i in 0..words.len() {
        read = load_file(
            alloc,
            files,
            catalog,
            read,
            places[i],
            words[i].file.as_text(),
        )?;
    }
    Ok(read)
}

/// The instance that the files of the words give, each of which names the table at the place beside it.
///
/// The files are read in the order of the words, and of each its size is looked at before its content; then
/// the keys and references of all rows. The refusals are 901 to 907. A read fault comes only where the
/// count of the shelf's faults rose, or stands at its last value.
pub fn load_instance<F: Shelf>(
    alloc: Global,
    files: &mut F,
    catalog: &Catalog,
    words: &[TableWord],
    places: &[u32],
) -> Result<Instance, TablesStop>
    requires asked { All (λ word. IsAsked word.file (F.words files.old)) words.now }
    requires valid { IsValidCatalog catalog.now }
    requires each { length places.now ≡ length words.now }
    requires within { All (λ place. place < length catalog.now.tables) places.now }
    ensures words { F.words files.new ≡ F.words files.old }
    ensures files { F.files files.new ≡ F.files files.old }
    ensures cause { TablesCause (F.faults files.old) (F.faults files.new) result }
    ensures told { IfSome (F.files files.old) (λ told. TablesGive (instance_at catalog.now told words.now places.now) (seen instance_rows result)) }
    ensures fits { IfOk result (λ instance. Fits catalog.now (instance_rows instance)) }
{
    let read = load_files(alloc, files, catalog, words, places)?;
    Ok(read.finish(alloc, catalog)?)
}
