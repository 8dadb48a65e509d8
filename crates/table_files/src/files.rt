ghost use Rattle.std.specs.Prelude.{◌≡◌, ◌<◌, ◌≤◌, ◌-◌, IfOk, length, slice_set};
ghost use Rattle.pgq_base.specs.Answers.{Gives};
ghost use Rattle.graph_ast.specs.Catalogs.{IsValidCatalog};
ghost use Rattle.graph_ast.specs.Fits.{Fits, without_rows};
ghost use Rattle.csv_tables.specs.Constraints.{instance_rows};
ghost use Rattle.csv_tables.specs.Outcomes.{IsRefusal, rows_of, seen};
ghost use Rattle.csv_tables.specs.Typed.{IsTyped};
ghost use Rattle.table_files.specs.TableFiles.{file_read, instance_checked, most_bytes, none_read, read_of, too_large};

use csv_tables::{check_instance, read_table};
use graph_ast::Catalog;
use pgq_base::{Code, Detail, Instance, List, Name, NoMemory, Refusal, Role, Rows, Span, Stop};
use std::alloc::Global;

// The most bytes that the table files of one command may have together.
const MOST_BYTES: u64 = 67_108_864;

/// The text of a table's file, and the place of the table.
#[derive(Debug, Drop)]
pub struct TableText {
    pub table: u32,
    pub bytes: List<u8>,
}

/// Tables whose files are read one after another: the rows so far, by place of the table, and how many
/// bytes the files had.
#[derive(Debug, Drop)]
pub struct TablesRead {
    pub instance: Instance,
    pub bytes: u64,
}

fn refusal(alloc: Global, table: &Name) -> Result<Refusal, NoMemory>
    ensures { IfOk result (λ refusal. refusal ≡ too_large table.now) }
{
    Ok(Refusal {
        role: Role::Table,
        span: Span { from: 0, to: 0 },
        code: Code::DataTooLarge,
        detail: Detail::At {
            table: table.copy(alloc)?,
            row: 0,
            column: 0,
        },
    })
}

/// The refusal 907 of the table at whose file the files have too many bytes, unless memory runs out.
pub fn data_too_large(alloc: Global, table: &Name) -> Stop
    ensures { IsRefusal (too_large table.now) result }
{
    match refusal(alloc, table) {
        Ok(refusal) => Stop::Refused(refusal),
        Err(NoMemory) => Stop::NoMemory,
    }
}

// The instance without rows.
fn empty_tables(alloc: Global, catalog: &Catalog) -> Result<Instance, NoMemory>
    ensures { IfOk result (λ instance. instance_rows instance ≡ without_rows catalog.now) }
{
    let mut tables = List::new(alloc);
    for _table in catalog.tables.as_slice() {
        tables.push(Rows {
            rows: List::new(alloc),
        })?;
    }
    Ok(Instance { tables })
}

// Puts the rows of a table at its place.
fn with_rows(instance: Instance, table: u32, rows: Rows) -> Instance
    requires { table < length instance.tables }
    ensures { instance_rows result ≡ slice_set (instance_rows instance) table (rows_of rows) }
{
    let mut tables = instance.tables.into_vec();
    tables[table as usize] = rows;
    Instance {
        tables: List::from_vec(tables),
    }
}

impl TablesRead {
    /// No file is read, and each table is empty.
    pub fn new(alloc: Global, catalog: &Catalog) -> Result<TablesRead, NoMemory>
        ensures value { IfOk result (λ read. read_of read ≡ none_read catalog.now) }
        ensures typed { IfOk result (λ read. IsTyped catalog.now (instance_rows read.instance)) }
        ensures few { IfOk result (λ read. read.bytes ≤ most_bytes) }
    {
        let instance = empty_tables(alloc, catalog)?;
        Ok(TablesRead { instance, bytes: 0 })
    }

    /// How many bytes the next file may have.
    pub fn room(&self) -> u64
        requires { self.now.bytes ≤ most_bytes }
        ensures { result ≡ most_bytes - self.now.bytes }
    {
        MOST_BYTES - self.bytes
    }

    /// Reads the text of a table's file as its rows.
    ///
    /// Where the files have more than 67,108,864 bytes together, the refusal is 907; else it is what the text
    /// alone is refused with, 901 to 904. Want of memory may be answered at any time.
    pub fn add(
        self,
        alloc: Global,
        catalog: &Catalog,
        table: u32,
        bytes: &[u8],
    ) -> Result<TablesRead, Stop>
        requires valid { IsValidCatalog catalog.now }
        requires place { table < length catalog.now.tables }
        requires typed { IsTyped catalog.now (instance_rows self.instance) }
        requires few { self.bytes ≤ most_bytes }
        ensures value { Gives (file_read catalog.now (read_of self) table bytes.now) (seen read_of result) }
        ensures typed { IfOk result (λ read. IsTyped catalog.now (instance_rows read.instance)) }
        ensures few { IfOk result (λ read. read.bytes ≤ most_bytes) }
    {
        let here = &catalog.tables.as_slice()[table as usize];
        if bytes.len() as u64 > self.room() {
            return Err(data_too_large(alloc, &here.name));
        }
        let rows = read_table(alloc, bytes, here)?;
        let TablesRead {
            instance,
            bytes: before,
        } = self;
        Ok(TablesRead {
            instance: with_rows(instance, table, rows),
            bytes: before + bytes.len() as u64,
        })
    }

    /// The instance, if its rows keep the keys and references of the catalog.
    ///
    /// Else the refusal tells the first row that breaks one, by 905 or 906. Want of memory may be answered
    /// at any time.
    pub fn finish(self, alloc: Global, catalog: &Catalog) -> Result<Instance, Stop>
        requires valid { IsValidCatalog catalog.now }
        requires typed { IsTyped catalog.now (instance_rows self.instance) }
        ensures value { Gives (instance_checked catalog.now (instance_rows self.instance)) (seen instance_rows result) }
        ensures fits { IfOk result (λ instance. Fits catalog.now (instance_rows instance)) }
    {
        let TablesRead { instance, .. } = self;
        check_instance(alloc, catalog, &instance)?;
        Ok(instance)
    }
}
