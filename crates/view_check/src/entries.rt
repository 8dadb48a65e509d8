ghost use Rattle.std.specs.Prelude.{◌≡◌, IfOk, map, option_copied, slice_get};
ghost use Rattle.view_check.specs.GraphRules.{named_table, has_column, table_place, column_place};

use crate::catalogs::place;
use crate::known::item_at;
use first_faults::Index;
use graph_ast::Table;
use pgq_base::{Name, NoMemory};
use std::alloc::Global;
use std::marker::Model;

/// A table of the catalog whose columns are found by name. Contracts see the table.
#[derive(Drop)]
pub(crate) struct Entry<'a> {
    table: &'a Table,
    columns: Index<'a>,
}

impl<'a> Model for Entry<'a> {
    ghost use Rattle.std.specs.Prelude.{◌≡◌, map};
    ghost use Rattle.graph_ast.specs.declared.catalog.Table.{Table as TableTree};

    ghost Value = { TableTree };

    ghost view = { λ x. x.table.now };

    ghost invariant = { λ x. x.columns ≡ map (λ c. c.name) x.table.now.columns };
}

fn columns_by_name<'a>(alloc: Global, table: &'a Table) -> Result<Index<'a>, NoMemory>
    ensures { IfOk result (λ names. names ≡ map (λ c. c.name) table.entry.now.columns) }
{
    let mut names = Index::new(alloc);
    for column in table.columns.as_slice() {
        names = names.with(column.name.as_bytes())?;
    }
    Ok(names)
}

impl<'a> Entry<'a> {
    pub(crate) fn new(alloc: Global, table: &'a Table) -> Result<Entry<'a>, NoMemory>
        ensures { IfOk result (λ entry. entry ≡ table.entry.now) }
    {
        let columns = columns_by_name(alloc, table)?;
        Ok(Entry { table, columns })
    }

    pub(crate) fn table(&self) -> &'a Table
        ensures { result.now ≡ self.now }
    {
        self.table
    }

    #[tactic(auto, using(crate::proofs::KnownLemmas::entry_column_known))]
    pub(crate) fn has_column(&self, name: &Name) -> bool
        ensures { result ≡ has_column self.now name.now }
    {
        self.columns.place(name.as_bytes()).is_some()
    }

    #[tactic(auto, using(crate::proofs::KnownLemmas::entry_column_at))]
    fn find(&self, name: &Name) -> usize
        ensures { result ≡ column_place self.now name.now }
    {
        let found = self.columns.place(name.as_bytes());
        found.unwrap_or(self.table.columns.as_slice().len())
    }

    /// The place of the first column of that name; how many there are where none is.
    pub(crate) fn column_place(&self, name: &Name) -> Result<u32, NoMemory>
        ensures { IfOk result (λ n. n ≡ column_place self.now name.now) }
    {
        place(self.find(name))
    }
}

/// The tables of the catalog, which are found by name. Contracts see their list.
#[derive(Drop)]
pub(crate) struct Entries<'a> {
    names: Index<'a>,
    all: Vec<Entry<'a>>,
}

impl<'a> Model for Entries<'a> {
    ghost use Rattle.std.specs.Prelude.{◌≡◌, List, map};
    ghost use Rattle.graph_ast.specs.declared.catalog.Table.{Table as TableTree};

    ghost Value = { List TableTree };

    ghost view = { λ x. x.all.items };

    ghost invariant = { λ x. x.names ≡ map (λ t. t.name) x.all.items };
}

impl<'a> Entries<'a> {
    pub(crate) fn new(alloc: Global, tables: &'a [Table]) -> Result<Entries<'a>, NoMemory>
        ensures { IfOk result (λ entries. entries ≡ tables.entry.now) }
    {
        let mut names = Index::new(alloc);
        let mut all = Vec::new(alloc);
        for table in tables {
            names = names.with(table.name.as_bytes())?;
            let entry = Entry::new(alloc, table)?;
            all.push(entry)?;
        }
        Ok(Entries { names, all })
    }

    /// The place of the first table of that name; how many there are where none is.
    #[tactic(auto, using(crate::proofs::KnownLemmas::entry_at))]
    pub(crate) fn find(&self, name: &Name) -> usize
        ensures { result ≡ table_place self.now name.now }
    {
        let found = self.names.place(name.as_bytes());
        found.unwrap_or(self.all.len())
    }

    pub(crate) fn at(&self, place: usize) -> Option<&Entry<'a>>
        ensures { option_copied result ≡ slice_get self.now place }
    {
        item_at(self.all.as_slice(), place)
    }

    /// The first table of that name.
    #[tactic(auto, using(crate::proofs::KnownLemmas::entry_first))]
    pub(crate) fn named(&self, name: &Name) -> Option<&Entry<'a>>
        ensures { option_copied result ≡ named_table self.now name.now }
    {
        item_at(self.all.as_slice(), self.find(name))
    }

    pub(crate) fn table_place(&self, name: &Name) -> Result<u32, NoMemory>
        ensures { IfOk result (λ n. n ≡ table_place self.now name.now) }
    {
        place(self.find(name))
    }
}
