ghost use Rattle.std.specs.Prelude.{◌≡◌, IfOk, map, option_copied, slice_get};
ghost use Rattle.sql_algebra.specs.Catalogs.{table_named, column_named};

use first_faults::Index;
use graph_ast::{Catalog, Column, Table};
use pgq_base::{Name, NoMemory};
use std::alloc::Global;
use std::marker::Model;

/// The item at a place.
pub(crate) fn item_at<T>(items: &[T], place: usize) -> Option<&T>
    ensures { option_copied result ≡ slice_get items.entry.now place }
{
    if place < items.len() {
        Some(&items[place])
    } else {
        None
    }
}

/// A table whose columns are found by their names. Contracts see the table.
#[derive(Drop)]
pub(crate) struct NamedTable<'c> {
    table: &'c Table,
    names: Index<'c>,
}

impl<'c> Model for NamedTable<'c> {
    ghost use Rattle.std.specs.Prelude.{◌≡◌, map};
    ghost use Rattle.graph_ast.specs.declared.catalog.Table.{Table};

    ghost Value = { Table };

    ghost view = { λ x. x.table.now };

    ghost invariant = { λ x. x.names ≡ map (λ c. c.name) x.table.now.columns };
}

fn column_names<'c>(alloc: Global, columns: &'c [Column]) -> Result<Index<'c>, NoMemory>
    ensures { IfOk result (λ names. names ≡ map (λ c. c.name) columns.entry.now) }
{
    let mut names = Index::new(alloc);
    for column in columns {
        names = names.with(column.name.as_bytes())?;
    }
    Ok(names)
}

impl<'c> NamedTable<'c> {
    fn new(alloc: Global, table: &'c Table) -> Result<NamedTable<'c>, NoMemory>
        ensures { IfOk result (λ made. made ≡ table.entry.now) }
    {
        let names = column_names(alloc, table.columns.as_slice())?;
        Ok(NamedTable { table, names })
    }

    /// The first column of that name.
    pub(crate) fn column(&self, name: &Name) -> Option<&Column>
        ensures { option_copied result ≡ column_named self.entry.now name.now }
    {
        match self.names.place(name.as_bytes()) {
            None => None,
            Some(place) => item_at(self.table.columns.as_slice(), place),
        }
    }
}

/// The tables of a catalog, which are found by their names. Contracts see the catalog.
#[derive(Drop)]
pub(crate) struct Tables<'c> {
    catalog: &'c Catalog,
    tables: Vec<NamedTable<'c>>,
    names: Index<'c>,
}

impl<'c> Model for Tables<'c> {
    ghost use Rattle.std.specs.Prelude.{◌≡◌, map};
    ghost use Rattle.graph_ast.specs.declared.catalog.Catalog.{Catalog};

    ghost Value = { Catalog };

    ghost view = { λ x. x.catalog.now };

    ghost invariant = { λ x. (x.tables.items ≡ x.catalog.now.tables) × (x.names ≡ map (λ t. t.name) x.catalog.now.tables) };
}

fn table_names<'c>(alloc: Global, tables: &'c [Table]) -> Result<Index<'c>, NoMemory>
    ensures { IfOk result (λ names. names ≡ map (λ t. t.name) tables.entry.now) }
{
    let mut names = Index::new(alloc);
    for table in tables {
        names = names.with(table.name.as_bytes())?;
    }
    Ok(names)
}

fn named_tables<'c>(alloc: Global, tables: &'c [Table]) -> Result<Vec<NamedTable<'c>>, NoMemory>
    ensures { IfOk result (λ named. named.items ≡ tables.entry.now) }
{
    let mut named = Vec::new(alloc);
    for table in tables {
        named.push(NamedTable::new(alloc, table)?)?;
    }
    Ok(named)
}

impl<'c> Tables<'c> {
    pub(crate) fn new(alloc: Global, catalog: &'c Catalog) -> Result<Tables<'c>, NoMemory>
        ensures { IfOk result (λ made. made ≡ catalog.entry.now) }
    {
        let tables = named_tables(alloc, catalog.tables.as_slice())?;
        let names = table_names(alloc, catalog.tables.as_slice())?;
        Ok(Tables {
            catalog,
            tables,
            names,
        })
    }

    /// The first table of that name.
    pub(crate) fn table(&self, name: &Name) -> Option<&NamedTable<'c>>
        ensures { option_copied result ≡ table_named self.entry.now name.now }
    {
        match self.names.place(name.as_bytes()) {
            None => None,
            Some(place) => item_at(self.tables.as_slice(), place),
        }
    }
}
