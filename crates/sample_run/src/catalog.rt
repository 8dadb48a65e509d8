ghost use Rattle.std.specs.Prelude.{◌≡◌, ◌∷◌, ◌≤◌, [], IfOk, length};
ghost use Rattle.graph_ast.specs.Catalogs.{IsValidCatalog};
ghost use Rattle.sample_run.specs.SampleCatalog.{column, first_key, knows_edge, knows_table, person_element, person_table, property, sample_catalog, sample_graph, to_person};

use crate::laws::sample_catalog_valid;
use graph_ast::{
    Catalog, Column, ColumnType, EdgeElement, Element, End, Graph, Key, Property, Reference, Table,
};
use pgq_base::{List, Name, NoMemory};
use std::alloc::Global;

fn name(alloc: Global, text: &str) -> Result<Name, NoMemory>
    requires least { 1 ≤ length text.now }
    requires most { length text.now ≤ 128 }
    ensures { IfOk result (λ name. name ≡ text.now) }
{
    Name::from_bytes(alloc, text.as_bytes())
}

fn one<T: Drop>(alloc: Global, item: T) -> Result<List<T>, NoMemory>
    ensures { IfOk result (λ list. list ≡ item ∷ []) }
{
    let mut list = List::new(alloc);
    list.push(item)?;
    Ok(list)
}

fn column(alloc: Global, text: &str, kind: ColumnType, not_null: bool) -> Result<Column, NoMemory>
    requires least { 1 ≤ length text.now }
    requires most { length text.now ≤ 128 }
    ensures { IfOk result (λ c. c ≡ column text.now kind not_null) }
{
    Ok(Column {
        name: name(alloc, text)?,
        kind,
        not_null,
    })
}

fn property(alloc: Global, text: &str, place: u32) -> Result<Property, NoMemory>
    requires least { 1 ≤ length text.now }
    requires most { length text.now ≤ 128 }
    ensures { IfOk result (λ p. p ≡ property text.now place) }
{
    Ok(Property {
        name: name(alloc, text)?,
        column: place,
    })
}

// The first column is the primary key.
fn first_key(alloc: Global) -> Result<List<Key>, NoMemory>
    ensures { IfOk result (λ keys. keys ≡ first_key ∷ []) }
{
    let columns = one(alloc, 0)?;
    one(
        alloc,
        Key {
            columns,
            primary: true,
        },
    )
}

fn to_person(alloc: Global, place: u32) -> Result<Reference, NoMemory>
    ensures { IfOk result (λ r. r ≡ to_person place) }
{
    Ok(Reference {
        columns: one(alloc, place)?,
        table: 0,
        targets: one(alloc, 0)?,
    })
}

fn person_table(alloc: Global) -> Result<Table, NoMemory>
    ensures { IfOk result (λ t. t ≡ person_table) }
{
    let mut columns = List::new(alloc);
    columns.push(column(alloc, "ID", ColumnType::Integer, true)?)?;
    columns.push(column(alloc, "NAME", ColumnType::VarChar(20), false)?)?;
    columns.push(column(alloc, "AGE", ColumnType::Integer, false)?)?;
    Ok(Table {
        name: name(alloc, "PERSON")?,
        columns,
        keys: first_key(alloc)?,
        references: List::new(alloc),
    })
}

fn knows_table(alloc: Global) -> Result<Table, NoMemory>
    ensures { IfOk result (λ t. t ≡ knows_table) }
{
    let mut columns = List::new(alloc);
    columns.push(column(alloc, "ID", ColumnType::Integer, true)?)?;
    columns.push(column(alloc, "A", ColumnType::Integer, false)?)?;
    columns.push(column(alloc, "B", ColumnType::Integer, false)?)?;
    columns.push(column(alloc, "SINCE", ColumnType::Integer, false)?)?;
    let mut references = List::new(alloc);
    references.push(to_person(alloc, 1)?)?;
    references.push(to_person(alloc, 2)?)?;
    Ok(Table {
        name: name(alloc, "KNOWS")?,
        columns,
        keys: first_key(alloc)?,
        references,
    })
}

fn person_element(alloc: Global) -> Result<Element, NoMemory>
    ensures { IfOk result (λ e. e ≡ person_element) }
{
    let mut properties = List::new(alloc);
    properties.push(property(alloc, "ID", 0)?)?;
    properties.push(property(alloc, "NAME", 1)?)?;
    properties.push(property(alloc, "AGE", 2)?)?;
    Ok(Element {
        name: name(alloc, "PERSON")?,
        table: 0,
        key: one(alloc, 0)?,
        labels: one(alloc, name(alloc, "PERSON")?)?,
        properties,
    })
}

fn knows_edge(alloc: Global) -> Result<EdgeElement, NoMemory>
    ensures { IfOk result (λ e. e ≡ knows_edge) }
{
    let mut properties = List::new(alloc);
    properties.push(property(alloc, "ID", 0)?)?;
    properties.push(property(alloc, "A", 1)?)?;
    properties.push(property(alloc, "B", 2)?)?;
    properties.push(property(alloc, "SINCE", 3)?)?;
    let element = Element {
        name: name(alloc, "KNOWS")?,
        table: 1,
        key: one(alloc, 0)?,
        labels: one(alloc, name(alloc, "KNOWS")?)?,
        properties,
    };
    Ok(EdgeElement {
        element,
        source: End {
            columns: one(alloc, 1)?,
            vertex: 0,
        },
        destination: End {
            columns: one(alloc, 2)?,
            vertex: 0,
        },
    })
}

fn sample_graph(alloc: Global) -> Result<Graph, NoMemory>
    ensures { IfOk result (λ g. g ≡ sample_graph) }
{
    Ok(Graph {
        name: name(alloc, "G")?,
        vertices: one(alloc, person_element(alloc)?)?,
        edges: one(alloc, knows_edge(alloc)?)?,
    })
}

fn made_catalog(alloc: Global) -> Result<Catalog, NoMemory>
    ensures { IfOk result (λ catalog. catalog ≡ sample_catalog) }
{
    let mut tables = List::new(alloc);
    tables.push(person_table(alloc)?)?;
    tables.push(knows_table(alloc)?)?;
    Ok(Catalog {
        tables,
        graphs: one(alloc, sample_graph(alloc)?)?,
    })
}

/// The catalog of the generated run, which its schema text stands for. It is valid.
pub fn sample_catalog(alloc: Global) -> Result<Catalog, NoMemory>
    ensures value { IfOk result (λ catalog. catalog ≡ sample_catalog) }
    ensures valid { IfOk result IsValidCatalog }
{
    sample_catalog_valid();
    made_catalog(alloc)
}
