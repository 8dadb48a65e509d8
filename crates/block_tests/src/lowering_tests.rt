ghost use Rattle.std.specs.Prelude.{◌≡◌, ◌∷◌, ◌≤◌, [], IfOk, length};
ghost use Rattle.shortest_lowering.specs.SmallQuery.{any_element, column as column_of, edge as edge_of, element as element_of, table as table_of, untagged};
ghost use Rattle.shortest_lowering.specs.SmallQuery.{no_edge as block_of_no_edge, one_edge as block_of_one_edge, read_by as read_by_count};
ghost use Rattle.shortest_lowering.specs.SmallQuery.{small_catalog as catalog_of_query, small_graph as graph_of_query, small_output as output_of_query, small_path as path_of_query};
ghost use Rattle.shortest_lowering.specs.SmallQuery.{small_blocks as blocks_of_query, small_path_blocks as path_blocks_of_query, small_query as query_of_test, small_steps as steps_of_query};

use expr_tree::Expr;
use graph_ast::{
    Alternative, Block, Catalog, CheckedPath, CheckedQuery, Column, ColumnType, Direction,
    EdgeElement, Element, End, Graph, Key, Mode, Operand, Output, PathBlock, Pattern, Piece, Step,
    Table, Tags,
};
use pgq_base::{List, Name, NoMemory, Value};
use query_lowering::candidates;
use shortest_lowering::lower_selected;
use sql_algebra::{Candidate, Conjunct, Select, SqlQuery};
use std::alloc::Global;
use std::test::Fail;

fn name(alloc: Global, text: &str) -> Result<Name, NoMemory>
    requires least { 1 ≤ length text.now }
    requires most { length text.now ≤ 128 }
    ensures { IfOk result (λ name. name ≡ text.now) }
{
    Name::from_bytes(alloc, text.as_bytes())
}

fn one<T: Drop>(alloc: Global, item: T) -> Result<List<T>, NoMemory>
    ensures { IfOk result (λ list. list ≡ item ∷ []) }
{
    let mut list = List::new(alloc);
    list.push(item)?;
    Ok(list)
}

fn column(alloc: Global, text: &str) -> Result<Column, NoMemory>
    requires least { 1 ≤ length text.now }
    requires most { length text.now ≤ 128 }
    ensures { IfOk result (λ column. column ≡ column_of text.now) }
{
    Ok(Column {
        name: name(alloc, text)?,
        kind: ColumnType::Integer,
        not_null: true,
    })
}

// A table whose key is its first column.
fn table(alloc: Global, text: &str, columns: List<Column>) -> Result<Table, NoMemory>
    requires least { 1 ≤ length text.now }
    requires most { length text.now ≤ 128 }
    ensures { IfOk result (λ table. table ≡ table_of text.now columns) }
{
    let key = Key {
        columns: one(alloc, 0)?,
        primary: true,
    };
    Ok(Table {
        name: name(alloc, text)?,
        columns,
        keys: one(alloc, key)?,
        references: List::new(alloc),
    })
}

fn element(alloc: Global, text: &str, place: u32) -> Result<Element, NoMemory>
    requires least { 1 ≤ length text.now }
    requires most { length text.now ≤ 128 }
    ensures { IfOk result (λ element. element ≡ element_of text.now place) }
{
    Ok(Element {
        name: name(alloc, text)?,
        table: place,
        key: one(alloc, 0)?,
        labels: List::new(alloc),
        properties: List::new(alloc),
    })
}

fn edge(alloc: Global) -> Result<EdgeElement, NoMemory>
    ensures { IfOk result (λ edge. edge ≡ edge_of) }
{
    let source = End {
        columns: one(alloc, 1)?,
        vertex: 0,
    };
    let destination = End {
        columns: one(alloc, 2)?,
        vertex: 0,
    };
    Ok(EdgeElement {
        element: element(alloc, "E", 1)?,
        source,
        destination,
    })
}

fn graph(alloc: Global) -> Result<Graph, NoMemory>
    ensures { IfOk result (λ graph. graph ≡ graph_of_query) }
{
    let vertex = element(alloc, "V", 0)?;
    Ok(Graph {
        name: name(alloc, "G")?,
        vertices: one(alloc, vertex)?,
        edges: one(alloc, edge(alloc)?)?,
    })
}

fn catalog(alloc: Global) -> Result<Catalog, NoMemory>
    ensures { IfOk result (λ catalog. catalog ≡ catalog_of_query) }
{
    let own = one(alloc, column(alloc, "I")?)?;
    let mut tables = one(alloc, table(alloc, "V", own)?)?;
    let mut columns = one(alloc, column(alloc, "I")?)?;
    columns.push(column(alloc, "A")?)?;
    columns.push(column(alloc, "B")?)?;
    tables.push(table(alloc, "E", columns)?)?;
    Ok(Catalog {
        tables,
        graphs: one(alloc, graph(alloc)?)?,
    })
}

fn any() -> Pattern
    ensures { result ≡ any_element }
{
    Pattern {
        variable: None,
        label: None,
    }
}

// Any vertex, any edge or none, and any vertex.
fn steps(alloc: Global) -> Result<List<Step>, NoMemory>
    ensures { IfOk result (λ steps. steps ≡ steps_of_query) }
{
    let mut steps = one(alloc, Step::One(Piece::Vertex(any())))?;
    let pieces = one(alloc, Piece::Edge(Direction::Right, any()))?;
    steps.push(Step::Part {
        lower: 0,
        upper: 1,
        pieces,
        conditions: List::new(alloc),
    })?;
    steps.push(Step::One(Piece::Vertex(any())))?;
    Ok(steps)
}

fn path(alloc: Global) -> Result<CheckedPath, NoMemory>
    ensures { IfOk result (λ path. path ≡ path_of_query) }
{
    let operand = Operand {
        steps: steps(alloc)?,
        conditions: List::new(alloc),
    };
    Ok(CheckedPath {
        mode: Mode::Walk,
        all_shortest: true,
        operands: one(alloc, operand)?,
    })
}

fn output(alloc: Global) -> Result<Output, NoMemory>
    ensures { IfOk result (λ output. output ≡ output_of_query) }
{
    Ok(Output {
        value: Expr::Lit(Value::Number(1)),
        name: name(alloc, "C")?,
    })
}

fn query(alloc: Global) -> Result<CheckedQuery, NoMemory>
    ensures { IfOk result (λ query. query ≡ query_of_test) }
{
    Ok(CheckedQuery {
        graph: 0,
        paths: one(alloc, path(alloc)?)?,
        condition: None,
        columns: one(alloc, output(alloc)?)?,
        weight: 0,
    })
}

fn no_names(alloc: Global) -> Tags
    ensures { result ≡ untagged }
{
    Tags {
        names: List::new(alloc),
    }
}

fn read_by(alloc: Global, count: u32) -> Result<List<Alternative>, NoMemory>
    ensures { IfOk result (λ all. all ≡ read_by_count count ∷ []) }
{
    let alternative = Alternative {
        operand: 0,
        counts: one(alloc, count)?,
    };
    one(alloc, alternative)
}

fn no_edge(alloc: Global) -> Result<PathBlock, NoMemory>
    ensures { IfOk result (λ block. block ≡ block_of_no_edge) }
{
    Ok(PathBlock {
        path: 0,
        tags: one(alloc, no_names(alloc))?,
        elements: one(alloc, 0)?,
        alternatives: read_by(alloc, 0)?,
    })
}

fn one_edge(alloc: Global) -> Result<PathBlock, NoMemory>
    ensures { IfOk result (λ block. block ≡ block_of_one_edge) }
{
    let mut tags = one(alloc, no_names(alloc))?;
    tags.push(no_names(alloc))?;
    tags.push(no_names(alloc))?;
    let mut elements = one(alloc, 0)?;
    elements.push(0)?;
    elements.push(0)?;
    Ok(PathBlock {
        path: 0,
        tags,
        elements,
        alternatives: read_by(alloc, 1)?,
    })
}

fn path_blocks(alloc: Global) -> Result<List<PathBlock>, NoMemory>
    ensures { IfOk result (λ all. all ≡ path_blocks_of_query) }
{
    let mut all = one(alloc, no_edge(alloc)?)?;
    all.push(one_edge(alloc)?)?;
    Ok(all)
}

fn blocks(alloc: Global) -> Result<List<Block>, NoMemory>
    ensures { IfOk result (λ all. all ≡ blocks_of_query) }
{
    let first = Block {
        paths: one(alloc, no_edge(alloc)?)?,
    };
    let second = Block {
        paths: one(alloc, one_edge(alloc)?)?,
    };
    let mut all = one(alloc, first)?;
    all.push(second)?;
    Ok(all)
}

fn is_not_exists(conjunct: &Conjunct) -> bool {
    match conjunct {
        Conjunct::Plain(_) => false,
        Conjunct::NotExists(_) => true,
    }
}

fn has_none_shorter(select: &Select) -> bool {
    for conjunct in select.conjuncts.as_slice() {
        if is_not_exists(conjunct) {
            return true;
        }
    }
    false
}

fn lowered(
    alloc: Global,
    catalog: &Catalog,
    query: &CheckedQuery,
    blocks: &[Block],
    given: &[List<PathBlock>],
) -> Result<SqlQuery, NoMemory>
    requires catalog { catalog.now ≡ catalog_of_query }
    requires query { query.now ≡ query_of_test }
    requires blocks { blocks.now ≡ blocks_of_query }
    requires given { given.now ≡ path_blocks_of_query ∷ [] }
{
    lower_selected(alloc, catalog, query, blocks, given)
}

fn lowered_query(alloc: Global) -> Result<SqlQuery, NoMemory> {
    let catalog = catalog(alloc)?;
    let query = query(alloc)?;
    let all = blocks(alloc)?;
    let given = one(alloc, path_blocks(alloc)?)?;
    lowered(alloc, &catalog, &query, all.as_slice(), given.as_slice())
}

// The path of no edge has no shorter one; the path of one edge has that of no edge.
#[test]
fn shortest_of_two(rt: HostRuntime) -> Result<(), Fail> {
    let sql = lowered_query(rt.alloc())?;
    let selects = sql.selects.as_slice();
    assert!(rt; selects.len() == 2);
    assert!(rt; !has_none_shorter(&selects[0]));
    assert!(rt; has_none_shorter(&selects[1]));
    Ok(())
}

fn candidates_of_small(
    alloc: Global,
    catalog: &Catalog,
    query: &CheckedQuery,
) -> Result<List<Candidate>, NoMemory>
    requires catalog { catalog.now ≡ catalog_of_query }
    requires query { query.now ≡ query_of_test }
{
    candidates(alloc, catalog, query, 0)
}

fn small_candidates(alloc: Global) -> Result<List<Candidate>, NoMemory> {
    let catalog = catalog(alloc)?;
    let query = query(alloc)?;
    candidates_of_small(alloc, &catalog, &query)
}

// The path of no edge has one place, and that of one edge three; each key is one column.
#[test]
fn candidates_of_two_path_blocks(rt: HostRuntime) -> Result<(), Fail> {
    let made = small_candidates(rt.alloc())?;
    let all = made.as_slice();
    assert!(rt; all.len() == 2);
    let none = &all[0];
    assert!(rt; none.select.from.as_slice().len() == 1);
    assert!(rt; none.length == 0);
    assert!(rt; none.first_key.as_slice().len() == 1);
    assert!(rt; none.last_key.as_slice().len() == 1);
    let one = &all[1];
    assert!(rt; one.select.from.as_slice().len() == 3);
    assert!(rt; one.length == 1);
    assert!(rt; one.first_key.as_slice().len() == 1);
    assert!(rt; one.last_key.as_slice().len() == 1);
    Ok(())
}
