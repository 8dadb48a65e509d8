use crate::form_tests::{Kind, Mark, catalog, operand, step};
use expr_tree::Expr;
use graph_ast::{Catalog, CheckedPath, CheckedQuery, Mode, Operand, Output, PropertyLeaf, Step};
use normal_form::{block_size, path_blocks, weight_of};
use pgq_base::{Class, List, Name, NoMemory};
use std::alloc::Global;
use std::process::Abort;
use std::test::Fail;

const X: Mark = (Kind::Vertex, "x", "", 0, 0);

const Y: Mark = (Kind::Vertex, "y", "", 0, 0);

const Z: Mark = (Kind::Vertex, "z", "", 0, 0);

const E: Mark = (Kind::Right, "e", "", 0, 0);

const F: Mark = (Kind::Right, "f", "", 0, 0);

const STEP: Mark = (Kind::Right, "", "", 0, 0);

const BACK: Mark = (Kind::Left, "e", "", 0, 0);

const OR: Mark = (Kind::Or, "", "", 0, 0);

const TWO: Mark = (Kind::Right, "", "", 1, 2);

const NONE_OR_TWO: Mark = (Kind::Right, "", "", 0, 2);

const E_THREE: Mark = (Kind::Right, "e", "", 1, 3);

const E_NONE_OR_THREE: Mark = (Kind::Right, "e", "", 0, 3);

const E_FOUR: Mark = (Kind::Right, "e", "", 1, 4);

const E_MANY: Mark = (Kind::Right, "e", "", 1, 32);

const F_MANY: Mark = (Kind::Right, "f", "", 1, 32);

// An expression of so many nodes.
fn tree(alloc: Global, nodes: usize) -> Result<Expr<PropertyLeaf>, NoMemory> {
    let mut members = List::new(alloc);
    for _ in 1..nodes {
        members.push(Expr::Null(Class::Number))?;
    }
    Ok(Expr::All(members))
}

// A condition of so many nodes, where there are some.
fn conditions(alloc: Global, nodes: usize) -> Result<List<Expr<PropertyLeaf>>, NoMemory> {
    let mut all = List::new(alloc);
    if nodes > 0 {
        all.push(tree(alloc, nodes)?)?;
    }
    Ok(all)
}

fn columns(alloc: Global, count: usize) -> Result<List<Output>, NoMemory> {
    let mut all = List::new(alloc);
    for _ in 0..count {
        all.push(Output {
            value: Expr::Null(Class::Number),
            name: Name::from_bytes(alloc, b"c")?,
        })?;
    }
    Ok(all)
}

fn last(alloc: Global, nodes: usize) -> Result<Option<Expr<PropertyLeaf>>, NoMemory> {
    if nodes == 0 {
        return Ok(None);
    }
    Ok(Some(tree(alloc, nodes)?))
}

// Nodes of the condition of each quantified part, of that of each operand, and of the last one.
type Nodes = (usize, usize, usize);

fn with_condition(alloc: Global, step: Step, nodes: usize) -> Result<Step, NoMemory> {
    match step {
        Step::One(piece) => Ok(Step::One(piece)),
        Step::Part {
            lower,
            upper,
            pieces,
            conditions: _,
        } => Ok(Step::Part {
            lower,
            upper,
            pieces,
            conditions: conditions(alloc, nodes)?,
        }),
    }
}

fn closed(alloc: Global, steps: List<Step>, nodes: usize) -> Result<Operand, NoMemory> {
    let mut made = operand(alloc, steps);
    made.conditions = conditions(alloc, nodes)?;
    Ok(made)
}

fn path(
    alloc: Global,
    mode: Mode,
    all_shortest: bool,
    marks: &[Mark],
    nodes: Nodes,
) -> Result<CheckedPath, NoMemory> {
    let mut operands = List::new(alloc);
    let mut steps = List::new(alloc);
    for mark in marks {
        if mark.0 == Kind::Or {
            operands.push(closed(alloc, steps, nodes.1)?)?;
            steps = List::new(alloc);
        } else {
            steps.push(with_condition(alloc, step(alloc, *mark)?, nodes.0)?)?;
        }
    }
    operands.push(closed(alloc, steps, nodes.1)?)?;
    Ok(CheckedPath {
        mode,
        all_shortest,
        operands,
    })
}

// A graph, a mode and whether there is ALL SHORTEST; the path patterns; the nodes of conditions and the
// number of columns; the weight.
type Case = (
    u32,
    Mode,
    bool,
    &'static [&'static [Mark]],
    Nodes,
    usize,
    Option<u64>,
);

fn query(alloc: Global, case: &Case) -> Result<CheckedQuery, NoMemory> {
    let (graph, mode, all_shortest, patterns, nodes, count, _) = *case;
    let mut paths = List::new(alloc);
    for marks in patterns {
        paths.push(path(alloc, mode, all_shortest, *marks, nodes)?)?;
    }
    Ok(CheckedQuery {
        graph,
        paths,
        condition: last(alloc, nodes.2)?,
        columns: columns(alloc, count)?,
        weight: 0,
    })
}

const FEW: usize = 1 << 32;

fn weight_in(
    rt: &impl Abort,
    alloc: Global,
    catalog: &Catalog,
    query: &CheckedQuery,
) -> Result<Option<u64>, NoMemory> {
    assert!(rt; (query.graph as usize) < catalog.graphs.as_slice().len());
    let graph = &catalog.graphs.as_slice()[query.graph as usize];
    assert!(rt; graph.vertices.as_slice().len() < FEW);
    assert!(rt; graph.edges.as_slice().len() < FEW);
    let paths = query.paths.as_slice();
    assert!(rt; paths.len() < FEW);
    assert!(rt;
        paths
            .iter()
            .all(|path| path.operands.as_slice().len() < FEW)
    );
    weight_of(alloc, catalog, query)
}

// The weights that an independent model gives.
static CASES: [Case; 15] = [
    (0, Mode::Walk, false, &[&[X, E, Y]], (0, 0, 0), 2, Some(8)),
    (
        0,
        Mode::Walk,
        false,
        &[&[X, TWO, TWO, Y]],
        (0, 0, 0),
        2,
        Some(62),
    ),
    (
        0,
        Mode::Walk,
        false,
        &[&[X, E_MANY, Y]],
        (0, 0, 0),
        1,
        Some(2208),
    ),
    (
        0,
        Mode::Walk,
        true,
        &[&[X, E_MANY, F_MANY, Y]],
        (0, 0, 0),
        1,
        None,
    ),
    (
        0,
        Mode::Trail,
        false,
        &[&[X, E_FOUR, Y]],
        (3, 2, 3),
        2,
        Some(116),
    ),
    (
        0,
        Mode::Acyclic,
        false,
        &[&[X, E_NONE_OR_THREE, Y]],
        (0, 0, 0),
        2,
        Some(50),
    ),
    (
        0,
        Mode::Simple,
        false,
        &[&[X, E_THREE, Y]],
        (0, 0, 0),
        2,
        Some(43),
    ),
    (1, Mode::Walk, false, &[&[X, E_MANY, Y]], (0, 0, 0), 1, None),
    (
        1,
        Mode::Walk,
        true,
        &[&[X, E_THREE, Y]],
        (0, 0, 0),
        1,
        Some(375),
    ),
    (
        2,
        Mode::Walk,
        false,
        &[&[X, E, Y], &[Y, F, Z], &[Z, STEP, X]],
        (0, 0, 0),
        1,
        Some(96),
    ),
    (
        2,
        Mode::Walk,
        false,
        &[&[X, E, Y, OR, X, BACK, Y]],
        (0, 0, 0),
        1,
        Some(39),
    ),
    (
        2,
        Mode::Walk,
        true,
        &[&[X, E_THREE, Y], &[Z, NONE_OR_TWO, X]],
        (0, 0, 0),
        1,
        Some(1698),
    ),
    (
        0,
        Mode::Walk,
        false,
        &[&[X]],
        (0, 0, 999_996),
        2,
        Some(1_000_000),
    ),
    (0, Mode::Walk, false, &[&[X]], (0, 0, 999_997), 2, None),
    (0, Mode::Walk, false, &[&[X]], (0, 0, 0), 0, Some(2)),
];

#[test]
fn weights_of_queries(rt: HostRuntime) -> Result<(), Fail> {
    let alloc = rt.alloc();
    let catalog = catalog(alloc)?;
    for case in &CASES {
        let found = weight_in(&rt, alloc, &catalog, &query(alloc, case)?)?;
        assert!(rt; found == case.6);
    }
    Ok(())
}

#[test]
fn size_of_a_block(rt: HostRuntime) -> Result<(), Fail> {
    let alloc = rt.alloc();
    let catalog = catalog(alloc)?;
    let query = query(alloc, &CASES[4])?;
    assert!(rt; query.graph == 0);
    assert!(rt; !catalog.graphs.as_slice().is_empty());
    let graph = &catalog.graphs.as_slice()[0];
    assert!(rt; graph.vertices.as_slice().len() < FEW);
    assert!(rt; graph.edges.as_slice().len() < FEW);
    assert!(rt; !query.paths.as_slice().is_empty());
    assert!(rt; query.paths.as_slice()[0].operands.as_slice().len() < FEW);
    let found = path_blocks(alloc, &catalog, &query, 0)?;
    assert!(rt; found.as_slice().len() == 4);
    let block = &found.as_slice()[3];
    assert!(rt; (block.path as usize) < query.paths.as_slice().len());
    // nine places, twelve nodes in the iterations and two outside, and six pairs of edges
    assert!(rt; block_size(&catalog, &query, block) == 29);
    Ok(())
}
