use graph_ast::{
    Block, Catalog, CheckedPath, CheckedQuery, Direction, EdgeElement, Element, End, Graph,
    LabelExpr, Mode, Named, Operand, PathBlock, Pattern, Piece, Step,
};
use normal_form::{blocks, path_blocks};
use pgq_base::{List, Name, NoMemory, Span};
use std::alloc::Global;
use std::process::Abort;
use std::test::Fail;

fn name(alloc: Global, text: &str) -> Result<Name, NoMemory> {
    let bytes = text.as_bytes();
    if bytes.is_empty() || bytes.len() > 128 {
        return Err(NoMemory);
    }
    Name::from_bytes(alloc, bytes)
}

// An element whose one label is its name.
fn element(alloc: Global, text: &str) -> Result<Element, NoMemory> {
    let mut labels = List::new(alloc);
    labels.push(name(alloc, text)?)?;
    Ok(Element {
        name: name(alloc, text)?,
        table: 0,
        key: List::new(alloc),
        labels,
        properties: List::new(alloc),
    })
}

fn end(alloc: Global, vertex: u32) -> End {
    End {
        columns: List::new(alloc),
        vertex,
    }
}

fn edge(alloc: Global, text: &str, from: u32, to: u32) -> Result<EdgeElement, NoMemory> {
    Ok(EdgeElement {
        element: element(alloc, text)?,
        source: end(alloc, from),
        destination: end(alloc, to),
    })
}

fn graph(
    alloc: Global,
    vertices: List<Element>,
    edges: List<EdgeElement>,
) -> Result<Graph, NoMemory> {
    Ok(Graph {
        name: name(alloc, "g")?,
        vertices,
        edges,
    })
}

// A vertex element `a` with so many edge elements from and to it.
fn loops(alloc: Global, edges: &[&str]) -> Result<Graph, NoMemory> {
    let mut vertices = List::new(alloc);
    vertices.push(element(alloc, "a")?)?;
    let mut all = List::new(alloc);
    for text in edges {
        all.push(edge(alloc, *text, 0, 0)?)?;
    }
    graph(alloc, vertices, all)
}

// Vertex elements `a` and `b`, with edges from `a` to `b`, back, and from `a` to itself.
fn both_ways(alloc: Global) -> Result<Graph, NoMemory> {
    let mut vertices = List::new(alloc);
    vertices.push(element(alloc, "a")?)?;
    vertices.push(element(alloc, "b")?)?;
    let mut edges = List::new(alloc);
    edges.push(edge(alloc, "p", 0, 1)?)?;
    edges.push(edge(alloc, "q", 1, 0)?)?;
    edges.push(edge(alloc, "r", 0, 0)?)?;
    graph(alloc, vertices, edges)
}

pub(crate) fn catalog(alloc: Global) -> Result<Catalog, NoMemory> {
    let mut graphs = List::new(alloc);
    graphs.push(loops(alloc, &["p"])?)?;
    graphs.push(loops(alloc, &["p", "q"])?)?;
    graphs.push(both_ways(alloc)?)?;
    Ok(Catalog {
        tables: List::new(alloc),
        graphs,
    })
}

// A vertex pattern, or an edge pattern of a direction, or what stands between operands.
#[derive(Clone, Copy, PartialEq, Eq)]
pub(crate) enum Kind {
    Vertex,
    Right,
    Left,
    Either,
    Any,
    Or,
}

// An element pattern with its variable and its label, each empty where there is none, and the bounds of
// its quantifier, which are 0 where there is none.
pub(crate) type Mark = (Kind, &'static str, &'static str, u32, u32);

const X: Mark = (Kind::Vertex, "x", "", 0, 0);

const XB: Mark = (Kind::Vertex, "x", "b", 0, 0);

const Y: Mark = (Kind::Vertex, "y", "", 0, 0);

const YB: Mark = (Kind::Vertex, "y", "b", 0, 0);

const Z: Mark = (Kind::Vertex, "z", "", 0, 0);

const ANY: Mark = (Kind::Vertex, "", "", 0, 0);

const E: Mark = (Kind::Right, "e", "", 0, 0);

const EP: Mark = (Kind::Right, "e", "p", 0, 0);

const F: Mark = (Kind::Right, "f", "", 0, 0);

const BACK: Mark = (Kind::Left, "e", "", 0, 0);

const EITHER: Mark = (Kind::Either, "e", "", 0, 0);

const EDGE: Mark = (Kind::Any, "e", "", 0, 0);

const E_TWO: Mark = (Kind::Right, "e", "", 1, 2);

const F_TWO: Mark = (Kind::Right, "f", "", 1, 2);

const STEP: Mark = (Kind::Right, "", "", 0, 0);

const TWO: Mark = (Kind::Right, "", "", 1, 2);

const OR: Mark = (Kind::Or, "", "", 0, 0);

fn pattern(alloc: Global, variable: &str, label: &str) -> Result<Pattern, NoMemory> {
    let mut made = Pattern {
        variable: None,
        label: None,
    };
    if !variable.is_empty() {
        made.variable = Some(name(alloc, variable)?);
    }
    if !label.is_empty() {
        made.label = Some(LabelExpr::Label(Named {
            name: name(alloc, label)?,
            span: Span { from: 0, to: 0 },
        }));
    }
    Ok(made)
}

fn piece(kind: Kind, pattern: Pattern) -> Piece {
    match kind {
        Kind::Vertex => Piece::Vertex(pattern),
        Kind::Right => Piece::Edge(Direction::Right, pattern),
        Kind::Left => Piece::Edge(Direction::Left, pattern),
        Kind::Either => Piece::Edge(Direction::Either, pattern),
        Kind::Any => Piece::Edge(Direction::Any, pattern),
        Kind::Or => Piece::Vertex(pattern),
    }
}

pub(crate) fn step(alloc: Global, mark: Mark) -> Result<Step, NoMemory> {
    let (kind, variable, label, lower, upper) = mark;
    let piece = piece(kind, pattern(alloc, variable, label)?);
    if upper == 0 {
        return Ok(Step::One(piece));
    }
    let mut pieces = List::new(alloc);
    pieces.push(piece)?;
    Ok(Step::Part {
        lower,
        upper,
        pieces,
        conditions: List::new(alloc),
    })
}

pub(crate) fn operand(alloc: Global, steps: List<Step>) -> Operand {
    Operand {
        steps,
        conditions: List::new(alloc),
    }
}

fn path(alloc: Global, marks: &[Mark]) -> Result<CheckedPath, NoMemory> {
    let mut operands = List::new(alloc);
    let mut steps = List::new(alloc);
    for mark in marks {
        if mark.0 == Kind::Or {
            operands.push(operand(alloc, steps))?;
            steps = List::new(alloc);
        } else {
            steps.push(step(alloc, *mark)?)?;
        }
    }
    operands.push(operand(alloc, steps))?;
    Ok(CheckedPath {
        mode: Mode::Walk,
        all_shortest: false,
        operands,
    })
}

// The path pattern stands behind one other.
fn query(alloc: Global, graph: u32, marks: &[Mark]) -> Result<CheckedQuery, NoMemory> {
    let mut paths = List::new(alloc);
    paths.push(path(alloc, &[X])?)?;
    paths.push(path(alloc, marks)?)?;
    Ok(CheckedQuery {
        graph,
        paths,
        condition: None,
        columns: List::new(alloc),
        weight: 0,
    })
}

const FEW: usize = 1 << 32;

fn blocks_in(
    rt: &impl Abort,
    alloc: Global,
    catalog: &Catalog,
    query: &CheckedQuery,
) -> Result<List<PathBlock>, NoMemory> {
    assert!(rt; (query.graph as usize) < catalog.graphs.as_slice().len());
    let graph = &catalog.graphs.as_slice()[query.graph as usize];
    assert!(rt; graph.vertices.as_slice().len() < FEW);
    assert!(rt; graph.edges.as_slice().len() < FEW);
    assert!(rt; 1 < query.paths.as_slice().len());
    assert!(rt; query.paths.as_slice()[1].operands.as_slice().len() < FEW);
    path_blocks(alloc, catalog, query, 1)
}

fn sums(blocks: &[PathBlock]) -> (usize, usize) {
    let mut places: usize = 0;
    let mut alternatives: usize = 0;
    for block in blocks {
        places = places.saturating_add(block.elements.as_slice().len());
        alternatives = alternatives.saturating_add(block.alternatives.as_slice().len());
    }
    (places, alternatives)
}

type Case = (u32, &'static [Mark], usize, (usize, usize), &'static [u32]);

// A graph and a path pattern; the number of its path blocks, the numbers of their places and of their
// alternatives, and the elements of the last one.
static CASES: [Case; 22] = [
    (0, &[X, E, Y], 1, (3, 1), &[0, 0, 0]),
    (1, &[X, E, Y], 2, (6, 2), &[0, 1, 0]),
    (
        0,
        &[X, (Kind::Right, "e", "", 1, 32), Y],
        32,
        (1088, 32),
        &[0; 65],
    ),
    (0, &[X, TWO, ANY, TWO, Y], 3, (21, 4), &[0; 9]),
    (0, &[X, E_TWO, ANY, F_TWO, Y], 4, (28, 4), &[0; 9]),
    (
        0,
        &[X, (Kind::Right, "e", "", 0, 1), Y],
        2,
        (4, 2),
        &[0, 0, 0],
    ),
    (2, &[X, E, Y], 3, (9, 3), &[1, 1, 0]),
    (2, &[X, BACK, Y], 3, (9, 3), &[1, 0, 0]),
    (2, &[X, EITHER, Y], 5, (15, 5), &[1, 1, 0]),
    (2, &[X, EDGE, Y], 5, (15, 5), &[1, 1, 0]),
    (2, &[X, E, X], 1, (3, 1), &[0, 2, 0]),
    (2, &[X, E, Y, F, X], 3, (15, 3), &[1, 1, 0, 0, 1]),
    (2, &[X, E, Y, BACK, X], 3, (15, 3), &[1, 1, 0, 1, 1]),
    (2, &[X, E, Y, E, Z], 1, (5, 1), &[0, 2, 0, 2, 0]),
    (2, &[XB, E, Y], 1, (3, 1), &[1, 1, 0]),
    (2, &[X, EP, YB], 1, (3, 1), &[0, 0, 1]),
    (2, &[XB, E, X], 0, (0, 0), &[]),
    (2, &[X, YB, E, Z], 1, (3, 1), &[1, 1, 0]),
    (2, &[X, E, Y, OR, X, BACK, Y], 5, (15, 6), &[1, 0, 0]),
    (2, &[X, E, Y, OR, X, Y], 5, (11, 5), &[1]),
    (
        2,
        &[X, (Kind::Right, "e", "", 0, 2), Y],
        10,
        (36, 10),
        &[1, 1, 0, 2, 0],
    ),
    (0, &[X, (Kind::Vertex, "y", "", 1, 3)], 1, (1, 3), &[0]),
];

fn try_case(
    rt: &impl Abort,
    alloc: Global,
    catalog: &Catalog,
    case: &Case,
) -> Result<(), NoMemory> {
    let (graph, marks, count, sizes, last) = *case;
    let found = blocks_in(rt, alloc, catalog, &query(alloc, graph, marks)?)?;
    let blocks = found.as_slice();
    assert!(rt; blocks.len() == count);
    assert!(rt; sums(blocks) == sizes);
    if let Some(block) = blocks.last() {
        assert!(rt; block.path == 1);
        assert!(rt; block.elements.as_slice() == last);
    }
    Ok(())
}

#[test]
fn blocks_of_patterns(rt: HostRuntime) -> Result<(), Fail> {
    let alloc = rt.alloc();
    let catalog = catalog(alloc)?;
    for case in &CASES {
        try_case(&rt, alloc, &catalog, case)?;
    }
    Ok(())
}

fn query_of(
    alloc: Global,
    graph: u32,
    patterns: &[&'static [Mark]],
) -> Result<CheckedQuery, NoMemory> {
    let mut paths = List::new(alloc);
    for marks in patterns {
        paths.push(path(alloc, *marks)?)?;
    }
    Ok(CheckedQuery {
        graph,
        paths,
        condition: None,
        columns: List::new(alloc),
        weight: 0,
    })
}

fn graph_blocks_in(
    rt: &impl Abort,
    alloc: Global,
    catalog: &Catalog,
    query: &CheckedQuery,
) -> Result<List<Block>, NoMemory> {
    assert!(rt; (query.graph as usize) < catalog.graphs.as_slice().len());
    let graph = &catalog.graphs.as_slice()[query.graph as usize];
    assert!(rt; graph.vertices.as_slice().len() < FEW);
    assert!(rt; graph.edges.as_slice().len() < FEW);
    let paths = query.paths.as_slice();
    assert!(rt; paths.len() < FEW);
    assert!(rt;
        paths
            .iter()
            .all(|path| path.operands.as_slice().len() < FEW)
    );
    blocks(alloc, catalog, query)
}

type Join = (
    u32,
    &'static [&'static [Mark]],
    usize,
    &'static [&'static [u32]],
);

// A graph and some path patterns; the number of graph blocks, and the elements of the last one.
static JOINS: [Join; 16] = [
    (2, &[&[X, E, Y]], 3, &[&[1, 1, 0]]),
    (2, &[&[X, E, Y], &[Y, F, Z]], 5, &[&[1, 1, 0], &[0, 2, 0]]),
    (2, &[&[X, E, Y], &[ANY, F, Z]], 9, &[&[1, 1, 0], &[1, 1, 0]]),
    (2, &[&[X, E, Y], &[Y, F, X]], 3, &[&[1, 1, 0], &[0, 0, 1]]),
    (
        2,
        &[&[X, E, Y], &[Z, BACK, X]],
        3,
        &[&[1, 1, 0], &[0, 1, 1]],
    ),
    (
        2,
        &[&[X, E, Y], &[Y, F, Z], &[Z, STEP, X]],
        4,
        &[&[1, 1, 0], &[0, 2, 0], &[0, 0, 1]],
    ),
    (
        2,
        &[&[X, E, Y], &[Y, F, Z], &[Z, STEP, YB]],
        1,
        &[&[0, 0, 1], &[1, 1, 0], &[0, 0, 1]],
    ),
    (2, &[&[XB, E, Y], &[X, EP, YB]], 0, &[]),
    (2, &[&[XB, E, X], &[ANY]], 0, &[]),
    (2, &[&[ANY], &[XB, E, X]], 0, &[]),
    (2, &[&[X], &[Y]], 4, &[&[1], &[1]]),
    (2, &[&[X], &[X], &[X]], 2, &[&[1], &[1], &[1]]),
    (
        1,
        &[&[X, E_TWO, Y], &[Y, F_TWO, X]],
        36,
        &[&[0, 1, 0, 1, 0], &[0, 1, 0, 1, 0]],
    ),
    (
        2,
        &[&[X, E, Y, OR, X, BACK, Y], &[Y, F, X], &[X, TWO, Z]],
        21,
        &[&[1, 0, 0], &[0, 0, 1], &[1, 1, 0, 2, 0]],
    ),
    (
        2,
        &[&[X, E, Y, F, Z], &[Z, STEP, X], &[X, TWO, Z]],
        10,
        &[&[1, 1, 0, 2, 0], &[0, 0, 1], &[1, 1, 0, 2, 0]],
    ),
    // The variable of one operand alone joins none of the other operand's blocks.
    (2, &[&[X, OR, Y], &[X]], 6, &[&[1], &[1]]),
];

fn try_elements(rt: &impl Abort, block: &Block, elements: &[&'static [u32]]) {
    let parts = block.paths.as_slice();
    assert!(rt; parts.len() == elements.len());
    for i in 0..parts.len() {
        assert!(rt; parts[i].path as usize == i);
        assert!(rt; parts[i].elements.as_slice() == elements[i]);
    }
}

fn try_join(
    rt: &impl Abort,
    alloc: Global,
    catalog: &Catalog,
    join: &Join,
) -> Result<(), NoMemory> {
    let (graph, patterns, count, last) = *join;
    let found = graph_blocks_in(rt, alloc, catalog, &query_of(alloc, graph, patterns)?)?;
    let all = found.as_slice();
    assert!(rt; all.len() == count);
    if let Some(block) = all.last() {
        try_elements(rt, block, last);
    }
    Ok(())
}

#[test]
fn blocks_of_queries(rt: HostRuntime) -> Result<(), Fail> {
    let alloc = rt.alloc();
    let catalog = catalog(alloc)?;
    for join in &JOINS {
        try_join(&rt, alloc, &catalog, join)?;
    }
    Ok(())
}
