use expr_tree::Expr;
use graph_ast::{
    Catalog, Condition, Direction, Factor, Filler, Graph, Named, PathTree, PropertyRef, Quantifier,
    QuantifierKind, QueryTree, Sequence, Union,
};
use pattern_check::first_name_fault;
use pgq_base::{List, Name, NoMemory, Span};
use std::alloc::Global;
use std::test::Fail;

// A vertex pattern, an edge pattern, or an edge pattern with `{1,2}`.
#[derive(Clone, Copy, PartialEq, Eq)]
enum Form {
    Vertex,
    Edge,
    Edges,
}

// A name and its span.
type Word = (&'static str, u32, u32);

const NOWHERE: Span = Span { from: 0, to: 0 };

fn named(alloc: Global, word: Word) -> Result<Named, NoMemory> {
    let (text, from, to) = word;
    let bytes = text.as_bytes();
    if bytes.is_empty() || bytes.len() > 128 {
        return Err(NoMemory);
    }
    let name = Name::from_bytes(alloc, bytes)?;
    Ok(Named {
        name,
        span: Span { from, to },
    })
}

fn factor(alloc: Global, form: Form, word: Word) -> Result<Factor, NoMemory> {
    let variable = named(alloc, word)?;
    let filler = Filler {
        variable: Some(variable),
        label: None,
        condition: None,
        span: NOWHERE,
    };
    let twice = Quantifier {
        kind: QuantifierKind::Between(1, 2),
        span: NOWHERE,
    };
    match form {
        Form::Vertex => Ok(Factor::Vertex(filler)),
        Form::Edge => Ok(Factor::Edge(Direction::Right, filler, None)),
        Form::Edges => Ok(Factor::Edge(Direction::Right, filler, Some(twice))),
    }
}

fn factors(alloc: Global, marks: &[(Form, Word)]) -> Result<List<Factor>, NoMemory> {
    let mut factors = List::new(alloc);
    for (form, word) in marks {
        factors.push(factor(alloc, *form, *word)?)?;
    }
    Ok(factors)
}

fn paths(alloc: Global, marks: &[(Form, Word)]) -> Result<List<PathTree>, NoMemory> {
    let factors = factors(alloc, marks)?;
    let mut operands = List::new(alloc);
    operands.push(Sequence { factors })?;
    let mut paths = List::new(alloc);
    paths.push(PathTree {
        variable: None,
        selector: None,
        mode: None,
        body: Union {
            operands,
            joints: List::new(alloc),
        },
        span: NOWHERE,
    })?;
    Ok(paths)
}

// `(g MATCH` path pattern `WHERE` a leaf, with no column.
fn query(alloc: Global, marks: &[(Form, Word)], leaf: (Word, Word)) -> Result<QueryTree, NoMemory> {
    let (variable, property) = leaf;
    let paths = paths(alloc, marks)?;
    let graph = named(alloc, ("g", 27, 28))?;
    let variable = named(alloc, variable)?;
    let property = named(alloc, property)?;
    Ok(QueryTree {
        graph,
        match_span: NOWHERE,
        paths,
        condition: Some(Condition {
            tree: Expr::Leaf(PropertyRef {
                variable,
                property,
                test: None,
            }),
            spans: List::new(alloc),
        }),
        columns: List::new(alloc),
    })
}

// A graph `g` without elements.
fn catalog(alloc: Global) -> Result<Catalog, NoMemory> {
    let graph = named(alloc, ("g", 0, 0))?;
    let mut graphs = List::new(alloc);
    graphs.push(Graph {
        name: graph.name,
        vertices: List::new(alloc),
        edges: List::new(alloc),
    })?;
    Ok(Catalog {
        tables: List::new(alloc),
        graphs,
    })
}

fn expect(alloc: Global, tree: &QueryTree, wanted: (u32, u32, u32)) -> Result<(), Fail> {
    let (code, from, to) = wanted;
    let catalog = catalog(alloc)?;
    match first_name_fault(alloc, &catalog, tree)? {
        None => Err("no fault")?,
        Some(fault) => {
            let same = fault.code.number() == code;
            if same && fault.span.from == from && fault.span.to == to {
                Ok(())
            } else {
                Err("another fault")?
            }
        }
    }
}

const A: (Form, Word) = (Form::Vertex, ("a", 36, 37));

const B: (Form, Word) = (Form::Vertex, ("b", 50, 51));

const C: (Form, Word) = (Form::Vertex, ("c", 59, 60));

const TWICE: (Form, Word) = (Form::Edges, ("e", 40, 41));

const AGAIN: (Form, Word) = (Form::Edge, ("e", 54, 55));

const X: (Form, Word) = (Form::Vertex, ("x", 36, 37));

const X_AGAIN: (Form, Word) = (Form::Edge, ("x", 40, 41));

const Y: (Form, Word) = (Form::Vertex, ("y", 45, 46));

// A path pattern, the leaf behind WHERE, and the code and the span of the first fault.
type Row = (&'static [(Form, Word)], (Word, Word), (u32, u32, u32));

// `(x)-[x]->(y) WHERE x.id`, then `(a)-[e]->{1,2}(b)` with `WHERE e.id`, `WHERE z.id` and `WHERE a.city`, and
// `(a)-[e]->{1,2}(b)-[e]->(c) WHERE a.id`.
static ROWS: [Row; 5] = [
    (
        &[X, X_AGAIN, Y],
        (("x", 55, 56), ("id", 57, 59)),
        (605, 40, 41),
    ),
    (
        &[A, TWICE, B],
        (("e", 59, 60), ("id", 61, 63)),
        (604, 59, 60),
    ),
    (
        &[A, TWICE, B],
        (("z", 59, 60), ("id", 61, 63)),
        (603, 59, 60),
    ),
    (
        &[A, TWICE, B],
        (("a", 59, 60), ("city", 61, 65)),
        (608, 61, 65),
    ),
    (
        &[A, TWICE, B, AGAIN, C],
        (("a", 67, 68), ("id", 69, 71)),
        (606, 54, 55),
    ),
];

fn try_row(alloc: Global, row: &Row) -> Result<(), Fail> {
    let (marks, leaf, wanted) = *row;
    let tree = query(alloc, marks, leaf)?;
    expect(alloc, &tree, wanted)
}

#[test]
fn names_of_a_pattern(rt: HostRuntime) -> Result<(), Fail> {
    let alloc = rt.alloc();
    for row in &ROWS {
        try_row(alloc, row)?;
    }
    Ok(())
}
