ghost use Rattle.std.specs.Prelude.{◌≡◌, IfOk, option_copied, option_map};
ghost use Rattle.graph_ast.specs.declared.schema.Named.{Named as NamedTree};

use graph_ast::{ElementTest, LabelExpr, Named};
use pgq_base::{List, Name, NoMemory};
use sqlite_items::Boxed;
use std::alloc::Global;

/// A copy of a name with its span.
pub(crate) fn copy_named(alloc: Global, named: &Named) -> Result<Named, NoMemory>
    ensures { IfOk result (λ copy. copy ≡ named.now) }
{
    let name = named.name.copy(alloc)?;
    Ok(Named {
        name,
        span: named.span,
    })
}

/// A copy of the name of a variable, where there is one.
pub(crate) fn copy_variable(
    alloc: Global,
    variable: Option<&Named>,
) -> Result<Option<Name>, NoMemory>
    ensures { IfOk result (λ copy. copy ≡ option_map (λ (named : NamedTree). named.name) (option_copied variable.entry)) }
{
    match variable {
        None => Ok(None),
        Some(named) => Ok(Some(named.name.copy(alloc)?)),
    }
}

fn copy_all(alloc: Global, list: &[Named]) -> Result<List<Named>, NoMemory>
    ensures { IfOk result (λ copy. copy ≡ list.now) }
{
    let mut all = List::new(alloc);
    for named in list {
        all.push(copy_named(alloc, named)?)?;
    }
    Ok(all)
}

fn copy_some_test(alloc: Global, test: &ElementTest) -> Result<ElementTest, NoMemory>
    ensures { IfOk result (λ copy. copy ≡ test.now) }
{
    match test {
        ElementTest::Same(list) => Ok(ElementTest::Same(copy_all(alloc, list.as_slice())?)),
        ElementTest::AllDifferent(list) => {
            Ok(ElementTest::AllDifferent(copy_all(alloc, list.as_slice())?))
        }
        ElementTest::SourceOf(vertex, edge) => {
            let vertex = copy_named(alloc, vertex)?;
            let edge = copy_named(alloc, edge)?;
            Ok(ElementTest::SourceOf(vertex, edge))
        }
        ElementTest::DestinationOf(vertex, edge) => {
            let vertex = copy_named(alloc, vertex)?;
            let edge = copy_named(alloc, edge)?;
            Ok(ElementTest::DestinationOf(vertex, edge))
        }
    }
}

/// A copy of an element predicate, where there is one.
pub(crate) fn copy_test(
    alloc: Global,
    test: Option<&ElementTest>,
) -> Result<Option<ElementTest>, NoMemory>
    ensures { IfOk result (λ copy. copy ≡ option_copied test.entry) }
{
    match test {
        None => Ok(None),
        Some(test) => Ok(Some(copy_some_test(alloc, test)?)),
    }
}

#[cycle(copies)]
fn copy_some_label(alloc: Global, label: &LabelExpr) -> Result<LabelExpr, NoMemory>
    ensures { IfOk result (λ copy. copy ≡ label.now) }
{
    match label {
        LabelExpr::Label(name) => Ok(LabelExpr::Label(copy_named(alloc, name)?)),
        LabelExpr::AnyLabel => Ok(LabelExpr::AnyLabel),
        LabelExpr::Not(inner) => {
            let inner = copy_some_label(alloc, inner.get())?;
            Ok(LabelExpr::Not(Boxed::new(alloc, inner)?))
        }
        LabelExpr::And(list) => Ok(LabelExpr::And(copy_labels(alloc, list.as_slice())?)),
        LabelExpr::Or(list) => Ok(LabelExpr::Or(copy_labels(alloc, list.as_slice())?)),
    }
}

#[cycle(copies)]
fn copy_labels(alloc: Global, list: &[LabelExpr]) -> Result<List<LabelExpr>, NoMemory>
    ensures { IfOk result (λ copy. copy ≡ list.now) }
{
    let mut all = List::new(alloc);
    for label in list {
        all.push(copy_some_label(alloc, label)?)?;
    }
    Ok(all)
}

/// A copy of a label expression, where there is one.
pub(crate) fn copy_label(
    alloc: Global,
    label: Option<&LabelExpr>,
) -> Result<Option<LabelExpr>, NoMemory>
    ensures { IfOk result (λ copy. copy ≡ option_copied label.entry) }
{
    match label {
        None => Ok(None),
        Some(label) => Ok(Some(copy_some_label(alloc, label)?)),
    }
}
