ghost use Rattle.std.specs.Prelude.{◌≡◌, IfOk, option_copied};
ghost use Rattle.expr_tree.specs.declared.tree.Expr.TheVariants.{Leaf};
ghost use Rattle.pattern_check.specs.Checked.{class_of_leaf, leaf_for, checked_condition};

use crate::classes::leaf_class;
use crate::copies::copy_test;
use expr_tree::{Expr, map_leaves};
use graph_ast::{Catalog, Condition, ElementTest, Graph, PropertyLeaf, PropertyRef};
use pgq_base::{Class, NoMemory};
use std::alloc::Global;

fn class_of_leaf(test: Option<&ElementTest>, class: Class) -> Class
    ensures { result ≡ class_of_leaf (option_copied test.entry) class }
{
    match test {
        None => class,
        Some(_) => Class::Truth,
    }
}

fn leaf_for(
    alloc: Global,
    catalog: &Catalog,
    graph: &Graph,
    leaf: &PropertyRef,
) -> Result<Expr<PropertyLeaf>, NoMemory>
    ensures { IfOk result (λ made. made ≡ Leaf (leaf_for catalog.now graph.now leaf.now)) }
{
    let variable = leaf.variable.name.copy(alloc)?;
    let property = leaf.property.name.copy(alloc)?;
    let test = copy_test(alloc, leaf.test.as_ref())?;
    let class = class_of_leaf(leaf.test.as_ref(), leaf_class(catalog, graph, leaf));
    Ok(Expr::Leaf(PropertyLeaf {
        variable,
        property,
        class,
        test,
    }))
}

/// A condition with the class of each leaf.
pub(crate) fn checked_condition(
    alloc: Global,
    catalog: &Catalog,
    graph: &Graph,
    condition: &Condition,
) -> Result<Expr<PropertyLeaf>, NoMemory>
    ensures { IfOk result (λ made. made ≡ checked_condition catalog.now graph.now condition.now) }
{
    map_leaves(alloc, &condition.tree, |leaf| {
        leaf_for(alloc, catalog, graph, leaf)
    })
}
