ghost use Rattle.std.specs.Prelude.{◌≡◌, ◌↔◌, IsTrue};
ghost use Rattle.expr_tree.specs.declared.tree.Expr.TheVariants.{Compare as CompareOf, All as AllOf, Any as AnyOf, Not as NotOf, Is as IsOf, InList as InListOf, Between as BetweenOf, Coalesce as CoalesceOf};

use crate::leaf::Leaf;
use crate::tree::{Comparison, Expr, Test};

/// Whether two expressions are equal, node by node, and their leaves as `Leaf::same` says.
#[cycle(same)]
pub fn same_expr<L: Leaf>(a: &Expr<L>, b: &Expr<L>) -> bool
    ensures { IsTrue result ↔ (a.now ≡ b.now) }
{
    match b {
        Expr::Lit(x) => match a {
            Expr::Lit(y) => x.same(y),
            _ => false,
        },
        Expr::Null(x) => match a {
            Expr::Null(y) => *x == *y,
            _ => false,
        },
        Expr::Leaf(x) => match a {
            Expr::Leaf(y) => x.same(y),
            _ => false,
        },
        Expr::Compare(op, x, y) => is_compare(a, *op, x.get(), y.get()),
        Expr::All(list) => is_all(a, list.as_slice()),
        Expr::Any(list) => is_any(a, list.as_slice()),
        Expr::Not(x) => is_not(a, x.get()),
        Expr::Is(x, test, negated) => is_test(a, x.get(), *test, *negated),
        Expr::InList(x, list, negated) => is_in_list(a, x.get(), list.as_slice(), *negated),
        Expr::Between(x, y, z, negated) => is_between(a, x.get(), y.get(), z.get(), *negated),
        Expr::Coalesce(list) => is_coalesce(a, list.as_slice()),
    }
}

#[cycle(same)]
fn is_compare<L: Leaf>(expr: &Expr<L>, op: Comparison, x: &Expr<L>, y: &Expr<L>) -> bool
    ensures { IsTrue result ↔ (expr.now ≡ CompareOf op x.now y.now) }
{
    match expr {
        Expr::Compare(other, a, b) => {
            op == *other && same_expr(a.get(), x) && same_expr(b.get(), y)
        }
        _ => false,
    }
}

#[cycle(same)]
fn is_all<L: Leaf>(expr: &Expr<L>, list: &[Expr<L>]) -> bool
    ensures { IsTrue result ↔ (expr.now ≡ AllOf list.now) }
{
    match expr {
        Expr::All(other) => same_list(other.as_slice(), list),
        _ => false,
    }
}

#[cycle(same)]
fn is_any<L: Leaf>(expr: &Expr<L>, list: &[Expr<L>]) -> bool
    ensures { IsTrue result ↔ (expr.now ≡ AnyOf list.now) }
{
    match expr {
        Expr::Any(other) => same_list(other.as_slice(), list),
        _ => false,
    }
}

#[cycle(same)]
fn is_not<L: Leaf>(expr: &Expr<L>, x: &Expr<L>) -> bool
    ensures { IsTrue result ↔ (expr.now ≡ NotOf x.now) }
{
    match expr {
        Expr::Not(a) => same_expr(a.get(), x),
        _ => false,
    }
}

#[cycle(same)]
fn is_test<L: Leaf>(expr: &Expr<L>, x: &Expr<L>, test: Test, negated: bool) -> bool
    ensures { IsTrue result ↔ (expr.now ≡ IsOf x.now test negated) }
{
    match expr {
        Expr::Is(a, other, turned) => {
            test == *other && negated == *turned && same_expr(a.get(), x)
        }
        _ => false,
    }
}

#[cycle(same)]
fn is_in_list<L: Leaf>(expr: &Expr<L>, x: &Expr<L>, list: &[Expr<L>], negated: bool) -> bool
    ensures { IsTrue result ↔ (expr.now ≡ InListOf x.now list.now negated) }
{
    match expr {
        Expr::InList(a, other, turned) => {
            negated == *turned && same_expr(a.get(), x) && same_list(other.as_slice(), list)
        }
        _ => false,
    }
}

#[cycle(same)]
fn is_between<L: Leaf>(expr: &Expr<L>, x: &Expr<L>, y: &Expr<L>, z: &Expr<L>, negated: bool) -> bool
    ensures { IsTrue result ↔ (expr.now ≡ BetweenOf x.now y.now z.now negated) }
{
    match expr {
        Expr::Between(a, b, c, turned) => {
            negated == *turned
                && same_expr(a.get(), x)
                && same_expr(b.get(), y)
                && same_expr(c.get(), z)
        }
        _ => false,
    }
}

#[cycle(same)]
fn is_coalesce<L: Leaf>(expr: &Expr<L>, list: &[Expr<L>]) -> bool
    ensures { IsTrue result ↔ (expr.now ≡ CoalesceOf list.now) }
{
    match expr {
        Expr::Coalesce(other) => same_list(other.as_slice(), list),
        _ => false,
    }
}

#[cycle(same)]
fn same_list<L: Leaf>(list: &[Expr<L>], other: &[Expr<L>]) -> bool
    ensures { IsTrue result ↔ (list.now ≡ other.now) }
{
    if list.len() != other.len() {
        return false;
    }
    for i in 0..list.len() {
        if !same_expr(&list[i], &other[i]) {
            return false;
        }
    }
    true
}
