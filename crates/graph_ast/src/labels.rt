ghost use Rattle.std.specs.Prelude.{◌≡◌, map, bytes_eq};
ghost use Rattle.std.specs.List.{list_all, list_any};
ghost use Rattle.graph_ast.specs.Labels.{holds};

use crate::query::LabelExpr;
use pgq_base::Name;

fn is_label(name: &Name, labels: &[Name]) -> bool
    ensures { result ≡ list_any (bytes_eq name.now) labels.now }
{
    for label in labels {
        if name.as_bytes() == label.as_bytes() {
            return true;
        }
    }
    false
}

#[cycle(labels)]
fn holds(expr: &LabelExpr, labels: &[Name]) -> bool
    ensures { result ≡ holds labels.now expr.now }
{
    match expr {
        LabelExpr::Label(label) => is_label(&label.name, labels),
        LabelExpr::AnyLabel => true,
        LabelExpr::Not(inner) => !holds(inner.get(), labels),
        LabelExpr::And(list) => all_hold(list.as_slice(), labels),
        LabelExpr::Or(list) => any_holds(list.as_slice(), labels),
    }
}

#[cycle(labels)]
fn all_hold(list: &[LabelExpr], labels: &[Name]) -> bool
    ensures { result ≡ list_all (λ e. e) (map (holds labels.now) list.now) }
{
    for expr in list {
        if !holds(expr, labels) {
            return false;
        }
    }
    true
}

#[cycle(labels)]
fn any_holds(list: &[LabelExpr], labels: &[Name]) -> bool
    ensures { result ≡ list_any (λ e. e) (map (holds labels.now) list.now) }
{
    for expr in list {
        if holds(expr, labels) {
            return true;
        }
    }
    false
}

impl LabelExpr {
    /// Whether the expression holds of a set of labels: a label where it is one of them, `%` always, and `!`,
    /// `&` and `|` are negation, conjunction and disjunction.
    pub fn holds(&self, labels: &[Name]) -> bool
        ensures { result ≡ holds labels.now self.now }
    {
        holds(self, labels)
    }
}
