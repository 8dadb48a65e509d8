ghost use Rattle.std.specs.Prelude.{◌≡◌};
ghost use Rattle.graph_ast.specs.Labels.{holds_where_given};

use graph_ast::LabelExpr;
use pgq_base::Name;

/// Whether the labels meet a label expression, where there is one.
pub(crate) fn meet(label: &Option<LabelExpr>, labels: &[Name]) -> bool
    ensures { result ≡ holds_where_given labels.now label.now }
{
    match label {
        None => true,
        Some(expr) => expr.holds(labels),
    }
}
