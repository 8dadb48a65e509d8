ghost use Rattle.std.specs.Prelude.{◌≡◌, IfOk};
ghost use Rattle.sql_algebra.specs.Layout.{printed_name, printed_literal};

use crate::line::{Last, Line};
use crate::literals::put_literal;
use crate::names::put_name;
use pgq_base::{List, Name, NoMemory, Value};
use std::alloc::Global;

/// The text of a name: bare where it can be, and else delimited. Only want of memory can come instead.
pub fn print_name(alloc: Global, name: &Name) -> Result<List<u8>, NoMemory>
    ensures { IfOk result (λ text. text ≡ printed_name name.now) }
{
    let mut line = Line {
        alloc,
        text: List::new(alloc),
        last: Last::Nothing,
    };
    put_name(&mut line, name)?;
    Ok(line.text)
}

/// The text of a literal; that of Null is the word. Only want of memory can come instead.
#[tactic(auto, using(crate::proofs::Lined::whole_line))]
pub fn print_literal(alloc: Global, value: &Value) -> Result<List<u8>, NoMemory>
    ensures { IfOk result (λ text. text ≡ printed_literal value.now) }
{
    let mut line = Line {
        alloc,
        text: List::new(alloc),
        last: Last::Nothing,
    };
    put_literal(&mut line, value)?;
    Ok(line.text)
}
