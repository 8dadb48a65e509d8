ghost use Rattle.std.specs.Prelude.{◌≡◌, ◌++◌, IfOk, OnOk, decimal, codes};
ghost use Rattle.pgq_base.specs.Codes.{message_of};
ghost use Rattle.pgq_program.specs.Lines.{refusal_line, role_text, detail_text};

use crate::names::put_name;
use pgq_base::{Code, Detail, List, NoMemory, Refusal, Role};
use std::alloc::Global;
use word_table::{message_place, messages};

fn role_name(role: Role) -> &'static [u8]
    ensures { result.now ≡ role_text role }
{
    match role {
        Role::Schema => b"schema",
        Role::Query => b"query",
        Role::Sql => b"sql",
        Role::Table => b"table",
    }
}

pub(crate) fn put_number(alloc: Global, line: &mut List<u8>, number: u64) -> Result<(), NoMemory>
    ensures { OnOk result (line.new ≡ line.old ++ decimal number) }
{
    let digits = number.to_string(alloc)?;
    line.extend(digits.as_bytes())
}

fn put_message(line: &mut List<u8>, code: Code) -> Result<(), NoMemory>
    ensures { OnOk result (line.new ≡ line.old ++ message_of code) }
{
    line.extend(messages().word(message_place(code)))
}

fn put_detail(alloc: Global, line: &mut List<u8>, detail: &Detail) -> Result<(), NoMemory>
    ensures { OnOk result (line.new ≡ line.old ++ detail_text detail.now) }
{
    let Detail::At { table, row, column } = detail else {
        return Ok(());
    };
    line.extend(b": ")?;
    put_name(line, table)?;
    line.extend(b" ")?;
    put_number(alloc, line, *row)?;
    line.extend(b" ")?;
    put_number(alloc, line, *column as u64)
}

/// The line of a refusal, with its newline.
#[tactic(auto, unfolding(crate::specs::Lines::refusal_line))]
pub fn line_of(alloc: Global, refusal: &Refusal) -> Result<List<u8>, NoMemory>
    ensures { IfOk result (λ line. line ≡ refusal_line refusal.now) }
{
    let mut line = List::new(alloc);
    line.extend(role_name(refusal.role))?;
    line.extend(b":")?;
    put_number(alloc, &mut line, refusal.span.from as u64)?;
    line.extend(b"-")?;
    put_number(alloc, &mut line, refusal.span.to as u64)?;
    line.extend(b": ")?;
    put_number(alloc, &mut line, refusal.code.number() as u64)?;
    line.extend(b" ")?;
    put_message(&mut line, refusal.code)?;
    put_detail(alloc, &mut line, &refusal.detail)?;
    line.extend(b"\n")?;
    Ok(line)
}
