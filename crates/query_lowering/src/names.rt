ghost use Rattle.std.specs.Prelude.{◌≡◌, true};
ghost use Rattle.sql_algebra.specs.Printable.{is_name as is_a_name};
ghost use Rattle.query_lowering.specs.Names.{columns_are_named as columns_have_names, is_named_table as has_names};
ghost use Rattle.query_lowering.specs.Names.{tables_are_named as tables_have_names, outputs_are_named as outputs_have_names};

use graph_ast::{Column, Output, Table};
use pgq_base::Name;

// What each name keeps of itself is said of what contracts see, its bytes: these walks only read.

#[tactic(auto, using(crate::proofs::NameFacts::name_fits))]
fn name_is_name(name: &Name)
    ensures { is_a_name name.now ≡ true }
{
    let _bytes = name.as_bytes();
}

#[tactic(auto, using(crate::proofs::NameFacts::next_passes))]
fn columns_are_named(columns: &[Column])
    ensures { columns_have_names columns.now ≡ true }
{
    for column in columns {
        name_is_name(&column.name);
    }
}

#[tactic(auto, using(crate::proofs::NameFacts::table_passes))]
fn table_is_named(table: &Table)
    ensures { has_names table.now ≡ true }
{
    name_is_name(&table.name);
    columns_are_named(table.columns.as_slice());
}

/// The names of tables and of their columns are names.
#[tactic(auto, using(crate::proofs::NameFacts::next_passes))]
pub(crate) fn tables_are_named(tables: &[Table])
    ensures { tables_have_names tables.now ≡ true }
{
    for table in tables {
        table_is_named(table);
    }
}

/// The names of the columns of an answer are names.
#[tactic(auto, using(crate::proofs::NameFacts::next_passes))]
pub(crate) fn outputs_are_named(outputs: &[Output])
    ensures { outputs_have_names outputs.now ≡ true }
{
    for output in outputs {
        name_is_name(&output.name);
    }
}
