ghost use Rattle.std.specs.Prelude.{◌≡◌, ◌++◌, IfOk, map, option_copied, option_to_list, slice_get};
ghost use Rattle.std.specs.List.{filter_map, list_any};
ghost use Rattle.first_faults.specs.Names.{same_names};
ghost use Rattle.graph_ast.specs.Schemas.{tables_among};
ghost use Rattle.view_check.specs.TableRules.{table_named, column_named, has_column, primary_key, is_key};
ghost use Rattle.view_check.specs.KeyLists.{key_names, key_lists};
ghost use Rattle.view_check.specs.Catalogs.{table_place, column_place};

use crate::catalogs::place;
use crate::names::Names;
use crate::order::primary_key;
use first_faults::Index;
use graph_ast::{ColumnDef, Named, RuleDef, RuleKind, Statement, TableDef};
use pgq_base::{List, Name, NoMemory};
use std::alloc::Global;
use std::marker::Model;

/// A table of the text whose columns are found by name. Contracts see the table.
#[derive(Drop)]
pub(crate) struct Known<'a> {
    table: &'a TableDef,
    columns: Index<'a>,
    primary: Option<&'a List<Named>>,
    keys: Vec<Names<'a>>,
}

impl<'a> Model for Known<'a> {
    ghost use Rattle.std.specs.Prelude.{◌≡◌, map, option_copied};
    ghost use Rattle.graph_ast.specs.declared.schema.TableDef.{TableDef as Def};
    ghost use Rattle.view_check.specs.TableRules.{primary_key};
    ghost use Rattle.view_check.specs.KeyLists.{key_lists};

    ghost Value = { Def };

    ghost view = { λ x. x.table.now };

    ghost invariant = { λ x. (x.columns ≡ map (λ c. c.name.name) x.table.now.columns) × (option_copied x.primary ≡ primary_key x.table.now) × (x.keys.items ≡ key_lists x.table.now) };
}

fn columns_by_name<'a>(alloc: Global, table: &'a TableDef) -> Result<Index<'a>, NoMemory>
    ensures { IfOk result (λ names. names ≡ map (λ c. c.name.name) table.entry.now.columns) }
{
    let mut names = Index::new(alloc);
    for column in table.columns.as_slice() {
        names = names.with(column.name.name.as_bytes())?;
    }
    Ok(names)
}

/// The item at a place, where there is one.
pub(crate) fn item_at<T>(items: &[T], place: usize) -> Option<&T>
    ensures { option_copied result ≡ slice_get items.entry.now place }
{
    if place < items.len() {
        Some(&items[place])
    } else {
        None
    }
}

fn has_same(lists: &[Names<'_>], names: &Names<'_>) -> bool
    ensures { result ≡ list_any (λ other. same_names names.now other) lists.now }
{
    lists.iter().any(|other| names.same_names(other))
}

fn key_names(kind: &RuleKind) -> Option<&List<Named>>
    ensures { option_copied result ≡ key_names kind.entry.now }
{
    match kind {
        RuleKind::Primary(names) => Some(names),
        RuleKind::Unique(names) => Some(names),
        RuleKind::NotNull => None,
        RuleKind::Foreign(_, _, _) => None,
        RuleKind::Default => None,
        RuleKind::Check => None,
    }
}

// The lists, and that of one more rule where it is a key.
fn with_key<'a>(
    alloc: Global,
    mut keys: Vec<Names<'a>>,
    kind: &'a RuleKind,
) -> Result<Vec<Names<'a>>, NoMemory>
    ensures { IfOk result (λ all. all.items ≡ keys.entry.items ++ option_to_list (key_names kind.entry.now)) }
{
    match key_names(kind) {
        None => Ok(keys),
        Some(names) => {
            let names = Names::new(alloc, names.as_slice())?;
            keys.push(names)?;
            Ok(keys)
        }
    }
}

#[tactic(auto, using(crate::proofs::KnownLemmas::keys_step))]
fn with_keys<'a>(
    alloc: Global,
    mut keys: Vec<Names<'a>>,
    rules: &'a [RuleDef],
) -> Result<Vec<Names<'a>>, NoMemory>
    ensures { IfOk result (λ all. all.items ≡ keys.entry.items ++ filter_map (λ r. key_names r.kind) rules.entry.now) }
{
    for rule in rules {
        keys = with_key(alloc, keys, &rule.kind)?;
    }
    Ok(keys)
}

#[tactic(auto, using(crate::proofs::KnownLemmas::all_keys_step))]
fn key_lists<'a>(alloc: Global, table: &'a TableDef) -> Result<Vec<Names<'a>>, NoMemory>
    ensures { IfOk result (λ all. all.items ≡ key_lists table.entry.now) }
{
    let mut keys = Vec::new(alloc);
    for column in table.columns.as_slice() {
        keys = with_keys(alloc, keys, column.rules.as_slice())?;
    }
    with_keys(alloc, keys, table.rules.as_slice())
}

impl<'a> Known<'a> {
    pub(crate) fn new(alloc: Global, table: &'a TableDef) -> Result<Known<'a>, NoMemory>
        ensures { IfOk result (λ known. known ≡ table.entry.now) }
    {
        let columns = columns_by_name(alloc, table)?;
        let primary = primary_key(table);
        let keys = key_lists(alloc, table)?;
        Ok(Known {
            table,
            columns,
            primary,
            keys,
        })
    }

    pub(crate) fn table(&self) -> &'a TableDef
        ensures { result.now ≡ self.now }
    {
        self.table
    }

    /// The names of the primary key, where the table has one.
    pub(crate) fn primary_key(&self) -> Option<&'a List<Named>>
        ensures { option_copied result ≡ primary_key self.now }
    {
        self.primary
    }

    /// Whether the names are, as a set, those of a PRIMARY KEY or of a UNIQUE of the table.
    #[tactic(auto, using(crate::proofs::KnownLemmas::key_known))]
    pub(crate) fn is_key(&self, names: &Names<'_>) -> bool
        ensures { result ≡ is_key self.now names.now }
    {
        has_same(self.keys.as_slice(), names)
    }

    #[tactic(auto, using(crate::proofs::KnownLemmas::column_known))]
    pub(crate) fn has_column(&self, name: &Name) -> bool
        ensures { result ≡ has_column self.now name.now }
    {
        self.columns.place(name.as_bytes()).is_some()
    }

    /// The place of the first column of that name; how many there are where none is.
    #[tactic(auto, using(crate::proofs::KnownLemmas::column_at))]
    fn find(&self, name: &Name) -> usize
        ensures { result ≡ column_place self.now name.now }
    {
        let found = self.columns.place(name.as_bytes());
        found.unwrap_or(self.table.columns.as_slice().len())
    }

    /// The first column of that name.
    #[tactic(auto, using(crate::proofs::KnownLemmas::column_first))]
    pub(crate) fn column_named(&self, name: &Name) -> Option<&'a ColumnDef>
        ensures { option_copied result ≡ column_named self.now name.now }
    {
        item_at(self.table.columns.as_slice(), self.find(name))
    }

    /// The place of the first column of that name; how many there are where none is.
    pub(crate) fn column_place(&self, name: &Name) -> Result<u32, NoMemory>
        ensures { IfOk result (λ n. n ≡ column_place self.now name.now) }
    {
        place(self.find(name))
    }
}

/// The tables of a schema, which are found by name. Contracts see their list.
#[derive(Drop)]
pub(crate) struct KnownTables<'a> {
    names: Index<'a>,
    all: Vec<Known<'a>>,
}

impl<'a> Model for KnownTables<'a> {
    ghost use Rattle.std.specs.Prelude.{◌≡◌, List, map};
    ghost use Rattle.graph_ast.specs.declared.schema.TableDef.{TableDef as Def};

    ghost Value = { List Def };

    ghost view = { λ x. x.all.items };

    ghost invariant = { λ x. x.names ≡ map (λ t. t.name.name) x.all.items };
}

impl<'a> KnownTables<'a> {
    pub(crate) fn new(
        alloc: Global,
        statements: &'a [Statement],
    ) -> Result<KnownTables<'a>, NoMemory>
        ensures { IfOk result (λ known. known ≡ tables_among statements.entry.now) }
    {
        let mut names = Index::new(alloc);
        let mut all = Vec::new(alloc);
        for statement in statements {
            if let Statement::Table(table) = statement {
                names = names.with(table.name.name.as_bytes())?;
                all.push(Known::new(alloc, table)?)?;
            }
        }
        Ok(KnownTables { names, all })
    }

    pub(crate) fn as_slice(&self) -> &[Known<'a>]
        ensures { result.now ≡ self.now }
    {
        self.all.as_slice()
    }

    /// The place of the first table of that name; how many there are where none is.
    #[tactic(auto, using(crate::proofs::KnownLemmas::table_at))]
    fn find(&self, name: &Name) -> usize
        ensures { result ≡ table_place self.now name.now }
    {
        let found = self.names.place(name.as_bytes());
        found.unwrap_or(self.all.len())
    }

    /// The first table of that name.
    #[tactic(auto, using(crate::proofs::KnownLemmas::table_first))]
    pub(crate) fn named(&self, name: &Name) -> Option<&Known<'a>>
        ensures { option_copied result ≡ table_named self.now name.now }
    {
        item_at(self.all.as_slice(), self.find(name))
    }

    /// The place of the first table of that name; how many there are where none is.
    pub(crate) fn table_place(&self, name: &Name) -> Result<u32, NoMemory>
        ensures { IfOk result (λ n. n ≡ table_place self.now name.now) }
    {
        place(self.find(name))
    }
}
