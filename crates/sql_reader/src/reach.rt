ghost use Rattle.std.specs.Prelude.{◌≡◌, IfOk, ◌++◌, ◌∷◌, [], option_map, is_some};
ghost use Rattle.sql_reader.specs.Reaches.{placed, item_of};
ghost use Rattle.sql_reader.specs.Held.{item_held};
ghost use Rattle.sql_reader.specs.Levels.{reach_of};

use crate::tables::{NamedTable, Tables, item_at};
use first_faults::Index;
use pgq_base::{Name, NoMemory};
use sql_algebra::ItemText;
use std::alloc::Global;
use std::marker::Model;

/// An item of a FROM: its alias, and its table, where the catalog has it.
#[derive(Drop)]
pub(crate) struct Item<'t, 'c> {
    pub alias: &'t Name,
    pub table: Option<&'t NamedTable<'c>>,
}

/// Items of a FROM in order, which are found by their aliases.
#[derive(Drop)]
pub(crate) struct Items<'t, 'c> {
    items: Vec<Item<'t, 'c>>,
    aliases: Index<'t>,
}

impl<'t, 'c> Model for Items<'t, 'c> {
    ghost use Rattle.std.specs.Prelude.{◌≡◌, map};
    ghost use Rattle.sql_reader.specs.Reaches.{Reach};
    ghost use Rattle.sql_reader.specs.Held.{item_held};

    ghost Value = { Reach };

    ghost view = { λ x. map item_held x.items.items };

    ghost invariant = { λ x. x.aliases ≡ map (λ item. item.alias.now) x.items.items };
}

impl<'t, 'c> Items<'t, 'c> {
    pub(crate) fn new(alloc: Global) -> Items<'t, 'c>
        ensures { result ≡ [] }
    {
        Items {
            items: Vec::new(alloc),
            aliases: Index::new(alloc),
        }
    }

    /// With one more item.
    pub(crate) fn with(
        self,
        tables: &'t Tables<'c>,
        item: &'t ItemText,
    ) -> Result<Items<'t, 'c>, NoMemory>
        ensures { IfOk result (λ all. all ≡ self.entry ++ placed tables.entry.now item.entry.now ∷ []) }
    {
        let Items { mut items, aliases } = self;
        let aliases = aliases.with(item.alias.name.as_bytes())?;
        let table = tables.table(&item.table.name);
        items.push(Item {
            alias: &item.alias.name,
            table,
        })?;
        Ok(Items { items, aliases })
    }

    /// The first item of that alias.
    pub(crate) fn item(&self, alias: &Name) -> Option<&Item<'t, 'c>>
        ensures { option_map (λ item. item_held item.now) result ≡ item_of self.entry.now alias.now }
    {
        match self.aliases.place(alias.as_bytes()) {
            None => None,
            Some(place) => item_at(self.items.as_slice(), place),
        }
    }
}

/// The items in reach: those of a select, and those in reach of the select around it.
#[derive(Drop)]
pub(crate) struct Scope<'s, 't, 'c> {
    pub own: &'s Items<'t, 'c>,
    pub outer: Option<&'s Scope<'s, 't, 'c>>,
}

/// The scope of a select that stands under none.
pub(crate) fn alone<'s, 't, 'c>(own: &'s Items<'t, 'c>) -> Scope<'s, 't, 'c>
    ensures { reach_of result ≡ own.entry.now }
{
    Scope { own, outer: None }
}

/// The item of an alias: the first one of the innermost select that has one.
pub(crate) fn item_in<'s, 't, 'c>(
    scope: &Scope<'s, 't, 'c>,
    alias: &Name,
) -> Option<&'s Item<'t, 'c>>
    ensures { option_map (λ item. item_held item.now) result ≡ item_of (reach_of scope.now) alias.now }
{
    match scope.own.item(alias) {
        Some(item) => Some(item),
        None => match scope.outer {
            Some(outer) => item_in(outer, alias),
            None => None,
        },
    }
}
