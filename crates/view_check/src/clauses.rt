ghost use Rattle.std.specs.Prelude.{◌≡◌, List as Seq, true, ◌||◌, nat_eq, [], ◌∷◌, ◌++◌, map, IfOk, Some, slice_get};
ghost use Rattle.std.specs.List.{flat_map, list_all};
ghost use Rattle.graph_ast.specs.declared.catalog.Table.{Table as TableTree};
ghost use Rattle.first_faults.specs.Names.{is_among, has_text, same_texts};
ghost use Rattle.view_check.specs.GraphRules.{exposed_by, exposed_in, is_sound_label};
ghost use Rattle.view_check.specs.Clauses.{columns_but, names_in};

use crate::elements::property_name;
use crate::entries::{Entries, Entry};
use crate::names::Names;
use first_faults::{Agreement, Index};
use graph_ast::{Column, LabelDef, PropertiesDef, PropertyDef};
use pgq_base::{Name, NoMemory, Span};
use std::alloc::Global;
use std::marker::Model;

/// Names in which one is found at once. Contracts see their list.
#[derive(Drop)]
pub(crate) struct Texts<'a> {
    list: Vec<&'a Name>,
    index: Index<'a>,
}

impl<'a> Model for Texts<'a> {
    ghost use Rattle.std.specs.Prelude.{◌≡◌, List, ℕ, map};

    ghost Value = { List (List ℕ) };

    ghost view = { λ x. map (λ n. n.now) x.list.items };

    ghost invariant = { λ x. x.index ≡ map (λ n. n.now) x.list.items };
}

impl<'a> Texts<'a> {
    fn new(alloc: Global) -> Texts<'a>
        ensures { result ≡ [] }
    {
        Texts {
            list: Vec::new(alloc),
            index: Index::new(alloc),
        }
    }

    fn with(self, name: &'a Name) -> Result<Texts<'a>, NoMemory>
        ensures { IfOk result (λ all. all ≡ self.entry ++ name.entry.now ∷ []) }
    {
        let Texts { mut list, index } = self;
        let index = index.with(name.as_bytes())?;
        list.push(name)?;
        Ok(Texts { list, index })
    }

    #[tactic(auto, using(crate::proofs::ClauseLemmas::text_known))]
    fn has(&self, name: &Name) -> bool
        ensures { result ≡ has_text name.now self.now }
    {
        self.index.place(name.as_bytes()).is_some()
    }

    fn as_slice(&self) -> &[&'a Name]
        ensures { map (λ n. n.now) result.now ≡ self.now }
    {
        self.list.as_slice()
    }
}

/// Where the names of a label's properties come from: they are listed, or all columns but some of the table at a place.
#[derive(Drop)]
pub(crate) enum Source<'a> {
    Listed(Texts<'a>),
    AllBut(usize, Names<'a>),
}

/// A label of the element at a place among those of its graph, with the source of its properties.
#[derive(Drop)]
pub(crate) struct Clause<'a> {
    pub(crate) element: usize,
    pub(crate) label: &'a Name,
    pub(crate) span: Span,
    pub(crate) source: Source<'a>,
}

// The name of a property whose column is known.
fn with_listed<'a>(
    texts: Texts<'a>,
    entry: &Entry<'_>,
    property: &'a PropertyDef,
) -> Result<Texts<'a>, NoMemory>
    ensures { IfOk result (λ all. all ≡ texts.entry ++ map (λ p. p.name) (exposed_by entry.now property.entry.now)) }
{
    if entry.has_column(&property.column.name) {
        texts.with(&property_name(property).name)
    } else {
        Ok(texts)
    }
}

#[tactic(auto, using(crate::proofs::ClauseLemmas::listed_names_step))]
fn listed_texts<'a>(
    alloc: Global,
    entry: &Entry<'_>,
    properties: &'a [PropertyDef],
) -> Result<Texts<'a>, NoMemory>
    ensures { IfOk result (λ all. all ≡ map (λ p. p.name) (flat_map (exposed_by entry.now) properties.entry.now)) }
{
    let mut texts = Texts::new(alloc);
    for property in properties {
        texts = with_listed(texts, entry, property)?;
    }
    Ok(texts)
}

/// The source of the properties of a sound label.
#[tactic(auto, using(crate::proofs::ClauseLemmas::all_names))]
pub(crate) fn source_of<'a>(
    alloc: Global,
    entries: &Entries<'_>,
    at: (usize, &Entry<'_>),
    label: &'a LabelDef,
) -> Result<Source<'a>, NoMemory>
    requires place { slice_get entries.now at.0 ≡ Some at.1.now }
    requires sound { is_sound_label at.1.now label.now.properties ≡ true }
    ensures { IfOk result (λ source. names_in entries.now source ≡ map (λ p. p.name) (exposed_in at.entry.1.now label.entry.now.span label.entry.now.properties)) }
{
    match &label.properties {
        PropertiesDef::Nothing => Ok(Source::Listed(Texts::new(alloc))),
        PropertiesDef::Listed(listed) => {
            Ok(Source::Listed(listed_texts(alloc, at.1, listed.as_slice())?))
        }
        PropertiesDef::AllBut(names) => {
            Ok(Source::AllBut(at.0, Names::new(alloc, names.as_slice())?))
        }
    }
}

// Whether the name is one of all columns but some.
fn has_other_column(entry: &Entry<'_>, names: &Names<'_>, name: &Name) -> bool
    ensures { result ≡ has_text name.now (columns_but names.now entry.now.columns) }
{
    let known = entry.has_column(name);
    let left_out = names.has(name);
    known && !left_out
}

fn shows(entries: &Entries<'_>, source: &Source<'_>, name: &Name) -> bool
    ensures { result ≡ has_text name.now (names_in entries.now source.now) }
{
    match source {
        Source::Listed(texts) => texts.has(name),
        Source::AllBut(place, names) => match entries.at(*place) {
            None => false,
            Some(entry) => has_other_column(entry, names, name),
        },
    }
}

fn are_left_out_or_within(
    entries: &Entries<'_>,
    columns: &[Column],
    names: &Names<'_>,
    other: &Source<'_>,
) -> bool
    ensures { result ≡ list_all (λ c. is_among c.name names.now || has_text c.name (names_in entries.now other.now)) columns.now }
{
    columns.iter().all(|column| names.has(&column.name) || shows(entries, other, &column.name))
}

fn are_columns_within(
    entries: &Entries<'_>,
    columns: &[Column],
    names: &Names<'_>,
    other: &Source<'_>,
) -> bool
    ensures { result ≡ list_all (λ x. has_text x (names_in entries.now other.now)) (columns_but names.now columns.now) }
{
    are_left_out_or_within(entries, columns, names, other)
}

#[tactic(auto, using(crate::proofs::ClauseLemmas::texts_step))]
fn are_texts_within(entries: &Entries<'_>, texts: &[&Name], other: &Source<'_>) -> bool
    ensures { result ≡ list_all (λ x. has_text x (names_in entries.now other.now)) (map (λ n. n.now) texts.now) }
{
    for name in texts {
        if !shows(entries, other, name) {
            return false;
        }
    }
    true
}

fn are_within(entries: &Entries<'_>, source: &Source<'_>, other: &Source<'_>) -> bool
    ensures { result ≡ list_all (λ x. has_text x (names_in entries.now other.now)) (names_in entries.now source.now) }
{
    match source {
        Source::Listed(texts) => are_texts_within(entries, texts.as_slice(), other),
        Source::AllBut(place, names) => match entries.at(*place) {
            None => true,
            Some(entry) => {
                let columns = entry.table().columns.as_slice();
                are_columns_within(entries, columns, names, other)
            }
        },
    }
}

// Both are all columns of one table.
fn are_all_of_one(source: &Source<'_>, other: &Source<'_>) -> bool
    ensures { result ≡ true → (tables : Seq TableTree) → names_in tables source.now ≡ names_in tables other.now }
{
    match source {
        Source::Listed(_) => false,
        Source::AllBut(place, names) => match other {
            Source::Listed(_) => false,
            Source::AllBut(there, others) => {
                names.as_slice().is_empty() && others.as_slice().is_empty() && *place == *there
            }
        },
    }
}

fn have_same_names(entries: &Entries<'_>, source: &Source<'_>, other: &Source<'_>) -> bool
    ensures { result ≡ same_texts (names_in entries.now source.now) (names_in entries.now other.now) }
{
    if are_all_of_one(source, other) {
        return true;
    }
    are_within(entries, source, other) && are_within(entries, other, source)
}

/// A label has one set of properties on the elements that have it. The tables are those that the clauses speak of.
#[derive(Drop)]
pub(crate) struct LabelProperties<'s, 'a> {
    pub(crate) entries: &'s Entries<'a>,
}

impl<'s, 'a, 'c> Agreement<Clause<'c>> for LabelProperties<'s, 'a> {
    ghost name_of = { λ r l. l.label.now };

    ghost agree = { λ r l m. nat_eq l.element m.element || same_texts (names_in r.entries.now l.source) (names_in r.entries.now m.source) };

    ghost span_of = { λ r l. l.span };

    fn name<'t>(&self, item: &'t Clause<'c>) -> &'t [u8] {
        item.label.as_bytes()
    }

    fn agrees(&self, first: &Clause<'c>, item: &Clause<'c>) -> bool {
        first.element == item.element || have_same_names(self.entries, &first.source, &item.source)
    }

    fn span(&self, item: &Clause<'c>) -> Span {
        item.span
    }
}
