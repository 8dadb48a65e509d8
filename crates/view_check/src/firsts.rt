ghost use Rattle.std.specs.Prelude.{◌≡◌, List as Seq, ℕ, [], ◌∷◌, ◌++◌, IfOk, MatchOption, Some, map, cond, option_copied, slice_get, bytes_eq, is_some};
ghost use Rattle.std.specs.List.{flat_map};
ghost use Rattle.first_faults.specs.Names.{is_among};
ghost use Rattle.view_check.specs.GraphRules.{exposed_by, exposed_in, properties_of, properties_in};
ghost use Rattle.graph_ast.specs.declared.catalog.Table.{Table as TableTree};
ghost use Rattle.view_check.specs.declared.exposed.Exposed.{Exposed as ExposedTree};
ghost use Rattle.view_check.specs.Firsts.{first_named, or_first, all_but, exposed_all, IsCovered, AreLeft};

use crate::elements::property_name;
use crate::entries::{Entries, Entry};
use crate::exposed::Exposed;
use crate::known::item_at;
use crate::names::Names;
use crate::places::is_sound;
use crate::properties::property_at;
use first_faults::Index;
use graph_ast::{ElementDef, LabelDef, Named, PropertiesDef, PropertyDef};
use pgq_base::{List, Name, NoMemory, Span};
use std::alloc::Global;
use std::marker::Model;

/// Properties of which the first of a name is found at once. Contracts see their list.
#[derive(Drop)]
pub(crate) struct Firsts<'a> {
    names: Index<'a>,
    items: List<Exposed>,
}

impl<'a> Model for Firsts<'a> {
    ghost use Rattle.std.specs.Prelude.{◌≡◌, List, map};
    ghost use Rattle.view_check.specs.declared.exposed.Exposed.{Exposed as ExposedTree};

    ghost Value = { List ExposedTree };

    ghost view = { λ x. x.items };

    ghost invariant = { λ x. x.names ≡ map (λ p. p.name) x.items };
}

impl<'a> Firsts<'a> {
    pub(crate) fn new(alloc: Global) -> Firsts<'a>
        ensures { result ≡ [] }
    {
        Firsts {
            names: Index::new(alloc),
            items: List::new(alloc),
        }
    }

    #[tactic(auto, using(crate::proofs::FirstLemmas::first_at))]
    pub(crate) fn first(&self, name: &Name) -> Option<&Exposed>
        ensures { option_copied result ≡ first_named self.now name.now }
    {
        let items = self.items.as_slice();
        let place = self.names.place(name.as_bytes());
        item_at(items, place.unwrap_or(items.len()))
    }

    #[tactic(auto, using(crate::proofs::FirstLemmas::first_known))]
    fn has(&self, name: &Name) -> bool
        ensures { result ≡ is_some (first_named self.now name.now) }
    {
        self.names.place(name.as_bytes()).is_some()
    }

    fn with(self, name: &'a Name, item: Exposed) -> Result<Firsts<'a>, NoMemory>
        requires named { item.name ≡ name.now }
        ensures { IfOk result (λ all. all ≡ self.entry ++ item ∷ []) }
    {
        let Firsts { names, mut items } = self;
        let names = names.with(name.as_bytes())?;
        items.push(item)?;
        Ok(Firsts { names, items })
    }
}

fn all_but(
    alloc: Global,
    entry: &Entry<'_>,
    at: (Span, &Names<'_>),
    name: &Name,
) -> Result<Option<Exposed>, NoMemory>
    ensures { IfOk result (λ item. item ≡ all_but entry.now at.entry.1.now at.entry.0 name.now) }
{
    let (span, except) = at;
    if !entry.has_column(name) || except.has(name) {
        return Ok(None);
    }
    let place = entry.column_place(name)?;
    Ok(Some(property_at(alloc, entry, name, span, place)?))
}

// With the property of one column, where its name is new.
fn with_column<'a>(
    alloc: Global,
    firsts: Firsts<'a>,
    entry: &Entry<'_>,
    at: (Span, &Names<'_>),
    name: &'a Name,
) -> Result<Firsts<'a>, NoMemory>
    ensures { IfOk result (λ all. (q : Seq ℕ) → first_named all q ≡ or_first (first_named firsts.entry q) (cond (bytes_eq name.entry.now q) (all_but entry.now at.entry.1.now at.entry.0 q) None)) }
{
    if firsts.has(name) {
        return Ok(firsts);
    }
    match all_but(alloc, entry, at, name)? {
        None => Ok(firsts),
        Some(item) => Ok(firsts.with(name, item)?),
    }
}

fn with_columns<'a>(
    alloc: Global,
    mut firsts: Firsts<'a>,
    entry: &Entry<'a>,
    at: (Span, &Names<'_>),
) -> Result<Firsts<'a>, NoMemory>
    ensures { IfOk result (λ all. (q : Seq ℕ) → first_named all q ≡ or_first (first_named firsts.entry q) (all_but entry.now at.entry.1.now at.entry.0 q)) }
{
    for column in entry.table().columns.as_slice() {
        firsts = with_column(alloc, firsts, entry, at, &column.name)?;
    }
    Ok(firsts)
}

fn with_names<'a>(
    alloc: Global,
    mut firsts: Firsts<'a>,
    entry: &Entry<'_>,
    at: (Span, &Names<'_>),
    names: &'a [Named],
) -> Result<Firsts<'a>, NoMemory>
    ensures { IfOk result (λ all. (q : Seq ℕ) → first_named all q ≡ or_first (first_named firsts.entry q) (cond (is_among q names.entry.now) (all_but entry.now at.entry.1.now at.entry.0 q) None)) }
{
    for n in names {
        firsts = with_column(alloc, firsts, entry, at, &n.name)?;
    }
    Ok(firsts)
}

fn with_listed<'a>(
    alloc: Global,
    firsts: Firsts<'a>,
    entry: &Entry<'_>,
    property: &'a PropertyDef,
) -> Result<Firsts<'a>, NoMemory>
    ensures { IfOk result (λ all. (q : Seq ℕ) → first_named all q ≡ or_first (first_named firsts.entry q) (first_named (exposed_by entry.now property.entry.now) q)) }
{
    let named = property_name(property);
    if !entry.has_column(&property.column.name) || firsts.has(&named.name) {
        return Ok(firsts);
    }
    let place = entry.column_place(&property.column.name)?;
    let item = property_at(alloc, entry, &named.name, named.span, place)?;
    Ok(firsts.with(&named.name, item)?)
}

fn with_all_listed<'a>(
    alloc: Global,
    mut firsts: Firsts<'a>,
    entry: &Entry<'_>,
    properties: &'a [PropertyDef],
) -> Result<Firsts<'a>, NoMemory>
    ensures { IfOk result (λ all. (q : Seq ℕ) → first_named all q ≡ or_first (first_named firsts.entry q) (first_named (flat_map (exposed_by entry.now) properties.entry.now) q)) }
{
    for property in properties {
        firsts = with_listed(alloc, firsts, entry, property)?;
    }
    Ok(firsts)
}

/// Properties that are gathered, and a table's place beside the names of those of its columns of which none may be there.
#[derive(Drop)]
pub(crate) struct Gathered<'a> {
    pub(crate) firsts: Firsts<'a>,
    pub(crate) left: Option<(usize, &'a [Named])>,
}

// The names that are left of the table at a place, where that is known.
fn left_of<'a>(left: Option<(usize, &'a [Named])>, place: usize) -> Option<&'a [Named]>
    ensures { (tables : Seq TableTree) → (t : TableTree) → (firsts : Seq ExposedTree) → slice_get tables place ≡ Some t → AreLeft tables left.entry firsts → MatchOption result (Unit {0}) (λ rest. IsCovered t rest.now firsts) }
{
    match left {
        None => None,
        Some((known, rest)) => { if known == place { Some(rest) } else { None } }
    }
}

fn with_rest<'a>(
    alloc: Global,
    firsts: Firsts<'a>,
    entry: &Entry<'a>,
    at: (Span, &Names<'_>),
    rest: Option<&'a [Named]>,
) -> Result<Firsts<'a>, NoMemory>
    requires covered { MatchOption rest (Unit {0}) (λ names. IsCovered entry.now names.now firsts) }
    ensures { IfOk result (λ all. (q : Seq ℕ) → first_named all q ≡ or_first (first_named firsts.entry q) (all_but entry.now at.entry.1.now at.entry.0 q)) }
{
    match rest {
        None => Ok(with_columns(alloc, firsts, entry, at)?),
        Some(names) => Ok(with_names(alloc, firsts, entry, at, names)?),
    }
}

fn with_all_but<'a>(
    alloc: Global,
    state: Gathered<'a>,
    entries: &Entries<'_>,
    at: (usize, &Entry<'a>),
    clause: (Span, &'a [Named]),
) -> Result<Gathered<'a>, NoMemory>
    requires place { slice_get entries.now at.0 ≡ Some at.1.now }
    requires left { AreLeft entries.now state.left state.firsts }
    ensures value { IfOk result (λ all. (q : Seq ℕ) → first_named all.firsts q ≡ or_first (first_named state.entry.firsts q) (all_but at.entry.1.now clause.entry.1.now clause.entry.0 q)) }
    ensures left { IfOk result (λ all. AreLeft entries.now all.left all.firsts) }
{
    let (place, entry) = at;
    let (span, names) = clause;
    let except = Names::new(alloc, names)?;
    let rest = left_of(state.left, place);
    let firsts = with_rest(alloc, state.firsts, entry, (span, &except), rest)?;
    Ok(Gathered {
        firsts,
        left: Some((place, names)),
    })
}

// The same where the clause is sound.
fn with_sound<'a>(
    alloc: Global,
    state: Gathered<'a>,
    entries: &Entries<'_>,
    at: (usize, &Entry<'a>),
    clause: (Span, &'a [Named]),
) -> Result<Gathered<'a>, NoMemory>
    requires place { slice_get entries.now at.0 ≡ Some at.1.now }
    requires left { AreLeft entries.now state.left state.firsts }
    ensures value { IfOk result (λ all. (q : Seq ℕ) → first_named all.firsts q ≡ or_first (first_named state.entry.firsts q) (first_named (exposed_all at.entry.1.now clause.entry.0 clause.entry.1.now) q)) }
    ensures left { IfOk result (λ all. AreLeft entries.now all.left all.firsts) }
{
    if is_sound(alloc, at.1, clause.1)? {
        Ok(with_all_but(alloc, state, entries, at, clause)?)
    } else {
        Ok(state)
    }
}

fn with_label<'a>(
    alloc: Global,
    state: Gathered<'a>,
    entries: &Entries<'_>,
    at: (usize, &Entry<'a>),
    label: &'a LabelDef,
) -> Result<Gathered<'a>, NoMemory>
    requires place { slice_get entries.now at.0 ≡ Some at.1.now }
    requires left { AreLeft entries.now state.left state.firsts }
    ensures value { IfOk result (λ all. (q : Seq ℕ) → first_named all.firsts q ≡ or_first (first_named state.entry.firsts q) (first_named (exposed_in at.entry.1.now label.entry.now.span label.entry.now.properties) q)) }
    ensures left { IfOk result (λ all. AreLeft entries.now all.left all.firsts) }
{
    match &label.properties {
        PropertiesDef::Nothing => Ok(state),
        PropertiesDef::Listed(listed) => {
            let Gathered { firsts, left } = state;
            let firsts = with_all_listed(alloc, firsts, at.1, listed.as_slice())?;
            Ok(Gathered { firsts, left })
        }
        PropertiesDef::AllBut(names) => {
            let clause = (label.span, names.as_slice());
            Ok(with_sound(alloc, state, entries, at, clause)?)
        }
    }
}

/// With the properties of an element.
pub(crate) fn with_element<'a>(
    alloc: Global,
    mut state: Gathered<'a>,
    entries: &Entries<'_>,
    at: (usize, &Entry<'a>),
    element: &'a ElementDef,
) -> Result<Gathered<'a>, NoMemory>
    requires place { slice_get entries.now at.0 ≡ Some at.1.now }
    requires left { AreLeft entries.now state.left state.firsts }
    ensures value { IfOk result (λ all. (q : Seq ℕ) → first_named all.firsts q ≡ or_first (first_named state.entry.firsts q) (first_named (properties_of at.entry.1.now element.entry.now) q)) }
    ensures left { IfOk result (λ all. AreLeft entries.now all.left all.firsts) }
{
    for label in element.labels.as_slice() {
        state = with_label(alloc, state, entries, at, label)?;
    }
    Ok(state)
}

// With the properties of an element whose table is known.
fn with_known<'a>(
    alloc: Global,
    state: Gathered<'a>,
    entries: &Entries<'a>,
    element: &'a ElementDef,
) -> Result<Gathered<'a>, NoMemory>
    requires left { AreLeft entries.now state.left state.firsts }
    ensures value { IfOk result (λ all. (q : Seq ℕ) → first_named all.firsts q ≡ or_first (first_named state.entry.firsts q) (first_named (properties_in entries.now element.entry.now) q)) }
    ensures left { IfOk result (λ all. AreLeft entries.now all.left all.firsts) }
{
    let place = entries.find(&element.table.name);
    match entries.at(place) {
        None => Ok(state),
        Some(entry) => {
            let at = (place, entry);
            Ok(with_element(alloc, state, entries, at, element)?)
        }
    }
}

/// The first properties of the elements of a graph.
pub(crate) fn firsts_of<'a>(
    alloc: Global,
    entries: &Entries<'a>,
    elements: &[&'a ElementDef],
) -> Result<Firsts<'a>, NoMemory>
    ensures { IfOk result (λ all. (q : Seq ℕ) → first_named all q ≡ first_named (flat_map (properties_in entries.now) (map (λ e. e.now) elements.now)) q) }
{
    let mut state = Gathered {
        firsts: Firsts::new(alloc),
        left: None,
    };
    for element in elements {
        state = with_known(alloc, state, entries, element)?;
    }
    Ok(state.firsts)
}
