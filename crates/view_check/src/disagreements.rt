ghost use Rattle.std.specs.Prelude.{◌≡◌, [], ◌∷◌, ◌++◌, map, not, IfOk, Some, option_copied, slice_get};
ghost use Rattle.std.specs.List.{flat_map, list_any};
ghost use Rattle.first_faults.specs.Faults.{first_of};
ghost use Rattle.first_faults.specs.Names.{is_among};
ghost use Rattle.view_check.specs.GraphRules.{class_at, exposed_by, exposed_but, exposed_in, properties_of, properties_in};
ghost use Rattle.view_check.specs.Firsts.{first_named, exposed_all, agrees, code_of, against, is_bad, bad_names, AreBad};

use crate::elements::property_name;
use crate::entries::{Entries, Entry};
use crate::exposed::{Exposed, Part};
use crate::firsts::Firsts;
use crate::names::Names;
use crate::places::{are_same_class, class_at, is_sound};
use first_faults::{Fault, note};
use graph_ast::{ElementDef, LabelDef, Named, PropertiesDef, PropertyDef};
use pgq_base::{Class, Code, List, Name, NoMemory, Span};
use std::alloc::Global;

fn agrees(part: Part, first: &Exposed, column: u32, class: Option<Class>) -> bool
    ensures { result ≡ agrees part first.now column class }
{
    match part {
        Part::Class => are_same_class(first.class, class),
        Part::Column => first.column == column,
    }
}

fn is_bad(part: Part, first: Option<&Exposed>, column: u32, class: Option<Class>) -> bool
    ensures { result ≡ is_bad part (option_copied first.entry) column class }
{
    match first {
        None => false,
        Some(first) => !agrees(part, first, column, class),
    }
}

fn code_of(part: Part) -> Code
    ensures { result ≡ code_of part }
{
    match part {
        Part::Class => Code::PropertyClassesDiffer,
        Part::Column => Code::PropertyColumnsDiffer,
    }
}

#[tactic(auto, using(crate::proofs::AgainstLemmas::one_against))]
fn property_fault(
    found: Option<Fault>,
    by: (&Firsts<'_>, Part),
    entry: &Entry<'_>,
    property: &PropertyDef,
) -> Result<Option<Fault>, NoMemory>
    ensures { IfOk result (λ all. all ≡ first_of found (against by.entry.1 by.entry.0.now (exposed_by entry.now property.now))) }
{
    let (firsts, part) = by;
    if !entry.has_column(&property.column.name) {
        return Ok(found);
    }
    let place = entry.column_place(&property.column.name)?;
    let named = property_name(property);
    let class = class_at(entry.table(), place);
    let bad = is_bad(part, firsts.first(&named.name), place, class);
    Ok(note(found, bad, code_of(part), named.span))
}

#[tactic(auto, using(crate::proofs::AgainstLemmas::listed_step))]
fn listed_faults(
    first: Option<Fault>,
    by: (&Firsts<'_>, Part),
    entry: &Entry<'_>,
    properties: &[PropertyDef],
) -> Result<Option<Fault>, NoMemory>
    ensures { IfOk result (λ all. all ≡ first_of first (against by.entry.1 by.entry.0.now (flat_map (exposed_by entry.now) properties.now))) }
{
    let mut found = first;
    for property in properties {
        found = property_fault(found, by, entry, property)?;
    }
    Ok(found)
}

// The names of the columns that do not agree with the first properties of their names.
#[tactic(auto, using(crate::proofs::AgainstLemmas::bad_step))]
fn bad_names<'a>(
    alloc: Global,
    by: (&Firsts<'_>, Part),
    entry: &Entry<'a>,
) -> Result<List<&'a Name>, NoMemory>
    ensures { IfOk result (λ all. map (λ n. n.now) all ≡ bad_names by.entry.1 by.entry.0.now entry.now) }
{
    let (firsts, part) = by;
    let table = entry.table();
    let columns = table.columns.as_slice();
    let mut all = List::new(alloc);
    for i in 0..columns.len() {
        let column = crate::catalogs::place(i)?;
        let name = &columns[i].name;
        if is_bad(part, firsts.first(name), column, class_at(table, column)) {
            all.push(name)?;
        }
    }
    Ok(all)
}

#[tactic(auto, using(crate::proofs::AgainstLemmas::outside_step))]
fn is_one_outside(names: &[&Name], except: &Names<'_>) -> bool
    ensures { result ≡ list_any (λ n. not (is_among n except.now)) (map (λ n. n.now) names.now) }
{
    for n in names {
        if !except.has(n) {
            return true;
        }
    }
    false
}

/// The first fault so far, and the names of the columns of the table at a place that do not agree.
#[derive(Drop)]
struct Judged<'a> {
    found: Option<Fault>,
    bad: Option<(usize, List<&'a Name>)>,
}

fn bad_at<'a>(
    alloc: Global,
    known: Option<(usize, List<&'a Name>)>,
    by: (&Firsts<'_>, Part),
    entries: &Entries<'_>,
    at: (usize, &Entry<'a>),
) -> Result<List<&'a Name>, NoMemory>
    requires place { slice_get entries.now at.0 ≡ Some at.1.now }
    requires bad { AreBad entries.now by.1 by.0.now known }
    ensures { IfOk result (λ all. map (λ n. n.now) all ≡ bad_names by.entry.1 by.entry.0.now at.entry.1.now) }
{
    match known {
        None => bad_names(alloc, by, at.1),
        Some((place, names)) => {
            if place == at.0 {
                Ok(names)
            } else {
                bad_names(alloc, by, at.1)
            }
        }
    }
}

#[tactic(auto, using(crate::proofs::AgainstLemmas::block_against))]
fn columns_fault<'a>(
    alloc: Global,
    state: Judged<'a>,
    by: (&Firsts<'_>, Part),
    entries: &Entries<'_>,
    at: (usize, &Entry<'a>),
    clause: (Span, &[Named]),
) -> Result<Judged<'a>, NoMemory>
    requires place { slice_get entries.now at.0 ≡ Some at.1.now }
    requires bad { AreBad entries.now by.1 by.0.now state.bad }
    ensures found { IfOk result (λ all. all.found ≡ first_of state.entry.found (against by.entry.1 by.entry.0.now (exposed_but at.entry.1.now clause.entry.1.now clause.entry.0 0 at.entry.1.now.columns))) }
    ensures bad { IfOk result (λ all. AreBad entries.now by.entry.1 by.entry.0.now all.bad) }
{
    let (span, names) = clause;
    let except = Names::new(alloc, names)?;
    let bad = bad_at(alloc, state.bad, by, entries, at)?;
    let outside = is_one_outside(bad.as_slice(), &except);
    let code = code_of(by.1);
    let found = note(state.found, outside, code, span);
    Ok(Judged {
        found,
        bad: Some((at.0, bad)),
    })
}

fn all_fault<'a>(
    alloc: Global,
    state: Judged<'a>,
    by: (&Firsts<'_>, Part),
    entries: &Entries<'_>,
    at: (usize, &Entry<'a>),
    clause: (Span, &[Named]),
) -> Result<Judged<'a>, NoMemory>
    requires place { slice_get entries.now at.0 ≡ Some at.1.now }
    requires bad { AreBad entries.now by.1 by.0.now state.bad }
    ensures found { IfOk result (λ all. all.found ≡ first_of state.entry.found (against by.entry.1 by.entry.0.now (exposed_all at.entry.1.now clause.entry.0 clause.entry.1.now))) }
    ensures bad { IfOk result (λ all. AreBad entries.now by.entry.1 by.entry.0.now all.bad) }
{
    if is_sound(alloc, at.1, clause.1)? {
        Ok(columns_fault(alloc, state, by, entries, at, clause)?)
    } else {
        Ok(state)
    }
}

fn label_faults<'a>(
    alloc: Global,
    state: Judged<'a>,
    by: (&Firsts<'_>, Part),
    entries: &Entries<'_>,
    at: (usize, &Entry<'a>),
    label: &LabelDef,
) -> Result<Judged<'a>, NoMemory>
    requires place { slice_get entries.now at.0 ≡ Some at.1.now }
    requires bad { AreBad entries.now by.1 by.0.now state.bad }
    ensures found { IfOk result (λ all. all.found ≡ first_of state.entry.found (against by.entry.1 by.entry.0.now (exposed_in at.entry.1.now label.now.span label.now.properties))) }
    ensures bad { IfOk result (λ all. AreBad entries.now by.entry.1 by.entry.0.now all.bad) }
{
    match &label.properties {
        PropertiesDef::Nothing => Ok(state),
        PropertiesDef::Listed(listed) => {
            let Judged { found, bad } = state;
            let found = listed_faults(found, by, at.1, listed.as_slice())?;
            Ok(Judged { found, bad })
        }
        PropertiesDef::AllBut(names) => {
            let clause = (label.span, names.as_slice());
            Ok(all_fault(alloc, state, by, entries, at, clause)?)
        }
    }
}

#[tactic(auto, using(crate::proofs::AgainstLemmas::labels_step))]
fn element_faults<'a>(
    alloc: Global,
    mut state: Judged<'a>,
    by: (&Firsts<'_>, Part),
    entries: &Entries<'_>,
    at: (usize, &Entry<'a>),
    element: &ElementDef,
) -> Result<Judged<'a>, NoMemory>
    requires place { slice_get entries.now at.0 ≡ Some at.1.now }
    requires bad { AreBad entries.now by.1 by.0.now state.bad }
    ensures found { IfOk result (λ all. all.found ≡ first_of state.entry.found (against by.entry.1 by.entry.0.now (properties_of at.entry.1.now element.now))) }
    ensures bad { IfOk result (λ all. AreBad entries.now by.entry.1 by.entry.0.now all.bad) }
{
    for label in element.labels.as_slice() {
        state = label_faults(alloc, state, by, entries, at, label)?;
    }
    Ok(state)
}

fn known_faults<'a>(
    alloc: Global,
    state: Judged<'a>,
    by: (&Firsts<'_>, Part),
    entries: &Entries<'a>,
    element: &ElementDef,
) -> Result<Judged<'a>, NoMemory>
    requires bad { AreBad entries.now by.1 by.0.now state.bad }
    ensures found { IfOk result (λ all. all.found ≡ first_of state.entry.found (against by.entry.1 by.entry.0.now (properties_in entries.now element.now))) }
    ensures bad { IfOk result (λ all. AreBad entries.now by.entry.1 by.entry.0.now all.bad) }
{
    let place = entries.find(&element.table.name);
    match entries.at(place) {
        None => Ok(state),
        Some(entry) => {
            let at = (place, entry);
            Ok(element_faults(alloc, state, by, entries, at, element)?)
        }
    }
}

/// A fault at each property of the elements that does not agree with the first of its name.
#[tactic(auto, using(crate::proofs::AgainstLemmas::elements_step))]
pub(crate) fn against(
    alloc: Global,
    first: Option<Fault>,
    by: (&Firsts<'_>, Part),
    entries: &Entries<'_>,
    elements: &[&ElementDef],
) -> Result<Option<Fault>, NoMemory>
    ensures { IfOk result (λ all. all ≡ first_of first (against by.entry.1 by.entry.0.now (flat_map (properties_in entries.now) (map (λ e. e.now) elements.now)))) }
{
    let mut state = Judged {
        found: first,
        bad: None,
    };
    for element in elements {
        state = known_faults(alloc, state, by, entries, element)?;
    }
    Ok(state.found)
}
