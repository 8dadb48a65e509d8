ghost use Rattle.std.specs.Prelude.{◌≡◌, ◌&&◌, ◌++◌, ◌∷◌, [], cond, IfOk, map, option_map, slice_get};
ghost use Rattle.first_faults.specs.Names.{has_text};
ghost use Rattle.pattern_check.specs.Scopes.{Declaration, vertices, edges, same_kind, first_declaration};
ghost use Rattle.pattern_check.specs.NameRules.{is_declared, is_group};
ghost use Rattle.pattern_check.specs.declared.mentions.Mention.{Mention as MentionTree};
ghost use Rattle.pattern_check.specs.Mentions.{kind_of, said};
ghost use Rattle.pattern_check.specs.ByName.{has_other_kind, has_same_kind, HaveVariables};

use crate::mentions::{Mention, Sort};
use first_faults::Index;
use pgq_base::{Name, NoMemory};
use std::alloc::Global;
use std::marker::Model;

/// Declarations that are found by their variables: all, the first one of each variable, those that are quantified, those of each kind, and those of each kind that
/// are quantified. Contracts see their list, and not where each stands.
#[derive(Drop)]
pub struct Declared<'t> {
    all: Vec<Mention<'t>>,
    firsts: Vec<Mention<'t>>,
    names: Index<'t>,
    groups: Index<'t>,
    vertices: Index<'t>,
    edges: Index<'t>,
    vertex_groups: Index<'t>,
    edge_groups: Index<'t>,
}

impl<'t> Model for Declared<'t> {
    ghost use Rattle.std.specs.Prelude.{◌≡◌, List, map};
    ghost use Rattle.pattern_check.specs.Scopes.{Declaration, vertices as of_vertices, edges as of_edges};
    ghost use Rattle.pattern_check.specs.Mentions.{said};
    ghost use Rattle.pattern_check.specs.ByName.{names_where, any, in_group, of_kind, group_of_kind, HaveVariables};

    ghost Value = { List Declaration };

    ghost view = { λ x. map said x.all.items };

    ghost invariant = { λ x. (x.names ≡ names_where any (map said x.all.items)) × (x.groups ≡ names_where in_group (map said x.all.items)) × (x.vertices ≡ names_where (of_kind of_vertices) (map said x.all.items)) × (x.edges ≡ names_where (of_kind of_edges) (map said x.all.items)) × (x.vertex_groups ≡ names_where (group_of_kind of_vertices) (map said x.all.items)) × (x.edge_groups ≡ names_where (group_of_kind of_edges) (map said x.all.items)) × HaveVariables x.firsts.items (map said x.all.items) };
}

fn is_vertices(kind: Sort) -> bool
    ensures { result ≡ same_kind (kind_of kind) vertices }
{
    match kind {
        Sort::Vertices => true,
        Sort::Edges => false,
    }
}

fn is_edges(kind: Sort) -> bool
    ensures { result ≡ same_kind (kind_of kind) edges }
{
    match kind {
        Sort::Vertices => false,
        Sort::Edges => true,
    }
}

fn both(a: bool, b: bool) -> bool
    ensures { result ≡ (a && b) }
{
    a && b
}

// With the name, where the test holds.
fn with_if<'t>(names: Index<'t>, holds: bool, name: &'t Name) -> Result<Index<'t>, NoMemory>
    ensures { IfOk result (λ all. all ≡ names.entry ++ cond holds (name.entry.now ∷ []) []) }
{
    if holds {
        names.with(name.as_bytes())
    } else {
        Ok(names)
    }
}

// With the declaration, unless its variable is known.
fn with_first<'t>(
    mut firsts: Vec<Mention<'t>>,
    known: bool,
    m: Mention<'t>,
) -> Result<Vec<Mention<'t>>, NoMemory>
    ensures { IfOk result (λ all. all.items ≡ firsts.entry.items ++ cond known [] (m.entry ∷ [])) }
{
    if !known {
        firsts.push(m)?;
    }
    Ok(firsts)
}

/// The name is one of these.
#[tactic(auto, using(crate::proofs::ScopeSteps::text_place))]
pub fn has(names: &Index<'_>, name: &Name) -> bool
    ensures { result ≡ has_text name.now names.now }
{
    names.place(name.as_bytes()).is_some()
}

fn kind_at(all: &[Mention<'_>], place: usize) -> Option<Sort>
    ensures { result ≡ option_map (λ (m : MentionTree). m.kind) (slice_get all.now place) }
{
    if place < all.len() {
        Some(all[place].kind)
    } else {
        None
    }
}

impl<'t> Declared<'t> {
    pub fn new(alloc: Global) -> Declared<'t>
        ensures { result ≡ [] }
    {
        Declared {
            all: Vec::new(alloc),
            firsts: Vec::new(alloc),
            names: Index::new(alloc),
            groups: Index::new(alloc),
            vertices: Index::new(alloc),
            edges: Index::new(alloc),
            vertex_groups: Index::new(alloc),
            edge_groups: Index::new(alloc),
        }
    }

    /// With one more declaration.
    #[tactic(auto, using(crate::proofs::NameLemmas::where_more, crate::proofs::NameLemmas::said_pushed))]
    pub fn with(self, m: Mention<'t>) -> Result<Declared<'t>, NoMemory>
        ensures { IfOk result (λ more. more ≡ self.entry ++ said m.entry ∷ []) }
    {
        let Declared {
            mut all,
            firsts,
            names,
            groups,
            vertices,
            edges,
            vertex_groups,
            edge_groups,
        } = self;
        let name = &m.variable.name;
        let vertex = is_vertices(m.kind);
        let edge = is_edges(m.kind);
        let vertex_group = both(vertex, m.quantified);
        let edge_group = both(edge, m.quantified);
        let known = has(&names, name);
        let firsts = with_first(firsts, known, m)?;
        let names = with_if(names, true, name)?;
        let groups = with_if(groups, m.quantified, name)?;
        let vertices = with_if(vertices, vertex, name)?;
        let edges = with_if(edges, edge, name)?;
        let vertex_groups = with_if(vertex_groups, vertex_group, name)?;
        let edge_groups = with_if(edge_groups, edge_group, name)?;
        all.push(m)?;
        Ok(Declared {
            all,
            firsts,
            names,
            groups,
            vertices,
            edges,
            vertex_groups,
            edge_groups,
        })
    }

    /// The first declaration of each variable.
    pub fn firsts(&self) -> &[Mention<'t>]
        ensures { HaveVariables result.now self.entry.now }
    {
        self.firsts.as_slice()
    }

    /// The variable is declared.
    #[tactic(auto, using(crate::proofs::NameLemmas::text_any))]
    pub fn has(&self, name: &Name) -> bool
        ensures { result ≡ is_declared self.now name.now }
    {
        has(&self.names, name)
    }

    /// The variable is declared in a quantified part.
    #[tactic(auto, using(crate::proofs::NameLemmas::text_group))]
    pub fn has_group(&self, name: &Name) -> bool
        ensures { result ≡ is_group self.now name.now }
    {
        has(&self.groups, name)
    }

    /// The kind with which the variable is declared first.
    pub fn kind(&self, name: &Name) -> Option<Sort>
        ensures { option_map kind_of result ≡ option_map (λ (first : Declaration). first.kind) (first_declaration self.now name.now) }
    {
        match self.names.place(name.as_bytes()) {
            None => None,
            Some(place) => kind_at(self.all.as_slice(), place),
        }
    }

    /// The variable of a declaration is declared with the other kind.
    #[tactic(auto, using(crate::proofs::NameLemmas::other_of_vertex, crate::proofs::NameLemmas::other_of_edge))]
    pub fn has_other_kind(&self, m: &Mention<'_>) -> bool
        ensures { result ≡ has_other_kind (said m.now) self.now }
    {
        match m.kind {
            Sort::Vertices => has(&self.edges, &m.variable.name),
            Sort::Edges => has(&self.vertices, &m.variable.name),
        }
    }

    /// The variable of a declaration is declared with the same kind, and one of the two is quantified.
    #[tactic(auto, using(crate::proofs::NameLemmas::same_quantified, crate::proofs::NameLemmas::same_single))]
    pub fn has_same_kind(&self, m: &Mention<'_>) -> bool
        ensures { result ≡ has_same_kind (said m.now) self.now }
    {
        let name = &m.variable.name;
        match (m.kind, m.quantified) {
            (Sort::Vertices, true) => has(&self.vertices, name),
            (Sort::Vertices, false) => has(&self.vertex_groups, name),
            (Sort::Edges, true) => has(&self.edges, name),
            (Sort::Edges, false) => has(&self.edge_groups, name),
        }
    }
}
