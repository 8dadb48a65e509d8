ghost use Rattle.std.specs.Prelude.{◌≡◌, ◌++◌, [], Some, not, map, IfOk, option_copied, option_to_list};
ghost use Rattle.std.specs.List.{list_any};
ghost use Rattle.first_faults.specs.Names.{has_text};
ghost use Rattle.pattern_check.specs.Scopes.{nothing_around};
ghost use Rattle.pattern_check.specs.NameRules.{is_out_of_scope};

use crate::declared::has;
use first_faults::Index;
use pgq_base::{Name, NoMemory};
use std::alloc::Global;
use std::marker::Model;

/// What is around a leaf: the variables of each quantified part, and those of the path pattern, if it stands in one.
#[derive(Drop)]
pub struct Around<'s, 't> {
    parts: Vec<&'s Index<'t>>,
    path: Option<&'s Index<'t>>,
}

impl<'s, 't> Model for Around<'s, 't> {
    ghost use Rattle.std.specs.Prelude.{map, option_copied};
    ghost use Rattle.pattern_check.specs.Scopes.{Around as AroundTree};

    ghost Value = { AroundTree };

    ghost view = { λ x. record { parts = map (λ names. names.now) x.parts.items; path = option_copied x.path } };
}

// One of these lists has the name.
#[tactic(auto, using(crate::proofs::ScopeSteps::has_step))]
fn some_has(lists: &[&Index<'_>], name: &Name) -> bool
    ensures { result ≡ list_any (has_text name.now) (map (λ names. names.now) lists.now) }
{
    let mut some = false;
    for names in lists {
        some |= has(names, name);
    }
    some
}

// One of these lists does not have the name.
#[tactic(auto, using(crate::proofs::ScopeSteps::lacks_step))]
fn some_lacks(lists: &[&Index<'_>], name: &Name) -> bool
    ensures { result ≡ list_any (λ names. not (has_text name.now names)) (map (λ names. names.now) lists.now) }
{
    let mut some = false;
    for names in lists {
        some |= !has(names, name);
    }
    some
}

impl<'s, 't> Around<'s, 't> {
    /// Around the last WHERE and COLUMNS.
    pub fn nothing(alloc: Global) -> Around<'s, 't>
        ensures { result ≡ nothing_around }
    {
        Around {
            parts: Vec::new(alloc),
            path: None,
        }
    }

    /// Around what stands in a path pattern with these variables.
    pub fn path(alloc: Global, names: &'s Index<'t>) -> Around<'s, 't>
        ensures { result ≡ record { parts = []; path = Some names.entry.now } }
    {
        Around {
            parts: Vec::new(alloc),
            path: Some(names),
        }
    }

    /// Inside one more quantified part, if there is one.
    pub fn inside(
        &self,
        alloc: Global,
        names: Option<&'s Index<'t>>,
    ) -> Result<Around<'s, 't>, NoMemory>
        ensures { IfOk result (λ inner. inner ≡ record { parts = option_to_list (option_copied names.entry) ++ self.entry.now.parts; path = self.entry.now.path }) }
    {
        let mut parts = Vec::new(alloc);
        if let Some(names) = names {
            parts.push(names)?;
        }
        parts.extend_from_slice(self.parts.as_slice())?;
        Ok(Around {
            parts,
            path: self.path,
        })
    }

    /// Some quantified part around declares the variable.
    pub fn reaches(&self, name: &Name) -> bool
        ensures { result ≡ list_any (has_text name.now) self.now.parts }
    {
        some_has(self.parts.as_slice(), name)
    }

    fn is_out_of_path(&self, name: &Name) -> bool
        ensures { result ≡ list_any (λ names. not (has_text name.now names)) (option_to_list self.now.path) }
    {
        match self.path {
            None => false,
            Some(names) => !has(names, name),
        }
    }

    /// A quantified part around, or the path pattern around, does not declare the variable.
    #[tactic(auto, using(first_faults::proofs::Steps::list_any_append))]
    pub fn is_out_of_scope(&self, name: &Name) -> bool
        ensures { result ≡ is_out_of_scope self.now name.now }
    {
        let part = some_lacks(self.parts.as_slice(), name);
        let path = self.is_out_of_path(name);
        part || path
    }
}
