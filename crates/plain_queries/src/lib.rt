//! A query text without faults can be written as SQL.
#![tactic(auto)]

ghost use Rattle.plain_queries.specs.Plain.{MakesTranslatable};

/// A law: a query text without lexical, grammatical and other faults, of the forms that are served, stands for a query that can be
/// written as SQL in a valid catalog.
pub fn makes_translatable()
    ensures { MakesTranslatable }
{}
