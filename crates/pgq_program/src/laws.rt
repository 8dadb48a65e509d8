ghost use Rattle.std.specs.Prelude.{◌≡◌, ℕ, ◌*◌, ◌≤◌, List, Some, Ok, Result};
ghost use Rattle.graph_ast.specs.declared.catalog.Catalog.{Catalog};
ghost use Rattle.graph_ast.specs.declared.checked.CheckedQuery.{CheckedQuery};
ghost use Rattle.pgq_base.specs.declared.refusal.Refusal.{Refusal};
ghost use Rattle.pgq_program.specs.declared.halt.Halt.{Halt as Stopped};
ghost use Rattle.pgq_program.specs.Commands.Asked.{OfSample};
ghost use Rattle.pgq_program.specs.Commands.{command_of};
ghost use Rattle.pgq_program.specs.Outcomes.{Outcome};
ghost use Rattle.pgq_program.specs.Steps.{Owes};
ghost use Rattle.pgq_program.specs.Texts.{IsSchemaDue, IsTextsDue};

/// A law: over the same files, words are due one outcome or one halt at most. So a text that is checked
/// is without faults or has one first fault, and not both.
pub fn one_answer()
    ensures { (words : List (List ℕ)) (files : List (List ℕ × List ℕ)) (x y : Result Outcome Stopped)
        → Owes (command_of words) files x → Owes (command_of words) files y → x ≡ y }
{}

/// A law: two texts are due one query in one catalog or one refusal at most.
pub fn one_query()
    ensures { (schema query : List ℕ) (x y : Result (Catalog × CheckedQuery) Refusal)
        → IsTextsDue schema query x → IsTextsDue schema query y → x ≡ y }
{}

/// A law: a schema text is due one catalog or one refusal at most. So who has read the catalog of a text knows which tables
/// the texts of `run_texts` may name.
pub fn one_catalog()
    ensures { (schema : List ℕ) (x y : Result Catalog Refusal) → IsSchemaDue schema x → IsSchemaDue schema y → x ≡ y }
{}

/// A law: with n persons, up to 2000, the generated run is due a summary, of at most 12 n rows, whatever the files
/// are. By `one_answer` it is due no refusal then.
pub fn summary_is_due()
    ensures { (n : ℕ) (files : List (List ℕ × List ℕ)) → n ≤ 2000
        → (rows : ℕ) × (different : ℕ) × (rows ≤ 12 * n) × Owes (Some (OfSample n)) files (Ok (Outcome.Summary n (3 * n) rows different)) }
{}
