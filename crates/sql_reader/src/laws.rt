ghost use Rattle.std.specs.Prelude.{◌≡◌, ℕ, List as Sequence, None, Ok, map};
ghost use Rattle.graph_ast.specs.declared.catalog.Catalog.{Catalog};
ghost use Rattle.sql_lexer.specs.declared.token.Token.{Token as Lexeme};
ghost use Rattle.sql_lexer.specs.Texts.{AreTokens};
ghost use Rattle.sql_algebra.specs.declared.text.SqlText.{SqlText as Text};
ghost use Rattle.sql_algebra.specs.declared.tree.SqlQuery.{SqlQuery as Query};
ghost use Rattle.sql_algebra.specs.Layout.{layout};
ghost use Rattle.sql_algebra.specs.Meant.{told_select, bare_select};
ghost use Rattle.sql_algebra.specs.Printable.{IsPrintable};
ghost use Rattle.sql_algebra.specs.Soundness.{IsSound};
ghost use Rattle.sql_parser.specs.Outcomes.{SpellsSql, IsShallow};
ghost use Rattle.sql_reader.specs.Phases.{first_fault};
ghost use Rattle.sql_reader.specs.Queries.{query_of};
ghost use Rattle.sql_reader.specs.Reading.{IsRead};
ghost use Rattle.sql_reader.specs.Shapes.{HasShape, AreSized};

/// A law: the query that a text without a fault writes down is sound in the catalog, if the text has the shape that the
/// grammar gives: no literal is Null, and a list of IN or COALESCE has a member.
pub fn faultless_is_sound()
    ensures { (catalog : Catalog) (text : Text) → HasShape text → first_fault catalog text ≡ None → IsSound (query_of catalog text) catalog }
{}

/// A law: a text has no fault where the query that it writes down is sound in the catalog.
pub fn sound_is_faultless()
    ensures { (catalog : Catalog) (text : Text) → IsSound (query_of catalog text) catalog → first_fault catalog text ≡ None }
{}

/// A law: the query that is answered for a text is the one that the text tells, but for the classes of its leaves, which no
/// text tells.
pub fn query_is_told()
    ensures { (catalog : Catalog) (text : Text) → map told_select text.selects ≡ map bare_select (query_of catalog text).selects }
{}

/// A law: a text that tells a query, but for the classes of its leaves, writes that query down, and has no fault, where the
/// query is sound in the catalog.
pub fn told_query_is_written()
    ensures { (catalog : Catalog) (text : Text) (query : Query) → map told_select text.selects ≡ map bare_select query.selects → IsSound query catalog → (query_of catalog text ≡ query) × (first_fault catalog text ≡ None) }
{}

/// A law: the text that is printed for a query that is printable and sound in the catalog is read as that query, where no more
/// than 128 parentheses are open in it.
pub fn printed_is_read()
    ensures { (catalog : Catalog) (query : Query) (tokens : Sequence Lexeme) → IsPrintable query → IsSound query catalog → AreTokens (layout query) tokens → IsShallow tokens → IsRead tokens catalog (Ok query) }
{}

/// A law: a text that tokens spell has the shape that the grammar gives, if their decimals are sizes.
pub fn grammar_gives_shape()
    ensures { (tokens : Sequence Lexeme) (text : Text) → AreSized tokens → SpellsSql tokens text → HasShape text }
{}

/// A law: the decimals among the tokens of a text are sizes.
pub fn lexed_are_sized()
    ensures { (text : Sequence ℕ) (tokens : Sequence Lexeme) → AreTokens text tokens → AreSized tokens }
{}
