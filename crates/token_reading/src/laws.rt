ghost use Rattle.std.specs.Prelude.{◌≡◌, ℕ, ◌<◌, is_some};
ghost use Rattle.sql_lexer.specs.declared.token.Token.{Token as Lexeme};
ghost use Rattle.token_marks.specs.declared.mark.Mark.{Mark as TokenMark};
ghost use Rattle.token_reading.specs.Tokens.{class, class_count, is_mark, is_name, is_word, name_bytes, word_bytes, small_number};
ghost use Rattle.token_marks.specs.declared.mark.Mark.TheVariants as m;

/// A law: the classes tell tokens apart as the kinds do. Those of names are the classes of bare words
/// and delimited names, and those of numbers are the classes of numbers below 2^63. Each class that
/// there is belongs to some token, and no token has another.
pub fn classes_tell()
    ensures names { (token : Lexeme) → is_name (class token) ≡ is_some (name_bytes token.kind) }
    ensures words { (token : Lexeme) → is_word (class token) ≡ is_some (word_bytes token.kind) }
    ensures numbers { (token : Lexeme) → is_mark m.Number token ≡ is_some (small_number token.kind) }
    ensures below { (token : Lexeme) → class token < class_count }
    ensures reached { (c : ℕ) → c < class_count → (token : Lexeme) × (class token ≡ c) }
{}
