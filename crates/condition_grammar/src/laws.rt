ghost use Rattle.std.specs.Prelude.{◌≡◌, ℕ, List};
ghost use Rattle.pgq_base.specs.declared.date.Date.{Date as CivilDate};
ghost use Rattle.pgq_base.specs.declared.value.Value.TheVariants.{Date as DateValue};
ghost use Rattle.civil_dates.specs.Texts.{IsDateText};
ghost use Rattle.condition_grammar.specs.Dates.{date_value};

/// A law: the literal DATE before the text of a date stands for that date.
pub fn date_named()
    ensures { (text : List ℕ) (date : CivilDate) → IsDateText text date.day → date_value text ≡ DateValue date }
{}
