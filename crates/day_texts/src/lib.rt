//! The text of a date and the date of a text as functions of definitions, where `civil_dates` has the calls that compute them.
#![tactic(auto)]

ghost use Rattle.std.specs.Prelude.{◌≡◌, ℕ, List};
ghost use Rattle.civil_dates.specs.Texts.{IsDateText};
ghost use Rattle.day_texts.specs.Dates.{date_value};
ghost use Rattle.day_texts.specs.DayTexts.{day_text};
ghost use Rattle.pgq_base.specs.declared.date.Date.{Date};
ghost use Rattle.pgq_base.specs.declared.value.Value.TheVariants.{Date as DateOf};

/// A law: each date has a text, and each text of a date has that date.
pub fn dates_have_texts()
    ensures text { (date : Date) → IsDateText (day_text date.day) date.day }
    ensures date { (text : List ℕ) (date : Date) → IsDateText text date.day → date_value text ≡ DateOf date }
{}
