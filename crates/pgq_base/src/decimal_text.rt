ghost use Rattle.std.specs.Prelude.{◌≡◌, ◌≤◌, ◌++◌, IfOk, OnOk, decimal, unsigned_abs};
ghost use Rattle.pgq_base.specs.DecimalTexts.{number_text, decimal_text, size_text, last_digits};

use crate::decimal::{Decimal, power_of_ten};
use crate::list::List;
use crate::memory::NoMemory;
use std::alloc::Global;

/// The text of a whole number: a minus where it is below 0, and its digits.
pub fn text_of_number(alloc: Global, number: i64) -> Result<List<u8>, NoMemory>
    ensures { IfOk result (λ text. text ≡ number_text number) }
{
    let mut text = List::new(alloc);
    if number < 0 {
        text.push(b'-')?;
    }
    let digits = number.unsigned_abs().to_string(alloc)?;
    text.extend(digits.as_bytes())?;
    Ok(text)
}

/// The text of a decimal: a minus where it is below 0, at least one digit, a point, and the digits behind it.
pub fn text_of_decimal(alloc: Global, decimal: Decimal) -> Result<List<u8>, NoMemory>
    ensures { IfOk result (λ text. text ≡ decimal_text decimal) }
{
    let mut text = List::new(alloc);
    if decimal.unscaled < 0 {
        text.push(b'-')?;
    }
    let size = text_of_size(alloc, decimal)?;
    text.extend(size.as_slice())?;
    Ok(text)
}

/// The text of a decimal without its sign.
pub fn text_of_size(alloc: Global, decimal: Decimal) -> Result<List<u8>, NoMemory>
    ensures { IfOk result (λ text. text ≡ size_text (unsigned_abs decimal.unscaled) decimal.scale) }
{
    let number = decimal.unscaled.unsigned_abs();
    let whole = (number / power_of_ten(decimal.scale)).to_string(alloc)?;
    let mut text = List::new(alloc);
    text.extend(whole.as_bytes())?;
    text.push(b'.')?;
    push_last_digits(&mut text, number, decimal.scale)?;
    Ok(text)
}

// Appends that many of the last digits of a number.
fn push_last_digits(text: &mut List<u8>, number: u64, mut count: u8) -> Result<(), NoMemory>
    requires { count ≤ 18 }
    ensures { OnOk result (text.new ≡ text.old ++ last_digits count number) }
{
    while count > 0 {
        count -= 1;
        text.push(b'0' + (number / power_of_ten(count) % 10) as u8)?;
    }
    Ok(())
}
