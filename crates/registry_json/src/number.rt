//! The number that a token of JSON writes.

ghost use Rattle.std.specs.Prelude.{◌≡◌, true, false, option_map};
ghost use Rattle.serde_json.specs.Read.{number_of, number_from, float_of};
ghost use Rattle.serde_json.specs.View.{number_view};

use fast_float::Numeral;
use serde_json::Number;

// The number of a text: an integer of 64 bits, or else the nearest float. `None` where that would
// be infinite.
pub(crate) fn number(text: &str) -> Option<Number>
    ensures { option_map number_view result ≡ number_of text.now }
{
    match text.strip_prefix('-') {
        Some(digits) => below_zero(&Numeral::scan(digits.as_bytes())),
        None => from_zero(&Numeral::scan(text.as_bytes())),
    }
}

fn from_zero(numeral: &Numeral<'_>) -> Option<Number>
    ensures { option_map number_view result ≡ number_from false numeral.now }
{
    match numeral.to_u64() {
        Some(n) => Number::from_u128(n as u128),
        None => nearest(false, numeral),
    }
}

fn below_zero(numeral: &Numeral<'_>) -> Option<Number>
    ensures { option_map number_view result ≡ number_from true numeral.now }
{
    match numeral.to_i64(true) {
        Some(n) => if n < 0 {
            Number::from_i128(n as i128)
        } else {
            nearest(true, numeral)
        },
        None => nearest(true, numeral),
    }
}

fn nearest(negative: bool, numeral: &Numeral<'_>) -> Option<Number>
    ensures { option_map number_view result ≡ float_of negative numeral.now }
{
    Number::from_f64(numeral.to_float::<f64>(negative))
}
