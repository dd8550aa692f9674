// The fields of a record: a number, a number with a sign, a weight.
ghost use Rattle.std.specs.Prelude.{◌≡◌, pos, option_map};
ghost use Rattle.text_rows.specs.Numeral as numeral;

// Digits of a number, at most.
const DIGITS_MOST: usize = 9;

// A number: digits alone, at least one.
pub(crate) fn number(field: &[u8]) -> Option<usize>
    ensures { result ≡ numeral.number field.now }
{
    if field.is_empty() || DIGITS_MOST < field.len() {
        return None;
    }
    let mut value = 0;
    for &digit in field {
        if !digit.is_ascii_digit() {
            return None;
        }
        value = 10 * value + usize::from(digit - b'0');
    }
    Some(value)
}

// Digits without a sign; so few that they fit.
#[tactic(auto, using(crate::proofs::DigitLaws::number_small))]
fn unsigned(field: &[u8]) -> Option<i64>
    ensures { result ≡ option_map pos (numeral.number field.now) }
{
    let value = number(field)?;
    Some(value as i64)
}

// A wanted place or a distance: digits, with or without a minus sign in front.
pub(crate) fn signed(field: &[u8]) -> Option<i64>
    ensures { result ≡ numeral.signed field.now }
{
    if let [b'-', digits @ ..] = field {
        let value = unsigned(digits)?;
        return Some(-value);
    }
    unsigned(field)
}

// A weight: digits, or 10 where it is blank.
pub(crate) fn weight(field: &[u8]) -> Option<i64>
    ensures { result ≡ numeral.weight_of field.now }
{
    if field.is_empty() {
        return Some(10);
    }
    unsigned(field)
}
