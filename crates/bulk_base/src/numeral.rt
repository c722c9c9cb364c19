// Numbers as decimal digits.
ghost use Rattle.std.specs.Prelude.{◌≡◌, IfOk};
ghost use Rattle.std.specs.Fmt.{decimal as decimal_digits};
ghost use Rattle.std.specs.Char.{is_ascii_digit};
ghost use Rattle.std.specs.List.{list_all};
ghost use Rattle.bulk_base.specs.Number.{number_of};

use crate::sequence::NoMemory;
use crate::text::Text;
use std::alloc::Global;
use std::str;

/// The decimal digits of a number, without a leading zero.
pub fn decimal(alloc: Global, n: u64) -> Result<Text, NoMemory>
    ensures { IfOk result (λ t. t ≡ decimal_digits n) }
{
    Ok(Text::from_string(n.to_string(alloc)?))
}

fn has_only_digits(digits: &[u8]) -> bool
    ensures { result ≡ list_all is_ascii_digit digits.now }
{
    digits.iter().all(|b| b.is_ascii_digit())
}

fn is_number(digits: &[u8]) -> bool
    ensures { result ≡ Rattle.bulk_base.specs.Number.is_number digits.now }
{
    has_only_digits(digits)
        && !digits.is_empty()
        && digits.len() <= 18
        && (digits.len() == 1 || digits[0] != b'0')
}

/// The number that a text spells. None exactly where the text is neither `0` nor 1 to 18 digits without a leading zero.
pub fn number(text: &Text) -> Option<u64>
    ensures { result ≡ number_of text.now }
{
    if is_number(text.bytes()) {
        text.as_str().parse().ok()
    } else {
        None
    }
}
