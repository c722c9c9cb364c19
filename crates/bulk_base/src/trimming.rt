// Texts without the blanks at their ends.
ghost use Rattle.std.specs.Prelude.{◌≡◌};
ghost use Rattle.bulk_base.specs.Trim.{trim_start, trim_end, trim};

use crate::word::is_blank;

/// A text without its leading blanks. Costs the blanks.
pub fn trim_start(text: &[u8]) -> &[u8]
    ensures { result.now ≡ trim_start text.now }
{
    for at in 0..text.len() {
        if !is_blank(text[at]) {
            return &text[at..];
        }
    }
    &text[text.len()..]
}

fn trim_end(text: &[u8]) -> &[u8]
    ensures { result.now ≡ trim_end text.now }
{
    let mut end = text.len();
    while end > 0 && is_blank(text[end - 1]) {
        end -= 1;
    }
    &text[..end]
}

/// A text without the blanks at its ends. Costs the blanks.
#[tactic(auto, unfolding(crate::specs::Trim::trim))]
pub fn trim(text: &[u8]) -> &[u8]
    ensures { result.now ≡ trim text.now }
{
    trim_end(trim_start(text))
}
