// Parts of an answer, each put at its end.
use bulk_base::Text;
use std::alloc::{AllocError, Global};

/// Puts a string at the end.
pub fn push_str(out: &mut Vec<u8>, text: &str) -> Result<(), AllocError> {
    out.extend_from_slice(text.as_bytes())
}

/// Puts a text at the end.
pub fn push_text(out: &mut Vec<u8>, text: &Text) -> Result<(), AllocError> {
    out.extend_from_slice(text.bytes())
}

/// Puts texts at the end, each behind a blank.
pub fn push_texts(out: &mut Vec<u8>, texts: &[Text]) -> Result<(), AllocError> {
    for text in texts {
        out.push(b' ')?;
        push_text(out, text)?;
    }
    Ok(())
}

/// Puts a number at the end, in decimal digits.
pub fn push_number(alloc: Global, out: &mut Vec<u8>, number: u64) -> Result<(), AllocError> {
    push_str(out, number.to_string(alloc)?.as_str())
}
