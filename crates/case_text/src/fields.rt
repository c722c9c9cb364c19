// What a case's fields stand for.
use crate::fault::CaseError;
use crate::undone::push_bytes;
use bulk_base::{Path, Text, Texts, words};
use std::alloc::{AllocError, Global};

/// The bytes that a field stands for.
pub fn bytes_of(alloc: Global, field: &str) -> Result<Vec<u8>, AllocError> {
    let mut bytes = Vec::new(alloc);
    push_bytes(&mut bytes, field)?;
    Ok(bytes)
}

/// The text that a field stands for. Unfit where it is no text.
pub fn text_of(alloc: Global, field: &str) -> Result<Text, CaseError> {
    Ok(Text::from_bytes(alloc, bytes_of(alloc, field)?.as_slice())?)
}

/// The path that a field stands for. Unfit where it is no path.
pub fn path_of(alloc: Global, field: &str) -> Result<Path, CaseError> {
    Ok(Path::from_bytes(alloc, bytes_of(alloc, field)?.as_slice())?)
}

/// The words of a field, between blanks. Unfit where it is no text.
pub fn words_of(alloc: Global, field: &str) -> Result<Texts, CaseError> {
    Ok(words(alloc, &text_of(alloc, field)?)?)
}

/// The text that a field stands for; None for `-`.
pub fn option_of(alloc: Global, field: &str) -> Result<Option<Text>, CaseError> {
    if field == "-" {
        return Ok(None);
    }
    Ok(Some(text_of(alloc, field)?))
}

/// The number that a field stands for. Unfit where it is none.
pub fn number_of(field: &str) -> Result<u64, CaseError> {
    match field.parse() {
        Ok(number) => Ok(number),
        Err(_) => Err(CaseError::Unfit),
    }
}
