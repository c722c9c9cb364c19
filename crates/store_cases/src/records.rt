// Records made of a few words, without the crates that write them.
use case_text::{CaseError, push_number, push_str};
use outside::Item;
use sha2::{Digest, Sha256};
use std::alloc::Global;

/// The digits that the last line of the record of a package states, which is among files made before; 64 zeros where it is
/// not.
fn push_mark(made: &[Item], name: &str, out: &mut Vec<u8>) -> Result<(), CaseError> {
    for item in made {
        let bytes = item.bytes.as_slice();
        if item.name.bytes().strip_suffix(b".pkg") == Some(name.as_bytes()) && bytes.len() > 65 {
            out.extend_from_slice(&bytes[bytes.len() - 65..bytes.len() - 1])?;
            return Ok(());
        }
    }
    push_digits(out, "0")
}

/// A digit 64 times.
fn push_digits(out: &mut Vec<u8>, digit: &str) -> Result<(), CaseError> {
    for _ in 0..64 {
        push_str(out, digit)?;
    }
    Ok(())
}

fn push_line(out: &mut Vec<u8>, parts: &[&str]) -> Result<(), CaseError> {
    for part in parts {
        push_str(out, part)?;
    }
    push_str(out, "\n")?;
    Ok(())
}

fn push_names(out: &mut Vec<u8>, name: &str, node: &str) -> Result<(), CaseError> {
    let (origin, flavor) = match node.split_once('@') {
        Some(parts) => parts,
        None => (node, "-"),
    };
    push_line(out, &["name ", name])?;
    push_line(out, &["origin ", origin])?;
    push_line(out, &["flavor ", flavor])
}

fn push_count(
    alloc: Global,
    out: &mut Vec<u8>,
    heading: &str,
    count: usize,
) -> Result<(), CaseError> {
    push_str(out, heading)?;
    push_number(alloc, out, count as u64)?;
    push_str(out, "\n")?;
    Ok(())
}

fn is_option(word: &str) -> bool {
    word.starts_with('+') || word.starts_with('-')
}

fn push_option(out: &mut Vec<u8>, word: &str) -> Result<(), CaseError> {
    if let Some(name) = word.strip_prefix('+') {
        push_line(out, &["option ", name, " on"])?;
    }
    if let Some(name) = word.strip_prefix('-') {
        push_line(out, &["option ", name, " off"])?;
    }
    Ok(())
}

fn push_options(alloc: Global, out: &mut Vec<u8>, words: &[&str]) -> Result<(), CaseError> {
    let count = words.iter().filter(|word| is_option(word)).count();
    push_count(alloc, out, "options ", count)?;
    for word in words {
        push_option(out, word)?;
    }
    Ok(())
}

/// The mark of a package by its name; another one where `!` stands behind it.
fn push_mark_of(made: &[Item], name: &str, out: &mut Vec<u8>) -> Result<(), CaseError> {
    if name.ends_with('!') {
        push_digits(out, "e")
    } else {
        push_mark(made, name, out)
    }
}

fn plain_name(name: &str) -> &str {
    name.strip_suffix('!').unwrap_or(name)
}

fn push_need(out: &mut Vec<u8>, [kind, node, name]: [&str; 3]) -> Result<(), CaseError> {
    push_str(out, "depend ")?;
    push_str(out, kind)?;
    push_str(out, " ")?;
    push_str(out, node)?;
    push_str(out, " ")?;
    push_str(out, plain_name(name))?;
    Ok(())
}

/// A dependency by `KIND,NODE,NAME`, whose mark is that of the package's record; behind `!` another one.
fn push_depend(
    alloc: Global,
    made: &[Item],
    is_new: bool,
    word: &str,
    out: &mut Vec<u8>,
) -> Result<(), CaseError> {
    let parts: Vec<&str> = word.split(',').collect(alloc)?;
    let [kind, node, name] = parts.as_slice() else {
        return Ok(());
    };
    push_need(out, [kind, node, name])?;
    if is_new {
        push_str(out, " ")?;
        push_mark_of(made, name, out)?;
    }
    push_str(out, "\n")?;
    Ok(())
}

fn push_depends(
    alloc: Global,
    made: &[Item],
    is_new: bool,
    words: &[&str],
    out: &mut Vec<u8>,
) -> Result<(), CaseError> {
    let count = words.iter().filter(|word| word.contains(',')).count();
    push_count(alloc, out, "depends ", count)?;
    for word in words {
        push_depend(alloc, made, is_new, word, out)?;
    }
    Ok(())
}

fn push_digest_line(alloc: Global, out: &mut Vec<u8>) -> Result<(), CaseError> {
    let digest = hex::encode(alloc, Sha256::digest(out.as_slice()))?;
    push_line(out, &["sha256 ", digest.as_str()])
}

/// The lines of version 2 down to the recipe's.
fn push_new(out: &mut Vec<u8>, [name, node, recipe]: [&str; 3]) -> Result<(), CaseError> {
    push_line(out, &["poudriere-package 2"])?;
    push_names(out, name, node)?;
    push_str(out, "recipe ")?;
    push_digits(out, recipe)?;
    push_str(out, "\n")?;
    Ok(())
}

fn push_head(
    is_new: bool,
    [first, second, third]: [&str; 3],
    out: &mut Vec<u8>,
) -> Result<(), CaseError> {
    if is_new {
        return push_new(out, [first, second, third]);
    }
    push_line(out, &["poudriere-package 1"])?;
    push_names(out, second, third)
}

fn push_words(
    alloc: Global,
    made: &[Item],
    words: &[&str],
    out: &mut Vec<u8>,
) -> Result<(), CaseError> {
    let [first, second, third, rest @ ..] = words else {
        return Err(CaseError::Unfit);
    };
    let is_new = *first != "old";
    push_head(is_new, [first, second, third], out)?;
    push_options(alloc, out, rest)?;
    push_depends(alloc, made, is_new, rest, out)?;
    push_line(out, &["files 0"])?;
    push_digest_line(alloc, out)
}

/// Puts the record that some words spell into an empty list: `NAME NODE RECIPE` of version 2, with the recipe's digit, or
/// `old NAME NODE` of version 1; then the options, `+NAME` or `-NAME`, and the dependencies. It has no files.
pub(crate) fn push_record(
    alloc: Global,
    made: &[Item],
    spec: &str,
    out: &mut Vec<u8>,
) -> Result<(), CaseError> {
    let words: Vec<&str> = spec.split(' ').collect(alloc)?;
    push_words(alloc, made, words.as_slice(), out)
}
