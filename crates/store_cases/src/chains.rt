// Stores whose packages are one chain.
use crate::indexes::index_of_files;
use crate::records::push_record;
use crate::stale_cases::{push_stale, stale_of};
use crate::stores::loaded_of_items;
use bulk_base::{Bytes, FileItem, Files, Path, Sequence};
use bulk_model::{Digest, MaybeDigests, Recipes, Stales};
use case_text::{CaseError, number_of, push_number, push_str, text_of};
use outside::{Item, Items};
use pkg_store::Loaded;
use std::alloc::{AllocError, Global};
use tree_index::Index;

fn push_file(alloc: Global, files: &mut Files, path: &str, text: &str) -> Result<(), CaseError> {
    let path = Path::from_bytes(alloc, path.as_bytes())?;
    let bytes = Bytes::from_slice(alloc, text.as_bytes())?;
    files.push(FileItem { path, bytes })?;
    Ok(())
}

/// A port that runs with the one before it.
fn port_text(alloc: Global, n: u64, version: &str) -> Result<String, AllocError> {
    if n == 0 {
        return format!(in alloc; "PORTNAME=p000\nPORTVERSION={version}\n");
    }
    let before = n - 1;
    format!(in alloc; "PORTNAME=p{n:03}\nPORTVERSION=1.0\nRUN_DEPENDS=x:a/p{before:03}\n")
}

/// A tree of so many ports, each of which runs with the one before it; the first has a version of its own.
fn chain_tree(alloc: Global, count: u64, version: &str) -> Result<Files, CaseError> {
    let mut files = Sequence::new(alloc);
    let mut list = String::from_str(alloc, "SUBDIR=")?;
    for n in 0..count {
        list.push_str(format!(in alloc; "p{n:03} ")?.as_str())?;
        let path = format!(in alloc; "ports/a/p{n:03}/port.vars")?;
        push_file(
            alloc,
            &mut files,
            path.as_str(),
            port_text(alloc, n, version)?.as_str(),
        )?;
    }
    push_file(alloc, &mut files, "ports/a/subdir.vars", list.as_str())?;
    push_file(alloc, &mut files, "ports/subdir.vars", "SUBDIR=a")?;
    Ok(files)
}

fn spec_of(alloc: Global, n: u64) -> Result<String, AllocError> {
    if n == 0 {
        return "p000-1.0 a/p000 a".to_string(alloc);
    }
    let before = n - 1;
    format!(in alloc; "p{n:03}-1.0 a/p{n:03} a run,a/p{before:03},p{before:03}-1.0")
}

fn chain_item(alloc: Global, before: &[Item], n: u64) -> Result<Item, CaseError> {
    let mut record = Vec::new(alloc);
    push_record(alloc, before, spec_of(alloc, n)?.as_str(), &mut record)?;
    let name = text_of(alloc, format!(in alloc; "p{n:03}-1.0.pkg")?.as_str())?;
    let bytes = Bytes::from_vec(record);
    Ok(Item { name, bytes })
}

/// The last of some files, alone.
fn last_of(items: &Items) -> &[Item] {
    match items.as_slice().last_chunk::<1>() {
        Some(one) => one.as_slice(),
        None => &[],
    }
}

/// The packages of such a tree, with version 1.0 each.
fn chain_store(alloc: Global, count: u64) -> Result<Items, CaseError> {
    let mut items: Items = Sequence::new(alloc);
    for n in 0..count {
        let item = chain_item(alloc, last_of(&items), n)?;
        items.push(item)?;
    }
    Ok(items)
}

fn recipes_for(alloc: Global, count: u64) -> Result<Recipes, CaseError> {
    let mut digests: MaybeDigests = Sequence::new(alloc);
    for _ in 0..count {
        digests.push(Digest::from_hex([b'a'; 64].as_slice()))?;
    }
    Ok(Recipes { digests })
}

/// Puts how many go at the end, with the first three and the last.
fn push_ends(alloc: Global, gone: &Stales, out: &mut Vec<u8>) -> Result<(), AllocError> {
    push_number(alloc, out, gone.len() as u64)?;
    for at in 0..gone.len() {
        if at < 3 || at + 1 == gone.len() {
            push_str(out, ", ")?;
            push_stale(&gone.as_slice()[at], out)?;
        }
    }
    Ok(())
}

fn chain_loaded(alloc: Global, count: u64) -> Result<Loaded, CaseError> {
    loaded_of_items(alloc, chain_store(alloc, count)?)
}

fn push_chain(
    alloc: Global,
    index: &Index,
    loaded: &Loaded,
    recipes: &Recipes,
    out: &mut Vec<u8>,
) -> Result<(), CaseError> {
    let gone = stale_of(alloc, index, loaded, &[], recipes)?;
    Ok(push_ends(alloc, &gone, out)?)
}

/// What goes of a chain of packages over an index.
fn push_over(alloc: Global, index: &Index, count: u64, out: &mut Vec<u8>) -> Result<(), CaseError> {
    let recipes = recipes_for(alloc, count)?;
    let loaded = chain_loaded(alloc, count)?;
    push_chain(alloc, index, &loaded, &recipes, out)
}

/// What goes of a chain of packages over a tree whose first port has this version.
pub(crate) fn answer_chain(
    alloc: Global,
    count: &str,
    version: &str,
    out: &mut Vec<u8>,
) -> Result<(), CaseError> {
    let count = number_of(count)?;
    let index = index_of_files(alloc, chain_tree(alloc, count, version)?)?;
    push_over(alloc, &index, count, out)
}
