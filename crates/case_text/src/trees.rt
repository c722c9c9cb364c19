// Trees as fields: the files, and the calls that are to fail.
use crate::fault::CaseError;
use crate::fields::bytes_of;
use bulk_base::{Bytes, FileItem, Files, Path, Sequence};
use outside::{CallKind, Fail, Fails};
use std::alloc::{AllocError, Global};

/// The path that a short name stands for.
fn long_name(alloc: Global, name: &str) -> Result<String, AllocError> {
    if let Some(path) = name.strip_prefix('=') {
        return path.to_string(alloc);
    }
    if name.starts_with("ports/") || name.starts_with("etc/") {
        return name.to_string(alloc);
    }
    match (name, name.strip_suffix("/SUBDIR")) {
        ("SUBDIR", _) => "ports/subdir.vars".to_string(alloc),
        ("MOVED", _) => "ports/MOVED".to_string(alloc),
        ("make.conf", _) => "etc/make.conf".to_string(alloc),
        (_, Some(category)) => format!(in alloc; "ports/{category}/subdir.vars"),
        _ if name.contains('_') && !name.contains('/') => format!(in alloc;
            "etc/options/{name}/options"
        ),
        _ if name.contains('/') && !name.starts_with("base/") => format!(in alloc;
            "ports/{name}/port.vars"
        ),
        _ => name.to_string(alloc),
    }
}

fn file_of(alloc: Global, name: &str, bytes: &str) -> Result<FileItem, CaseError> {
    let path = Path::from_bytes(alloc, long_name(alloc, name)?.as_str().as_bytes())?;
    let bytes = Bytes::from_vec(bytes_of(alloc, bytes)?);
    Ok(FileItem { path, bytes })
}

/// The files of a field, with `&` between: each a name, `:` and its bytes. `SUBDIR`, `MOVED` and `make.conf` stand for the
/// files of that name, `CATEGORY/SUBDIR` for a category's list of ports, `CATEGORY/PORT` for a port's `port.vars`, and
/// `CATEGORY_PORT` for its options file; a name that begins with `ports/`, `etc/` or `base/`, and any other, for that path,
/// and `=PATH` always for the path.
pub fn files_of(alloc: Global, field: &str) -> Result<Files, CaseError> {
    let mut files = Sequence::new(alloc);
    for part in field.split('&') {
        if let Some((name, bytes)) = part.split_once(':') {
            files.push(file_of(alloc, name, bytes)?)?;
        }
    }
    Ok(files)
}

fn call_of(name: &str) -> Result<CallKind, CaseError> {
    match name {
        "names" => Ok(CallKind::Names),
        "bytes" => Ok(CallKind::Bytes),
        "get" => Ok(CallKind::Get),
        "put" => Ok(CallKind::Put),
        "remove" => Ok(CallKind::Remove),
        "clear" => Ok(CallKind::Clear),
        "run" => Ok(CallKind::Run),
        "take" => Ok(CallKind::Take),
        "write" => Ok(CallKind::Write),
        _ => Err(CaseError::Unfit),
    }
}

fn fail_of(word: &str) -> Result<Fail, CaseError> {
    let Some((name, number)) = word.split_once(' ') else {
        return Err(CaseError::Unfit);
    };
    let call = call_of(name)?;
    match number.parse() {
        Ok(number) => Ok(Fail { call, number }),
        Err(_) => Err(CaseError::Unfit),
    }
}

/// The calls of an object of this name that are to fail by a field, whose parts have `,` between: each the object's name,
/// that of the call, and its number among the object's calls of that name, from 1. Where `object` is empty, parts begin with
/// the call. Unfit where a part of the object's is of another form.
pub fn fails_of(alloc: Global, field: &str, object: &str) -> Result<Fails, CaseError> {
    let mut fails = Sequence::new(alloc);
    for part in field.split(',') {
        if let Some(call) = part.strip_prefix(object) {
            if !call.is_empty() {
                fails.push(fail_of(call.trim_start())?)?;
            }
        }
    }
    Ok(fails)
}
