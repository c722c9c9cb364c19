//! Cases of the readers of texts, names, variables, options, MOVED, settings, patterns and descriptions: a line of standard input
//! each, with fields between bars, and an answer a line.
#![tactic(auto)]

mod base_cases;
mod conf_cases;
mod desc_cases;
mod moved_cases;
mod name_cases;
mod option_cases;
mod vars_cases;

use case_text::{CaseError, shown_answer};
use std::alloc::{AllocError, Global};
use std::io;

fn answer(alloc: Global, case: &[&str], out: &mut Vec<u8>) -> Result<(), CaseError> {
    match case {
        [kind, first] => answer_one(alloc, kind, first, out),
        [kind, first, second] => answer_two(alloc, kind, first, second, out),
        [kind, first, second, third] => answer_three(alloc, kind, [first, second, third], out),
        ["package", parts @ ..] => name_cases::answer_package(alloc, parts, out),
        ["asked", options, default, layers @ ..] => {
            option_cases::answer_asked(alloc, options, default, layers, out)
        }
        ["options", vars, layers @ ..] => option_cases::answer_options(alloc, vars, layers, out),
        _ => Err(CaseError::Unfit),
    }
}

fn answer_one(alloc: Global, kind: &str, field: &str, out: &mut Vec<u8>) -> Result<(), CaseError> {
    match kind {
        "text" => base_cases::answer_text(alloc, field, out),
        "path" => base_cases::answer_path(alloc, field, out),
        "words" => base_cases::answer_words(alloc, field, out),
        "lines" => base_cases::answer_lines(alloc, field, out),
        "numbered" => base_cases::answer_numbered(alloc, field, out),
        "trim" => base_cases::answer_trim(alloc, field, out),
        "number" => base_cases::answer_number(alloc, field, out),
        "decimal" => base_cases::answer_decimal(alloc, field, out),
        "name" => name_cases::answer_name(alloc, field, out),
        "moved lines" => moved_cases::answer_lines(alloc, field, out),
        "order" => base_cases::answer_order(alloc, field, out),
        "flavors" => desc_cases::answer_flavors(alloc, field, out),
        "conf" => conf_cases::answer_conf(alloc, field, out),
        "missing" => desc_cases::answer_missing(alloc, field, out),
        _ => Err(CaseError::Unfit),
    }
}

fn answer_two(
    alloc: Global,
    kind: &str,
    first: &str,
    second: &str,
    out: &mut Vec<u8>,
) -> Result<(), CaseError> {
    match kind {
        "join" => base_cases::answer_join(alloc, first, second, out),
        "placed" => base_cases::answer_placed(alloc, first, second, out),
        "find" => base_cases::answer_find(alloc, first, second, out),
        "vars" => vars_cases::answer_value(alloc, first, second, out),
        "words of" => option_cases::answer_words_of(alloc, first, second, out),
        "match" => conf_cases::answer_match(alloc, first, second, out),
        "set" => name_cases::answer_set(alloc, first, second, out),
        _ => Err(CaseError::Unfit),
    }
}

fn answer_three(
    alloc: Global,
    kind: &str,
    [first, second, third]: [&str; 3],
    out: &mut Vec<u8>,
) -> Result<(), CaseError> {
    match kind {
        "part" => base_cases::answer_part(alloc, first, second, third, out),
        "moved" => moved_cases::answer_follow(alloc, first, second, third, out),
        "make" => option_cases::answer_make(alloc, first, second, third, out),
        "describe" => desc_cases::answer_describe(alloc, first, second, third, out),
        _ => Err(CaseError::Unfit),
    }
}

/// The line of an answer. An empty line and one that begins with `#` are headings, and answer themselves.
fn answer_line(alloc: Global, line: &str) -> Result<String, AllocError> {
    if line.is_empty() || line.starts_with('#') {
        return line.to_string(alloc);
    }
    let fields: Vec<&str> = line.split('|').collect(alloc)?;
    let mut out = Vec::new(alloc);
    let answered = answer(alloc, fields.as_slice(), &mut out);
    shown_answer(alloc, answered, out.as_slice())
}

fn main(rt: HostRuntime) -> io::Result<()> {
    let alloc = rt.alloc();
    for line in rt.lines(alloc) {
        let answer = answer_line(alloc, line?.as_str())?;
        println!(rt; "{answer}")?;
    }
    Ok(())
}
