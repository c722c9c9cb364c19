// What a command line asks for, as a line: each text in brackets, so that an empty one is seen.
use bulk_base::Text;
use case_text::{push_number, push_str, push_text};
use command_words::{Asked, BulkWords, Clean, PkgCleanWords, PortWords, usage_line};
use std::alloc::{AllocError, Global};

fn push_bracketed(out: &mut Vec<u8>, text: &Text) -> Result<(), AllocError> {
    push_str(out, "[")?;
    push_text(out, text)?;
    push_str(out, "]")
}

/// Puts a word at the end where its flag is set.
fn push_flag(out: &mut Vec<u8>, is_set: bool, word: &str) -> Result<(), AllocError> {
    if is_set {
        push_str(out, word)?;
    }
    Ok(())
}

fn push_list(out: &mut Vec<u8>, list: Option<&Text>) -> Result<(), AllocError> {
    if let Some(path) = list {
        push_str(out, " list")?;
        push_bracketed(out, path)?;
    }
    Ok(())
}

fn push_origins(out: &mut Vec<u8>, origins: &[Text]) -> Result<(), AllocError> {
    push_flag(out, !origins.is_empty(), " origins")?;
    for origin in origins {
        push_bracketed(out, origin)?;
    }
    Ok(())
}

fn push_ports(out: &mut Vec<u8>, ports: &PortWords) -> Result<(), AllocError> {
    push_flag(out, ports.all, " all")?;
    push_list(out, ports.list.as_ref())?;
    push_origins(out, ports.origins.as_slice())
}

fn push_clean(out: &mut Vec<u8>, clean: Clean) -> Result<(), AllocError> {
    push_str(
        out,
        match clean {
            Clean::Nothing => "",
            Clean::Wanted => " clean-wanted",
            Clean::All => " clean-all",
        },
    )
}

fn push_builders(
    alloc: Global,
    out: &mut Vec<u8>,
    builders: Option<u64>,
) -> Result<(), AllocError> {
    if let Some(number) = builders {
        push_str(out, " builders=")?;
        push_number(alloc, out, number)?;
    }
    Ok(())
}

fn push_bulk(alloc: Global, out: &mut Vec<u8>, words: &BulkWords) -> Result<(), AllocError> {
    push_str(out, "bulk")?;
    push_ports(out, &words.ports)?;
    push_clean(out, words.clean)?;
    push_flag(out, words.dry_run, " dry-run")?;
    push_flag(out, words.try_broken, " try-broken")?;
    push_builders(alloc, out, words.builders)
}

fn push_pkgclean(out: &mut Vec<u8>, words: &PkgCleanWords) -> Result<(), AllocError> {
    push_str(out, "pkgclean")?;
    push_ports(out, &words.ports)?;
    push_flag(out, words.dry_run, " dry-run")
}

fn push_sample(alloc: Global, out: &mut Vec<u8>, number: u64) -> Result<(), AllocError> {
    push_str(out, "sample ")?;
    push_number(alloc, out, number)
}

fn push_testport(out: &mut Vec<u8>, word: &Text) -> Result<(), AllocError> {
    push_str(out, "testport")?;
    push_bracketed(out, word)
}

fn push_distclean(out: &mut Vec<u8>, dry_run: bool) -> Result<(), AllocError> {
    push_str(out, "distclean")?;
    push_flag(out, dry_run, " dry-run")
}

/// Puts what a command line asks for at the end.
pub fn push_asked(alloc: Global, out: &mut Vec<u8>, asked: &Asked) -> Result<(), AllocError> {
    match asked {
        Asked::Bulk(words) => push_bulk(alloc, out, words),
        Asked::PkgClean(words) => push_pkgclean(out, words),
        Asked::Sample { number } => push_sample(alloc, out, *number),
        Asked::TestPort { word } => push_testport(out, word),
        Asked::DistClean { dry_run } => push_distclean(out, *dry_run),
        Asked::Publish => push_str(out, "publish"),
        Asked::Usage { command } => push_str(out, usage_line(*command)),
    }
}
