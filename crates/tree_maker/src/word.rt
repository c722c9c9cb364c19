// Names of categories and ports, and entries for dependencies.
ghost use Rattle.std.specs.Prelude.{◌≡◌, ◌++◌, IfOk, OnOk};
ghost use Rattle.std.specs.String.{string_bytes};
ghost use Rattle.tree_maker.specs.Made as made;
ghost use Rattle.tree_maker.specs.Words.{word};

use bulk_base::NoMemory;
use std::alloc::Global;

/// How many categories there may be.
pub(crate) const CATEGORIES: u32 = 8;

/// What a number stands for in a list of words.
#[derive(Clone, Copy, Debug, PartialEq, Eq)]
pub(crate) enum Word {
    /// A category.
    Category,
    /// A port's folder.
    Folder,
    /// A dependency on a port.
    Entry,
}

/// The number of a port's category.
pub(crate) fn category_of(i: u32) -> u32
    ensures { result ≡ made.category_of i }
{
    i % CATEGORIES
}

/// The name of a category.
pub(crate) fn category(alloc: Global, c: u32) -> Result<String, NoMemory>
    ensures { IfOk result (λ text. string_bytes text ≡ made.category c) }
{
    Ok(format!(in alloc; "c{c}")?)
}

/// The name of a port and of its folder.
pub(crate) fn folder(alloc: Global, i: u32) -> Result<String, NoMemory>
    ensures { IfOk result (λ text. string_bytes text ≡ made.folder i) }
{
    let thousands = i / 1000;
    let hundreds = i / 100 % 10;
    let tens = i / 10 % 10;
    let ones = i % 10;
    Ok(format!(in alloc; "p{thousands}{hundreds}{tens}{ones}")?)
}

/// A dependency on a port.
fn entry(alloc: Global, i: u32) -> Result<String, NoMemory>
    ensures { IfOk result (λ text. string_bytes text ≡ made.entry i) }
{
    let category = category(alloc, category_of(i))?;
    let folder = folder(alloc, i)?;
    Ok(format!(in alloc; "x:{category}/{folder}")?)
}

/// The word of a number.
fn spell(alloc: Global, kind: Word, n: u32) -> Result<String, NoMemory>
    ensures { IfOk result (λ text. string_bytes text ≡ word kind n) }
{
    match kind {
        Word::Category => category(alloc, n),
        Word::Folder => folder(alloc, n),
        Word::Entry => entry(alloc, n),
    }
}

/// Puts the words of numbers behind a text, a space between two.
pub(crate) fn push_spaced(
    alloc: Global,
    text: &mut String,
    kind: Word,
    numbers: &[u32],
) -> Result<(), NoMemory>
    ensures { OnOk result (string_bytes text.new
        ≡ string_bytes text.old ++ made.spaced (word kind) numbers.now) }
{
    let [first, rest @ ..] = numbers else {
        return Ok(());
    };
    text.push_str(spell(alloc, kind, *first)?.as_str())?;
    for n in rest {
        let next = spell(alloc, kind, *n)?;
        text.push_str(format!(in alloc; " {next}")?.as_str())?;
    }
    Ok(())
}
