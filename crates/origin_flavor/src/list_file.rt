// The words of a list file.
ghost use Rattle.std.specs.Prelude.{◌≡◌, ◌≢◌, ◌<◌, ◌^◌, ◌++◌, ◌∷◌, [], length, filter, IsTrue, IfOk, IfErr, IfSome, OnOk};
ghost use Rattle.std.specs.List.{before_first};
ghost use Rattle.std.specs.Option.{option_copied};
ghost use Rattle.std.specs.Str.Lines.{lines as lines_of};
ghost use Rattle.bulk_base.specs.Text as texts;
ghost use Rattle.bulk_base.specs.Words.{is_filled};
ghost use Rattle.origin_flavor.specs.ListFile.{is_hash, word_of, words_in, wanted_words};

use crate::fault::WantedError;
use bulk_base::{
    NoMemory, Sequence, Text, Texts, add_copies, is_text, lines, numbered_line, place_or_end, trim,
};
use std::alloc::Global;

/// What stands before a line's comment.
fn uncommented(line: &[u8]) -> &[u8]
    ensures { result.now ≡ before_first is_hash line.now }
{
    &line[..place_or_end(line, b'#')]
}

fn word_of(line: &[u8]) -> &[u8]
    ensures { result.now ≡ word_of line.now }
{
    trim(uncommented(line))
}

/// Puts the word of a line that is a text at the end, if there is one.
fn take_line(alloc: Global, found: &mut Texts, line: &[u8]) -> Result<(), NoMemory>
    requires { IsTrue (texts.is_text line.now) }
    ensures { OnOk result (found.new ≡ found.old ++ filter is_filled (word_of line.now ∷ [])) }
{
    let word = word_of(line);
    if !word.is_empty() {
        found.push(Text::of(alloc, word)?)?;
    }
    Ok(())
}

/// The words of a list file. BadList exactly where a line is no text, with the number of the first such.
fn read_list(alloc: Global, bytes: &[u8]) -> Result<Texts, WantedError>
    requires { length bytes.now < 2 ^ 32 }
    ensures ok { IfOk result (λ found. words_in (lines_of bytes.now) ≡ Ok found) }
    ensures refused { IfErr result (λ e. e ≢ WantedError.NoMemory → words_in (lines_of bytes.now) ≡ Err e) }
{
    let spans = lines(alloc, bytes)?;
    let mut found = Sequence::new(alloc);
    for at in 0..spans.len() {
        let line = numbered_line(bytes, &spans, at);
        if !is_text(line.text) {
            return Err(WantedError::BadList { line: line.number });
        }
        take_line(alloc, &mut found, line.text)?;
    }
    Ok(found)
}

/// The words wanted: those of the list file, if there is one, then the command's.
pub(crate) fn wanted_words(
    alloc: Global,
    list: Option<&[u8]>,
    words: &[Text],
) -> Result<Texts, WantedError>
    requires { IfSome list (λ bytes. length bytes.now < 2 ^ 32) }
    ensures ok { IfOk result (λ found. wanted_words (option_copied list.entry) words.now ≡ Ok found) }
    ensures refused { IfErr result (λ e. e ≢ WantedError.NoMemory → wanted_words (option_copied list.entry) words.now ≡ Err e) }
{
    let mut found = match list {
        Some(bytes) => read_list(alloc, bytes)?,
        None => Sequence::new(alloc),
    };
    add_copies(alloc, words, &mut found)?;
    Ok(found)
}
