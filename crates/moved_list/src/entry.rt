// The fields of a line.
ghost use Rattle.std.specs.Prelude.{◌≡◌, ◌≤◌, length, IfOk};
ghost use Rattle.std.specs.List.{list_all, position_or_len, before_first, after_first};
ghost use Rattle.bulk_base.specs.Text.{IsText};
ghost use Rattle.bulk_base.specs.Words as words;
ghost use Rattle.moved_list.specs.Lines as lines_of;
ghost use Rattle.moved_list.specs.Lines.{is_bar, name_in};

use crate::line::MovedLine;
use bulk_base::{NoMemory, Text, is_blank, is_text, place_or_end};
use port_name::is_node;
use std::alloc::Global;

fn has_only_blanks(line: &[u8]) -> bool
    ensures { result ≡ list_all words.is_blank line.now }
{
    line.iter().all(|b| is_blank(*b))
}

/// Whether a line says nothing: it has only blanks, or begins with `#`.
pub(crate) fn is_ignored(line: &[u8]) -> bool
    ensures { result ≡ lines_of.is_ignored line.now }
{
    has_only_blanks(line) || line[0] == b'#'
}

/// What stands before the first bar, or all.
fn before_bar(text: &[u8]) -> &[u8]
    ensures value { result.now ≡ before_first is_bar text.now }
    ensures text { IsText text.now → IsText result.now }
{
    &text[..place_or_end(text, b'|')]
}

/// What stands behind the first bar, or nothing.
fn behind_bar(text: &[u8]) -> &[u8]
    ensures value { result.now ≡ after_first is_bar text.now }
    ensures text { IsText text.now → IsText result.now }
{
    let place = place_or_end(text, b'|');
    if place < text.len() {
        &text[place + 1..]
    } else {
        &text[place..]
    }
}

fn has_three_bars(line: &[u8]) -> bool
    ensures { result ≡ lines_of.has_three_bars line.now }
{
    line.iter().filter(|b| **b == b'|').count() >= 3
}

fn is_entry(line: &[u8]) -> bool
    ensures { result ≡ lines_of.is_entry line.now }
{
    let to = before_bar(behind_bar(line));
    has_three_bars(line) && is_node(before_bar(line)) && (to.is_empty() || is_node(to))
}

/// Whether a line is in form.
pub(crate) fn is_moved_line(line: &[u8]) -> bool
    ensures { result ≡ lines_of.is_moved_line line.now }
{
    is_text(line) && (is_ignored(line) || is_entry(line))
}

fn name_in(alloc: Global, field: &[u8]) -> Result<Option<Text>, NoMemory>
    requires { IsText field.now }
    ensures { IfOk result (λ name. name ≡ name_in field.now) }
{
    if field.is_empty() {
        return Ok(None);
    }
    Ok(Some(Text::of(alloc, field)?))
}

/// What a line says. One pass over it, and a copy.
pub(crate) fn entry(alloc: Global, line: &[u8]) -> Result<MovedLine, NoMemory>
    requires { IsText line.now }
    ensures { IfOk result (λ entry. entry ≡ lines_of.entry line.now) }
{
    let behind = behind_bar(line);
    let last = behind_bar(behind);
    Ok(MovedLine {
        from: Text::of(alloc, before_bar(line))?,
        to: name_in(alloc, before_bar(behind))?,
        date: Text::of(alloc, before_bar(last))?,
        reason: Text::of(alloc, behind_bar(last))?,
    })
}
