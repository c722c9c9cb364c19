// Comments.
ghost use Rattle.std.specs.Prelude.{◌≡◌, IfOk};
ghost use Rattle.port_vars.specs.Comment.{kept, uncommented};

use crate::joined::{ends_in_backslash, without_last};
use crate::piece::pieces;
use bulk_base::{NoMemory, Text, Texts};
use std::alloc::Global;

fn kept(alloc: Global, pieces: &Texts) -> Result<Text, NoMemory>
    ensures { IfOk result (λ text. text ≡ kept pieces.now) }
{
    let pieces = pieces.as_slice();
    let mut kept = Vec::new(alloc);
    for at in 0..pieces.len() {
        let piece = pieces[at].bytes();
        if at + 1 < pieces.len() && ends_in_backslash(piece) {
            kept.extend_from_slice(without_last(piece))?;
            kept.push(b'#')?;
        } else {
            kept.extend_from_slice(piece)?;
            return Text::of(alloc, kept.as_slice());
        }
    }
    Text::of(alloc, kept.as_slice())
}

/// A joined line without its comment. One pass over its bytes.
pub(crate) fn uncommented(alloc: Global, line: &Text) -> Result<Text, NoMemory>
    ensures { IfOk result (λ text. text ≡ uncommented line.now) }
{
    kept(alloc, &pieces(alloc, line, b'#')?)
}
