// Origins, flavors and nodes.
ghost use Rattle.std.specs.Prelude.{◌≡◌, ◌≢◌, ◌↔◌, ◌<◌, ◌≤◌, ◌==◌, ◌||◌, ◌+◌, length, drop, true, IsTrue, IfOk, IfErr, OnOk, IsErrOf};
ghost use Rattle.std.specs.List.{position_or_len};
ghost use Rattle.bulk_base.specs.Path.{is_slash};
ghost use Rattle.bulk_base.specs.Names as names;
ghost use Rattle.bulk_base.specs.Names.{IsOrigin, IsNode, origin_of};
ghost use Rattle.port_name.specs.Forms as forms;
ghost use Rattle.port_name.specs.Forms.{is_at};

use crate::fault::{NameError, NamePart};
use crate::form::{is_flavor, is_port_name};
use crate::place::Origin;
use bulk_base::{NoMemory, Text, place_or_end};
use std::alloc::Global;

fn has_origin_form(word: &[u8]) -> bool
    ensures { result ≡ forms.is_origin word.now }
{
    let slash = place_or_end(word, b'/');
    slash < word.len() && is_port_name(&word[..slash]) && is_port_name(&word[slash + 1..])
}

/// Whether a word is an origin: a category and a port with `/` between. One pass over the word; takes no memory.
pub fn is_origin(word: &[u8]) -> bool
    ensures test { result ≡ forms.is_origin word.now }
    ensures form { IsTrue result ↔ IsOrigin word.now }
{
    has_origin_form(word)
}

/// The two names in a word that is known to be an origin, by the place of its slash.
fn parted(alloc: Global, word: &[u8], slash: usize) -> Result<Origin, NoMemory>
    requires form { forms.is_origin word.now ≡ true }
    requires place { slash ≡ position_or_len is_slash word.now }
    requires within { slash < length word.now }
    ensures spelled { IfOk result (λ o. word.now ≡ origin_of o.category o.port) }
    ensures category { IfOk result (λ o. IsTrue (names.is_port_name o.category)) }
    ensures port { IfOk result (λ o. IsTrue (names.is_port_name o.port)) }
{
    Ok(Origin {
        category: Text::literal(alloc, &word[..slash])?,
        port: Text::literal(alloc, &word[slash + 1..])?,
    })
}

/// The category and the port that a word names with `/` between. BadName with Origin exactly where the word is not of this
/// form. One pass over the word.
pub fn origin(alloc: Global, word: &Text) -> Result<Origin, NameError>
    ensures spelled { IfOk result (λ o. word.now ≡ origin_of o.category o.port) }
    ensures category { IfOk result (λ o. IsTrue (names.is_port_name o.category)) }
    ensures port { IfOk result (λ o. IsTrue (names.is_port_name o.port)) }
    ensures bad_name { IsErrOf result (NameError.BadName NamePart.Origin) ↔ (¬ (IsOrigin word.now)) }
    ensures which { IfErr result (λ e. e ≢ NameError.NoMemory → e ≡ NameError.BadName NamePart.Origin) }
{
    let bytes = word.bytes();
    if !is_origin(bytes) {
        return Err(NameError::BadName {
            which: NamePart::Origin,
        });
    }
    Ok(parted(alloc, bytes, place_or_end(bytes, b'/'))?)
}

/// The flavor that a word names: 1 to 32 lower-case letters, digits and `_`. BadName with Flavor exactly where the word is
/// not of this form. One pass over the word.
pub fn flavor(alloc: Global, word: &Text) -> Result<Text, NameError>
    ensures same { IfOk result (λ f. f ≡ word.now) }
    ensures form { OnOk result (IsTrue (names.is_flavor word.now)) }
    ensures bad_name { IsErrOf result (NameError.BadName NamePart.Flavor) ↔ (¬ (IsTrue (names.is_flavor word.now))) }
    ensures which { IfErr result (λ e. e ≢ NameError.NoMemory → e ≡ NameError.BadName NamePart.Flavor) }
{
    if !is_flavor(word.bytes()) {
        return Err(NameError::BadName {
            which: NamePart::Flavor,
        });
    }
    Ok(word.copy(alloc)?)
}

/// Whether a place is the word's end, or what stands behind the byte at it is a flavor.
fn has_flavor_behind(word: &[u8], at: usize) -> bool
    requires { at ≤ length word.now }
    ensures { result ≡ ((at == length word.now) || names.is_flavor (drop (at + 1) word.now)) }
{
    at == word.len() || is_flavor(&word[at + 1..])
}

fn has_node_form(word: &[u8]) -> bool
    ensures { result ≡ forms.is_node word.now }
{
    let at = place_or_end(word, b'@');
    has_origin_form(&word[..at]) && has_flavor_behind(word, at)
}

/// Whether a word is the name of a node: an origin, or an origin and a flavor with `@` between. One pass over the word;
/// takes no memory.
pub fn is_node(word: &[u8]) -> bool
    ensures test { result ≡ forms.is_node word.now }
    ensures form { IsTrue result ↔ IsNode word.now }
{
    has_node_form(word)
}
