// Where the files of a ports tree stand.
ghost use Rattle.std.specs.Prelude.{◌≡◌, ◌≤◌, ◌<◌, ◌∷◌, ◌++◌, length, codes, IsTrue, IfOk};
ghost use Rattle.bulk_base.specs.Names.{is_port_name};
ghost use Rattle.bulk_base.specs.Path.{joined};
ghost use Rattle.bulk_base.specs.Text.{is_text_byte};
ghost use Rattle.tree_index.specs.Places as places;
ghost use Rattle.tree_index.specs.Facts.{IsPlace};

use bulk_base::{NoMemory, Path, Text};
use port_name::Origin;
use std::alloc::Global;

/// Two texts with an ASCII byte between.
pub(crate) fn joined_by(
    alloc: Global,
    front: &Text,
    byte: u8,
    back: &Text,
) -> Result<Text, NoMemory>
    requires ascii { byte < 128 }
    requires text { IsTrue (is_text_byte byte) }
    ensures { IfOk result (λ text. text ≡ front.now ++ byte ∷ back.now) }
{
    let mut bytes = Vec::from_slice(alloc, front.bytes())?;
    bytes.push(byte)?;
    bytes.extend_from_slice(back.bytes())?;
    Text::of(alloc, bytes.as_slice())
}

/// An origin as a name: the category and the port with `/` between (Porter's Handbook).
pub fn origin_name(alloc: Global, origin: &Origin) -> Result<Text, NoMemory>
    ensures { IfOk result (λ name. name ≡ places.origin_name origin.now) }
{
    joined_by(alloc, &origin.category, b'/', &origin.port)
}

/// The file that lists the categories.
pub(crate) fn categories_file(alloc: Global) -> Result<Path, NoMemory>
    ensures { IfOk result (λ path. path ≡ places.categories_file) }
{
    Path::literal(alloc, b"ports/subdir.vars")
}

/// The list of moved ports.
pub(crate) fn moved_file(alloc: Global) -> Result<Path, NoMemory>
    ensures { IfOk result (λ path. path ≡ places.moved_file) }
{
    Path::literal(alloc, b"ports/MOVED")
}

/// A category or a port as a path of one part.
fn name_path(alloc: Global, name: &Text) -> Result<Path, NoMemory>
    requires { IsTrue (is_port_name name.now) }
    ensures same { IfOk result (λ path. path ≡ name.now) }
    ensures short { length name.now ≤ 64 }
{
    Path::of_text(alloc, name)
}

fn category_folder(alloc: Global, category: &Text) -> Result<Path, NoMemory>
    requires { IsTrue (is_port_name category.now) }
    ensures path { IfOk result (λ path. path ≡ places.category_folder category.now) }
    ensures short { IfOk result (λ path. length path ≤ 70) }
{
    Path::literal(alloc, b"ports")?.join_short(alloc, &name_path(alloc, category)?)
}

/// The file that lists a category's ports.
pub(crate) fn ports_file(alloc: Global, category: &Text) -> Result<Path, NoMemory>
    requires { IsTrue (is_port_name category.now) }
    ensures { IfOk result (λ path. path ≡ places.ports_file category.now) }
{
    category_folder(alloc, category)?.join_short(alloc, &Path::literal(alloc, b"subdir.vars")?)
}

/// A port's folder in the tree: `ports/CATEGORY/PORT`, of at most 135 bytes (docs/FORMATS.md, "The tree folder").
pub fn port_folder(alloc: Global, origin: &Origin) -> Result<Path, NoMemory>
    requires { IsPlace origin.now }
    ensures path { IfOk result (λ path. path ≡ places.port_folder origin.now) }
    ensures short { IfOk result (λ path. length path ≤ 135) }
{
    category_folder(alloc, &origin.category)?.join_short(alloc, &name_path(alloc, &origin.port)?)
}

/// Where a port's description stands in the tree: `ports/CATEGORY/PORT/port.vars` (docs/FORMATS.md, "The tree folder").
pub fn port_file(alloc: Global, origin: &Origin) -> Result<Path, NoMemory>
    requires { IsPlace origin.now }
    ensures { IfOk result (λ path. path ≡ places.port_file origin.now) }
{
    port_folder(alloc, origin)?.join_short(alloc, &Path::literal(alloc, b"port.vars")?)
}

/// The list of a port's distfiles: `ports/CATEGORY/PORT/distinfo` (docs/FORMATS.md, "The tree folder").
pub fn distinfo_file(alloc: Global, origin: &Origin) -> Result<Path, NoMemory>
    requires { IsPlace origin.now }
    ensures { IfOk result (λ path. path ≡ places.distinfo_file origin.now) }
{
    port_folder(alloc, origin)?.join_short(alloc, &Path::literal(alloc, b"distinfo")?)
}

/// The list of what a port's package holds: `ports/CATEGORY/PORT/pkg-plist` (docs/FORMATS.md, "The tree folder").
pub fn plist_file(alloc: Global, origin: &Origin) -> Result<Path, NoMemory>
    requires { IsPlace origin.now }
    ensures { IfOk result (λ path. path ≡ places.plist_file origin.now) }
{
    port_folder(alloc, origin)?.join_short(alloc, &Path::literal(alloc, b"pkg-plist")?)
}

/// The folder of a port's files: `ports/CATEGORY/PORT/files` (docs/FORMATS.md, "The tree folder").
pub fn files_folder(alloc: Global, origin: &Origin) -> Result<Path, NoMemory>
    requires { IsPlace origin.now }
    ensures { IfOk result (λ path. path ≡ places.files_folder origin.now) }
{
    port_folder(alloc, origin)?.join_short(alloc, &Path::literal(alloc, b"files")?)
}

/// `CATEGORY_PORT` as a path of one part.
fn options_part(alloc: Global, origin: &Origin) -> Result<Path, NoMemory>
    requires { IsPlace origin.now }
    ensures path { IfOk result (λ path. path ≡ origin.now.category ++ 95 ∷ origin.now.port) }
    ensures short { IfOk result (λ path. length path ≤ 129) }
{
    Path::of_text(
        alloc,
        &joined_by(alloc, &origin.category, b'_', &origin.port)?,
    )
}

fn options_folder(alloc: Global, origin: &Origin) -> Result<Path, NoMemory>
    requires { IsPlace origin.now }
    ensures path { IfOk result (λ path. path ≡ joined (codes "etc/options") (origin.now.category ++ 95 ∷ origin.now.port)) }
    ensures short { IfOk result (λ path. length path ≤ 141) }
{
    Path::literal(alloc, b"etc/options")?.join_short(alloc, &options_part(alloc, origin)?)
}

/// A port's options file.
pub(crate) fn options_file(alloc: Global, origin: &Origin) -> Result<Path, NoMemory>
    requires { IsPlace origin.now }
    ensures { IfOk result (λ path. path ≡ places.options_file origin.now) }
{
    options_folder(alloc, origin)?.join_short(alloc, &Path::literal(alloc, b"options")?)
}
