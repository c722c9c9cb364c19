// Where a path of a ports tree stands.
ghost use Rattle.std.specs.Prelude.{◌≡◌, ◌≤◌, length, IsTrue};
ghost use Rattle.bulk_base.specs.Path.{IsPath, is_path};
ghost use Rattle.bulk_base.specs.Text.{IsText, is_text};
ghost use Rattle.overlay_tree.specs.Places as places;

use bulk_base::cut;

fn is_base_part(part: &[u8]) -> bool
    ensures { result ≡ places.is_base_part part.now }
{
    part == b"etc".as_slice() || part == b"base".as_slice() || part == b"distfiles".as_slice()
}

/// Whether a path is `etc`, `base` or `distfiles`, or stands below one of them.
pub(crate) fn is_base(path: &[u8]) -> bool
    ensures { result ≡ places.is_base path.now }
{
    is_base_part(cut(path, b'/').0)
}

/// Whether a path stands below `etc`, `base` or `distfiles`.
pub(crate) fn is_in_base(path: &[u8]) -> bool
    ensures { result ≡ places.is_in_base path.now }
{
    let first = cut(path, b'/').0;
    is_base_part(first) && first.len() < path.len()
}

/// Whether a path is `ports` or stands below it.
pub(crate) fn is_in_ports(path: &[u8]) -> bool
    ensures { result ≡ places.is_in_ports path.now }
{
    cut(path, b'/').0 == b"ports".as_slice()
}

/// The first three parts of a path; all of a path that has fewer.
pub(crate) fn port_of(path: &[u8]) -> &[u8]
    ensures port { result.now ≡ places.port_of path.now }
    ensures text { IsText path.now → IsTrue (is_text result.now) }
    ensures form { IsPath path.now → IsTrue (is_path result.now) }
{
    let mut left = 2u32;
    for at in 0..path.len() {
        if path[at] == b'/' {
            if left == 0 {
                return &path[..at];
            }
            left -= 1;
        }
    }
    path
}

fn is_reserved(part: &[u8]) -> bool
    ensures { result ≡ places.is_reserved part.now }
{
    part == b"subdir.vars".as_slice() || part == b"MOVED".as_slice()
}

fn is_list_name(part: &[u8]) -> bool
    ensures { result ≡ places.is_list_name part.now }
{
    part == b"subdir.vars".as_slice()
}

/// The second and the third part of a path; empty, where there is none.
fn parts(path: &[u8]) -> (&[u8], &[u8])
    ensures second { result.0.now ≡ places.second path.now }
    ensures third { result.1.now ≡ places.third path.now }
{
    let (second, behind) = cut(cut(path, b'/').1, b'/');
    (second, cut(behind, b'/').0)
}

fn is_deep(path: &[u8]) -> bool
    ensures { result ≡ places.is_deep path.now }
{
    path.iter().filter(|b| **b == b'/').count() > 2
}

fn is_category_list(path: &[u8]) -> bool
    ensures { result ≡ places.is_category_list path.now }
{
    let (category, port) = parts(path);
    is_in_ports(path) && !is_reserved(category) && is_list_name(port) && !is_deep(path)
}

/// Whether a path is that of a list of categories or of ports, or of MOVED.
pub(crate) fn is_joined(path: &[u8]) -> bool
    ensures { result ≡ places.is_joined path.now }
{
    path == b"ports/subdir.vars".as_slice()
        || path == b"ports/MOVED".as_slice()
        || is_category_list(path)
}

/// Whether a path is that of a file in a port's folder.
pub(crate) fn is_port_file(path: &[u8]) -> bool
    ensures { result ≡ places.is_port_file path.now }
{
    let (category, port) = parts(path);
    is_in_ports(path) && !is_reserved(category) && !is_list_name(port) && is_deep(path)
}
