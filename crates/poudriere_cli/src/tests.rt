// The store over a real folder, whose calls to read and to remove the program does not reach yet; tests/run shows the other
// adapters through the program.
use crate::dir_store::DirStore;
use bulk_base::{Text, Texts};
use outside::{Outer, Store};
use std::alloc::{AllocError, Global};
use std::test::Fail;
use std::{fs, io};

/// What stands for a fault in a table.
const FAULT: &str = "fault";

fn text(alloc: Global, text: &str) -> Result<Text, Fail> {
    Ok(Text::from_bytes(alloc, text.as_bytes())?)
}

/// Makes files, each with its folder.
fn fill(rt: &HostRuntime, files: &[(&str, &str)]) -> io::Result<()> {
    for (place, bytes) in files {
        if let Some((folder, _)) = place.rsplit_once('/') {
            fs::create_dir_all(rt, folder)?;
        }
        fs::write(rt, *place, *bytes)?;
    }
    Ok(())
}

/// Takes away what an earlier run of a test may have left.
fn clean(rt: &HostRuntime, folder: &str) {
    let _ = fs::remove_dir_all(rt, folder);
}

/// Whether the names are those of the text, a space behind each.
fn are_names(alloc: Global, names: Result<Texts, Outer>, want: &str) -> Result<bool, AllocError> {
    let Ok(names) = names else {
        return Ok(want == FAULT);
    };
    let mut shown = String::new(alloc);
    for name in &names {
        shown.push_str(name.as_str())?;
        shown.push_str(" ")?;
    }
    Ok(shown.as_str() == want)
}

/// Whether these bytes were read; None where no file is wanted.
fn is_read(read: Result<Option<Vec<u8>>, Outer>, want: Option<&str>) -> bool {
    match (read, want) {
        (Ok(Some(bytes)), Some(want)) => bytes.as_slice() == want.as_bytes(),
        (Ok(None), None) => true,
        _ => false,
    }
}

fn puts<S: Store>(alloc: Global, store: &mut S, items: &[(&str, &str)]) -> Result<(), Fail> {
    for (name, bytes) in items {
        store.put(alloc, &text(alloc, name)?, bytes.as_bytes())?;
    }
    Ok(())
}

fn gets<S: Store>(
    alloc: Global,
    store: &mut S,
    name: &str,
    want: Option<&str>,
) -> Result<bool, Fail> {
    let name = text(alloc, name)?;
    Ok(is_read(store.get(alloc, &name, 3), want))
}

fn removes<S: Store>(alloc: Global, store: &mut S, names: &[&str]) -> Result<(), Fail> {
    for name in names {
        store.remove(alloc, &text(alloc, name)?)?;
    }
    Ok(())
}

#[test]
fn a_store_is_listed_read_and_changed(rt: HostRuntime) -> Result<(), Fail> {
    clean(&rt, "p");
    let alloc = rt.alloc();
    let mut store = DirStore::new(&rt, String::from_str(alloc, "p")?);
    assert!(rt;
        are_names(alloc, store.names(alloc), "")?,
        "an absent folder"
    );
    puts(
        alloc,
        &mut store,
        &[("x.pkg", "old"), ("x.pkg", "newer"), ("x+a.pkg", "")],
    )?;
    fill(&rt, &[("p/folder.pkg/below", "")])?;
    assert!(rt;
        are_names(alloc, store.names(alloc), "x+a.pkg x.pkg ")?,
        "two files"
    );
    for (name, want) in [("x.pkg", Some("new")), ("folder.pkg", None), ("none", None)] {
        assert!(rt; gets(alloc, &mut store, name, want)?, "{name}");
    }
    removes(alloc, &mut store, &["x.pkg", "none"])?;
    assert!(rt;
        are_names(alloc, store.names(alloc), "x+a.pkg ")?,
        "one file"
    );
    fill(&rt, &[("p/a\nb", "")])?;
    assert!(rt;
        are_names(alloc, store.names(alloc), FAULT)?,
        "a name with a line feed"
    );
    let mut file = DirStore::new(&rt, String::from_str(alloc, "p/x+a.pkg")?);
    assert!(rt; are_names(alloc, file.names(alloc), FAULT)?, "a plain file");
    clean(&rt, "p");
    Ok(())
}
