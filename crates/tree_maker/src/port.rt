// What is drawn for a port, and the file that it makes.
ghost use Rattle.std.specs.Prelude.{◌≡◌, ◌+◌, ◌%◌, ◌<◌, ◌++◌, map, IfOk, OnOk};
ghost use Rattle.std.specs.List.{range_with_len};
ghost use Rattle.std.specs.String.{string_bytes};
ghost use Rattle.tree_maker.specs.Draws.{after, draw};
ghost use Rattle.tree_maker.specs.Made as made;

use crate::draws::Draws;
use crate::word::{Word, folder, push_spaced};
use bulk_base::NoMemory;
use std::alloc::Global;

/// What is drawn for a port.
#[derive(Debug, Drop)]
pub(crate) struct Port {
    /// The second part of its version.
    pub(crate) version: u64,
    /// The ports that it depends on, in the order drawn.
    pub(crate) targets: Vec<u32>,
    /// 0 where its build fails, 1 where it is left out.
    pub(crate) fate: u64,
}

/// So many dependencies of the port `i`.
fn draw_targets(alloc: Global, draws: &mut Draws, i: u32, count: u64) -> Result<Vec<u32>, NoMemory>
    requires { 0 < count → 0 < i }
    ensures targets { IfOk result (λ targets. targets.items
        ≡ map (λ k. draw (k + 1) draws.old % i) (range_with_len 0 count)) }
    ensures state { OnOk result (draws.new ≡ after count draws.old) }
{
    let mut targets = Vec::new(alloc);
    for _ in 0..count {
        let drawn = draws.draw();
        targets.push((drawn % u64::from(i)) as u32)?;
    }
    Ok(targets)
}

/// How many dependencies the port `i` has by the number that was drawn for them: the first none.
fn count_of(i: u32, drawn: u64) -> u64
    ensures count { result ≡ made.count_of i drawn }
    ensures none { 0 < result → 0 < i }
{
    if i == 0 { 0 } else { drawn % 4 }
}

/// Draws what makes the port `i`.
pub(crate) fn draw_port(alloc: Global, draws: &mut Draws, i: u32) -> Result<Port, NoMemory>
    ensures version { IfOk result (λ port. port.version ≡ draw 1 draws.old % 10) }
    ensures targets { IfOk result (λ port. port.targets.items ≡ made.targets i draws.old) }
    ensures fate { IfOk result (λ port. port.fate ≡ made.fate i draws.old) }
    ensures state { OnOk result (draws.new ≡ made.rest i draws.old) }
{
    let version = draws.draw() % 10;
    let count = count_of(i, draws.draw());
    let targets = draw_targets(alloc, draws, i, count)?;
    let fate = draws.draw() % 16;
    Ok(Port {
        version,
        targets,
        fate,
    })
}

/// Puts a line of dependencies behind a text.
fn push_depends(
    alloc: Global,
    text: &mut String,
    name: &str,
    numbers: &[u32],
) -> Result<(), NoMemory>
    ensures { OnOk result (string_bytes text.new
        ≡ string_bytes text.old ++ made.depends_line name.now numbers.now) }
{
    if numbers.is_empty() {
        return Ok(());
    }
    text.push_str(name)?;
    push_spaced(alloc, text, Word::Entry, numbers)?;
    text.push('\n')?;
    Ok(())
}

/// Puts the line of what is needed to build behind a text: the first and the third dependency.
fn push_to_build(alloc: Global, text: &mut String, targets: &[u32]) -> Result<(), NoMemory>
    ensures { OnOk result (string_bytes text.new
        ≡ string_bytes text.old ++ made.build_line targets.now) }
{
    match targets {
        [] => Ok(()),
        [a] | [a, _] => push_depends(alloc, text, "BUILD_DEPENDS=", &[*a]),
        [a, _, c, ..] => push_depends(alloc, text, "BUILD_DEPENDS=", &[*a, *c]),
    }
}

/// Puts the line of what is needed to run behind a text: the second dependency.
fn push_to_run(alloc: Global, text: &mut String, targets: &[u32]) -> Result<(), NoMemory>
    ensures { OnOk result (string_bytes text.new
        ≡ string_bytes text.old ++ made.run_line targets.now) }
{
    match targets {
        [] | [_] => Ok(()),
        [_, b, ..] => push_depends(alloc, text, "RUN_DEPENDS=", &[*b]),
    }
}

fn fate_line(fate: u64) -> &'static str
    ensures { result.now ≡ made.fate_line fate }
{
    match fate {
        0 => "DO_BUILD=exit 3\n",
        1 => "IGNORE=left out\n",
        _ => "",
    }
}

/// The name and the version of the port `i`.
fn name_lines(alloc: Global, folder: &str, version: u64) -> Result<String, NoMemory>
    ensures { IfOk result (λ text. string_bytes text ≡ made.name_lines folder.now version) }
{
    Ok(format!(in alloc; "PORTNAME={folder}\nPORTVERSION=1.{version}\n")?)
}

/// How the port `i` stages its files.
fn stage_line(alloc: Global, folder: &str) -> Result<String, NoMemory>
    ensures { IfOk result (λ text. string_bytes text ≡ made.stage_line folder.now) }
{
    Ok(format!(in alloc; "DO_STAGE=list stage/share/{folder} local\n")?)
}

/// The text of the port `i`.
fn port_text(alloc: Global, i: u32, port: &Port) -> Result<String, NoMemory>
    ensures { IfOk result (λ text. string_bytes text
        ≡ made.port_text i port.now.version port.now.targets.items port.now.fate) }
{
    let folder = folder(alloc, i)?;
    let mut text = name_lines(alloc, folder.as_str(), port.version)?;
    push_to_build(alloc, &mut text, port.targets.as_slice())?;
    push_to_run(alloc, &mut text, port.targets.as_slice())?;
    text.push_str(fate_line(port.fate))?;
    text.push_str(stage_line(alloc, folder.as_str())?.as_str())?;
    Ok(text)
}

/// The file of the port `i`.
pub(crate) fn port_bytes(alloc: Global, i: u32, port: &Port) -> Result<Vec<u8>, NoMemory>
    ensures { IfOk result (λ bytes. bytes.items
        ≡ made.port_text i port.now.version port.now.targets.items port.now.fate) }
{
    Ok(port_text(alloc, i, port)?.into_bytes())
}
