// A plan as a field writes it: its nodes with `;` between, each a name and words.
use crate::ports::port;
use bulk_base::{NoMemory, Sequence, Text};
use bulk_model::{DepKind, Edge, EdgeLists, Edges, Flags, Jobs, MaybeTexts};
use case_text::CaseError;
use std::alloc::{AllocError, Global};

/// What is said of a node.
#[derive(Clone, Copy, Debug, PartialEq, Eq)]
pub struct Marks {
    /// `!`: its port is ignored.
    pub ignored: bool,
    /// `+`: its package is kept.
    pub kept: bool,
    /// `^`: it is boosted.
    pub boosted: bool,
    /// `x`: its build fails.
    pub fails: bool,
    /// `=`: it was built already, or failed already where its build fails.
    pub given: bool,
}

impl Marks {
    /// Nothing is said.
    pub fn none() -> Marks {
        Marks {
            ignored: false,
            kept: false,
            boosted: false,
            fails: false,
            given: false,
        }
    }

    fn with(self, word: &str) -> Option<Marks> {
        match word {
            "!" => Some(Marks {
                ignored: true,
                ..self
            }),
            "+" => Some(Marks { kept: true, ..self }),
            "^" => Some(Marks {
                boosted: true,
                ..self
            }),
            "x" => Some(Marks {
                fails: true,
                ..self
            }),
            "=" => Some(Marks {
                given: true,
                ..self
            }),
            _ => None,
        }
    }
}

/// A plan's nodes as they are written.
#[derive(Drop)]
pub struct Written {
    pub jobs: Jobs,
    pub edges: EdgeLists,
    pub marks: Vec<Marks>,
}

fn kind_of(letter: char) -> DepKind {
    match letter {
        'l' => DepKind::Lib,
        'r' => DepKind::Run,
        _ => DepKind::Build,
    }
}

/// The edge of a word: `b`, `l` or `r` for BUILD, LIB or RUN, and the number of a node.
fn edge_of(word: &str) -> Result<Edge, CaseError> {
    let Some(letter) = word.chars().next() else {
        return Err(CaseError::Unfit);
    };
    match word.strip_prefix(letter).unwrap_or(word).parse() {
        Ok(to) => Ok(Edge {
            kind: kind_of(letter),
            to,
        }),
        Err(_) => Err(CaseError::Unfit),
    }
}

fn add_word(edges: &mut Edges, marks: Marks, word: &str) -> Result<Marks, CaseError> {
    if let Some(more) = marks.with(word) {
        return Ok(more);
    }
    edges.push(edge_of(word)?)?;
    Ok(marks)
}

fn add_words(edges: &mut Edges, part: &str) -> Result<Marks, CaseError> {
    let mut marks = Marks::none();
    for word in part.split(' ').skip(1) {
        marks = add_word(edges, marks, word)?;
    }
    Ok(marks)
}

fn add_node(alloc: Global, written: &mut Written, part: &str) -> Result<(), CaseError> {
    let mut edges = Sequence::new(alloc);
    let marks = add_words(&mut edges, part)?;
    written.marks.push(marks).map_err(AllocError::from)?;
    written.edges.push(edges)?;
    let name = part.split(' ').next().unwrap_or("");
    written.jobs.push(port(alloc, name)?)?;
    Ok(())
}

/// The nodes of a field.
pub fn written_of(alloc: Global, field: &str) -> Result<Written, CaseError> {
    let mut written = Written {
        jobs: Sequence::new(alloc),
        edges: Sequence::new(alloc),
        marks: Vec::new(alloc),
    };
    for part in field.split(';') {
        add_node(alloc, &mut written, part)?;
    }
    Ok(written)
}

/// A reason for each ignored node.
pub fn ignored_of(alloc: Global, marks: &[Marks]) -> Result<MaybeTexts, CaseError> {
    let mut ignored = Sequence::new(alloc);
    for mark in marks {
        let reason = if mark.ignored {
            Some(Text::from_bytes(alloc, b"no")?)
        } else {
            None
        };
        ignored.push(reason)?;
    }
    Ok(ignored)
}

/// A flag for each boosted node.
pub fn boosted_of(alloc: Global, marks: &[Marks]) -> Result<Flags, NoMemory> {
    let mut boosted = Flags::none(alloc, marks.len())?;
    for n in 0..marks.len() {
        if marks[n].boosted && n < boosted.len() {
            boosted.set(n);
        }
    }
    Ok(boosted)
}
