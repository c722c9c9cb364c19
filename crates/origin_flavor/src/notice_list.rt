// The notices so far.
ghost use Rattle.std.specs.Prelude.{◌≡◌, [], IfOk, OnOk};
ghost use Rattle.origin_flavor.specs.Notices.{with_notice};

use bulk_base::{NoMemory, Sequence, Text};
use bulk_model::{Notice, Notices};
use indexmap::IndexMap;
use std::alloc::Global;
use std::marker::Model;

/// Notices, each of another word, by their words; seen by contracts as the list of them in the order in which they came.
#[derive(Drop)]
pub(crate) struct NoticeList {
    notices: IndexMap<String, Notice>,
}

impl Model for NoticeList {
    ghost use Rattle.std.specs.Prelude.{◌≡◌, List, map};
    ghost use Rattle.std.specs.String.{string_bytes};
    ghost use Rattle.indexmap.specs.IndexMap.{keys, values};
    ghost use Rattle.bulk_model.specs.declared.reason.Notice.{Notice};

    ghost Value = { List Notice };

    ghost view = { λ t. values t.notices };

    ghost invariant = { λ t. map string_bytes (keys t.notices) ≡ map (λ notice. notice.word) (values t.notices) };
}

impl NoticeList {
    /// No notices; takes no memory.
    pub(crate) fn new(alloc: Global) -> NoticeList
        ensures { result ≡ [] }
    {
        NoticeList {
            notices: IndexMap::new(alloc),
        }
    }

    /// Puts a word's notice at the end, where the word has none.
    pub(crate) fn add(&mut self, alloc: Global, word: &Text, name: &Text) -> Result<(), NoMemory>
        ensures { OnOk result (self.new ≡ with_notice self.old (record { word = word.now; name = name.now })) }
    {
        if self.notices.contains_key(word.as_str()) {
            return Ok(());
        }
        let key = String::from_str(alloc, word.as_str())?;
        let notice = Notice {
            word: word.copy(alloc)?,
            name: name.copy(alloc)?,
        };
        self.notices.insert(key, notice)?;
        Ok(())
    }

    /// The list of the notices.
    pub(crate) fn into_notices(self, alloc: Global) -> Result<Notices, NoMemory>
        ensures { IfOk result (λ notices. notices ≡ self) }
    {
        let NoticeList { notices } = self;
        let mut found = Sequence::new(alloc);
        for notice in notices.into_values() {
            found.push(notice)?;
        }
        Ok(found)
    }
}
