// What is told of the words that moved.
ghost use Rattle.std.specs.Prelude.{◌≡◌, IfOk};
ghost use Rattle.origin_flavor.specs.Notices.{notices_of};

use crate::answer::Answer;
use crate::notice_list::NoticeList;
use bulk_base::NoMemory;
use bulk_model::Notices;
use std::alloc::Global;

/// The notices of words, in their order, each word once.
pub(crate) fn notices(alloc: Global, answers: &[Answer]) -> Result<Notices, NoMemory>
    ensures { IfOk result (λ found. found ≡ notices_of answers.now) }
{
    let mut list = NoticeList::new(alloc);
    for answer in answers {
        if answer.moved {
            list.add(alloc, &answer.word, &answer.name)?;
        }
    }
    list.into_notices(alloc)
}
