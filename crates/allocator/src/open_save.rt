// The open save in its last form: it is lent by `&mut`, and counts up where it stands.
ghost use Rattle.std.specs.Prelude.{◌≡◌};
ghost use Rattle.refusal.specs.Effect.{effect};
ghost use Rattle.allocator.specs.OpenSave.{count_up};
ghost use Rattle.allocator.specs.Answers.{save_of, handed_outcome, counters_of};

use crate::allocate::allocate;
use crate::save::{LentSave, OpenSave, Save, Start};
use page::number::PageNumber;
use page::size::PageSize;
use refusal::Refusal;

impl OpenSave {
    // Hands out the next number and counts up. After a refusal the save is as it was.
    pub fn hand_out(
        &mut self,
        page_size: PageSize,
        start: Start,
        pages: &[u32],
        entries: &[u32],
    ) -> Result<PageNumber, Refusal>
        ensures { effect (handed_outcome result) (counters_of self.new) ≡ count_up page_size (save_of start self.old pages.now entries.now) }
    {
        let save = Save { start, open: *self };
        let handed = allocate(&LentSave {
            page_size,
            save,
            pages,
            entries,
        })?;
        *self = handed.open;
        Ok(handed.number)
    }
}
