// The pages of the new list are encoded from the finished tables.
ghost use Rattle.std.specs.Prelude.{◌≡◌, ◌*◌, ◌-◌, ◌≤◌, length};
ghost use Rattle.std.proofs.lemmas.List.Edits.{sets};
ghost use Rattle.finisher.specs.Steps.{bytes_from};

use free_list::encode::encode_free_list_page;
use preallocate::list::LentList;

// Encodes the pages from page `first` up, one behind the other: `first` is an index in the list and no place in the buffer.
pub(crate) fn encode_pages(list: &LentList, first: usize, buffer: &mut [u8])
    requires { (first ≤ length list.now.list.pages) × (list.now.page_size * (length list.now.list.pages - first) ≤ length buffer.old) }
    ensures { buffer.new ≡ sets buffer.old 0 (bytes_from list.now.page_size list.now.list first (length list.now.list.pages - first)) }
{
    let size = list.page_size().bytes();
    for j in first..list.page_count() {
        let at = size * (j - first);
        encode_free_list_page(
            list.previous(j),
            list.entries_on(j),
            &mut buffer[at..at + size],
        );
    }
}
