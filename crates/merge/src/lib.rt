// The merge of a patch into a base: cells, header and entry.
#![tactic(auto)]

ghost use Rattle.std.specs.Prelude.{◌≡◌, ◌||◌, ◌≤◌, length};
ghost use Rattle.window.specs.Headers.{header_of, row15};
ghost use Rattle.window.specs.Plans.{is_present};
ghost use Rattle.overlay.specs.Layers.{laid, non_empty};
ghost use Rattle.overlay.specs.Forms.{merge_answer_in, memory_after_in, marks_after_in};
ghost use Rattle.overlay.specs.Merges.{lent, refused_merge, merge_answer, memory_after, marks_after};

use marks::Form;
use overlay::Merged;
use window::{Entry, Header, Refusal};

// A header has at most so many bytes.
const MOST_HEADER: usize = 252;

// Row 15: is either header too long?
fn is_long(base: &[u8], patch: &[u8]) -> bool
    ensures { result ≡ row15 base.now || row15 patch.now }
{
    if base.len() > MOST_HEADER {
        return true;
    }
    patch.len() > MOST_HEADER
}

// The header after a merge: the patch's, unless it is empty.
fn merged_header(base: &[u8], patch: &[u8]) -> Header
    requires { (length base.now ≤ 252) × (length patch.now ≤ 252) }
    ensures { result ≡ header_of (laid non_empty base.now patch.now) }
{
    if patch.len() == 0 {
        return window::header_from(base);
    }
    window::header_from(patch)
}

// The entry after a merge: the patch's, unless it is absent.
fn merged_entry(base: Entry, patch: Entry) -> Entry
    ensures { result ≡ laid is_present base patch }
{
    match patch {
        None => base,
        Some(_) => patch,
    }
}

// The answer of a refused merge.
fn refused(refusal: Refusal) -> Merged
    ensures { result ≡ refused_merge refusal }
{
    Merged {
        refusal,
        header: window::no_header(),
        entry: None,
    }
}

// Merges a patch into a base, in the base's buffers, both with marks stored in the form that is told; or says which row refuses that, and
// changes nothing.
pub fn merge_as(
    form: Form,
    base: u32,
    base_memory: &mut [u8],
    base_marks: &mut [u8],
    base_header: &[u8],
    base_entry: Entry,
    patch_memory: &[u8],
    patch_marks: &[u8],
    patch_header: &[u8],
    patch_entry: Entry,
) -> Merged
    ensures answer { result ≡ merge_answer_in form base (lent base_memory.old base_marks.old base_header.now base_entry) (lent patch_memory.now patch_marks.now patch_header.now patch_entry) }
    ensures memory { base_memory.new ≡ memory_after_in form base (lent base_memory.old base_marks.old base_header.now base_entry) (lent patch_memory.now patch_marks.now patch_header.now patch_entry) }
    ensures marks { base_marks.new ≡ marks_after_in form base (lent base_memory.old base_marks.old base_header.now base_entry) (lent patch_memory.now patch_marks.now patch_header.now patch_entry) }
{
    let long = is_long(base_header, patch_header);
    let refusal = overlay::first_row(
        form,
        base,
        base_memory,
        base_marks,
        patch_memory,
        patch_marks,
        long,
    );
    if refusal.reason != 0 {
        return refused(refusal);
    }
    layers::lay(base_memory, patch_memory, form, patch_marks);
    layers::join(base_marks, patch_marks);
    let header = merged_header(base_header, patch_header);
    let entry = merged_entry(base_entry, patch_entry);
    Merged {
        refusal,
        header,
        entry,
    }
}

// Merges images with a mark byte a cell.
pub fn merge(
    base: u32,
    base_memory: &mut [u8],
    base_marks: &mut [u8],
    base_header: &[u8],
    base_entry: Entry,
    patch_memory: &[u8],
    patch_marks: &[u8],
    patch_header: &[u8],
    patch_entry: Entry,
) -> Merged
    ensures answer { result ≡ merge_answer base (lent base_memory.old base_marks.old base_header.now base_entry) (lent patch_memory.now patch_marks.now patch_header.now patch_entry) }
    ensures memory { base_memory.new ≡ memory_after base (lent base_memory.old base_marks.old base_header.now base_entry) (lent patch_memory.now patch_marks.now patch_header.now patch_entry) }
    ensures marks { base_marks.new ≡ marks_after base (lent base_memory.old base_marks.old base_header.now base_entry) (lent patch_memory.now patch_marks.now patch_header.now patch_entry) }
{
    merge_as(
        Form::Bytes,
        base,
        base_memory,
        base_marks,
        base_header,
        base_entry,
        patch_memory,
        patch_marks,
        patch_header,
        patch_entry,
    )
}
