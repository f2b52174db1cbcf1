// A patch over a base, in windows of one base and length: what the calls answer, and their rows.
#![tactic(auto)]

ghost use Rattle.std.specs.Prelude.{◌≡◌, not};
ghost use Rattle.window.specs.Windows.{window_of};
ghost use Rattle.overlay.specs.Refusals.{row1_both_in, bad_of, first_row};

use marks::Form;
use window::{Entry, Header, Refusal};

// Which image a look shows: Req 07's 'word saying which'. A cell comes from the patch where that is marked, else from the base. For a
// refused look it is the refusal, with the row's number, and the place for row 16.
#[derive(Clone, Copy)]
pub enum Source {
    Patch,
    Base,
    Neither,
    Refused(Refusal),
}

// The answer of a merge: the merged image's header and entry. An accepted merge has a refusal of zeros; a refused one has an
// empty header and no entry.
#[derive(Clone, Copy)]
pub struct Merged {
    pub refusal: Refusal,
    pub header: Header,
    pub entry: Entry,
}

// Row 1 does not apply: the two memories are of one length, their marks as long as the form asks for, and there is no cell behind the
// last address.
fn are_allowed(
    form: Form,
    base: u32,
    base_memory: &[u8],
    base_marks: &[u8],
    patch_memory: &[u8],
    patch_marks: &[u8],
) -> bool
    ensures { result ≡ not (row1_both_in form (window_of base base_memory.now base_marks.now) (window_of base patch_memory.now patch_marks.now)) }
{
    if !marks::is_allowed(form, base, base_memory, base_marks) {
        return false;
    }
    if !marks::is_allowed(form, base, patch_memory, patch_marks) {
        return false;
    }
    base_memory.len() == patch_memory.len()
}

// The first row that applies: 1, then 15, if a header is too long, and 16, all marks of the base before those of the patch.
pub fn first_row(
    form: Form,
    base: u32,
    base_memory: &[u8],
    base_marks: &[u8],
    patch_memory: &[u8],
    patch_marks: &[u8],
    long: bool,
) -> Refusal
    ensures { result ≡ first_row (row1_both_in form (window_of base base_memory.now base_marks.now) (window_of base patch_memory.now patch_marks.now)) long (bad_of form (window_of base base_memory.now base_marks.now)) (bad_of form (window_of base patch_memory.now patch_marks.now)) }
{
    if !are_allowed(
        form,
        base,
        base_memory,
        base_marks,
        patch_memory,
        patch_marks,
    ) {
        return window::refuse(1, 0, 0);
    }
    if long {
        return window::refuse(15, 0, 0);
    }
    let first = marks::first_bad(form, base_marks, base_memory.len());
    if let Some(place) = first {
        return window::refuse(16, 0, place);
    }
    let second = marks::first_bad(form, patch_marks, patch_memory.len());
    if let Some(place) = second {
        return window::refuse(16, 0, place);
    }
    window::refuse(0, 0, 0)
}
