// Looks at a patch over a base: which image has the cell at an address, and the run from there on.
#![tactic(auto)]

ghost use Rattle.std.specs.Prelude.{◌≡◌, true, ◌-◌, ◌≤◌, ◌<◌, length};
ghost use Rattle.window.specs.Windows.{window_of};
ghost use Rattle.marks.specs.Forms.{mark_bytes, plain};
ghost use Rattle.overlay.specs.Forms.{look_source_in, look_part_in, look_place_in};
ghost use Rattle.overlay.specs.Looks.{source_at, part_of, place_of, look_source, look_part, look_place};
ghost use Rattle.overlay.specs.Facts.{names};

use marks::Form;
use overlay::Source;

// Which of two images of so many cells has the cell at an address.
fn source_at(
    form: Form,
    base: u32,
    base_memory: &[u8],
    base_marks: &[u8],
    patch_memory: &[u8],
    patch_marks: &[u8],
    address: u32,
) -> Source
    requires { (length base_marks.now ≡ mark_bytes form (length base_memory.now)) × (length patch_marks.now ≡ mark_bytes form (length patch_memory.now)) × (length patch_memory.now ≡ length base_memory.now) }
    ensures { result ≡ source_at (plain form (window_of base base_memory.now base_marks.now)) (plain form (window_of base patch_memory.now patch_marks.now)) address }
{
    let cells = base_memory.len();
    if address < base {
        return Source::Neither;
    }
    let at = (address - base) as usize;
    if at >= cells {
        return Source::Neither;
    }
    if runs::is_marked(form, patch_marks, patch_memory.len(), at) {
        return Source::Patch;
    }
    if runs::is_marked(form, base_marks, cells, at) {
        return Source::Base;
    }
    Source::Neither
}

// The run from an address on of the image that a source names, as a part of its memory; an empty part of the base where it names none.
fn part_at<'a>(
    source: Source,
    form: Form,
    base: u32,
    base_memory: &'a [u8],
    base_marks: &[u8],
    patch_memory: &'a [u8],
    patch_marks: &[u8],
    address: u32,
) -> &'a [u8]
    requires { names source ≡ true → (length base_marks.now ≡ mark_bytes form (length base_memory.now)) × (length patch_marks.now ≡ mark_bytes form (length patch_memory.now)) × (length patch_memory.now ≡ length base_memory.now) × (base ≤ address) × (address - base < length base_memory.now) }
    ensures part { result.now ≡ part_of source (plain form (window_of base base_memory.now base_marks.now)) (plain form (window_of base patch_memory.now patch_marks.now)) (address - base) }
    ensures place { result.ref_ptr ≡ place_of source (address - base) base_memory.entry.ref_ptr patch_memory.entry.ref_ptr }
{
    match source {
        Source::Patch => {
            let from = (address - base) as usize;
            let cells = patch_memory.len();
            let to = runs::run_end(form, patch_marks, cells, from, cells);
            return &patch_memory[from..to];
        }
        Source::Base => {
            let from = (address - base) as usize;
            let stop = runs::next_marked(form, patch_marks, patch_memory.len(), from);
            let to = runs::run_end(form, base_marks, base_memory.len(), from, stop - from);
            return &base_memory[from..to];
        }
        Source::Neither => return &base_memory[..0],
        Source::Refused(_) => return &base_memory[..0],
    }
}

// Which image a look at an address shows, of images whose marks are stored in the form that is told: the source of the part that
// `look_as` gives.
pub fn look_source_as(
    form: Form,
    base: u32,
    base_memory: &[u8],
    base_marks: &[u8],
    patch_memory: &[u8],
    patch_marks: &[u8],
    address: u32,
) -> Source
    ensures { result ≡ look_source_in form (window_of base base_memory.now base_marks.now) (window_of base patch_memory.now patch_marks.now) address }
{
    let refusal = overlay::first_row(
        form,
        base,
        base_memory,
        base_marks,
        patch_memory,
        patch_marks,
        false,
    );
    if refusal.reason != 0 {
        return Source::Refused(refusal);
    }
    source_at(
        form,
        base,
        base_memory,
        base_marks,
        patch_memory,
        patch_marks,
        address,
    )
}

// The longest run from an address on whose cells all come from one image, as a part of that image's memory. Where `look_source_as`
// names no image the part is empty, and lies somewhere in the base's memory.
pub fn look_as<'a>(
    form: Form,
    base: u32,
    base_memory: &'a [u8],
    base_marks: &[u8],
    patch_memory: &'a [u8],
    patch_marks: &[u8],
    address: u32,
) -> &'a [u8]
    ensures part { result.now ≡ look_part_in form (window_of base base_memory.now base_marks.now) (window_of base patch_memory.now patch_marks.now) address }
    ensures place { result.ref_ptr ≡ look_place_in form (window_of base base_memory.now base_marks.now) (window_of base patch_memory.now patch_marks.now) address base_memory.entry.ref_ptr patch_memory.entry.ref_ptr }
{
    let source = look_source_as(
        form,
        base,
        base_memory,
        base_marks,
        patch_memory,
        patch_marks,
        address,
    );
    part_at(
        source,
        form,
        base,
        base_memory,
        base_marks,
        patch_memory,
        patch_marks,
        address,
    )
}

// Which image a look at an address shows, of images with a mark byte a cell.
pub fn look_source(
    base: u32,
    base_memory: &[u8],
    base_marks: &[u8],
    patch_memory: &[u8],
    patch_marks: &[u8],
    address: u32,
) -> Source
    ensures { result ≡ look_source (window_of base base_memory.now base_marks.now) (window_of base patch_memory.now patch_marks.now) address }
{
    look_source_as(
        Form::Bytes,
        base,
        base_memory,
        base_marks,
        patch_memory,
        patch_marks,
        address,
    )
}

// The run that such a look shows.
pub fn look<'a>(
    base: u32,
    base_memory: &'a [u8],
    base_marks: &[u8],
    patch_memory: &'a [u8],
    patch_marks: &[u8],
    address: u32,
) -> &'a [u8]
    ensures part { result.now ≡ look_part (window_of base base_memory.now base_marks.now) (window_of base patch_memory.now patch_marks.now) address }
    ensures place { result.ref_ptr ≡ look_place (window_of base base_memory.now base_marks.now) (window_of base patch_memory.now patch_marks.now) address base_memory.entry.ref_ptr patch_memory.entry.ref_ptr }
{
    look_as(
        Form::Bytes,
        base,
        base_memory,
        base_marks,
        patch_memory,
        patch_marks,
        address,
    )
}
