// A merge for C. include/srec.h declares it.
#![tactic(auto)]

ghost use Rattle.std.specs.Prelude.{◌≡◌};
ghost use Rattle.overlay.specs.Merges.{lent, merge_answer, memory_after, marks_after};
ghost use Rattle.c_answers.specs.Answers.{entry_for};
ghost use Rattle.merge_c.specs.Told.{merged_of};

use c_answers::Answer;

// Lays a patch into the buffers of a base.
#[unsafe(no_mangle)]
pub extern "C" fn srec_merge(
    base: u32,
    memory: &mut [u8],
    marks: &mut [u8],
    header: &[u8],
    present: u32,
    entry: u32,
    patch_memory: &[u8],
    patch_marks: &[u8],
    patch_header: &[u8],
    patch_present: u32,
    patch_entry: u32,
) -> Answer
    ensures answer { result ≡ merged_of (merge_answer base (lent memory.old marks.old header.now (entry_for present entry)) (lent patch_memory.now patch_marks.now patch_header.now (entry_for patch_present patch_entry))) }
    ensures memory { memory.new ≡ memory_after base (lent memory.old marks.old header.now (entry_for present entry)) (lent patch_memory.now patch_marks.now patch_header.now (entry_for patch_present patch_entry)) }
    ensures marks { marks.new ≡ marks_after base (lent memory.old marks.old header.now (entry_for present entry)) (lent patch_memory.now patch_marks.now patch_header.now (entry_for patch_present patch_entry)) }
{
    let start = c_answers::entry_for(present, entry);
    let patch_start = c_answers::entry_for(patch_present, patch_entry);
    let merged = merge::merge(
        base,
        memory,
        marks,
        header,
        start,
        patch_memory,
        patch_marks,
        patch_header,
        patch_start,
    );
    c_answers::bare_answer(merged.refusal, merged.header, merged.entry)
}
