// A look for the benchmark in C. include/srec.h does not declare it.
#![tactic(auto)]

ghost use Rattle.std.specs.Prelude.{◌≡◌, length};
ghost use Rattle.window.specs.Windows.{window_of};
ghost use Rattle.overlay.specs.Looks.{look_part};

// How many cells a look at an address shows.
#[unsafe(no_mangle)]
pub extern "C" fn srec_look_length<'a>(
    base: u32,
    base_memory: &'a [u8],
    base_marks: &[u8],
    patch_memory: &'a [u8],
    patch_marks: &[u8],
    address: u32,
) -> usize
    ensures { result ≡ length (look_part (window_of base base_memory.now base_marks.now) (window_of base patch_memory.now patch_marks.now) address) }
{
    let part = look::look(
        base,
        base_memory,
        base_marks,
        patch_memory,
        patch_marks,
        address,
    );
    part.len()
}
