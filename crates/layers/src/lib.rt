// The marked cells of an image laid over memory, and its marks joined to marks.
#![tactic(auto)]

ghost use Rattle.std.specs.Prelude.{◌≡◌, length};
ghost use Rattle.window.specs.Images.{image, overlaid};
ghost use Rattle.marks.specs.Forms.{flags, mark_bytes};
ghost use Rattle.layers.specs.Layers.{joined};

use marks::Form;

// Lays the marked cells of an image over a memory of as many cells; all other bytes stay.
pub fn lay(memory: &mut [u8], bytes: &[u8], form: Form, marks: &[u8])
    requires { (length bytes.now ≡ length memory.old) × (length marks.now ≡ mark_bytes form (length memory.old)) }
    ensures { memory.new ≡ overlaid memory.old (image bytes.now (flags form (length memory.old) marks.now)) }
{
    let cells = memory.len();
    let mut at: usize = 0;
    while at < cells {
        let from = runs::next_marked(form, marks, cells, at);
        let to = runs::run_end(form, marks, cells, from, cells);
        memory[from..to].copy_from_slice(&bytes[from..to]);
        at = to;
    }
}

// Marks the cells that other marks of the same form and number mark, too.
pub fn join(marks: &mut [u8], others: &[u8])
    requires { length others.now ≡ length marks.old }
    ensures { marks.new ≡ joined marks.old others.now }
{
    for (i, mark) in marks.iter_mut().enumerate() {
        *mark |= others[i];
    }
}
