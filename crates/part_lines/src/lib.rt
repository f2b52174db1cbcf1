// The lines of a part of a text whose ends stand in it.
#![tactic(auto)]

ghost use Rattle.std.specs.Prelude.{◌≡◌, ◌+◌, ◌-◌, ◌≤◌, length, drop};
ghost use Rattle.parts.specs.Parts.{stage, fed};
ghost use Rattle.parts.specs.Parts.Status.{going};
ghost use Rattle.parts.specs.Stretches.{fresh};
ghost use Rattle.marks.specs.Forms.{flags, Tidy};
ghost use Rattle.tally.specs.Tallies.{known_of};
ghost use Rattle.part_lines.specs.Rests.{Few, behind, RestIn, TidyRest};

use formats::Format;
use hex_read::DigitTable;
use marks::Form;
use tally::Tally;
use text::Taken;
use window::Refusal;

// What the lines of a part leave whose ends stand in it: where the characters after the last line end begin, and the records so far.
#[derive(Clone, Copy)]
pub struct Rest {
    pub from: usize,
    pub tally: Tally,
}

// Takes, from a place on, each line whose end stands in the part, where it stands.
pub fn take_lines(
    table: &DigitTable,
    part: &[u8],
    first: usize,
    total: usize,
    base: usize,
    tally: Tally,
    header: &mut [u8],
    memory: &mut [u8],
    form: Form,
    marks: &mut [u8],
) -> Result<Rest, Refusal>
    requires { (first ≤ length part.now) × Tidy form (length memory.old) marks.old × (length header.old ≡ 252) × Few tally.state (total + first) (length part.now - first) }
    ensures { (fed base (stage (going (fresh (length memory.old) (total + first) (known_of tally header.old))) memory.old (flags form (length memory.old) marks.old)) (drop first part.now) ≡ behind (length memory.old) total header.new part.now result memory.new (flags form (length memory.old) marks.new)) × RestIn part.now result × TidyRest form (length memory.old) result marks.new }
{
    let mut now = tally;
    let mut at = first;
    while let Some(Taken { from, to, step }) = part_next::take_next(
        table, now.state, part, at, total,
    ) {
        now = intake::take_step(
            table,
            step,
            &part[from..to],
            total + from,
            base,
            now,
            header,
            memory,
            form,
            marks,
        )?;
        at = to + 1;
    }
    let from = at + lines::count_gaps(Format::Records, &part[at..]);
    Ok(Rest { from, tally: now })
}
