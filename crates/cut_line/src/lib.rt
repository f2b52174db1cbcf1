// The line that the end of a part cut.
#![tactic(auto)]

ghost use Rattle.std.specs.Prelude.{◌≡◌, ◌++◌, map, ◌+◌, min, length, take};
ghost use Rattle.text.specs.Lines.{front};
ghost use Rattle.srec.specs.Lines.{is_end};
ghost use Rattle.parts.specs.Parts.{line_turn};
ghost use Rattle.marks.specs.Forms.{flags, Tidy};
ghost use Rattle.tally.specs.Tallies.{known_of, Took, TidyTurn};
ghost use Rattle.session.specs.Sessions.{visible};
ghost use Rattle.part_lines.specs.Rests.{Few};

use hex_read::DigitTable;
use marks::Form;
use tally::Tally;
use window::Refusal;

// The record that is not complete ends behind these characters: what is held of it, with a line end, is taken as a part.
pub fn close_line(
    table: &DigitTable,
    line: &mut [u8],
    held: usize,
    chars: &[u8],
    place: usize,
    base: usize,
    tally: Tally,
    header: &mut [u8],
    memory: &mut [u8],
    form: Form,
    marks: &mut [u8],
) -> Result<Tally, Refusal>
    requires { (length line.old ≡ 516) × Tidy form (length memory.old) marks.old × (length header.old ≡ 252) × Few tally.state place 516 × (front is_end chars.now ≡ chars.now) }
    ensures took { Took (line_turn base place (take 515 (map visible (take (min held 515) line.old) ++ chars.now)) memory.old (flags form (length memory.old) marks.old) (known_of tally header.old)) result header.new memory.new (flags form (length memory.old) marks.new) memory.old }
    ensures tidy_turn { TidyTurn form (length memory.old) result marks.new }
{
    let n = holding::hold(line, held, chars);
    holding::hide_ends(&mut line[..n]);
    line[n] = b'\n';
    let end = n + 1;
    let rest = part_lines::take_lines(
        table,
        &line[..end],
        0,
        place,
        base,
        tally,
        header,
        memory,
        form,
        marks,
    )?;
    Ok(rest.tally)
}
