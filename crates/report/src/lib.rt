// The line that a program prints for a refused text.
#![tactic(auto)]

ghost use Rattle.std.specs.Prelude.{OnOk};
ghost use Rattle.std.specs.Io.KnownBytes.{Appends};
ghost use Rattle.report.specs.Lines.{refusal_line, wanted};

use std::io;
use std::io::Write;
use window::Refusal;

// The row of a checksum that differs.
const MISMATCH: u32 = 7;

// For a checksum that differs, the one that would have been right.
fn print_wanted<W: Write>(out: &mut W, refusal: Refusal) -> io::Result<()>
    ensures { OnOk result (Appends (W.contents out.old) (W.contents out.new) (wanted refusal)) }
{
    if refusal.reason == MISMATCH {
        let mut digits = [0u8; 2];
        hex_write::put_pair(&mut digits, 0, refusal.want);
        write!(out, " want ")?;
        out.write_all(&digits)?;
    }
    Ok(())
}

// One line: why, in which record and at which place a text is refused; for a checksum that differs, also which would have been right.
pub fn print_refusal<W: Write>(out: &mut W, refusal: Refusal) -> io::Result<()>
    ensures { OnOk result (Appends (W.contents out.old) (W.contents out.new) (refusal_line refusal)) }
{
    let Refusal {
        reason,
        ordinal,
        place,
        ..
    } = refusal;
    write!(out, "refused {reason} record {ordinal} at {place}")?;
    print_wanted(out, refusal)?;
    writeln!(out)
}
