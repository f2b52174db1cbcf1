// The answers of a load: refused, or accepted.
#![tactic(auto)]

ghost use Rattle.std.specs.Prelude.{◌≡◌};
ghost use Rattle.window.specs.Plans.{refusal};
ghost use Rattle.window.specs.Plans.Outcome.{refused};
ghost use Rattle.text.specs.Load.{load_answer};

use window::{Entry, Header, Loaded, Refusal};

// The answer of a load that is refused.
pub fn refused_answer(refusal: Refusal) -> Loaded
    ensures { result ≡ load_answer (refused refusal) }
{
    Loaded {
        refusal,
        header: window::no_header(),
        entry: None,
        records: 0,
        cells: 0,
    }
}

// The answer of a load that is accepted.
pub fn accepted_answer(header: Header, entry: Entry, records: usize, cells: usize) -> Loaded
    ensures { result ≡ record { refusal = refusal 0 0 0; header = header; entry = entry; records = records; cells = cells } }
{
    Loaded {
        refusal: window::refuse(0, 0, 0),
        header,
        entry,
        records,
        cells,
    }
}
