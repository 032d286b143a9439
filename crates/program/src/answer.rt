// What the program answers, on slices: a block's bytes through the receiver to the lines of its
// dibits, and the closing lines.
ghost use Rattle.std.specs.Prelude.{◌≡◌, ◌*◌, ◌≤◌, length, IfOk};
ghost use Rattle.recording.specs.Text.{written_of, put, closing_of};
ghost use Rattle.program.specs.Answer.{told_now, told_of, totals_of};

use chain::ChainPlace;
use checks::refusal::Refusal;
use receiver::block::take;
use receiver_state::state::{Receiver, snapshot_of};
use recording::text::Totals;

// A block's overload, and where its lines end.
#[derive(Clone, Copy)]
pub struct Taken {
    pub overload: u32,
    pub end: usize,
}

// At most 1,024 samples of 8 bytes; at most two dibits for each, in lines of at most 12 bytes, from the
// text's start on. A refused block writes none.
pub fn answered(
    r: &mut Receiver,
    table: &[f32],
    bytes: &[u8],
    samples: usize,
    text: &mut [u8],
) -> Result<Taken, Refusal>
    requires samples_bound { samples ≤ 1024 }
    requires samples_in_bounds { 8 * samples ≤ length bytes.now }
    requires samples_in_bounds_2 { 24 * samples ≤ length text.old }
    ensures same { told_now result r.new text.new ≡ told_of r.old table.now bytes.now samples text.old }
    ensures few { IfOk result (λ a. a.overload ≤ samples) }
    ensures near { IfOk result (λ a. a.end ≤ 24 * samples) }
    ensures kept { length text.new ≡ length text.old }
{
    let parts = 2 * samples;
    let mut floats = [0.0f32; 2048];
    recording::decode::floats(bytes, parts, &mut floats);
    let mut dibits = [0u8; 2052];
    let mut reliabilities = [0u8; 4104];
    let b = take(r, table, &floats[..parts], &mut dibits, &mut reliabilities)?;
    let end = recording::text::lines(&dibits, &reliabilities, b.count, text, 0);
    Ok(Taken {
        overload: b.overload,
        end,
    })
}

// The four closing lines, from the text's start on; the place after them.
pub fn closed(chain: ChainPlace, overload: u64, text: &mut [u8]) -> usize
    requires { 120 ≤ length text.old }
    ensures same { written_of result text.new ≡ put (closing_of (totals_of chain overload)) (written_of 0 text.old) }
    ensures near { result ≤ 120 }
    ensures kept { length text.new ≡ length text.old }
{
    let s = snapshot_of(chain);
    let totals = Totals {
        symbols: s.symbols,
        locked: s.locked_symbols,
        lock: s.carrier_locked > 0,
        overload,
    };
    recording::text::closing(totals, text, 0)
}
