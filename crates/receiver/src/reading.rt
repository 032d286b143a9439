// The constellation: the last points, oldest first, and their error.
ghost use Rattle.std.specs.Prelude.{◌≡◌};
ghost use Rattle.receiver.specs.Reading.{points_now, reading_of};
ghost use Rattle.receiver.specs.Told.{points_told};

use super::admitted::is_admitted;
use checks::refusal::Refusal;
use receiver_state::state::Receiver;

#[derive(Clone, Copy)]
pub struct Points {
    pub count: usize,
    pub error: f64,
}

// The room is the number of whole pairs of floats lent; a refused reading writes none.
pub fn read(r: &Receiver, output: &mut [f32]) -> Result<Points, Refusal>
    ensures { points_now result output.new ≡ reading_of r.now output.old }
{
    if !is_admitted(r) {
        return Err(Refusal::State);
    }
    let p = signal::read(
        r.chain.view,
        &r.planes.decisions.view.real,
        &r.planes.decisions.view.imaginary,
        output,
    );
    Ok(Points {
        count: p.count,
        error: p.error,
    })
}

// What a reading's answer tells: a refused one counts no point, and no error.
pub fn told(answer: Result<Points, Refusal>) -> Points
    ensures { result ≡ points_told answer }
{
    answer.unwrap_or(Points {
        count: 0,
        error: 0.0,
    })
}
