// The phase brought to one turn of the arms. The Rust's loops turn at most once from an admitted
// phase, and the whole part comes from one truncating conversion.
ghost use Rattle.std.specs.Prelude.{◌≡◌, ◌≤◌, true};
ghost use Rattle.std.specs.Float.Ieee as Ieee;
ghost use Rattle.numbers.specs.Constants.{zero32};
ghost use Rattle.laws.specs.FloatSums.{In};
ghost use Rattle.clock.specs.Clock.{sixteen, ranged_of};
ghost use Rattle.clock.specs.Ranges.{PhaseFits, Ceiling};

// A phase in 0..=32 or NaN, its arm, and whether the window stands a sample back (0), where it stood
// (1), or a sample on (2).
#[derive(Clone, Copy)]
pub struct Arm {
    pub phase: f32,
    pub arm: usize,
    pub ahead: usize,
}

// The smallest whole number that is not below x, for x in 0..=16.
fn ceiling(x: f32) -> usize
    requires { In zero32 sixteen x }
    ensures { Ceiling x result }
{
    let whole = std::num::truncating_f32_to_u64(x);
    let near = std::num::nearest_u32_to_f32(whole as u32);
    if near < x {
        return (whole + 1) as usize;
    }
    whole as usize
}

// Brings a phase in -16..0 into range: it is raised by a turn of 32 arms.
fn ranged_below(phase: f32) -> Arm
    requires fits { PhaseFits phase }
    requires below { Ieee.lt phase zero32 ≡ true }
    ensures same { result ≡ ranged_of phase }
    ensures few { result.ahead ≤ 2 }
{
    let above = ceiling(-phase);
    Arm {
        phase: phase + 32.0,
        arm: 32 - above,
        ahead: 0,
    }
}

// Brings a phase in -16..=48 into 0..=32; a NaN stays, with arm 0.
pub fn ranged(phase: f32) -> Arm
    requires { PhaseFits phase }
    ensures same { result ≡ ranged_of phase }
    ensures few { result.ahead ≤ 2 }
{
    if phase < 0.0 {
        return ranged_below(phase);
    }
    if phase < 32.0 {
        let whole = std::num::truncating_f32_to_u64(phase);
        return Arm {
            phase,
            arm: whole as usize,
            ahead: 1,
        };
    }
    if 32.0 <= phase {
        let whole = std::num::truncating_f32_to_u64(phase);
        return Arm {
            phase: phase - 32.0,
            arm: whole as usize - 32,
            ahead: 2,
        };
    }
    Arm {
        phase,
        arm: 0,
        ahead: 1,
    }
}
