// Cases 11 and 12: what a setup answers.
use super::say::{number, text};
use checks::refusal::number as number_of;

// The refusal's number, or 0, and the dimensions of the state that came back, or zeros.
#[derive(Clone, Copy)]
struct Answer {
    refusal: u64,
    decimation: usize,
    arm: usize,
}

fn set_up(rate: f64, offset: f64, table: &mut [f32]) -> Answer {
    let s = receiver::setup::set_up(rate, offset, 0, table);
    let front = receiver::setup::told(s).front;
    Answer {
        refusal: u64::from(number_of(&s)),
        decimation: front.decimator.decimation,
        arm: front.resampler.arm,
    }
}

// Case 11: a rate whose table does not fit the sample program's room.
pub fn dimensions() {
    let mut ample = [0.0; 18432];
    let mut room = [0.0; 16384];
    let a = set_up(383999.0, 0.0, &mut ample);
    let b = set_up(383999.0, 0.0, &mut room);
    text(b"11 rate 383999, table room 18432: refusal");
    number(a.refusal);
    text(b", d");
    number(a.decimation as u64);
    text(b", c");
    number(a.arm as u64);
    text(b"; room 16384: refusal");
    number(b.refusal);
    text(b"\n");
}

// Case 12: offsets on both sides of the edge.
pub fn offsets() {
    let mut table = [0.0; 16384];
    let a = set_up(9600.0, 599.5, &mut table);
    let b = set_up(9600.0, 600.0, &mut table);
    text(b"12 rate 9600, offset 599.5: refusal");
    number(a.refusal);
    text(b", c");
    number(a.arm as u64);
    text(b"; offset 600: refusal");
    number(b.refusal);
    text(b"\n");
}
