// Case 15: a block of no samples, with room enough and too little.
use super::say::{number, text};
use checks::refusal::number as number_of;
use receiver_state::state::Receiver;

fn block(r: &mut Receiver, table: &[f32], dibits: &mut [u8], reliabilities: &mut [u8]) {
    let none = [0.0; 0];
    let b = receiver::block::take(r, table, &none, dibits, reliabilities);
    text(b": refusal");
    number(u64::from(number_of(&b)));
    text(b", k");
    number(receiver::block::told(b).count as u64);
}

pub fn no_samples() {
    let mut table = [0.0; 16384];
    let Ok(mut r) = receiver::setup::set_up(48000.0, 0.0, 0, &mut table) else {
        return;
    };
    let mut four = [0u8; 4];
    let mut eight = [0u8; 8];
    let mut three = [0u8; 3];
    let mut seven = [0u8; 7];
    text(b"15 n 0, rooms 4 and 8");
    block(&mut r, &table, &mut four, &mut eight);
    text(b"; 3 and 8");
    block(&mut r, &table, &mut three, &mut eight);
    text(b"; 4 and 7");
    block(&mut r, &table, &mut four, &mut seven);
    text(b"\n");
}
