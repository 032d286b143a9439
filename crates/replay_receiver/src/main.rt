// Answers a script of calls, as oracle/README.md lays it out: setups, enablings, blocks of one stream or
// of both and constellation reads on a state and a table that stay from entry to entry, or are handed in
// word by word. What is lent is filled with a pattern before each call, and all of it goes into the
// answer's digest.
#![tactic(auto)]

use replay_states::WORDS;

mod desk;

// Whether an entry was read, and answered.
fn answered(
    words: &mut [u64; WORDS],
    table: &mut [f32],
    input: &mut [u8],
    samples: &mut [f32],
    dibits: &mut [u8],
    reliabilities: &mut [u8],
    others: &mut [u8],
    other_reliabilities: &mut [u8],
) -> bool {
    let mut head = [0u8; 64];
    if io::read_full(0, &mut head) < 64 {
        return false;
    }
    let e = desk::entry_of(&head);
    if e.kind == 0 {
        desk::set_up(e, words, table);
    } else if e.kind == 1 {
        if !desk::take_samples(e, input, &mut *samples) {
            return false;
        }
        desk::block(e, words, table, samples, dibits, reliabilities);
    } else if e.kind == 2 {
        desk::read(e, words, samples);
    } else if e.kind == 3 {
        desk::put_word(e, words);
    } else if e.kind == 4 {
        return desk::hand_in(e, input, words, table);
    } else if e.kind == 5 {
        desk::make_second(e, words);
    } else if e.kind == 6 {
        if !desk::take_samples(e, input, &mut *samples) {
            return false;
        }
        desk::both(
            e,
            words,
            table,
            samples,
            dibits,
            reliabilities,
            others,
            other_reliabilities,
        );
    } else if e.kind == 7 {
        desk::enable(words);
    } else {
        return false;
    }
    true
}

fn main() {
    let mut words = [0u64; WORDS];
    let mut table = [0.0; 18440];
    let mut input = [0u8; 524320];
    let mut samples = [0.0; 131080];
    let mut dibits = [0u8; 524320];
    let mut reliabilities = [0u8; 524320];
    let mut others = [0u8; 524320];
    let mut other_reliabilities = [0u8; 524320];
    for _ in 0..1000000000u64 {
        if !answered(
            &mut words,
            &mut table,
            &mut input,
            &mut samples,
            &mut dibits,
            &mut reliabilities,
            &mut others,
            &mut other_reliabilities,
        ) {
            break;
        }
    }
}
