// The entries of a script, each on the state and the table that stand on the desk.
ghost use Rattle.std.specs.Prelude.{◌<◌, ◌≤◌, length};

use answers::PARENTS;
use checks::refusal::{Refusal, number};
use numbers::bits::{float, float32};
use receiver::block::Block;
use receiver_state::state::{Receiver, Snapshot};
use replay::{mark, mixed, mixed_bytes, mixed_float, mixed_plane, next, unit, word};
use replay_second::{Making, made_second};
use replay_states::{WORDS, decoded, encode, profile_of, put_second};
use second::MEMORY;

const OUT: i32 = 1;

// The words of the first stream's state; the second's follow.
const FIRST: usize = 6757;

#[derive(Clone, Copy)]
pub struct Entry {
    pub kind: u64,
    pub first: u64,
    pub second: u64,
    pub third: u64,
    pub fourth: u64,
    pub fifth: u64,
    pub sixth: u64,
    pub seventh: u64,
}

pub fn entry_of(head: &[u8]) -> Entry
    requires { 64 ≤ length head.now }
{
    Entry {
        kind: word(head, 0),
        first: word(head, 8),
        second: word(head, 16),
        third: word(head, 24),
        fourth: word(head, 32),
        fifth: word(head, 40),
        sixth: word(head, 48),
        seventh: word(head, 56),
    }
}

// ---- what an entry answers

// The digest of some of a state's words.
fn words_digest(words: &[u64; WORDS], from: usize, end: usize) -> u64
    requires { end ≤ 18262 }
{
    let mut h: u64 = 0;
    for i in from..end {
        h = mixed(h, words[i]);
    }
    h
}

// A line: refusal and count, the answer's digest, those of the first stream's state and the second's.
fn print_answer(refusal: u32, count: u64, answer: u64, words: &[u64; WORDS]) {
    io::print_hex(
        OUT,
        std::num::wrapping_add_u64(u64::from(refusal), count << 4),
        16,
    );
    io::write_all(OUT, b" ");
    io::print_hex(OUT, answer, 16);
    io::write_all(OUT, b" ");
    io::print_hex(OUT, words_digest(words, 0, FIRST), 16);
    io::write_all(OUT, b" ");
    io::print_hex(OUT, words_digest(words, FIRST, WORDS), 16);
    io::write_all(OUT, b"\n");
}

// ---- patterns in what is lent

fn after(x: u8, last: u8) -> u8 {
    if x < last { x + 1 } else { 0 }
}

// 0, 1, 2 up to `last`, and again.
fn fill_bytes(lent: &mut [u8], last: u8) {
    let mut x: u8 = 0;
    for byte in lent.iter_mut() {
        *byte = x;
        x = after(x, last);
    }
}

// ---- setup, enabling and read

// A refused setup tells the state of zeros.
fn set_up_in(e: Entry, words: &mut [u64; WORDS], lent: &mut [f32]) -> u32 {
    let profile = profile_of(e.third);
    let s = receiver::setup::set_up(float(e.first), float(e.second), profile, lent);
    encode(&receiver::setup::told(s), words);
    number(&s)
}

pub fn set_up(e: Entry, words: &mut [u64; WORDS], table: &mut [f32]) {
    mark(&mut *table);
    let room = e.fourth as usize;
    if room <= table.len() {
        let refusal = set_up_in(e, &mut *words, &mut table[..room]);
        let answer = mixed(mixed_plane(0, table), u64::from(refusal));
        print_answer(refusal, 0, answer, words);
    }
}

pub fn enable(words: &mut [u64; WORDS]) {
    let mut r = decoded(words);
    let refusal = number(&receiver::enable::enable(&mut r));
    encode(&r, words);
    print_answer(refusal, 0, mixed(0, u64::from(refusal)), words);
}

fn read_in(words: &[u64; WORDS], lent: &mut [f32]) {
    mark(&mut *lent);
    let answer = receiver::reading::read(&decoded(words), &mut *lent);
    let refusal = number(&answer);
    let p = receiver::reading::told(answer);
    let count = p.count as u64;
    let h = mixed_float(mixed(mixed(0, u64::from(refusal)), count), p.error);
    print_answer(refusal, count, mixed_plane(h, lent), words);
}

pub fn read(e: Entry, words: &[u64; WORDS], floats: &mut [f32]) {
    let room = e.first as usize;
    if room <= floats.len() {
        read_in(words, &mut floats[..room]);
    }
}

// ---- blocks

// A word where there is one.
fn word_or_zero(input: &[u8], at: usize) -> u64
    requires { at < 1048576 }
{
    if at + 8 <= input.len() {
        word(input, at)
    } else {
        0
    }
}

// Float i of a row of words, two to a word.
fn packed(input: &[u8], i: usize) -> f32
    requires { i < 131080 }
{
    let w = word_or_zero(input, i / 2 * 8);
    let half = if i % 2 == 0 { w } else { w / 0x1_0000_0000 };
    float32((half % 0x1_0000_0000) as u32)
}

fn unpack(input: &[u8], floats: &mut [f32], n: usize)
    requires { n ≤ length floats.old }
{
    for i in 0..n {
        floats[i] = packed(input, i % 131080);
    }
}

fn seed_samples(seed: u64, gain: f32, floats: &mut [f32], n: usize)
    requires { n ≤ length floats.old }
{
    let mut s = seed;
    for i in 0..n {
        s = next(s);
        floats[i] = unit(s) * gain;
    }
}

// Whether the first so many bytes could be read.
fn read_first(input: &mut [u8], count: usize) -> bool {
    if count <= input.len() {
        io::read_full(0, &mut input[..count]) == count
    } else {
        false
    }
}

// The bytes of so many floats, from standard input.
fn fetch(floats: u64, input: &mut [u8]) -> bool {
    if floats > 131080 {
        return false;
    }
    read_first(input, ((floats + 1) / 2 * 8) as usize)
}

// A block's samples, from its seed or from standard input.
pub fn take_samples(e: Entry, input: &mut [u8], samples: &mut [f32]) -> bool {
    let n = e.first as usize;
    if n > samples.len() {
        return false;
    }
    if e.fifth > 0 {
        seed_samples(
            e.fifth,
            float32((e.sixth % 0x1_0000_0000) as u32),
            samples,
            n,
        );
        return true;
    }
    if fetch(e.first, &mut *input) {
        unpack(input, samples, n);
        true
    } else {
        false
    }
}

fn snapshot_digest(digest: u64, s: Snapshot) -> u64 {
    let a = mixed(mixed(digest, s.symbols), s.locked_symbols);
    let b = mixed_float(mixed_float(a, s.carrier_error), s.frequency_offset_hz);
    mixed(b, u64::from(s.carrier_locked))
}

// What a block answers besides what it was lent.
#[derive(Clone, Copy)]
struct BlockAnswer {
    refusal: u32,
    count: u64,
    digest: u64,
}

fn block_answer(
    answer: Result<Block, Refusal>,
    r: &Receiver,
    words: &mut [u64; WORDS],
) -> BlockAnswer {
    encode(r, words);
    let refusal = number(&answer);
    let b = receiver::block::told(answer);
    let count = b.count as u64;
    let h = mixed(
        mixed(mixed(0, u64::from(refusal)), count),
        u64::from(b.overload),
    );
    BlockAnswer {
        refusal,
        count,
        digest: snapshot_digest(h, b.snapshot),
    }
}

fn block_in(
    words: &mut [u64; WORDS],
    table: &[f32],
    samples: &[f32],
    dibits: &mut [u8],
    reliabilities: &mut [u8],
) {
    fill_bytes(&mut *dibits, 250);
    fill_bytes(&mut *reliabilities, 240);
    let mut r = decoded(words);
    let b = receiver::block::take(&mut r, table, samples, &mut *dibits, &mut *reliabilities);
    let a = block_answer(b, &r, words);
    let h = mixed_bytes(mixed_bytes(a.digest, dibits), reliabilities);
    print_answer(a.refusal, a.count, h, words);
}

pub fn block(
    e: Entry,
    words: &mut [u64; WORDS],
    table: &[f32],
    samples: &[f32],
    dibits: &mut [u8],
    reliabilities: &mut [u8],
) {
    let n = e.first as usize;
    let p = e.second as usize;
    let q = e.third as usize;
    let t = e.fourth as usize;
    if n <= samples.len() {
        if t <= table.len() {
            if p <= dibits.len() {
                if q <= reliabilities.len() {
                    block_in(
                        words,
                        &table[..t],
                        &samples[..n],
                        &mut dibits[..p],
                        &mut reliabilities[..q],
                    );
                }
            }
        }
    }
}

// ---- blocks of both streams

fn both_in(
    words: &mut [u64; WORDS],
    table: &[f32],
    samples: &[f32],
    dibits: &mut [u8],
    reliabilities: &mut [u8],
    others: &mut [u8],
    other_reliabilities: &mut [u8],
) {
    fill_bytes(&mut *dibits, 250);
    fill_bytes(&mut *reliabilities, 240);
    fill_bytes(&mut *others, 238);
    fill_bytes(&mut *other_reliabilities, 232);
    let mut r = decoded(words);
    let b = receiver::block::take_both(
        &mut r,
        table,
        samples,
        &mut *dibits,
        &mut *reliabilities,
        &mut *others,
        &mut *other_reliabilities,
    );
    let a = block_answer(b, &r, words);
    let first = mixed_bytes(mixed_bytes(a.digest, dibits), reliabilities);
    let h = mixed_bytes(mixed_bytes(first, others), other_reliabilities);
    print_answer(a.refusal, a.count, h, words);
}

// What the first stream is lent, and the samples; what the second is lent is cut already.
fn both_lent(
    e: Entry,
    words: &mut [u64; WORDS],
    table: &[f32],
    samples: &[f32],
    dibits: &mut [u8],
    reliabilities: &mut [u8],
    others: &mut [u8],
    other_reliabilities: &mut [u8],
) {
    let n = e.first as usize;
    let p = e.second as usize;
    let q = e.third as usize;
    let t = e.fourth as usize;
    if n <= samples.len() {
        if t <= table.len() {
            if p <= dibits.len() {
                if q <= reliabilities.len() {
                    both_in(
                        words,
                        &table[..t],
                        &samples[..n],
                        &mut dibits[..p],
                        &mut reliabilities[..q],
                        others,
                        other_reliabilities,
                    );
                }
            }
        }
    }
}

pub fn both(
    e: Entry,
    words: &mut [u64; WORDS],
    table: &[f32],
    samples: &[f32],
    dibits: &mut [u8],
    reliabilities: &mut [u8],
    others: &mut [u8],
    other_reliabilities: &mut [u8],
) {
    let p = (e.seventh % 0x1_0000_0000) as usize;
    let q = (e.seventh / 0x1_0000_0000) as usize;
    if p <= others.len() {
        if q <= other_reliabilities.len() {
            both_lent(
                e,
                words,
                table,
                samples,
                dibits,
                reliabilities,
                &mut others[..p],
                &mut other_reliabilities[..q],
            );
        }
    }
}

// ---- words of the state

// A second stream's words, made from a seed.
pub fn make_second(e: Entry, words: &mut [u64; WORDS]) {
    let mut memory: [f32; MEMORY] = [0.0; MEMORY];
    let mut ancestors: [u8; PARENTS] = [0; PARENTS];
    let m = Making {
        seed: e.first,
        start: e.second,
        flags: e.third,
        phase: e.fourth,
        frequency: e.fifth,
        error: e.sixth,
    };
    let s = made_second(m, &mut memory, &mut ancestors);
    put_second(words, s, &memory, &ancestors);
}

pub fn put_word(e: Entry, words: &mut [u64; WORDS]) {
    if e.first < 18262 {
        words[e.first as usize] = e.second;
    }
}

// As many words as are given, and zeros; what the Rust alone keeps is left out.
fn take_words(input: &[u8], given: usize, words: &mut [u64; WORDS])
    requires { 146096 ≤ length input.now }
{
    for i in 0..WORDS {
        words[i] = if i < given { word(input, 8 * i) } else { 0 };
    }
    words[48] = 0;
    words[49] = 0;
    words[50] = 0;
    words[6770] = 0;
    words[6771] = 0;
    words[6772] = 0;
}

// How many words a state is given as: all, or the first stream's.
fn words_given(whole: u64) -> u64
    ensures { result ≤ 18262 }
{
    if whole == 1 { 18262 } else { 6757 }
}

// A state, with the second stream's words or without, and the floats of its table.
pub fn hand_in(e: Entry, input: &mut [u8], words: &mut [u64; WORDS], table: &mut [f32]) -> bool {
    let given = words_given(e.second);
    if !fetch(2 * given, &mut *input) {
        return false;
    }
    if input.len() < 146096 {
        return false;
    }
    take_words(input, given as usize, words);
    let n = e.first as usize;
    if n > table.len() {
        return false;
    }
    if !fetch(e.first, &mut *input) {
        return false;
    }
    unpack(input, table, n);
    true
}
