// The write pass of a read, for plain parts and a plain amplitude. A division takes long, and a point
// that waits for its quotients holds up the points behind it. So the points go by rows of 32: while a
// row is written, the next one is divided into the same places, its real parts at 0 to 31 and its
// imaginary parts at 32 to 63. A row's loop has no branch, so that a compiler can run it on several
// points at once.
ghost use Rattle.std.specs.Prelude.{◌≡◌, ◌+◌, ◌*◌, ◌<◌, ◌≤◌, length};
ghost use Rattle.std.specs.Float.{binary64};
ghost use Rattle.std.specs.Float.Ieee.{add};
ghost use Rattle.laws.specs.Turns.{turns};
ghost use Rattle.signal.specs.Signal.{error_at};
ghost use Rattle.signal.specs.Plain.{Usual, PlainRun, PlainAmplitude, error_from, sum_step, write_step, run_of};
ghost use Rattle.signal.specs.Rows.{UsualRow, point_put, divide_turn, error_turn, point_turn};

use super::POINTS;
use super::plain::{error, narrow, quotient};

// The points of a row.
const ROW: usize = 32;

// Their quotients: the real parts, then the imaginary ones.
const QUOTIENTS: usize = 64;

// Writes the point of two quotients as the point `at`, and adds its error to the sum before it.
fn write_point(x: f64, y: f64, at: usize, output: &mut [f32], before: f64) -> f64
    requires at_bound { at < 1024 }
    requires at_in_bounds { at * 2 + 2 ≤ length output.old }
    requires usual_x { Usual x }
    requires usual_y { Usual y }
    ensures errors { result ≡ add binary64 before (error_from x y) }
    ensures written { output.new ≡ point_put x y at output.old }
{
    output[at * 2] = narrow(x);
    output[at * 2 + 1] = narrow(y);
    before + error(x, y)
}

// Divides `count` points from the place `from` on, a row at most.
fn divide_row(
    real: &[f32; POINTS],
    imaginary: &[f32; POINTS],
    from: usize,
    count: usize,
    amplitude: f64,
    row: &mut [f64; QUOTIENTS],
)
    requires count_bound { count ≤ 32 }
    requires end_bound { from + count ≤ 1024 }
    requires plain_run { PlainRun real.now imaginary.now from count }
    requires plain_amplitude { PlainAmplitude amplitude }
    ensures { row.new ≡ turns (divide_turn real.now imaginary.now amplitude from) count
        row.old }
{
    for j in 0..count {
        let at = from + j;
        row[j] = quotient(real[at], amplitude);
        row[ROW + j] = quotient(imaginary[at], amplitude);
    }
}

// Writes the first `count` points of a divided row after `done` points, and adds their errors to the
// sum before them.
fn write_row(
    row: &[f64; QUOTIENTS],
    count: usize,
    done: usize,
    output: &mut [f32],
    before: f64,
) -> f64
    requires count_bound { count ≤ 32 }
    requires end_bound { done + count ≤ 1024 }
    requires count_in_bounds { (done + count) * 2 ≤ length output.old }
    requires usual_row { UsualRow row.now count }
    ensures errors { result ≡ turns (error_turn row.now) count before }
    ensures written { output.new ≡ turns (point_turn row.now done) count output.old }
{
    let mut sum = before;
    for j in 0..count {
        sum = write_point(row[j], row[ROW + j], done + j, &mut *output, sum);
    }
    sum
}

// Writes a whole row after `done` points, and divides the one from the place `next` on in its stead.
fn exchange_row(
    real: &[f32; POINTS],
    imaginary: &[f32; POINTS],
    next: usize,
    amplitude: f64,
    row: &mut [f64; QUOTIENTS],
    done: usize,
    output: &mut [f32],
    before: f64,
) -> f64
    requires next_bound { next + 32 ≤ 1024 }
    requires done_bound { done + 32 ≤ 1024 }
    requires done_in_bounds { (done + 32) * 2 ≤ length output.old }
    requires usual_row { UsualRow row.old 32 }
    requires plain_run { PlainRun real.now imaginary.now next 32 }
    requires plain_amplitude { PlainAmplitude amplitude }
    ensures errors { result ≡ turns (error_turn row.old) 32 before }
    ensures written { output.new ≡ turns (point_turn row.old done) 32 output.old }
    ensures divided { row.new ≡ turns (divide_turn real.now imaginary.now amplitude next) 32
        row.old }
{
    let mut sum = before;
    for j in 0..ROW {
        let at = next + j;
        let up = ROW + j;
        let x = row[j];
        let y = row[up];
        row[j] = quotient(real[at], amplitude);
        row[up] = quotient(imaginary[at], amplitude);
        sum = write_point(x, y, done + j, &mut *output, sum);
    }
    sum
}

// Writes `count` points from the place `from` on, after `done` points, and adds their errors to the
// sum before them. What is left after the whole rows is divided and written at the end.
pub fn write_run(
    real: &[f32; POINTS],
    imaginary: &[f32; POINTS],
    from: usize,
    done: usize,
    count: usize,
    amplitude: f64,
    output: &mut [f32],
    before: f64,
) -> f64
    requires from_bound { from + count ≤ 1024 }
    requires done_bound { done + count ≤ 1024 }
    requires count_in_bounds { (done + count) * 2 ≤ length output.old }
    requires plain_run { PlainRun real.now imaginary.now from count }
    requires plain_amplitude { PlainAmplitude amplitude }
    ensures errors { result ≡ turns (run_of (sum_step real.now imaginary.now (error_at amplitude)) from done)
        count before }
    ensures written { output.new ≡ turns (run_of (write_step real.now imaginary.now amplitude) from done)
        count output.old }
{
    let mut row = [0.0; QUOTIENTS];
    let first = count.min(ROW);
    divide_row(real, imaginary, from, first, amplitude, &mut row);
    let mut sum = before;
    let mut at = 0;
    while at + 64 <= count {
        sum = exchange_row(
            real,
            imaginary,
            from + at + ROW,
            amplitude,
            &mut row,
            done + at,
            &mut *output,
            sum,
        );
        at += ROW;
    }
    sum = write_row(&row, first, done + at, &mut *output, sum);
    at += first;
    divide_row(real, imaginary, from + at, count - at, amplitude, &mut row);
    write_row(&row, count - at, done + at, &mut *output, sum)
}
