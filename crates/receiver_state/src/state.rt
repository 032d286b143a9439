// The whole state: small places by value, and the planes that a block lends to its steps.
ghost use Rattle.std.specs.Prelude.{◌≡◌};
ghost use Rattle.receiver_state.specs.State.{planes_with, fresh_receiver, zero_front, zero_carrier, zero_chain, zero_second, zero_receiver, zero_snapshot, flag_of, snapshot_of};

use answers::soft::Records;
use answers::{PARENTS, STEPS};
use carrier::{CarrierPlace, Loop};
use chain::{ChainPlace, ChainPlanes, DecisionsPlanes, RecoveryPlanes};
use channels::{CHANNELS, STATES};
use clock::ClockPlace;
use complex::Planes;
use equalizer::WEIGHTS;
use filter::RING;
use front::FrontPlace;
use numbers::TURN;
use oscillator::Oscillator;
use peak::VALUES;
use resampler::pass::{PLACES, Resampler};
use second::{MEMORY, Second};
use sequence::step::DetectorPlace;
use signal::POINTS;

// Total is how many samples were taken. The ring is the resampler's, and the planes are the chain's. The
// second tracker has its memory and its parents, the ancestors; while it is not enabled nothing of it is
// looked at, and all of it is handed back as given.
#[derive(Clone, Copy)]
pub struct Receiver {
    pub total: u64,
    pub front: FrontPlace,
    pub chain: ChainPlace,
    pub records: Records,
    pub ring: Planes<PLACES>,
    pub planes: ChainPlanes,
    pub second: Second,
    pub memory: [f32; MEMORY],
    pub ancestors: [u8; PARENTS],
}

// Dibits delivered since setup and those of them under lock, the carrier's smoothed error, its
// frequency in hertz, and 1 if it is locked now.
#[derive(Clone, Copy)]
pub struct Snapshot {
    pub symbols: u64,
    pub locked_symbols: u64,
    pub carrier_error: f64,
    pub frequency_offset_hz: f64,
    pub carrier_locked: u32,
    pub reserved: u32,
}

fn zero_front() -> FrontPlace
    ensures { result ≡ zero_front }
{
    FrontPlace {
        oscillator: Oscillator {
            real: 0.0,
            imaginary: 0.0,
            step_real: 0.0,
            step_imaginary: 0.0,
            renormalize: 0,
        },
        decimator: decimator::fresh(0),
        resampler: Resampler {
            arm: 0,
            half: 0,
            step: 0.0,
            index: 0,
            next: 0.0,
            write: 0,
        },
    }
}

fn zero_carrier() -> CarrierPlace
    ensures { result ≡ zero_carrier }
{
    let turn = Loop {
        phase: 0.0,
        frequency: 0.0,
        alternation: 0,
        locked: false,
        error: 0.0,
    };
    let detector = DetectorPlace {
        write: 0,
        filled: 0,
        previous: None,
        combined: None,
        noise: 0.0,
    };
    CarrierPlace { turn, detector }
}

fn zero_chain() -> ChainPlace
    ensures { result ≡ zero_chain }
{
    let clock = ClockPlace {
        start: 0,
        count: 0,
        position: 0,
        warm: false,
        phase: 0.0,
        rate: 0.0,
    };
    let carrier = zero_carrier();
    ChainPlace {
        keeper: peak::fresh(),
        clock,
        carrier,
        view: signal::fresh(),
        profile: 0,
        symbols: 0,
        locked: 0,
    }
}

// The second tracker as long as it is not enabled.
fn zero_second() -> Second
    ensures { result ≡ zero_second }
{
    let carrier = zero_carrier();
    Second {
        enabled: false,
        carrier,
        records: Records {
            slots: [None; STEPS],
        },
    }
}

// The chain's planes with these real parts of the weights and of the channels, and zeros elsewhere.
fn planes_with(weights: [f32; WEIGHTS], channels: [f32; CHANNELS]) -> ChainPlanes
    ensures { result ≡ planes_with weights channels }
{
    ChainPlanes {
        recovery: RecoveryPlanes {
            keeper: Planes {
                real: [0.0; VALUES],
                imaginary: [0.0; VALUES],
            },
            clock: Planes {
                real: [0.0; RING],
                imaginary: [0.0; RING],
            },
            weights: Planes {
                real: weights,
                imaginary: [0.0; WEIGHTS],
            },
        },
        decisions: DecisionsPlanes {
            channels: Planes {
                real: channels,
                imaginary: [0.0; CHANNELS],
            },
            costs: [0.0; STATES],
            parents: [0; PARENTS],
            view: Planes {
                real: [0.0; POINTS],
                imaginary: [0.0; POINTS],
            },
        },
    }
}

// Every number zero, every flag false, every option absent: not admitted.
pub fn zero() -> Receiver
    ensures { result ≡ zero_receiver }
{
    Receiver {
        total: 0,
        front: zero_front(),
        chain: zero_chain(),
        records: Records {
            slots: [None; STEPS],
        },
        ring: Planes {
            real: [0.0; PLACES],
            imaginary: [0.0; PLACES],
        },
        planes: planes_with([0.0; WEIGHTS], [0.0; CHANNELS]),
        second: zero_second(),
        memory: [0.0; MEMORY],
        ancestors: [0; PARENTS],
    }
}

pub fn fresh(front: FrontPlace, profile: i32) -> Receiver
    ensures { result ≡ fresh_receiver front profile }
{
    Receiver {
        total: 0,
        front,
        chain: chain::fresh(profile),
        records: sequence::step::fresh_records(),
        ring: Planes {
            real: [0.0; PLACES],
            imaginary: [0.0; PLACES],
        },
        planes: planes_with(equalizer::fresh_real(), sequence::step::fresh_channels()),
        second: zero_second(),
        memory: [0.0; MEMORY],
        ancestors: [0; PARENTS],
    }
}

pub fn zero_snapshot() -> Snapshot
    ensures { result ≡ zero_snapshot }
{
    Snapshot {
        symbols: 0,
        locked_symbols: 0,
        carrier_error: 0.0,
        frequency_offset_hz: 0.0,
        carrier_locked: 0,
        reserved: 0,
    }
}

fn flag(b: bool) -> u32
    ensures { result ≡ flag_of b }
{
    if b { 1 } else { 0 }
}

// 4,800 symbols a second turn radians a symbol into hertz.
pub fn snapshot_of(chain: ChainPlace) -> Snapshot
    ensures { result ≡ snapshot_of chain }
{
    let carrier = chain.carrier;
    let turn = carrier.turn;
    Snapshot {
        symbols: chain.symbols,
        locked_symbols: chain.locked,
        carrier_error: turn.error,
        frequency_offset_hz: turn.frequency * 4800.0 / TURN,
        carrier_locked: flag(turn.locked),
        reserved: 0,
    }
}
