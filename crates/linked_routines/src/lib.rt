// The five routines under C names, for a program in another language to link: bench/routines
// compares and times them so.
#![tactic(auto)]

ghost use Rattle.std.specs.Prelude.{◌≡◌, length, set};
ghost use Rattle.routines.specs.Circle.{sine_of, cosine_of, pair_of};
ghost use Rattle.routines.specs.Angle.{arctangent_of};
ghost use Rattle.routines.specs.Hypotenuse.{hypotenuse_of};

#[unsafe(no_mangle)]
pub extern "C" fn xolindap_sine(x: f64) -> f64
    ensures { result ≡ sine_of x }
{
    routines::circle::sine(x)
}

#[unsafe(no_mangle)]
pub extern "C" fn xolindap_cosine(x: f64) -> f64
    ensures { result ≡ cosine_of x }
{
    routines::circle::cosine(x)
}

// The sine into the first place, the cosine into the second.
#[unsafe(no_mangle)]
pub extern "C" fn xolindap_sine_cosine(x: f64, pair: &mut [f64; 2])
    requires { length pair.old ≡ 2 }
    ensures { pair.new ≡
        set (set pair.old 0 (pair_of x).sine) 1 (pair_of x).cosine }
{
    let p = routines::circle::sine_cosine(x);
    pair[0] = p.sine;
    pair[1] = p.cosine;
}

#[unsafe(no_mangle)]
pub extern "C" fn xolindap_arctangent(y: f32, x: f32) -> f32
    ensures { result ≡ arctangent_of y x }
{
    routines::angle::arctangent(y, x)
}

#[unsafe(no_mangle)]
pub extern "C" fn xolindap_hypotenuse(x: f32, y: f32) -> f32
    ensures { result ≡ hypotenuse_of x y }
{
    routines::hypotenuse::hypotenuse(x, y)
}
