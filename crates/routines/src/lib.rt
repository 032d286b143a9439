// The five routines, each a list of once-rounded steps (docs/ROUTINES.md): sine and cosine of an
// angle up to 64 in size, their pair, the angle of a point, and the hypotenuse.
#![tactic(auto)]

pub mod angle;
pub mod circle;
pub mod hypotenuse;
