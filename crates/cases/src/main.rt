// The specification's cases 11 to 15 ('Numbers to meet') through the calls: a line for each, to be read
// beside that table. What follows a colon was given by a call.
#![tactic(auto)]

mod detector;
mod outputs;
mod rooms;
mod say;
mod seeded;
mod setups;

fn main() {
    setups::dimensions();
    setups::offsets();
    outputs::first_samples();
    detector::unreliable_steps();
    rooms::no_samples();
}
