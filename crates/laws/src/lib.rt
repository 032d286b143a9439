// What the proofs of several crates share: loops, rings, lists by their places, and floats by their
// order, rounding and bits. There is no code here: the laws stand in specs/.
#![tactic(auto)]
