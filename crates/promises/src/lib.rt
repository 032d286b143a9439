// What the calls promise, one by one and one after the other, as theorems over the receiver's
// definitions. There is no code here: the definitions stand in specs/, the theorems beside them or in proofs/.
#![tactic(auto)]
