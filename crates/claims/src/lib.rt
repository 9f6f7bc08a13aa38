// The demands over all links and the proved examples, one statement each: in specs/, with their proofs in proofs/. There is no code here.
#![tactic(auto)]
