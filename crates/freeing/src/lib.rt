// No code: L12 is a theorem over the promises of `put_kept`, `hear`, `fill` and `pass`, and stands in specs/ and proofs/.
#![tactic(auto)]
