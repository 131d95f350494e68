// Bit strings and the syntax tables of H.222.0 (2.4.3): definitions in specs/, laws in proofs/.
#![tactic(auto)]
