// What a replay may know of a recording, and which of its bytes are content. Definitions and theorems only: see specs/ and proofs/.
#![tactic(auto)]
