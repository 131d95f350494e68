// Bounds of the branches behind the transport buffer: laws on the definitions of `branch`, and no code.
#![tactic(auto)]
