// Bounds of a chain of the replay: laws on the definitions of `model` and `transport`, and no code.
// Every figure stays finite and bounded through every packet and the end.
#![tactic(auto)]
