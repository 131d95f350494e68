// Every event that the replay notes is of one of the nine chains and has a figure that the report's slots can hold: laws on the definition of `model`, and no code.
#![tactic(auto)]
