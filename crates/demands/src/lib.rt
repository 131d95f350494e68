// What holds of the replay for every recording and profile: laws on the definition of `model`, and no code.
#![tactic(auto)]
