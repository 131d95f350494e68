// The replay of a recording through the T-STD buffer model (H.222.0, 2.4.2; the Rust's `analyze_tstd`): its definition, over lists and floats.
#![tactic(auto)]
