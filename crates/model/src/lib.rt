// The reference model of a job (the paper's book), and that one call of a job answers and leaves what the model says. There is no code; crate
// demands has what follows for every list of calls.
#![tactic(auto)]
