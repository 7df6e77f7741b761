// What programs mean: the values of expressions, runs, solutions, starting, acceptance. Definitions and laws. No code.
#![tactic(auto)]
