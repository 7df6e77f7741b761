// Laws that more than one crate needs: lists, numbers, tests, runs, counts, closed tables. No code.
#![tactic(auto)]
