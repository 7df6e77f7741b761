// What is promised of the definitions: theorems. No code.
#![tactic(auto)]
