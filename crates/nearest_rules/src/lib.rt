// What finding an index means, and that the correction by it draws what was measured: definitions and theorems, no code.

#![tactic(auto)]
