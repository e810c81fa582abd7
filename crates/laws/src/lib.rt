// Laws about numbers and lists alone, and no code: lists by their elements, tests that are computed over a whole table,
// loops that fill a list, runs of bytes laid over a list, the first refusal that applies, and numbers as rows of digits.

#![tactic(auto)]
