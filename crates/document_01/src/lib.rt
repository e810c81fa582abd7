// Document 01's blocks and numbers that are to be proved (those it marks P), and no code. They are one list of questions and
// expected answers, and a single statement says that the definitions which the code is proved against answer each of them so.

#![tactic(auto)]
