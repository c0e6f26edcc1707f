//! The log rule, the tape and the answer sheet: definitions and theorems, and no function of its own.
#![tactic(auto)]
