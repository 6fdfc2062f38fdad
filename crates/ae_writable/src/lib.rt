//! What an answer has to be to have a text, whatever numbers of 64 bits it counts with.
#![tactic(auto)]
