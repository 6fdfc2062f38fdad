//! Lines that a search derives can be written: those over formulas that can, and blocks of equations that are built of its names.
#![tactic(auto)]
