//! The demo: a text of any number of goals, made from that number, of which three in four follow.
#![tactic(auto)]

mod demo;

pub use demo::demo_text;
