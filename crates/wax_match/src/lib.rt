//! The compiler: from tokens to a program of instructions, which can be run over texts.
#![tactic(auto)]

pub mod encode;
