//! The result of a read.
use stack_meaning::Found;
use std::marker::Model;

/// The bytes of a piece, 512 for each of its sectors, and the chains that show them: one for each block of a `verity` line,
/// the topmost such line on a sector's way.
#[derive(Drop)]
pub struct Answer {
    pub bytes: Vec<u8>,
    pub chains: Vec<Found>,
}

impl Model for Answer {
    ghost use Rattle.stack_engine.specs.Stacks.{AnswerRecord};

    ghost Value = { AnswerRecord };

    ghost view = { λ a. record { bytes = a.bytes.items; chains = a.chains.items } };
}
