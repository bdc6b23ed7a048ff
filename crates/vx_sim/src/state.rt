// Where the simulator stands, and what the operations of a word read there.

ghost use Rattle.std.specs.Prelude.{◌≡◌, []};
ghost use Rattle.vx_isa.specs.Machine.{source, register, address, is_word_of, loaded, first_of, is_left, number_of};
ghost use Rattle.vx_sim.specs.Standing.{state_of};

use crate::registers::Registers;
use vx_arithmetic::{add32, unsigned32, value};
use vx_isa::operation::{BranchRegister, GeneralRegister, Operation, Register, Source};

/// All that words read and change, but for the writes in flight.
#[derive(Drop)]
pub(crate) struct Standing {
    /// The place of the word to be issued.
    pub(crate) place: u32,
    /// The cycle, from 0; it stays at the greatest `u64`.
    pub(crate) cycle: u64,
    pub(crate) registers: Registers,
    /// The words of the memory, from address 0 on.
    pub(crate) memory: Vec<i32>,
    pub(crate) input: Vec<i32>,
    /// How many numbers of the input are taken.
    pub(crate) taken: usize,
}

/// Whether the address is an aligned word of a memory of so many bytes.
pub(crate) fn is_word_of(size: u32, address: u32) -> bool
    ensures { result ≡ is_word_of size address }
{
    address % 4 == 0 && size >= 4 && address <= size - 4
}

impl Standing {
    /// What a register reads as.
    pub(crate) fn general(&self, r: &GeneralRegister) -> i32
        ensures { result ≡ register (state_of self.now []) (Register.General r.now) }
    {
        if r.number == 0 {
            0
        } else {
            self.registers.read(&Register::General(*r))
        }
    }

    pub(crate) fn branch(&self, r: BranchRegister) -> i32
        ensures { result ≡ register (state_of self.now []) (Register.Branch r) }
    {
        self.registers.read(&Register::Branch(r))
    }

    pub(crate) fn link(&self) -> i32
        ensures { result ≡ (state_of self.now []).registers Register.Link }
    {
        self.registers.read(&Register::Link)
    }

    pub(crate) fn source(&self, from: &Source) -> i32
        ensures { result ≡ source (state_of self.now []) from.now }
    {
        match from {
            Source::Held(r) => self.general(r),
            Source::Number(z) => *z,
        }
    }

    pub(crate) fn address(&self, base: &GeneralRegister, offset: i32) -> u32
        ensures { result ≡ address (state_of self.now []) base.now offset }
    {
        unsigned32(add32(self.general(base), offset))
    }

    fn loaded(&self, size: u32, address: u32) -> i32
        ensures { result ≡ loaded size (state_of self.now []) address }
    {
        if !is_word_of(size, address) {
            return 0;
        }
        match self.memory.get((address / 4) as usize) {
            Some(word) => *word,
            None => 0,
        }
    }

    /// The number of the input that comes next, 0 where none is left.
    fn first(&self) -> i32
        ensures { result ≡ first_of (state_of self.now []).input }
    {
        match self.input.get(self.taken) {
            Some(number) => *number,
            None => 0,
        }
    }

    /// Whether the input has a number left.
    #[tactic(auto, using(crate::proofs::Inputs::is_left_at))]
    pub(crate) fn has_input(&self) -> bool
        ensures { result ≡ is_left (state_of self.now []).input }
    {
        self.taken < self.input.len()
    }

    /// The number that an operation leaves in its destination.
    #[tactic(auto, using(crate::proofs::Links::link_is))]
    pub(crate) fn number_of(&self, size: u32, op: &Operation) -> i32
        ensures { result ≡ number_of size (state_of self.now []) op.now }
    {
        match op {
            Operation::Compute {
                code,
                left,
                right,
                ..
            } => value(*code, self.source(left), self.source(right)),
            Operation::Move { from, .. } => self.source(from),
            Operation::Select {
                test,
                left,
                right,
                ..
            } => {
                if self.branch(*test) == 1 {
                    self.source(left)
                } else {
                    self.source(right)
                }
            }
            Operation::Load { offset, base, .. } => self.loaded(size, self.address(base, *offset)),
            Operation::Input { .. } => self.first(),
            Operation::More { .. } => i32::from(self.has_input()),
            Operation::Call { .. } => add32(self.place.cast_signed(), 1),
            Operation::FromLink { .. } => self.link(),
            Operation::ToLink { from } => self.source(from),
            _ => 0,
        }
    }
}
