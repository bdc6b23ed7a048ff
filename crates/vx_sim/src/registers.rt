// What the registers hold: 64 general and 8 branch registers on each of 4 clusters, and the link register.

ghost use Rattle.std.specs.Prelude.{◌≡◌, true, pos};
ghost use Rattle.vx_base.specs.Flight.{written};
ghost use Rattle.vx_isa.specs.Operations.{same};
ghost use Rattle.vx_isa.specs.Sound.{can_name, can_name_branch};
ghost use Rattle.vx_sim.specs.Held.{held_by};
ghost use Rattle.vx_sim.specs.Named.{is_register};

use vx_isa::operation::{BranchRegister, GeneralRegister, Register};

/// The registers that a word text can name.
#[derive(Drop)]
pub(crate) struct Registers {
    general: [i32; 256],
    branch: [i32; 32],
    link: i32,
}

/// Whether it is one of the registers that a word text can name.
pub(crate) fn is_register(register: &Register) -> bool
    ensures { result ≡ is_register register.now }
{
    match register {
        Register::General(r) => is_general_register(r),
        Register::Branch(r) => is_branch_register(r),
        Register::Link => true,
    }
}

fn is_general_register(register: &GeneralRegister) -> bool
    ensures { result ≡ can_name register.now }
{
    register.cluster <= 3 && register.number <= 63
}

fn is_branch_register(register: &BranchRegister) -> bool
    ensures { result ≡ can_name_branch register.now }
{
    register.cluster <= 3 && register.number <= 7
}

impl Registers {
    /// Every register holds 0.
    pub(crate) fn zeros() -> Registers
        ensures { held_by result ≡ (λ r. pos 0) }
    {
        Registers {
            general: [0; 256],
            branch: [0; 32],
            link: 0,
        }
    }

    /// What a register holds; one that no text can name holds 0.
    pub(crate) fn read(&self, register: &Register) -> i32
        ensures { result ≡ held_by self.now register.now }
    {
        match register {
            Register::General(r) => self.read_general(r),
            Register::Branch(r) => self.read_branch(r),
            Register::Link => self.link,
        }
    }

    fn read_general(&self, r: &GeneralRegister) -> i32
        ensures { result ≡ held_by self.now (Register.General r.now) }
    {
        if is_general_register(r) {
            self.general[(64 * r.cluster + r.number) as usize]
        } else {
            0
        }
    }

    fn read_branch(&self, r: &BranchRegister) -> i32
        ensures { result ≡ held_by self.now (Register.Branch r.now) }
    {
        if is_branch_register(r) {
            self.branch[(8 * r.cluster + r.number) as usize]
        } else {
            0
        }
    }

    /// Makes a register hold a number.
    pub(crate) fn write(&mut self, register: &Register, number: i32)
        requires { is_register register.now ≡ true }
        ensures { held_by self.new ≡ written same (held_by self.old) register.now number }
    {
        match register {
            Register::General(r) => self.general[(64 * r.cluster + r.number) as usize] = number,
            Register::Branch(r) => self.branch[(8 * r.cluster + r.number) as usize] = number,
            Register::Link => self.link = number,
        }
    }
}
