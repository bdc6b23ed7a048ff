// Registers and operations, one variant for each form of the word text. What an operation does is
// defined in specs/Operations.antt and specs/Machine.antt; docs/MACHINE.md has the table.

ghost use Rattle.std.specs.Prelude.{◌≡◌};
ghost use Rattle.std.specs.List.{flat_map};
ghost use Rattle.vx_isa.specs.Fits.{keeps_to_cluster};
ghost use Rattle.vx_isa.specs.Operations.{same, is_zero, is_general, cluster_of_register, cluster_of, list_of, read_of, reads_of, destination_of, comes_from, unit_of_code as unit_by_code, unit_of, is_observable, is_control, is_branch, is_lone};

use vx_base::arithmetic::Code;
use vx_base::outcome::Trap;

/// A general register, `$rK.n`: cluster K, number n. Number 0 reads as 0 and keeps nothing.
#[derive(Clone, Copy)]
pub struct GeneralRegister {
    /// The cluster, from 0.
    pub cluster: u32,
    /// The number in the cluster's file, from 0.
    pub number: u32,
}

/// A one-bit branch register, `$bK.n`: cluster K, number n.
#[derive(Clone, Copy)]
pub struct BranchRegister {
    /// The cluster, from 0.
    pub cluster: u32,
    /// The number in the cluster's file, from 0.
    pub number: u32,
}

/// Any register of the machine. There is one link register, `$l0.0`.
#[derive(Clone, Copy)]
pub enum Register {
    /// A general register.
    General(GeneralRegister),
    /// A branch register.
    Branch(BranchRegister),
    /// The link register, on cluster 0.
    Link,
}

impl Register {
    /// Whether both are one register.
    pub fn is_same(&self, other: &Register) -> bool
        ensures { result ≡ same self.now other.now }
    {
        match (self, other) {
            (Register::General(r), Register::General(q)) => {
                r.cluster == q.cluster && r.number == q.number
            }
            (Register::Branch(r), Register::Branch(q)) => {
                r.cluster == q.cluster && r.number == q.number
            }
            (Register::Link, Register::Link) => true,
            _ => false,
        }
    }

    /// Whether it is general register 0 of a cluster, which reads as 0 and keeps nothing.
    pub fn is_zero(&self) -> bool
        ensures { result ≡ is_zero self.now }
    {
        match self {
            Register::General(r) => r.number == 0,
            _ => false,
        }
    }

    /// Whether it is a general register.
    pub fn is_general(&self) -> bool
        ensures { result ≡ is_general self.now }
    {
        matches!(self, Register::General(_))
    }

    /// The cluster on which it stands; the link register stands on cluster 0.
    pub fn cluster(&self) -> u32
        ensures { result ≡ cluster_of_register self.now }
    {
        match self {
            Register::General(r) => r.cluster,
            Register::Branch(r) => r.cluster,
            Register::Link => 0,
        }
    }
}

/// A kind of functional unit.
#[derive(Clone, Copy, PartialEq, Eq)]
pub enum UnitKind {
    /// Arithmetic, compares, moves within a cluster, and the link register.
    Alu,
    /// Products, quotients and remainders.
    Multiply,
    /// Loads, stores, reading and printing.
    Memory,
    /// Moves from one cluster to another.
    Copies,
    /// Jumps, calls, returns and ends.
    Control,
}

/// A source of an operation.
#[derive(Clone, Copy)]
pub enum Source {
    /// What a general register holds.
    Held(GeneralRegister),
    /// A number written in the operation.
    Number(i32),
}

/// An operation, one variant for each form of the word text. A form that begins with `c0` stands on cluster 0
/// and has no field for it.
#[derive(Clone, Copy)]
pub enum Operation {
    /// `cK op D = S, S`: arithmetic and compares. A compare writes a general or a branch register as its code says.
    Compute {
        cluster: u32,
        code: Code,
        to: Register,
        left: Source,
        right: Source,
    },
    /// `cK mov D = S`: a move, and a copy across where the source is a register of another cluster.
    Move {
        cluster: u32,
        to: GeneralRegister,
        from: Source,
    },
    /// `cK slct D = $bK.n, S, S`: the left source where the branch register is 1, else the right one.
    Select {
        cluster: u32,
        to: GeneralRegister,
        test: BranchRegister,
        left: Source,
        right: Source,
    },
    /// `cK ldw D = o[$rK.n]`, and `ldw.d` where it is dismissible. The offset counts bytes.
    Load {
        cluster: u32,
        to: GeneralRegister,
        offset: i32,
        base: GeneralRegister,
        dismissible: bool,
    },
    /// `cK stw o[$rK.n] = S`. The offset counts bytes.
    Store {
        cluster: u32,
        offset: i32,
        base: GeneralRegister,
        from: Source,
    },
    /// `c0 in D`: takes the next number of the input.
    Input {
        to: GeneralRegister,
    },
    /// `c0 more D`: 1 where the input has a number left, else 0.
    More {
        to: GeneralRegister,
    },
    /// `c0 outs Tn`: prints text n of the program.
    OutText {
        text: u32,
    },
    /// `c0 outd S`: prints a number as signed decimal.
    OutDecimal {
        from: Source,
    },
    /// `c0 outb S`: prints the low eight bits of a number as a byte.
    OutByte {
        from: Source,
    },
    /// `c0 goto Lp`.
    Goto {
        target: u32,
    },
    /// `c0 br $b0.n, Lp` where it is taken at 1, `c0 brf $b0.n, Lp` where it is taken at 0. The test is the
    /// number of a branch register of cluster 0.
    BranchOn {
        test: u32,
        taken_at_one: bool,
        target: u32,
    },
    /// `c0 call $l0.0 = Lp`: writes the next place to the link register and goes.
    Call {
        target: u32,
    },
    /// `c0 return $l0.0`.
    Return,
    /// `c0 mfl D = $l0.0`.
    FromLink {
        to: GeneralRegister,
    },
    /// `c0 mtl $l0.0 = S`.
    ToLink {
        from: Source,
    },
    /// `c0 trap k`.
    EndByTrap {
        trap: Trap,
    },
    /// `c0 halt S`: ends with the source as the result.
    Halt {
        from: Source,
    },
}

impl Source {
    /// The register that is read, if it is one.
    pub fn register(&self) -> Option<Register>
        ensures { list_of result ≡ read_of self.now }
    {
        match self {
            Source::Held(r) => Some(Register::General(*r)),
            Source::Number(_) => None,
        }
    }

    /// Whether nothing of another cluster is read.
    pub fn comes_from(&self, cluster: u32) -> bool
        ensures { result ≡ comes_from cluster self.now }
    {
        match self {
            Source::Held(r) => r.cluster == cluster,
            Source::Number(_) => true,
        }
    }
}

/// The unit that a code takes.
pub fn unit_of_code(code: Code) -> UnitKind
    ensures { result ≡ unit_by_code code }
{
    match code {
        Code::Mpylu | Code::Mpyhs | Code::Div | Code::Rem => UnitKind::Multiply,
        _ => UnitKind::Alu,
    }
}

impl Operation {
    /// The cluster on which it is issued.
    pub fn cluster(&self) -> u32
        ensures { result ≡ cluster_of self.now }
    {
        match self {
            Operation::Compute { cluster, .. } => *cluster,
            Operation::Move { cluster, .. } => *cluster,
            Operation::Select { cluster, .. } => *cluster,
            Operation::Load { cluster, .. } => *cluster,
            Operation::Store { cluster, .. } => *cluster,
            _ => 0,
        }
    }

    /// The unit that it takes.
    pub fn unit(&self) -> UnitKind
        ensures { result ≡ unit_of self.now }
    {
        match self {
            Operation::Compute { code, .. } => unit_of_code(*code),
            Operation::Move { cluster, from, .. } => {
                if from.comes_from(*cluster) {
                    UnitKind::Alu
                } else {
                    UnitKind::Copies
                }
            }
            Operation::Select { .. } => UnitKind::Alu,
            Operation::FromLink { .. } => UnitKind::Alu,
            Operation::ToLink { .. } => UnitKind::Alu,
            Operation::Goto { .. } => UnitKind::Control,
            Operation::BranchOn { .. } => UnitKind::Control,
            Operation::Call { .. } => UnitKind::Control,
            Operation::Return => UnitKind::Control,
            Operation::EndByTrap { .. } => UnitKind::Control,
            Operation::Halt { .. } => UnitKind::Control,
            _ => UnitKind::Memory,
        }
    }

    /// Whether it says where the program goes on, or ends it.
    pub fn is_control(&self) -> bool
        ensures { result ≡ is_control self.now }
    {
        matches!(self.unit(), UnitKind::Control)
    }

    /// Whether it is a branch on a register, `br` or `brf`.
    pub fn is_branch(&self) -> bool
        ensures { result ≡ is_branch self.now }
    {
        matches!(self, Operation::BranchOn { .. })
    }

    /// Whether it is a control operation that no other one may stand beside in a word: a goto, a call, a return or an end.
    pub fn is_lone(&self) -> bool
        ensures { result ≡ is_lone self.now }
    {
        self.is_control() && !self.is_branch()
    }

    /// Whether it reads the input or prints.
    pub fn is_observable(&self) -> bool
        ensures { result ≡ is_observable self.now }
    {
        match self {
            Operation::Input { .. } => true,
            Operation::More { .. } => true,
            Operation::OutText { .. } => true,
            Operation::OutDecimal { .. } => true,
            Operation::OutByte { .. } => true,
            _ => false,
        }
    }

    /// The register that it writes, if any.
    pub fn destination(&self) -> Option<Register>
        ensures { result ≡ destination_of self.now }
    {
        match self {
            Operation::Compute { to, .. } => Some(*to),
            Operation::Move { to, .. } => Some(Register::General(*to)),
            Operation::Select { to, .. } => Some(Register::General(*to)),
            Operation::Load { to, .. } => Some(Register::General(*to)),
            Operation::Input { to } => Some(Register::General(*to)),
            Operation::More { to } => Some(Register::General(*to)),
            Operation::FromLink { to } => Some(Register::General(*to)),
            Operation::Call { .. } => Some(Register::Link),
            Operation::ToLink { .. } => Some(Register::Link),
            _ => None,
        }
    }

    /// Whether each register that it names stands on a cluster that it may use: a move may read any cluster, every
    /// other operation names its own cluster alone, and the link register.
    pub fn keeps_to_cluster(&self) -> bool
        ensures { result ≡ keeps_to_cluster self.now }
    {
        match self {
            Operation::Compute {
                cluster,
                to,
                left,
                right,
                ..
            } => {
                to.cluster() == *cluster && left.comes_from(*cluster) && right.comes_from(*cluster)
            }
            Operation::Move { cluster, to, .. } => to.cluster == *cluster,
            Operation::Select {
                cluster,
                to,
                test,
                left,
                right,
            } => {
                to.cluster == *cluster
                    && test.cluster == *cluster
                    && left.comes_from(*cluster)
                    && right.comes_from(*cluster)
            }
            Operation::Load {
                cluster,
                to,
                base,
                ..
            } => to.cluster == *cluster && base.cluster == *cluster,
            Operation::Store {
                cluster,
                base,
                from,
                ..
            } => base.cluster == *cluster && from.comes_from(*cluster),
            Operation::Input { to } => to.cluster == 0,
            Operation::More { to } => to.cluster == 0,
            Operation::FromLink { to } => to.cluster == 0,
            Operation::OutDecimal { from } => from.comes_from(0),
            Operation::OutByte { from } => from.comes_from(0),
            Operation::ToLink { from } => from.comes_from(0),
            Operation::Halt { from } => from.comes_from(0),
            _ => true,
        }
    }

    /// The registers that it reads, at most three, in the order of its form, repeats kept.
    pub fn reads(&self) -> [Option<Register>; 3]
        ensures { flat_map list_of result ≡ reads_of self.now }
    {
        match self {
            Operation::Compute { left, right, .. } => [left.register(), right.register(), None],
            Operation::Move { from, .. } => [from.register(), None, None],
            Operation::Select {
                test,
                left,
                right,
                ..
            } => [
                Some(Register::Branch(*test)),
                left.register(),
                right.register(),
            ],
            Operation::Load { base, .. } => [Some(Register::General(*base)), None, None],
            Operation::Store { base, from, .. } => {
                [Some(Register::General(*base)), from.register(), None]
            }
            Operation::OutDecimal { from } => [from.register(), None, None],
            Operation::OutByte { from } => [from.register(), None, None],
            Operation::BranchOn { test, .. } => {
                let test = BranchRegister {
                    cluster: 0,
                    number: *test,
                };
                [Some(Register::Branch(test)), None, None]
            }
            Operation::Return => [Some(Register::Link), None, None],
            Operation::FromLink { .. } => [Some(Register::Link), None, None],
            Operation::ToLink { from } => [from.register(), None, None],
            Operation::Halt { from } => [from.register(), None, None],
            _ => [None, None, None],
        }
    }
}
