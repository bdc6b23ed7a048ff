// A machine: the numbers of its description, each in the range of its field. Contracts see a machine as
// `Numbers` of vx_isa. docs/MACHINE.md has the table of the fields.

ghost use Rattle.std.specs.Prelude.{◌≡◌, ◌≤◌};
ghost use Rattle.vx_isa.specs.Numbers.{IsMachine, vex};
ghost use Rattle.vx_isa.specs.Machine.{branches_of};
ghost use Rattle.vx_isa.specs.Operations.{latency_of_code, latency_of};
ghost use Rattle.vx_machine.specs.Resources.{units_of};

use std::marker::Model;
use vx_base::arithmetic::Code;
use vx_isa::operation::{Operation, UnitKind};

/// The numbers of a machine. All counts but `clusters`, `copy_paths` and `branches` are per cluster.
#[derive(Clone, Copy)]
pub struct Machine {
    pub(crate) clusters: u32,
    pub(crate) issue: u32,
    pub(crate) alus: u32,
    pub(crate) multipliers: u32,
    pub(crate) memory_units: u32,
    pub(crate) registers: u32,
    pub(crate) branch_registers: u32,
    pub(crate) read_ports: u32,
    pub(crate) write_ports: u32,
    pub(crate) copy_paths: u32,
    pub(crate) latency_alu: u32,
    pub(crate) latency_compare: u32,
    pub(crate) latency_multiply: u32,
    pub(crate) latency_load: u32,
    pub(crate) latency_divide: u32,
    pub(crate) latency_copy: u32,
    pub(crate) branches: u32,
}

impl Model for Machine {
    ghost use Rattle.vx_isa.specs.Numbers.{Numbers, IsMachine};

    ghost Value = { Numbers };

    ghost view = { λ a. record {
      clusters = a.clusters;
      issue = a.issue;
      alus = a.alus;
      multipliers = a.multipliers;
      memory_units = a.memory_units;
      registers = a.registers;
      branch_registers = a.branch_registers;
      read_ports = a.read_ports;
      write_ports = a.write_ports;
      copy_paths = a.copy_paths;
      latency_alu = a.latency_alu;
      latency_compare = a.latency_compare;
      latency_multiply = a.latency_multiply;
      latency_load = a.latency_load;
      latency_divide = a.latency_divide;
      latency_copy = a.latency_copy;
      branches = a.branches;
    } };

    ghost invariant = { λ a. IsMachine (record {
      clusters = a.clusters;
      issue = a.issue;
      alus = a.alus;
      multipliers = a.multipliers;
      memory_units = a.memory_units;
      registers = a.registers;
      branch_registers = a.branch_registers;
      read_ports = a.read_ports;
      write_ports = a.write_ports;
      copy_paths = a.copy_paths;
      latency_alu = a.latency_alu;
      latency_compare = a.latency_compare;
      latency_multiply = a.latency_multiply;
      latency_load = a.latency_load;
      latency_divide = a.latency_divide;
      latency_copy = a.latency_copy;
      branches = a.branches;
    }) };

    ghost inverse = { λ m. record {
      clusters = m.clusters;
      issue = m.issue;
      alus = m.alus;
      multipliers = m.multipliers;
      memory_units = m.memory_units;
      registers = m.registers;
      branch_registers = m.branch_registers;
      read_ports = m.read_ports;
      write_ports = m.write_ports;
      copy_paths = m.copy_paths;
      latency_alu = m.latency_alu;
      latency_compare = m.latency_compare;
      latency_multiply = m.latency_multiply;
      latency_load = m.latency_load;
      latency_divide = m.latency_divide;
      latency_copy = m.latency_copy;
      branches = m.branches;
    } };
}

impl Machine {
    /// The default machine with this many clusters.
    pub fn vex(clusters: u32) -> Machine
        requires some { 1 ≤ clusters }
        requires at_most_four { clusters ≤ 4 }
        ensures { result ≡ vex clusters }
    {
        Machine {
            clusters,
            issue: 4,
            alus: 4,
            multipliers: 2,
            memory_units: 1,
            registers: 64,
            branch_registers: 8,
            read_ports: 8,
            write_ports: 4,
            copy_paths: 2,
            latency_alu: 1,
            latency_compare: 2,
            latency_multiply: 2,
            latency_load: 3,
            latency_divide: 8,
            latency_copy: 1,
            branches: 1,
        }
    }

    /// Each number is in the range of its field, at every machine.
    pub fn keeps_ranges(&self)
        ensures { IsMachine self.now }
    {
        let _clusters = self.clusters;
    }

    /// Equal clusters, 1 to 4.
    pub fn clusters(&self) -> u32
        ensures { result ≡ self.now.clusters }
    {
        self.clusters
    }

    /// Issue slots of a cluster, 1 to 4.
    pub fn issue(&self) -> u32
        ensures { result ≡ self.now.issue }
    {
        self.issue
    }

    /// ALUs of a cluster, 1 to 4.
    pub fn alus(&self) -> u32
        ensures { result ≡ self.now.alus }
    {
        self.alus
    }

    /// Multipliers of a cluster, 1 to 4.
    pub fn multipliers(&self) -> u32
        ensures { result ≡ self.now.multipliers }
    {
        self.multipliers
    }

    /// Memory units of a cluster, 1 or 2.
    pub fn memory_units(&self) -> u32
        ensures { result ≡ self.now.memory_units }
    {
        self.memory_units
    }

    /// General registers of a cluster, 16 to 64.
    pub fn registers(&self) -> u32
        ensures { result ≡ self.now.registers }
    {
        self.registers
    }

    /// Branch registers of a cluster, `issue` + 1 to 8.
    pub fn branch_registers(&self) -> u32
        ensures { result ≡ self.now.branch_registers }
    {
        self.branch_registers
    }

    /// Read ports of a cluster, 2 to 2 * `issue`.
    pub fn read_ports(&self) -> u32
        ensures { result ≡ self.now.read_ports }
    {
        self.read_ports
    }

    /// Write ports of a cluster, 1 to `issue`.
    pub fn write_ports(&self) -> u32
        ensures { result ≡ self.now.write_ports }
    {
        self.write_ports
    }

    /// Copy paths between clusters, of the whole machine, 1 to 8.
    pub fn copy_paths(&self) -> u32
        ensures { result ≡ self.now.copy_paths }
    {
        self.copy_paths
    }

    /// Cycles of an operation of an ALU, 1 to 16.
    pub fn latency_alu(&self) -> u32
        ensures { result ≡ self.now.latency_alu }
    {
        self.latency_alu
    }

    /// Cycles of a compare to a branch register, 1 to 16.
    pub fn latency_compare(&self) -> u32
        ensures { result ≡ self.now.latency_compare }
    {
        self.latency_compare
    }

    /// Cycles of a product, 1 to 16.
    pub fn latency_multiply(&self) -> u32
        ensures { result ≡ self.now.latency_multiply }
    {
        self.latency_multiply
    }

    /// Cycles of a load and of reading the input, 1 to 16.
    pub fn latency_load(&self) -> u32
        ensures { result ≡ self.now.latency_load }
    {
        self.latency_load
    }

    /// Cycles of a quotient or a remainder, 1 to 16.
    pub fn latency_divide(&self) -> u32
        ensures { result ≡ self.now.latency_divide }
    {
        self.latency_divide
    }

    /// Cycles of a copy between clusters, 1 to 16.
    pub fn latency_copy(&self) -> u32
        ensures { result ≡ self.now.latency_copy }
    {
        self.latency_copy
    }

    /// Branches of a word, 1 or 2.
    pub fn branches(&self) -> u32
        ensures { result ≡ self.now.branches }
    {
        self.branches
    }

    /// How many units of a kind there are: of the machine for copy paths and control places, else of a cluster.
    pub fn units(&self, unit: UnitKind) -> u32
        ensures { result ≡ units_of self.now unit }
    {
        match unit {
            UnitKind::Alu => self.alus,
            UnitKind::Multiply => self.multipliers,
            UnitKind::Memory => self.memory_units,
            UnitKind::Copies => self.copy_paths,
            UnitKind::Control => self.branches,
        }
    }

    /// The machine that words of a version are issued by: those of version 1 have at most one branch each, on every machine.
    pub fn for_version(&self, version: u32) -> Machine
        ensures { result ≡ record self.now { branches = branches_of version self.now.branches } }
    {
        Machine {
            branches: if version == 1 { 1 } else { self.branches },
            ..*self
        }
    }

    /// The cycles until the result of an operation has landed at the latest. It is 0 where there is none, and
    /// for the link that a call writes, which is there at the next word.
    pub fn latency(&self, op: &Operation) -> u32
        ensures { result ≡ latency_of self.now op.now }
    {
        match op {
            Operation::Compute { code, .. } => self.latency_of_code(*code),
            Operation::Move { cluster, from, .. } => {
                if from.comes_from(*cluster) {
                    self.latency_alu
                } else {
                    self.latency_copy
                }
            }
            Operation::Select { .. } => self.latency_alu,
            Operation::FromLink { .. } => self.latency_alu,
            Operation::ToLink { .. } => self.latency_alu,
            Operation::Load { .. } => self.latency_load,
            Operation::Input { .. } => self.latency_load,
            Operation::More { .. } => self.latency_load,
            _ => 0,
        }
    }

    /// The cycles until the result of a computation has landed at the latest.
    pub fn latency_of_code(&self, code: Code) -> u32
        ensures { result ≡ latency_of_code self.now code }
    {
        match code {
            Code::ToBranch(_) => self.latency_compare,
            Code::Mpylu | Code::Mpyhs => self.latency_multiply,
            Code::Div | Code::Rem => self.latency_divide,
            _ => self.latency_alu,
        }
    }
}
