// The delays and heights of one trace.

ghost use Rattle.std.specs.Prelude.{◌≡◌, ℕ, IfOk};
ghost use Rattle.vx_flow.specs.declared.trace.Trace.{Trace};
ghost use Rattle.vx_isa.specs.Numbers.{Numbers};
ghost use Rattle.vx_dep.specs.declared.mode.Mode.{Mode};
ghost use Rattle.vx_dep.specs.Delays.{IsDelay};
ghost use Rattle.vx_dep.specs.Deps.{IsDeps, height_in};
ghost use Rattle.vx_dep.specs.Earlier.{AreEarlier};

use crate::earlier::{Earlier, all_earlier, list_at};
use crate::heights::{height_at, heights};
use crate::mode::Mode;
use crate::sights::Sight;
use std::alloc::Global;
use vx_base::listed::Listed;
use vx_base::outcome::NoMemory;
use vx_flow::trace::Trace;
use vx_machine::Machine;

/// The delays and heights of a trace on a machine in one mode.
#[derive(Drop)]
pub struct Deps<'a> {
    pub(crate) sight: Sight<'a>,
    pub(crate) heights: Listed<u32>,
    pub(crate) earlier: Listed<Listed<Earlier>>,
}

/// The delays and heights of a trace: what is needed to answer each delay without a search, the pairs that have one, and the
/// heights. A height past `u32` is want of memory.
pub fn pairs<'a>(
    alloc: Global,
    trace: &'a Trace,
    machine: &Machine,
    mode: Mode,
) -> Result<Deps<'a>, NoMemory>
    ensures { IfOk result (λ deps. IsDeps machine.now mode trace.now deps) }
{
    let sight = Sight::make(alloc, trace, machine, mode)?;
    let earlier = all_earlier(alloc, &sight)?;
    let heights = heights(alloc, &sight, earlier.as_slice())?;
    Ok(Deps {
        sight,
        heights,
        earlier,
    })
}

impl<'a> Deps<'a> {
    /// How many words the operation at place `j` of the trace has to stand behind the one at place `i`. None where it may
    /// pass it, and where `i` is not below `j` or no operation stands there. It takes no memory.
    pub fn delay(&self, i: u32, j: u32) -> Option<u32>
        ensures { (m : Numbers) (mode : Mode) (t : Trace) → IsDeps m mode t self.now → IsDelay m mode t i j result }
    {
        self.sight.delay(i as usize, j as usize)
    }

    /// The greatest sum of the delays on a way from the operation at place `i` of the trace to its end, in words; 0 where
    /// no later operation has to stand behind it. It takes no memory.
    pub fn height(&self, i: u32) -> u32
        ensures { result ≡ height_in self.now i }
    {
        height_at(self.heights.as_slice(), i as usize)
    }

    /// The operations that the one at place `j` of the trace has to stand behind, each with the delay; none where no
    /// operation stands there. It takes no memory.
    #[tactic(auto, using(crate::proofs::Kept::earlier_are))]
    pub fn earlier(&self, j: u32) -> &[Earlier]
        ensures { (m : Numbers) (mode : Mode) (t : Trace) → IsDeps m mode t self.now → AreEarlier m mode t j j result.now }
    {
        list_at(self.earlier.as_slice(), j as usize)
    }
}
