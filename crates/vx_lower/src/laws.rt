// Laws of the definitions, each the clause of a function that does nothing.

ghost use Rattle.vx_lower.specs.Lowered.{LoweringLaw};
ghost use Rattle.vx_lower.specs.LoweredGraphs.{SoundInWords};
ghost use Rattle.vx_lower.specs.Shape.{ShapeLaw};

/// Graphs that have the code of an accepted program do what the program does, on every input of 32-bit numbers, and
/// never what has no meaning.
pub fn lowering_law()
    ensures { LoweringLaw }
{}

/// A graph whose blocks are those of a well shaped one that was being made, with trap blocks behind them, is sound; its
/// splits lead two ways, no edge goes from a block with two successors to one with two predecessors, and none to block 0.
pub fn shape_law()
    ensures { ShapeLaw }
{}

/// A flow of a program is sound in words: each graph is sound, has a block and no parameter twice; what it calls and prints
/// is there; and its arrays begin with the globals. So it is behind each pass that keeps a flow of a program one.
#[tactic(auto, using(crate::proofs::FlowShaping::in_words))]
pub fn flow_is_sound()
    ensures { SoundInWords }
{}
