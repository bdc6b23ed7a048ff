// Laws of the answers: the functions do nothing, and their clauses are the laws.

ghost use Rattle.vx_commands.specs.Always.{NoStatusIsAlways, NoStatusOfSoakIsAlways};
ghost use Rattle.vx_commands.specs.Passing.{CompiledPasses};

/// For each command that reads a file, and each number of a status but that of want of memory, there are files over which the command
/// may not be answered by a status of that number: a body that always gives one meets the clauses of the top call for no such command.
#[tactic(auto, using(crate::proofs::Always::no_status_is_always))]
pub fn no_status_is_always()
    ensures { NoStatusIsAlways }
{}

/// Nor is one of `soak`, which reads no file: without boxes it asks in vain for its timing, and with that one it does not.
#[tactic(auto, using(crate::proofs::Always::no_status_of_soak_is_always))]
pub fn no_status_of_soak_is_always()
    ensures { NoStatusOfSoakIsAlways }
{}

/// Words that `compile` gives for a machine pass the check for it: `check` answers that they are strict, or that memory is wanted.
pub fn compiled_passes()
    ensures { CompiledPasses }
{}
