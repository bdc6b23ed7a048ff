// Laws of what words that carry layouts do: the same as the layouts, by the plan. Each is the clause of a function that does nothing.

ghost use Rattle.vx_tie.specs.Moved.{StackLaw};
ghost use Rattle.vx_tie.specs.PlanLaws.{EmittedLaw, PlanLaw, TurnLaw};
ghost use Rattle.vx_tie.specs.Plans.{EntranceLaw, SpacedLaw};
ghost use Rattle.vx_tie.specs.Planned.{CallLaw, EntryLaw, PlannedLaw, SimpleLaw, StartLaw};
ghost use Rattle.vx_tie.specs.Returned.{ReturnLaw};
ghost use Rattle.vx_tie.specs.Whole.{WholeLaw};

/// Where the words of a program fit and stand where its target says, each planned word of a layout is carried by its words: all
/// operations on values, in the registers or slots where these are kept, and the splits with their landings. From tied states
/// both come to tied states; a split over registers goes past transfers, which are more steps over values.
pub fn planned_words_are_carried()
    ensures { PlannedLaw }
{}

/// So are drains, transfers, choices and ends: from tied states both come to tied states, or end alike. The `goto` of a transfer goes
/// past others; one that comes to the next place has no word, and neither has one empty cycle in front of a `goto`.
pub fn other_words_are_carried()
    ensures { SimpleLaw }
{}

/// And so is the start of a function: its link is stored in its frame where it calls, and parameters come to their registers;
/// where nothing is to be done, no word stands there.
pub fn starts_of_functions_are_carried()
    ensures { EntryLaw }
{}

/// The first words of a program come to a state that is tied to the start over values: the globals stand in memory, and the stack
/// pointers of all clusters begin the first frame.
pub fn starts_are_tied()
    ensures { StartLaw }
{}

/// The words that move the stack pointers add a number to each of them, and change nothing else.
pub fn stack_pointers_move()
    ensures { StackLaw }
{}

/// So is a call: what is live behind it is saved, the depth is tested, and its arguments are passed to the slots of the
/// parameters. One that is too deep ends both runs by the trap.
pub fn calls_are_carried()
    ensures { CallLaw }
{}

/// And so is a return: the result comes to where the caller keeps it, and what was saved is back. With no function waiting both
/// runs end with the result.
pub fn returns_are_carried()
    ensures { ReturnLaw }
{}

/// Together: with every input with which the laid-out words never fail, the words of the program end as they do and print what they
/// print, and are never stuck.
pub fn programs_do_the_same()
    ensures { WholeLaw }
{}

/// A program that is finished from spaced layouts carries its plan: at the place of each planned word stands a word with exactly its
/// operations, in their order, each on its cluster, with its numbers and the registers of its values. Every other word is of one of
/// some kinds: a load or store of the slot of a value that needs one, by way of a register of that value where it is a branch value, a
/// move, a step of a call among the words of a call, one of an entry, a return or the program's start among theirs, an end where a
/// layout ends or a call is too deep, empty cycles, or a jump to an entrance or to the empty cycles of a split's way out. And other words
/// without an operation, one behind the other, last at most 16 cycles together.
pub fn finished_programs_carry_their_plan()
    ensures { PlanLaw }
{}

/// And it is emitted: its functions stand in the order of their numbers, each with the words of its layout in their order and behind
/// them what follows the splits that store results, the trap of the depth behind all; no word of a part leads elsewhere in front of
/// that of the plan; slots and arrays have places of their own in a frame, and memory is the globals and the frames.
pub fn finished_programs_are_emitted()
    ensures { EmittedLaw }
{}

/// Each layout of a graph of regions is spaced: behind its empty cycles and behind its calls a word stands that is none of empty
/// cycles; and where a split leads stand empty cycles or a word that goes on at once.
pub fn layouts_are_spaced()
    ensures { SpacedLaw }
{}

/// The goto of a layout, which may stand in a planned word, leads to an entrance.
pub fn turns_lead_to_entrances()
    ensures { TurnLaw }
{}

/// The entrances of such a layout, which jumps of the program lead to, are where blocks of the graph are entered: starts of regions, and
/// words of regions to which an edge leads.
pub fn entrances_are_where_blocks_are_entered()
    ensures { EntranceLaw }
{}
