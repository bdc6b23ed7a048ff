// Laws of facts, each the clause of a function that does nothing. What is known at a point of a function, facts on its values and
// accesses of its arrays, describes a set of states; what vx_claims answers behind it describes those that come of them (Cousot and
// Cousot, 1977).

ghost use Rattle.vx_fact_laws.specs.FactLaws.{AccessLaw, BehindLaw, BlockLaw, DecidedLaw, EnteredLaw, EntryLaw, FormLaw, GivenLaw, NeverLaw, RangeLaw, ReturnLaw, ReturnedLaw, ShortenedLaw, SideLaw};

/// What describes the state before an operation makes what is told behind it describe the state behind it.
pub fn facts_hold_behind_operations()
    ensures told { BehindLaw }
    ensures accesses { AccessLaw }
{}

/// So it does behind all operations of a block.
pub fn facts_hold_behind_blocks()
    ensures { BlockLaw }
{}

/// On the side that the test of a split takes, what is told there describes the state.
pub fn facts_hold_on_sides()
    ensures { SideLaw }
{}

/// Where each argument of a call lies by the facts in the interval of its place, the parameters lie there at the entry; behind the
/// call those facts hold that do not name its result. So both describe the states there, with nothing known of arrays.
pub fn facts_hold_over_calls()
    ensures entry { EntryLaw }
    ensures entered { EnteredLaw }
    ensures back { ReturnLaw }
    ensures returned { ReturnedLaw }
{}

/// A claim that facts give describes each state that they describe; facts that say that no run comes there describe none.
pub fn given_claims_hold()
    ensures given { GivenLaw }
    ensures never { NeverLaw }
{}

/// An operand lies where the facts say, and has the low bits that they say.
pub fn operands_lie_where_facts_say()
    ensures { RangeLaw }
{}

/// A test that facts decide comes out so.
pub fn decided_tests_come_out_so()
    ensures { DecidedLaw }
{}

/// In the form that facts give it an operation does what it did; so it does where it stands for several.
pub fn forms_do_the_same()
    ensures form { FormLaw }
    ensures shortened { ShortenedLaw }
{}
