// A law of the definitions, as the clause of a function that does nothing.

ghost use Rattle.vx_sim.specs.Order.{OrderLaw};

/// Within each bound the word machine comes from a state to the same outcome by the same events as from that state with its
/// writes in flight listed by landing cycle, and then stands at the same state but for the order of those that land in
/// different cycles. So a run that goes on from where a call of the simulator stands is the run that it began.
pub fn order_law()
    ensures { OrderLaw }
{}
