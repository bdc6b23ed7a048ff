// Laws of the definitions, each the clause of a function that does nothing.

ghost use Rattle.vx_flow.specs.Laws.{GraphRunIsSteady, HopsLeaveAlike, SoundLeadsWithin};

/// The run of a flow is steady: with a larger bound what does not go on stays, and the output only grows.
#[tactic(auto, using(crate::proofs::RunLaws::graph_run_steady))]
pub fn graph_run_is_steady()
    ensures { GraphRunIsSteady }
{}

/// The exits of a sound graph lead to blocks of it, so that its back edges and headers may be asked for.
#[tactic(auto, using(crate::proofs::SoundLeads::sound_leads_within))]
pub fn sound_graph_leads_within()
    ensures { SoundLeadsWithin }
{}

/// Where two states agree on what is live at a block, the block leaves them alike: by the same edge, call, return or trap,
/// with states that agree on what is live there. Where the first has no meaning nothing is said.
#[tactic(auto, using(crate::proofs::HopsAlike::hops_leave_alike))]
pub fn hops_leave_alike()
    ensures { HopsLeaveAlike }
{}
