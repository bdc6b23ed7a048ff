// What may be asked of the graphs of a program.

ghost use Rattle.std.proofs.Props.{props};
ghost use Rattle.std.specs.Prelude.{◌≤◌, IfSome};

/// What is asked of the graphs of a program before their words are planned.
#[derive(Clone, Copy)]
pub struct FlowOptions {
    /// How many operations a callee may have whose calls are inlined, from 1 to 4,000; nothing where each call stays.
    pub inline: Option<u32>,
    /// How many operations the two sides of a split may have that become choices, from 1 to 16; nothing where each split stays.
    pub select: Option<u32>,
    pub ghost callees: { IfSome inline (λ most. (1 ≤ most) × (most ≤ 4000)) } by { Prim.hlevel props },
    pub ghost sides: { IfSome select (λ most. (1 ≤ most) × (most ≤ 16)) } by { Prim.hlevel props },
}
