// What is asked of a program before its words are planned.

ghost use Rattle.std.proofs.Props.{props};
ghost use Rattle.std.specs.Prelude.{◌≤◌, IfSome};

/// What is asked of a program before its words are planned.
#[derive(Clone, Copy)]
pub struct Rewriting {
    /// How many turns of a loop are taken together, from 2 to 8; nothing where each stays by itself.
    pub unroll: Option<u32>,
    /// How many operations a callee may have whose calls are inlined, from 1 to 4,000; nothing where each call stays.
    pub inline: Option<u32>,
    /// How many operations the two sides of a split may have that become choices, from 1 to 16; nothing where each split stays.
    pub select: Option<u32>,
    pub ghost turns: { IfSome unroll (λ k. (2 ≤ k) × (k ≤ 8)) } by { Prim.hlevel props },
    pub ghost callees: { IfSome inline (λ most. (1 ≤ most) × (most ≤ 4000)) } by { Prim.hlevel props },
    pub ghost sides: { IfSome select (λ most. (1 ≤ most) × (most ≤ 16)) } by { Prim.hlevel props },
}
