// What commands ask of a compiler.

ghost use Rattle.std.specs.Prelude.{IfOk};
ghost use Rattle.vx_ast.specs.View as view;
ghost use Rattle.vx_lower.specs.FlowOf.{FlowOf};
ghost use Rattle.vx_rewrite.specs.Rewritten.{Rewritten};

use std::alloc::Global;
use vx_ast::typed::Typed;
use vx_base::outcome::NoMemory;
use vx_flow::graph::Flow;
use vx_rewrite::FlowOptions;

/// A compiler.
pub trait Compiler {
    /// The graphs of a program whose blocks a profile counts, as they are asked for.
    fn flow_of(
        &self,
        alloc: Global,
        program: &Typed,
        options: FlowOptions,
    ) -> Result<Flow, NoMemory>
        ensures flow { IfOk result (λ flow. FlowOf (view.program_of program.now.program) flow) }
        ensures rewritten { IfOk result (λ flow. Rewritten (view.program_of program.now.program) options.inline options.select flow) };
}
