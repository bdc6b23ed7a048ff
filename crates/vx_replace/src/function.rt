// The graph of a function of which some blocks are words already, as callers hold it: with the list of its edges, which is
// kept beside it so that it can be given without memory.

ghost use Rattle.std.specs.Prelude.{◌≡◌, ◌==◌, ◌<◌, ℕ, true, IfOk, OnErr, OnOk, length, slice_get};
ghost use Rattle.std.specs.List.{list_any};
ghost use Rattle.std.specs.Option.{option_map};
ghost use Rattle.vx_flow.specs.Sound.{is_sound};
ghost use Rattle.vx_mixed.specs.CanReplace.{AwayFits, HomesFit, IsFormed, ListsFit, MadeFits, MadeStands, NamesFit, TraceFits, WordsFit};
ghost use Rattle.vx_mixed.specs.Edges.{EdgesOf};
ghost use Rattle.vx_mixed.specs.FromGraph.{FromGraph, origin_edge, same_edge, unused_in};
ghost use Rattle.vx_mixed.specs.TraceOf.{CanTrace, IsTraceOf};
ghost use Rattle.vx_mixed.specs.Next.{next_mixed};
ghost use Rattle.vx_mixed.specs.Routes.{live_values};
ghost use Rattle.vx_mixed.specs.Valid.{CanBegin, Valid};
ghost use Rattle.vx_replace.specs.TraceLists.{LiveAtSplits};

use crate::begun_lists::{begun_blocks, told_values};
use crate::edges::is_edge_among;
use crate::nodes::is_among;
use crate::replacement::replace_trace;
use crate::trace::{trace_of, trace_with, unused_at};
use std::alloc::Global;
use std::marker::Model;
use vx_base::listed::Listed;
use vx_base::outcome::NoMemory;
use vx_flow::graph::{Block, BlockId, Edge, Graph};
use vx_flow::laws::sound_graph_leads_within;
use vx_flow::live_rows::Live;
use vx_flow::trace::{Homes, Trace};
use vx_flow::{back_edges, headers};
use vx_mixed::mixed::MixedGraph;
use vx_mixed::replacement::Replacement;

/// The graph of a function of which some blocks are words already and others are blocks still. In a contract it is the
/// graph alone.
#[derive(Drop)]
pub struct Mixed {
    graph: MixedGraph,
    edges: Listed<Edge>,
}

impl Model for Mixed {
    ghost use Rattle.vx_mixed.specs.declared.mixed.MixedGraph.{MixedGraph};
    ghost use Rattle.vx_mixed.specs.Edges.{EdgesOf};
    ghost use Rattle.vx_mixed.specs.Valid.{Valid};

    ghost Value = { MixedGraph };

    ghost view = { λ m. m.graph };

    ghost invariant = { λ m. EdgesOf m.graph m.edges × Valid m.graph };
}

impl Mixed {
    /// The blocks of a sound graph, and no regions, as function 0. Of the values those stand on cluster 0 that a choice by
    /// a branch value writes, or that come from the input. No edge of the graph may go to block 0, the targets of a split
    /// differ, and no edge goes from a block with two successors to one with two predecessors.
    pub fn from_graph(alloc: Global, graph: &Graph) -> Result<Mixed, NoMemory>
        requires sound { is_sound graph.now ≡ true }
        requires begins { CanBegin graph.now }
        ensures { IfOk result (λ mixed. FromGraph graph.now mixed) }
    {
        sound_graph_leads_within();
        let back = Listed::from_vec(back_edges(alloc, graph)?)?;
        let headers = Listed::from_vec(headers(alloc, graph)?)?;
        let begun = begun_blocks(alloc, graph.blocks.as_slice())?;
        let told = told_values(alloc, graph)?;
        let graph = MixedGraph {
            function: 0,
            nodes: begun.nodes,
            regions: Listed::new(alloc),
            origins: begun.origins,
            headers,
            back,
            banks: told.banks,
            parameters: told.parameters,
            arrays: told.arrays,
            homes: Homes {
                clusters: told.clusters,
            },
        };
        Ok(Mixed {
            graph,
            edges: begun.edges,
        })
    }

    /// What holds of such a graph at all times. It does nothing.
    pub fn keeps_valid(&self)
        ensures { Valid self.now }
    {
        let _function = self.graph.function;
    }

    /// The graph alone. It takes no memory, as none of the calls up to `homes` does.
    pub fn graph(&self) -> &MixedGraph
        ensures { result.now ≡ self.now }
    {
        &self.graph
    }

    /// The number of the function in the program.
    pub fn function(&self) -> u32
        ensures { result ≡ self.now.function }
    {
        self.graph.function
    }

    /// How many blocks there are, the made ones included.
    pub fn blocks(&self) -> u32
        ensures { result ≡ length self.now.nodes }
    {
        self.graph.nodes.len() as u32
    }

    /// The block, where it is in no region; `None` where it is in one.
    pub fn unused(&self, block: BlockId) -> Option<&Block>
        requires { block < length self.now.nodes }
        ensures { option_map (λ found. found.now) result ≡ unused_in (slice_get self.now.nodes block) }
    {
        unused_at(&self.graph, block)
    }

    /// Every edge, those that leave regions included, ascending by their numbers.
    pub fn edges(&self) -> &[Edge]
        ensures { EdgesOf self.now result.now }
    {
        self.edges.as_slice()
    }

    /// The edge on which a block was made; `None` where it is a block of the function's graph.
    pub fn made_on(&self, block: BlockId) -> Option<Edge>
        requires { block < length self.now.nodes }
        ensures { result ≡ origin_edge (slice_get self.now.origins block) }
    {
        match self.graph.origins.as_slice().get(block as usize) {
            Some(Some(origin)) => Some(origin.edge),
            Some(None) => None,
            None => None,
        }
    }

    /// Whether the block is a header of the function's graph.
    pub fn is_header(&self, block: BlockId) -> bool
        requires { block < length self.now.nodes }
        ensures { result ≡ list_any (λ header. header == block) self.now.headers }
    {
        is_among(self.graph.headers.as_slice(), block)
    }

    /// Whether the edge is a back edge of the function's graph.
    pub fn is_back(&self, edge: Edge) -> bool
        ensures { result ≡ list_any (λ back. same_edge back edge) self.now.back }
    {
        is_edge_among(self.graph.back.as_slice(), edge)
    }

    /// The clusters on which values stand so far.
    pub fn homes(&self) -> &Homes
        ensures { result.now ≡ self.now.homes }
    {
        &self.graph.homes
    }

    /// The trace of these blocks: their operations in order, each split with the values that are live where it leaves, the
    /// clusters of copies, and the joins. There must be at least one block; each must be in no region and stand once; they
    /// must follow each other along edges that are no calls; and any other edge between them must go to the first.
    pub fn trace(&self, alloc: Global, blocks: &[BlockId]) -> Result<Trace, NoMemory>
        requires { CanTrace self.now blocks.now }
        ensures { IfOk result (λ trace. IsTraceOf self.now blocks.now trace) }
    {
        trace_of(alloc, &self.graph, self.edges.as_slice(), blocks)
    }

    /// The same, where these values are live at the ends of the edges by which its splits leave.
    pub fn trace_with(
        &self,
        alloc: Global,
        live: &Live,
        blocks: &[BlockId],
    ) -> Result<Trace, NoMemory>
        requires { LiveAtSplits self.now blocks.now (live_values live.now) }
        ensures { IfOk result (λ trace. IsTraceOf self.now blocks.now trace) }
    {
        trace_with(alloc, &self.graph, self.edges.as_slice(), live, blocks)
    }

    /// A trace becomes a region, and blocks are made of the copies on its edges. The trace must be that of its blocks, but for
    /// copies of values between clusters; specs/CanReplace.antt of vx_mixed says what is asked of the rest. Without memory, or where there
    /// would be 2^32 blocks or more, the graph stays as it was.
    pub fn replace(&mut self, alloc: Global, replacement: Replacement) -> Result<(), NoMemory>
        requires trace { TraceFits self.old replacement }
        requires formed { IsFormed replacement.trace }
        requires names { NamesFit self.old replacement }
        requires lists { ListsFit replacement }
        requires words { WordsFit replacement }
        requires made { MadeFits replacement }
        requires stand { MadeStands self.old replacement }
        requires homes { HomesFit self.old replacement }
        requires away { AwayFits self.old replacement }
        ensures next { OnOk result (self.new ≡ next_mixed self.old replacement) }
        ensures unchanged { OnErr result (self.new ≡ self.old) }
    {
        let mut replacement = replacement;
        let replaced = replace_trace(alloc, &mut self.graph, &mut self.edges, &mut replacement);
        drop(replacement);
        replaced
    }

    /// Gives the function its number in the program.
    pub fn set_function(&mut self, function: u32)
        ensures { self.new ≡ record self.old { function = function } }
    {
        self.graph.function = function;
    }
}
