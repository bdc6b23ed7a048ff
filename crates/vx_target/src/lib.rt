// What a finished program is: where values, frames and words are (specs/Target.antt), which words stand for a word of a layout (they
// carry it), and when two states are tied (they hold the same values). The laws of vx_tie and the code of vx_frame meet here.
#![tactic(auto)]

pub mod finished;
