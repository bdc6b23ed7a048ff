// The tokens of a source, read from the left in one loop. What they are is specs/Tokens.antt of vx_ast; each
// kind of piece has a file of its own here, which says exactly what stands first in a text.
#![tactic(auto)]

pub mod byte;
pub mod comment;
pub mod mark;
pub mod number;
pub mod piece;
pub mod quoted;
pub mod scanner;
pub mod word;

pub use scanner::tokens;
