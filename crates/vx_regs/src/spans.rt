// The spans of values: the words from the first at which a value is busy to the last, and the file of registers in which it
// may have one. specs/Spans.antt says when values that have spans are kept apart.

/// The span of a value. Files are numbered: 0 has the branch registers, those behind it the general registers of cluster 0, of
/// cluster 1 and so on.
#[derive(Clone, Copy)]
pub struct Span {
    /// The number of the file.
    pub file: u32,
    /// The place of the first word.
    pub from: u32,
    /// The place of the last word.
    pub to: u32,
    /// The value.
    pub value: u32,
}
