// A file of rows as the list of its statements, and what a statement speaks of.

/// One of the two outputs of a call.
#[derive(Clone, Copy, PartialEq, Eq)]
pub enum Stream {
    /// The output.
    Out,
    /// The errors.
    Err,
}

/// What may be told to fail.
#[derive(Clone, Copy, PartialEq, Eq)]
pub enum Faulty {
    /// The calls of the depot.
    Depot,
    /// The puts of an output.
    Sink(Stream),
}

/// The boxes that are handed in.
#[derive(Clone, Copy, PartialEq, Eq)]
pub struct Boxes {
    /// The timing `late`.
    pub late: bool,
    /// The timing `early`.
    pub early: bool,
    /// The timing `cyclic` of the numbers 1, 2 and 3.
    pub cyclic: bool,
    /// The probe `units`.
    pub units: bool,
    /// The probe `words`.
    pub words: bool,
}

/// What a line that is no content says.
#[derive(Drop)]
pub enum What {
    /// A row of this name begins.
    Row(String),
    /// A call with these words, the program's name first.
    Call(Vec<String>),
    /// A file of this name before the call.
    File(String),
    /// The boxes that are handed in.
    Hands(Boxes),
    /// The calls, from 1, that fail.
    Fails(Faulty, Vec<u64>),
    /// How many bytes an output takes.
    Room(Stream, usize),
    /// The status that the call ends with.
    Ends(u8),
    /// What stands on an output behind the call.
    Puts(Stream),
    /// What stands under this name behind the call.
    After(String),
    /// No file of this name is there behind the call.
    Missing(String),
    /// A file of this name is there behind the call.
    There(String),
    /// What the call puts on its output is what stands under this name, and is put there where nothing stands.
    Keeps(String),
}

/// What may stand behind the bytes of a line of content, beside what the next one gives.
#[derive(Clone, Copy, PartialEq, Eq)]
pub enum Behind {
    /// Nothing.
    Nothing,
    /// Anything up to the end of the line.
    Line,
    /// A number up to the end of the line, and none that is less.
    Number(u32),
    /// Any lines, none too. At the end of content it is anything.
    Lines,
}

/// A line's worth of content.
#[derive(Drop)]
pub struct Piece {
    /// Its bytes.
    pub bytes: Vec<u8>,
    /// What may stand behind them.
    pub behind: Behind,
}

/// A line that is no content, with the content behind it.
#[derive(Drop)]
pub struct Statement {
    /// The number of the line, from 1.
    pub line: usize,
    /// What it says.
    pub what: What,
    /// Its content.
    pub content: Vec<Piece>,
}

/// What a statement speaks of. Of two statements on the same thing one holds.
#[derive(Clone, Copy, PartialEq, Eq)]
pub enum Topic<'a> {
    /// A row, a call or a file before the call: each is for itself.
    Own,
    /// The boxes.
    Boxes,
    /// What fails.
    Fails(Faulty),
    /// The room of an output.
    Room(Stream),
    /// The status.
    Status,
    /// What stands on an output.
    Puts(Stream),
    /// What is there under a name behind the call.
    Named(&'a str),
    /// The name that keeps the output.
    Keeps,
}

impl What {
    /// What it speaks of.
    pub(crate) fn topic(&self) -> Topic<'_> {
        match self {
            What::Row(_) | What::Call(_) | What::File(_) => Topic::Own,
            What::Hands(_) => Topic::Boxes,
            What::Fails(faulty, _) => Topic::Fails(*faulty),
            What::Room(stream, _) => Topic::Room(*stream),
            What::Ends(_) => Topic::Status,
            What::Puts(stream) => Topic::Puts(*stream),
            What::After(name) | What::Missing(name) | What::There(name) => {
                Topic::Named(name.as_str())
            }
            What::Keeps(_) => Topic::Keeps,
        }
    }

    /// Whether content may stand behind it.
    pub(crate) fn has_content(&self) -> bool {
        matches!(self, What::File(_) | What::Puts(_) | What::After(_))
    }

    /// Whether it is a row's beginning.
    pub(crate) fn is_row(&self) -> bool {
        matches!(self, What::Row(_))
    }

    /// Whether it is a call.
    pub(crate) fn is_call(&self) -> bool {
        matches!(self, What::Call(_))
    }

    /// Whether it is a file before the call.
    pub(crate) fn is_file(&self) -> bool {
        matches!(self, What::File(_))
    }
}

/// Whether a piece is `...`.
fn is_gap(piece: &Piece) -> bool {
    matches!(piece.behind, Behind::Lines)
}

/// The pieces before the first `...`, and those from it on.
pub(crate) fn before_gap(content: &[Piece]) -> (&[Piece], &[Piece]) {
    let count = content.iter().take_while(|piece| !is_gap(piece)).count();
    content.split_at(count)
}

/// The first statement on a topic.
pub(crate) fn first_on<'a>(statements: &'a [Statement], topic: Topic<'_>) -> Option<&'a Statement> {
    for statement in statements {
        if statement.what.topic() == topic {
            return Some(statement);
        }
    }
    None
}

/// The statements before the first row, or before the next one.
pub(crate) fn before_row(statements: &[Statement]) -> (&[Statement], &[Statement]) {
    let count = statements
        .iter()
        .take_while(|statement| !statement.what.is_row())
        .count();
    statements.split_at(count)
}

/// The statements before the first call, and those from it on.
pub(crate) fn before_call(statements: &[Statement]) -> (&[Statement], &[Statement]) {
    let count = statements
        .iter()
        .take_while(|statement| !statement.what.is_call())
        .count();
    statements.split_at(count)
}

/// The calls at the front, and what stands behind them.
pub(crate) fn calls_at_front(statements: &[Statement]) -> (&[Statement], &[Statement]) {
    let count = statements
        .iter()
        .take_while(|statement| statement.what.is_call())
        .count();
    statements.split_at(count)
}
