// The rows of a file, and the steps of a row, with what holds for each.

use crate::sheet::{
    Boxes, Faulty, Statement, Stream, Topic, What, before_call, before_row, calls_at_front,
    first_on,
};
use crate::why::{Misread, Why};

/// The room of the outputs where nothing is said.
const OUT_ROOM: usize = 1_000_000;

const ERR_ROOM: usize = 100_000;

/// A row.
#[derive(Clone, Copy)]
pub struct Row<'a> {
    /// The number of its first line.
    pub line: usize,
    /// Its name.
    pub name: &'a str,
    /// What is said before the first row of the file.
    pub common: &'a [Statement],
    /// What is said in the row itself.
    pub own: &'a [Statement],
}

/// The rows that are not handed out yet.
#[derive(Clone, Copy)]
pub struct Rows<'a> {
    common: &'a [Statement],
    rest: &'a [Statement],
}

impl<'a> Rows<'a> {
    /// The rows of a file.
    pub(crate) fn make(statements: &'a [Statement]) -> Rows<'a> {
        let (common, rest) = before_row(statements);
        Rows { common, rest }
    }

    /// The next row.
    pub(crate) fn next_row(&mut self) -> Option<Row<'a>> {
        let (first, others) = self.rest.split_first()?;
        let (own, rest) = before_row(others);
        self.rest = rest;
        Some(Row {
            line: first.line,
            name: row_name(&first.what),
            common: self.common,
            own,
        })
    }
}

/// The name of a row.
fn row_name(what: &What) -> &str {
    match what {
        What::Row(name) => name.as_str(),
        _ => "",
    }
}

/// A file behind the last call, if there is one.
fn late_file(statements: &[Statement]) -> Option<usize> {
    let mut late = None;
    for statement in statements {
        if statement.what.is_call() {
            late = None;
        } else if statement.what.is_file() {
            late = Some(statement.line);
        }
    }
    late
}

impl<'a> Row<'a> {
    /// Whether the calls are its own, and not those of the common part.
    fn has_calls(&self) -> bool {
        has_call(self.own)
    }

    /// Whether it is a row that can be run.
    pub(crate) fn check(&self) -> Result<(), Misread> {
        if self.has_calls() {
            return match late_file(before_call(self.own).1) {
                Some(line) => Err(Misread {
                    line,
                    why: Why::LateFile,
                }),
                None => Ok(()),
            };
        }
        if has_call(self.common) {
            return Ok(());
        }
        Err(Misread {
            line: self.line,
            why: Why::NoCall,
        })
    }

    /// What of it holds before its first call: the files that stand there are those that its first step finds.
    pub(crate) fn head(&self) -> &'a [Statement] {
        before_call(self.own).0
    }

    /// Its steps.
    pub(crate) fn steps(&self) -> Steps<'a> {
        let is_own = self.has_calls();
        let (head, rest) = before_call(if is_own { self.own } else { self.common });
        Steps {
            row: *self,
            is_own,
            head,
            rest,
        }
    }
}

/// Whether there is a call among statements.
fn has_call(statements: &[Statement]) -> bool {
    statements.iter().any(|statement| statement.what.is_call())
}

/// The steps that are not handed out yet.
#[derive(Clone, Copy)]
pub struct Steps<'a> {
    row: Row<'a>,
    is_own: bool,
    head: &'a [Statement],
    rest: &'a [Statement],
}

/// Calls that stand side by side, and what holds for them.
#[derive(Clone, Copy)]
pub struct Step<'a> {
    /// The calls.
    pub calls: &'a [Statement],
    /// The files that are put behind its last call, before the next step's first.
    pub behind: &'a [Statement],
    /// What is said closest to the calls. What is said of a topic here holds over what is said of it elsewhere.
    pub near: &'a [Statement],
    /// What is said further off. It holds over what is said of a topic for all.
    pub far: &'a [Statement],
    /// What is said for all.
    pub all: &'a [Statement],
    /// What is said in the row itself.
    own: &'a [Statement],
}

impl<'a> Steps<'a> {
    /// At least as many as there are steps left.
    pub(crate) fn most(&self) -> usize {
        self.rest.len()
    }

    /// The next step.
    pub(crate) fn next_step(&mut self) -> Option<Step<'a>> {
        if self.rest.is_empty() {
            return None;
        }
        let (calls, others) = calls_at_front(self.rest);
        let (said, rest) = before_call(others);
        self.rest = rest;
        let own = self.row.own;
        if self.is_own {
            return Some(Step {
                calls,
                behind: said,
                near: said,
                far: self.head,
                all: self.row.common,
                own,
            });
        }
        let last: &[Statement] = if rest.is_empty() { own } else { &[] };
        Some(Step {
            calls,
            behind: &[],
            near: last,
            far: said,
            all: self.head,
            own,
        })
    }
}

impl<'a> Step<'a> {
    /// What is said of a topic near or far, but not for all.
    fn said(&self, topic: Topic<'_>) -> Option<&'a Statement> {
        match first_on(self.near, topic) {
            Some(statement) => Some(statement),
            None => first_on(self.far, topic),
        }
    }

    /// What is said of a topic that a call finds.
    fn found(&self, topic: Topic<'_>) -> Option<&'a Statement> {
        match self.said(topic) {
            Some(statement) => Some(statement),
            None => first_on(self.all, topic),
        }
    }

    /// What is said of a topic that a call leaves. What is said before the first row holds only where the row says
    /// nothing of the topic.
    pub(crate) fn wanted(&self, topic: Topic<'_>) -> Option<&'a Statement> {
        match self.said(topic) {
            Some(statement) => Some(statement),
            None => match first_on(self.own, topic) {
                Some(_) => None,
                None => first_on(self.all, topic),
            },
        }
    }

    /// Whether a statement is the one that holds of its topic.
    pub(crate) fn holds(&self, statement: &Statement) -> bool {
        match self.wanted(statement.what.topic()) {
            Some(other) => other.line == statement.line,
            None => false,
        }
    }

    /// The boxes that are handed in.
    pub(crate) fn boxes(&self) -> Boxes {
        match self.found(Topic::Boxes) {
            Some(statement) => match &statement.what {
                What::Hands(boxes) => *boxes,
                _ => ALL_BOXES,
            },
            None => ALL_BOXES,
        }
    }

    /// The calls that fail.
    pub(crate) fn failing(&self, faulty: Faulty) -> &'a [u64] {
        match self.found(Topic::Fails(faulty)) {
            Some(statement) => match &statement.what {
                What::Fails(_, numbers) => numbers.as_slice(),
                _ => &[],
            },
            None => &[],
        }
    }

    /// The room of an output.
    pub(crate) fn room(&self, stream: Stream) -> usize {
        match self.found(Topic::Room(stream)) {
            Some(statement) => match &statement.what {
                What::Room(_, room) => *room,
                _ => usual_room(stream),
            },
            None => usual_room(stream),
        }
    }

    /// The name that keeps the output.
    pub(crate) fn kept(&self) -> Option<&'a str> {
        match self.found(Topic::Keeps) {
            Some(statement) => match &statement.what {
                What::Keeps(name) => Some(name.as_str()),
                _ => None,
            },
            None => None,
        }
    }

    /// The status that is wanted.
    pub(crate) fn status(&self) -> u8 {
        match self.wanted(Topic::Status) {
            Some(statement) => match &statement.what {
                What::Ends(number) => *number,
                _ => 0,
            },
            None => 0,
        }
    }
}

/// The boxes where nothing is said.
const ALL_BOXES: Boxes = Boxes {
    late: true,
    early: true,
    cyclic: true,
    units: true,
    words: true,
};

/// The room of an output where nothing is said.
fn usual_room(stream: Stream) -> usize {
    match stream {
        Stream::Out => OUT_ROOM,
        Stream::Err => ERR_ROOM,
    }
}
