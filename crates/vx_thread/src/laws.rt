// The law of edges that go past tests, the clause of a function that does nothing.

ghost use Rattle.vx_thread.specs.Threading.{ThreadedStays};

/// A flow of a program stays one where blocks are copied and the copies narrowed.
pub fn threaded_stays()
    ensures { ThreadedStays }
{}
