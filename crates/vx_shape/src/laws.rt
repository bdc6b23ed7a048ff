// The law of the test of shapes, the clause of a function that does nothing.

ghost use Rattle.vx_shape.specs.ShapeTest.{ShapedWhereTested};

/// A graph that passes the test has its shape.
pub fn shaped_where_tested()
    ensures { ShapedWhereTested }
{}
