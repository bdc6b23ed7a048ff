// What parameters take, by their places.

ghost use Rattle.std.specs.Prelude.{◌≡◌, drop};
ghost use Rattle.vx_types.specs.Arguments.{first_taken};

use vx_ast::tree::Takes;

/// What the parameter at a place takes: behind the last one a number.
pub fn taken_at(takes: &[Takes], place: usize) -> Takes
    ensures { result ≡ first_taken (drop place takes.now) }
{
    match takes.get(place) {
        Some(taken) => *taken,
        None => Takes::Number,
    }
}
