// Laws of the definitions, each the clause of a function that does nothing.

ghost use Rattle.vx_linear.specs.Amounts.{AmountLaw};
ghost use Rattle.vx_linear.specs.InOrder.{NeverLaw};

/// Two accesses of a trace whose forms never name one word touch no common word of memory, whatever the values, the
/// memory and the input are when the trace begins, and also where it begins at one of its joins. The forms are those of
/// `forms`, and `differs` tells where they never name one word.
pub fn never_touch_one_word()
    ensures { NeverLaw }
{}

/// Sums of symbols amount to what numbers do: those of a sum, a difference and a product by a number are the sum, the difference and
/// the product of theirs, modulo 2^32, whatever numbers the symbols have.
pub fn sums_amount_to_numbers()
    ensures { AmountLaw }
{}
