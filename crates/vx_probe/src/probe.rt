// What watches a run: the trait of every probe, the count of words, and that of the operations of each kind. A probe means
// a list of numbers, a step, which the list takes at each event, and a text of each list.

ghost use Rattle.std.specs.Prelude.{◌≡◌, ◌+◌, ◌≤◌, ◌++◌, ℕ, List, [], ◌∷◌, min, length, take, codes, decimal};
ghost use Rattle.vx_probe.specs.Watch.{Watch, shown, report_of};
ghost use Rattle.vx_probe.specs.Counts.{count_watch, units_watch};

use crate::event::Event;
use itoa::Buffer;

/// A probe: it is shown each word that took effect, and reports at the end.
pub trait Probe: Drop {
    /// Its numbers, its step and its text.
    ghost watch: { Self → Watch };

    /// The bytes of its name.
    ghost called: { Self → List ℕ };

    /// Its name, by which it is asked for.
    fn name(&self) -> &str
        ensures { result.now ≡ called self.now };

    /// Takes notice of a word that took effect.
    fn see(&mut self, event: &Event)
        ensures sees { watch self.new ≡ shown (watch self.old) event.now }
        ensures name_stays { called self.new ≡ called self.old };

    /// Writes its text, at most 80 bytes, and answers how many bytes it has.
    fn report(&self, into: &mut [u8; 80]) -> usize
        ensures short { result ≤ 80 }
        ensures written { take result into.new ≡ report_of (watch self.now) };
}

/// Counts words, and cycles up to the one behind the last word's first. Each count stays at the greatest `u64`.
#[derive(Drop)]
pub struct WordCount {
    words: u64,
    cycles: u64,
}

impl WordCount {
    /// The counts of no word.
    pub fn make() -> WordCount
        ensures { ⟦<WordCount as Probe>⟧.watch result ≡ count_watch (0 ∷ 0 ∷ []) }
    {
        WordCount {
            words: 0,
            cycles: 0,
        }
    }
}

impl Probe for WordCount {
    ghost watch = { λ count. count_watch (count.words ∷ count.cycles ∷ []) };

    ghost called = { λ count. codes "words" };

    fn name(&self) -> &str {
        "words"
    }

    fn see(&mut self, event: &Event) {
        self.words = self.words.saturating_add(1);
        self.cycles = event.cycle.saturating_add(1);
    }

    fn report(&self, into: &mut [u8; 80]) -> usize {
        let place = append(into, 0, b"words ");
        let place = append_number(into, place, self.words);
        let place = append(into, place, b" cycles ");
        append_number(into, place, self.cycles)
    }
}

/// Sums up the operations of each kind: those of an ALU, a multiplier, a memory unit, a copy path and the control place.
/// Each sum stays at the greatest `u64`, and one of more than ten digits is reported as 9999999999.
#[derive(Drop)]
pub struct UnitUse {
    alu: u64,
    multiply: u64,
    memory: u64,
    copy: u64,
    control: u64,
}

impl UnitUse {
    /// The sums of no word.
    pub fn make() -> UnitUse
        ensures { ⟦<UnitUse as Probe>⟧.watch result ≡ units_watch (0 ∷ 0 ∷ 0 ∷ 0 ∷ 0 ∷ []) }
    {
        UnitUse {
            alu: 0,
            multiply: 0,
            memory: 0,
            copy: 0,
            control: 0,
        }
    }
}

impl Probe for UnitUse {
    ghost watch = { λ sums. units_watch (sums.alu ∷ sums.multiply ∷ sums.memory ∷ sums.copy ∷ sums.control ∷ []) };

    ghost called = { λ sums. codes "units" };

    fn name(&self) -> &str {
        "units"
    }

    fn see(&mut self, event: &Event) {
        self.alu = self.alu.saturating_add(u64::from(event.alu));
        self.multiply = self.multiply.saturating_add(u64::from(event.multiply));
        self.memory = self.memory.saturating_add(u64::from(event.memory));
        self.copy = self.copy.saturating_add(u64::from(event.copy));
        self.control = self.control.saturating_add(u64::from(event.control));
    }

    fn report(&self, into: &mut [u8; 80]) -> usize {
        let place = append(into, 0, b"units");
        let place = append_sum(into, place, self.alu);
        let place = append_sum(into, place, self.multiply);
        let place = append_sum(into, place, self.memory);
        let place = append_sum(into, place, self.copy);
        append_sum(into, place, self.control)
    }
}

/// Writes a space and a sum in at most ten digits from a place on, and answers the place behind them.
fn append_sum(into: &mut [u8; 80], place: usize, sum: u64) -> usize
    requires { place ≤ 60 }
    ensures behind { result ≤ place + 11 }
    ensures written { take result into.new ≡ take place into.old ++ codes " " ++ decimal (min sum 9999999999) }
{
    let behind = append(into, place, b" ");
    append_digits(into, behind, sum.min(9_999_999_999))
}

/// Writes a number of at most ten digits.
fn append_digits(into: &mut [u8; 80], place: usize, number: u64) -> usize
    requires room { place ≤ 70 }
    requires small { number ≤ 9999999999 }
    ensures behind { result ≤ place + 10 }
    ensures written { take result into.new ≡ take place into.old ++ decimal number }
{
    let mut buffer = Buffer::new();
    let digits = buffer.format(number);
    append(into, place, digits.as_bytes())
}

/// Writes bytes from a place on, and answers the place behind them.
fn append(into: &mut [u8; 80], place: usize, bytes: &[u8]) -> usize
    requires { place + length bytes.now ≤ 80 }
    ensures behind { result ≡ place + length bytes.now }
    ensures written { take result into.new ≡ take place into.old ++ bytes.now }
{
    let end = place + bytes.len();
    into[place..end].copy_from_slice(bytes);
    end
}

/// Writes a number in decimal from a place on, and answers the place behind it.
fn append_number(into: &mut [u8; 80], place: usize, number: u64) -> usize
    requires { place ≤ 60 }
    ensures behind { result ≤ place + 20 }
    ensures written { take result into.new ≡ take place into.old ++ decimal number }
{
    let mut buffer = Buffer::new();
    let digits = buffer.format(number);
    append(into, place, digits.as_bytes())
}
