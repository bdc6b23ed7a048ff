// When the results of operations land: the trait of every timing, the two timings at the ends, and that of a list. A
// timing means a nonempty list of numbers and a place in it.

ghost use Rattle.std.specs.Prelude.{◌≡◌, ◌<◌, ◌≤◌, ℕ, List, length, codes};
ghost use Rattle.vx_base.specs.Flight.{landing_time};
ghost use Rattle.vx_probe.specs.Times.{Times, list_of, moved_on, always, cycling};

/// A timing: it tells in how many cycles the result of an operation lands.
pub trait Timing: Drop {
    /// Its list and its place.
    ghost times: { Self → Times };

    /// The bytes of its name.
    ghost named: { Self → List ℕ };

    /// Its name, by which it is asked for.
    fn name(&self) -> &str
        ensures { result.now ≡ named self.now };

    /// The number at the place, cut to 1 to the latency. The place moves on, cyclically, and the list stays.
    fn lands(&mut self, latency: u32) -> u32
        requires { 1 ≤ latency }
        ensures number { result ≡ landing_time (list_of (times self.old)) (times self.old).place latency }
        ensures moves_on { times self.new ≡ moved_on (times self.old) }
        ensures name_stays { named self.new ≡ named self.old };
}

/// Every result lands as late as its latency lets it: the list of the one number 16, the greatest latency.
#[derive(Drop)]
pub struct Late;

/// Every result lands one cycle after its issue: the list of the one number 1.
#[derive(Drop)]
pub struct Early;

/// Results land by the numbers of a list, one after the other, and behind the last by the first again.
#[derive(Drop)]
pub struct Cyclic {
    list: Vec<u32>,
    /// The place of the number that comes next, from 0.
    place: usize,
    ghost some: { 0 < length list.items },
    ghost inside: { place < length list.items },
}

impl Late {
    /// The timing, at its first number.
    pub fn make() -> Late
        ensures { ⟦<Late as Timing>⟧.times result ≡ always 16 }
    {
        Late
    }
}

impl Early {
    /// The timing, at its first number.
    pub fn make() -> Early
        ensures { ⟦<Early as Timing>⟧.times result ≡ always 1 }
    {
        Early
    }
}

impl Cyclic {
    /// The timing of a list that is not empty, at its first number. It takes no memory.
    pub fn make(list: Vec<u32>) -> Cyclic
        requires { 0 < length list.items }
        ensures list { list_of (⟦<Cyclic as Timing>⟧.times result) ≡ list.items }
        ensures first { (⟦<Cyclic as Timing>⟧.times result).place ≡ 0 }
    {
        Cyclic { list, place: 0 }
    }
}

impl Timing for Late {
    ghost times = { λ late. always 16 };

    ghost named = { λ late. codes "late" };

    fn name(&self) -> &str {
        "late"
    }

    fn lands(&mut self, latency: u32) -> u32 {
        latency.min(16)
    }
}

impl Timing for Early {
    ghost times = { λ early. always 1 };

    ghost named = { λ early. codes "early" };

    fn name(&self) -> &str {
        "early"
    }

    fn lands(&mut self, latency: u32) -> u32 {
        1
    }
}

impl Timing for Cyclic {
    ghost times = { λ cyclic. cycling cyclic.list.items cyclic.place };

    ghost named = { λ cyclic. codes "cyclic" };

    fn name(&self) -> &str {
        "cyclic"
    }

    fn lands(&mut self, latency: u32) -> u32 {
        let number = self.list[self.place];
        self.place = (self.place + 1) % self.list.len();
        number.max(1).min(latency)
    }
}
