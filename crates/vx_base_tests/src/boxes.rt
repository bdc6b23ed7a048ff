// The probe that counts words, and the two timings.

use vx_probe::{Early, Event, Late, Probe, Timing, WordCount};

const EVENT: Event = Event {
    place: 7,
    cycle: 3,
    alu: 1,
    multiply: 0,
    memory: 0,
    copy: 0,
    control: 0,
    taken: false,
};

#[test]
fn words_and_cycles_are_counted(rt: HostRuntime) {
    let mut count = WordCount::make();
    count.see(&EVENT);
    let mut line = [0u8; 80];
    let length = count.report(&mut line);
    assert_eq!(rt; &line[..length], b"words 1 cycles 4".as_slice());
    assert_eq!(rt; count.name(), "words");
}

#[test]
fn results_land_within_the_latency(rt: HostRuntime) {
    let mut late = Late::make();
    let mut early = Early::make();
    assert!(rt; late.lands(2) == 2 && late.lands(16) == 16 && early.lands(8) == 1);
    assert!(rt; late.name() == "late" && early.name() == "early");
}
