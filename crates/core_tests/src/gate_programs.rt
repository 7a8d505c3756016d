//! The programs that turn switches on and off.
ghost use Rattle.std.specs.Prelude.{◌≡◌, ◌+◌, ◌≤◌};

use esc_base::{GateWord, Leg, Sector, Tick};
use gate_driver::{AllOff, ChangeAt, Chop, Gates, Progress, ToSector};
use timer_regs::{Reg, Regs};

const A: u8 = 1;

const B: u8 = 2;

const C: u8 = 4;

/// The pairs of sectors 1 to 6: the high switch and the low one.
const PAIRS: [(u8, u8); 6] = [(A, B), (C, B), (C, A), (B, A), (B, C), (A, C)];

/// Tick 1000 of a period with a duty of 1500, and these switches on.
fn driven(hi: u8, lo: u8) -> Regs
    requires high { hi ≤ 7 }
    requires low { lo ≤ 7 }
    ensures count { result.accesses ≤ 3 }
    ensures now { result.time ≡ 1000 }
{
    let mut regs = Regs::new();
    regs.write(Reg::Duty, 1500);
    regs.write(Reg::GhSet, hi as u32);
    regs.write(Reg::GlSet, lo as u32);
    regs.advance(Tick(1000));
    regs
}

#[test]
fn all_go_off(rt: HostRuntime) {
    for hi in 0u8..8 {
        for lo in 0u8..8 {
            let mut regs = driven(hi, lo);
            let mut gates = Gates::new();
            let mut program = AllOff::new();
            assert_eq!(rt; program.step(&mut gates, &mut regs), Progress::More);
            assert_eq!(rt; regs.gates(), GateWord { hi: 0, lo });
            assert_eq!(rt; program.step(&mut gates, &mut regs), Progress::Done);
            assert_eq!(rt; regs.gates(), GateWord { hi: 0, lo: 0 });
            assert_eq!(rt;
                gates.high_free(Leg::B),
                Tick(if hi & B != 0 { 1048 } else { 0 })
            );
            assert_eq!(rt;
                gates.low_free(Leg::C),
                Tick(if lo & C != 0 { 1048 } else { 0 })
            );
        }
    }
}

/// A step that turns a switch on, asked for again at tick 1048 where it has to wait: until when, and the answer.
fn turned_on(program: &mut ToSector, gates: &mut Gates, regs: &mut Regs) -> (Option<Tick>, Progress)
    requires count { regs.old.accesses ≤ 100 }
    requires now { regs.old.time ≤ 1048 }
    ensures count { regs.new.accesses ≤ regs.old.accesses + 2 }
    ensures now { regs.new.time ≤ 1048 }
{
    match program.step(gates, regs) {
        Progress::Later(from) => {
            regs.advance(Tick(1048));
            (Some(from), program.step(gates, regs))
        }
        other => (None, other),
    }
}

/// The change to a sector from each word without a leg that has both switches on: the words after its writes.
#[test]
fn sectors_change(rt: HostRuntime) {
    for s in 1u8..7 {
        let (high, low) = PAIRS[s as usize - 1];
        for hi in 0u8..8 {
            for lo in 0u8..8 {
                if hi & lo != 0 {
                    continue;
                }
                let mut regs = driven(hi, lo);
                let mut gates = Gates::new();
                let mut program = ToSector::new(Sector(s));
                assert_eq!(rt; program.step(&mut gates, &mut regs), Progress::More);
                assert_eq!(rt; regs.gates(), GateWord { hi: hi & high, lo });
                assert_eq!(rt; program.step(&mut gates, &mut regs), Progress::More);
                assert_eq!(rt;
                    regs.gates(),
                    GateWord {
                        hi: hi & high,
                        lo: lo & low
                    }
                );
                assert_eq!(rt; program.step(&mut gates, &mut regs), Progress::More);
                assert_eq!(rt; regs.read(Reg::Sector), s as u32);
                let late = if hi & low != 0 {
                    Some(Tick(1048))
                } else {
                    None
                };
                assert_eq!(rt;
                    turned_on(&mut program, &mut gates, &mut regs),
                    (late, Progress::More)
                );
                assert_eq!(rt;
                    regs.gates(),
                    GateWord {
                        hi: hi & high,
                        lo: low
                    }
                );
                assert_eq!(rt; program.step(&mut gates, &mut regs), Progress::More);
                assert_eq!(rt; program.step(&mut gates, &mut regs), Progress::More);
                let late = if lo & high != 0 && hi & low == 0 {
                    Some(Tick(1048))
                } else {
                    None
                };
                assert_eq!(rt;
                    turned_on(&mut program, &mut gates, &mut regs),
                    (late, Progress::Done)
                );
                assert_eq!(rt; regs.gates(), GateWord { hi: high, lo: low });
            }
        }
    }
}

/// Chopping in each sector from each such word, with the position below the duty.
#[test]
fn sectors_are_chopped(rt: HostRuntime) {
    for s in 0u8..7 {
        for hi in 0u8..8 {
            for lo in 0u8..8 {
                if hi & lo != 0 {
                    continue;
                }
                let mut regs = driven(hi, lo);
                regs.write(Reg::Sector, s as u32);
                let mut gates = Gates::new();
                let mut program = Chop::new();
                assert_eq!(rt; program.step(&mut gates, &mut regs), Progress::More);
                assert!(rt; regs.masked());
                assert_eq!(rt; program.step(&mut gates, &mut regs), Progress::More);
                assert_eq!(rt; program.step(&mut gates, &mut regs), Progress::More);
                assert_eq!(rt; program.step(&mut gates, &mut regs), Progress::More);
                assert_eq!(rt; regs.gates(), GateWord { hi, lo });
                let high = if s == 0 { 0 } else { PAIRS[s as usize - 1].0 };
                let answer = program.step(&mut gates, &mut regs);
                if lo & high != 0 {
                    assert_eq!(rt; answer, Progress::Later(Tick(1048)));
                    assert_eq!(rt; regs.gates(), GateWord { hi, lo });
                } else {
                    assert_eq!(rt; answer, Progress::More);
                    assert_eq!(rt;
                        regs.gates(),
                        GateWord {
                            hi: if s == 0 { 0 } else { hi | high },
                            lo
                        }
                    );
                }
                assert_eq!(rt; program.step(&mut gates, &mut regs), Progress::Done);
                assert!(rt; !regs.masked());
            }
        }
    }
}

/// The word after a chop in sector 1 at a place in the period, with a duty of 1500.
fn chopped_at(position: u64) -> GateWord
    requires { position ≤ 1999 }
{
    let mut regs = driven(A, B);
    regs.write(Reg::Sector, 1);
    regs.advance(Tick(2000 + position));
    let mut gates = Gates::new();
    let mut program = Chop::new();
    let _ = program.step(&mut gates, &mut regs);
    let _ = program.step(&mut gates, &mut regs);
    let _ = program.step(&mut gates, &mut regs);
    let _ = program.step(&mut gates, &mut regs);
    let _ = program.step(&mut gates, &mut regs);
    regs.gates()
}

#[test]
fn high_switch_is_on_below_the_duty(rt: HostRuntime) {
    assert_eq!(rt; chopped_at(0), GateWord { hi: A, lo: B });
    assert_eq!(rt; chopped_at(1499), GateWord { hi: A, lo: B });
    assert_eq!(rt; chopped_at(1500), GateWord { hi: 0, lo: B });
    assert_eq!(rt; chopped_at(1999), GateWord { hi: 0, lo: B });
}

#[test]
fn change_tells_where_it_stands(rt: HostRuntime) {
    let program = ToSector::new(Sector(4));
    assert_eq!(rt; program.to(), Sector(4));
    assert_eq!(rt; program.at(), ChangeAt::ClearHigh);
}
