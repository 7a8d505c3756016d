//! CAP: a window has closed, or the window timer was reached.
ghost use Rattle.std.specs.Prelude.{◌≡◌, ◌+◌, ◌<◌, ◌≤◌, ◌^◌, ◌++◌, ◌∷◌, [], All, ℕ, false, if◌then◌else◌};
ghost use Rattle.esc_base.specs.Range.{InRange};
ghost use Rattle.timer_regs.specs.Bank.{Bank};
ghost use Rattle.interrupt_machine.specs.Did.{notes_of};
ghost use Rattle.edge_capture.specs.Edges.{last_at};
ghost use Rattle.input_detect.specs.Judge.{IsJudged};
ghost use Rattle.esc_core.specs.Stepped.{IsStepped};
ghost use Rattle.esc_core.specs.Cap.{cap_step, judge_step, period_step, reply_step, opens, edge_of, takes, after_copy, after_good, pause_from};

use crate::notes::{no_note, note_and, one_note};
use crate::reply::{period_us, reply_end, reply_start};
use crate::{CapAt, Core};
use edge_capture::{Burst, Edge};
use esc_base::{Frame, Mode, Note, Tick};
use gcr_reply::reply_bits;
use input_detect::{Judgement, judge};
use interrupt_machine::Did;
use settings_block::servo_of;
use timer_regs::{Reg, Regs};

/// Ticks from the verdict on a bad window to the opening of the next one.
const PAUSE: u32 = 600;

/// What CAP keeps of its windows.
#[derive(Drop)]
pub struct Listening {
    /// The mode of the newest window.
    pub window: Mode,
    /// The edges of the closed window, as far as they have been read.
    pub(crate) burst: Burst,
    /// The window timer was set, and no window was opened since.
    pub(crate) paused: bool,
}

impl Listening {
    /// No window was opened.
    pub(crate) fn new() -> Listening
        ensures window { result.window ≡ Mode.Unknown }
        ensures burst { result.burst ≡ [] }
        ensures paused { result.paused ≡ false }
    {
        Listening {
            window: Mode::Unknown,
            burst: Burst::new(),
            paused: false,
        }
    }
}

impl Core {
    pub(crate) fn cap_step(&mut self, regs: &mut Regs) -> Did
        requires count { regs.old.accesses < 2 ^ 63 }
        ensures step { IsStepped regs.old (cap_step self.old.cap_at self.old regs.old) result self.new regs.new }
        ensures in_range { All InRange (notes_of result) }
    {
        match self.cap_at {
            CapAt::Start => {
                if self.listening.paused {
                    self.open_window(regs)
                } else {
                    self.begin_burst(regs)
                }
            }
            CapAt::Copy(rest) => self.copy_edge(rest, regs),
            CapAt::Judge => self.judge_burst(regs),
            CapAt::Open => self.open_window(regs),
            CapAt::Period => self.read_period(regs),
            CapAt::Reply(period) => self.load_reply(period, regs),
            CapAt::Pause(at) => {
                regs.write(Reg::CapAt, at);
                self.listening.paused = true;
                self.cap_at = CapAt::Back;
                Did::More(no_note())
            }
            CapAt::Back | CapAt::Shut => {
                self.cap_at = CapAt::Shut;
                Did::Return(no_note())
            }
        }
    }

    fn open_window(&mut self, regs: &mut Regs) -> Did
        requires count { regs.old.accesses < 2 ^ 63 }
        ensures step { IsStepped regs.old (opens self.old regs.old) result self.new regs.new }
        ensures in_range { All InRange (notes_of result) }
    {
        let mode = self.control.mode();
        regs.write(Reg::CapArm, mode.number() as u32);
        self.listening.window = mode;
        self.listening.paused = false;
        self.cap_at = CapAt::Back;
        Did::More(one_note(Note::Window {
            t: regs.now(),
            m: mode.number(),
        }))
    }

    fn begin_burst(&mut self, regs: &mut Regs) -> Did
        requires count { regs.old.accesses < 2 ^ 63 }
        requires running { self.old.paused ≡ false }
        ensures step { IsStepped regs.old (cap_step CapAt.Start self.old regs.old) result self.new regs.new }
        ensures in_range { All InRange (notes_of result) }
    {
        let edges = regs.read(Reg::CapState);
        self.listening.burst.clear();
        self.cap_at = if edges == 0 {
            CapAt::Back
        } else {
            CapAt::Copy(edges.min(32) as u8)
        };
        Did::More(no_note())
    }

    fn copy_edge(&mut self, rest: u8, regs: &mut Regs) -> Did
        requires count { regs.old.accesses < 2 ^ 63 }
        ensures step { IsStepped regs.old (cap_step (CapAt.Copy rest) self.old regs.old) result self.new regs.new }
        ensures in_range { All InRange (notes_of result) }
    {
        let index = self.listening.burst.len() as u8;
        let edge = shown_edge(regs.read(Reg::CapEdge(index)));
        self.cap_at = if take(&mut self.listening.burst, edge) {
            after_copy(rest)
        } else {
            CapAt::Back
        };
        Did::More(no_note())
    }

    fn judge_burst(&mut self, regs: &Regs) -> Did
        ensures step { IsStepped regs.now (cap_step CapAt.Judge self.old regs.now) result self.new regs.now }
        ensures in_range { All InRange (notes_of result) }
    {
        let t = regs.now();
        let settings = &self.orders.settings;
        match judge(
            self.listening.window,
            &self.listening.burst,
            settings.input,
            &servo_of(settings),
        ) {
            Judgement::Good(frame) => self.accept(frame, t),
            Judgement::Found(mode) => {
                self.control.found(mode);
                self.cap_at = CapAt::Open;
                Did::More(one_note(Note::Detected {
                    t,
                    m: mode.number(),
                }))
            }
            Judgement::Bad(why) => {
                self.cap_at = pause_after(t);
                Did::More(one_note(Note::Bad { t, w: why.number() }))
            }
            Judgement::Nothing => {
                self.cap_at = pause_after(t);
                Did::More(one_note(Note::Nothing { t }))
            }
        }
    }

    fn accept(&mut self, frame: Frame, t: Tick) -> Did
        requires value { frame.value ≤ 2047 }
        requires small { t.0 < 2 ^ 31 }
        ensures step { (b : Bank) → b.time ≡ t.0 → IsStepped b (judge_step (Judgement.Good frame) self.old b) result self.new b }
        ensures in_range { All InRange (notes_of result) }
    {
        let act = self.control.frame(frame.value);
        self.cap_at = after_good(self.listening.window);
        let good = Note::Good {
            t,
            v: frame.value,
            q: frame.telemetry as u8,
        };
        let Some(act) = act else {
            return Did::More(one_note(good));
        };
        self.orders.obey(act);
        let command = Note::Command { t, c: act.number() };
        Did::More(note_and(good, Some(command)))
    }

    /// The electrical period is one register, which COMM writes whole, so it is never a sum that is being changed.
    fn read_period(&mut self, regs: &mut Regs) -> Did
        requires count { regs.old.accesses < 2 ^ 63 }
        ensures step { IsStepped regs.old (period_step self.old regs.old) result self.new regs.new }
        ensures in_range { All InRange (notes_of result) }
    {
        let p = period_us(regs.read(Reg::Period));
        self.cap_at = CapAt::Reply(p);
        Did::More(one_note(Note::Period { t: regs.now(), p }))
    }

    fn load_reply(&mut self, period: Option<u32>, regs: &mut Regs) -> Did
        requires count { regs.old.accesses < 2 ^ 63 }
        ensures step { IsStepped regs.old (reply_step period self.old regs.old) result self.new regs.new }
        ensures in_range { All InRange (notes_of result) }
    {
        let b = reply_bits(period);
        regs.write(Reg::Reply, b);
        let t = regs.now();
        let s = reply_start(&self.listening.burst, t);
        self.cap_at = CapAt::Pause(reply_end(self.listening.window, s));
        Did::More(one_note(Note::Reply { t, s, b }))
    }
}

/// A good frame of an inverted mode is answered; after any other the next window opens at once.
fn after_good(window: Mode) -> CapAt
    ensures { result ≡ after_good window }
{
    match window {
        Mode::D300Inv | Mode::D600Inv => CapAt::Period,
        _ => CapAt::Open,
    }
}

fn pause_after(t: Tick) -> CapAt
    requires { t.0 < 2 ^ 31 }
    ensures { result ≡ CapAt.Pause (pause_from t.0) }
{
    CapAt::Pause(t.0 as u32 + PAUSE)
}

fn shown_edge(shown: u32) -> Edge
    ensures edge { result ≡ edge_of shown }
    ensures small { result.t.0 < 2 ^ 31 }
{
    const RISING: u32 = 0x8000_0000;
    if shown < RISING {
        Edge {
            t: Tick(shown as u64),
            level: false,
        }
    } else {
        Edge {
            t: Tick((shown - RISING) as u64),
            level: true,
        }
    }
}

fn last_tick(burst: &Burst) -> u64
    ensures { result ≡ last_at burst.now }
{
    match burst.len() {
        0 => 0,
        n => burst.at(n - 1).t.0,
    }
}

/// Adds an edge to a burst that may go on with it, as the capture's bursts do.
fn take(burst: &mut Burst, edge: Edge) -> bool
    requires small { edge.t.0 < 2 ^ 31 }
    ensures taken { result ≡ takes burst.old edge }
    ensures burst { burst.new ≡ (if takes burst.old edge then burst.old ++ edge ∷ [] else burst.old) }
{
    if burst.len() < 32 && last_tick(burst) <= edge.t.0 {
        burst.push(edge);
        return true;
    }
    false
}

fn after_copy(rest: u8) -> CapAt
    ensures { result ≡ after_copy rest }
{
    if rest <= 1 {
        CapAt::Judge
    } else {
        CapAt::Copy(rest - 1)
    }
}
