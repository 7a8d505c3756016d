//! What control keeps, and how frames and ticks change it.
ghost use Rattle.std.specs.Prelude.{◌≡◌, ◌≤◌, ◌<◌, ◌/◌, ◌∷◌, [], ℕ, not, ◌&&◌, List, IfSome};
ghost use Rattle.esc_base.specs.declared.tick.Tick.{Tick};
ghost use Rattle.esc_base.specs.declared.note.Note.{Note};
ghost use Rattle.esc_base.specs.declared.note.Note.TheVariants as note;
ghost use Rattle.esc_base.specs.Numbers.{mode_number};
ghost use Rattle.dshot_commands.specs.Act.{acting, number_of, IsInRange};
ghost use Rattle.arming.specs.Throttle.{target};
ghost use Rattle.arming.specs.ControlAt.{marks_at};
ghost use Rattle.arming.specs.Decide.{answer_of, bits_of, decide, demand_of, is_timed_out, may_arm};
ghost use Rattle.arming.specs.Kept.{after_found, after_frame, after_loss, after_tick, is_still, start, view_of};
ghost use Rattle.arming.specs.Stands.{with_frame, with_tick, Stands};

use crate::decision::Decision;
use crate::{Marks, Ticked, on_ticks};
use bitflags::Flags;
use dshot_commands::{Act, Repeats};
use esc_base::{Cause, Mode};
use std::marker::Model;

/// Control ticks without a good frame after which control is lost: half a second.
const TIMEOUT_TICKS: u32 = 10000;

/// Control ticks from the start or from a loss until control may arm.
const ARMING_TICKS: u32 = 5000;

/// Frames with value 0 in a row that arming asks for.
const ARMING_FRAMES: u8 = 30;

/// The most by which the demand grows in a control tick.
const RAMP: u16 = 20;

/// The least value of a frame that is throttle.
const LEAST_THROTTLE: u16 = 48;

/// Whether the motor is armed, what is demanded of it, and in which mode the signal is.
///
/// Contracts see what is kept, and say that it is what the notes of a journal so far tell (`Stands`).
#[derive(Drop)]
pub struct Control {
    mode: Mode,
    armed: bool,
    wanted: u16,
    demand: u16,
    zero_run: u8,
    number: u32,
    newest: u32,
    base: u32,
    repeats: Repeats,
}

impl Model for Control {
    ghost use Rattle.std.specs.Prelude.{◌≤◌, ◌<◌};
    ghost use Rattle.arming.specs.Kept.{Kept};

    ghost Value = { Kept };

    ghost view = { λ c. record {
      mode = c.mode;
      armed = c.armed;
      wanted = c.wanted;
      demand = c.demand;
      zero_run = c.zero_run;
      number = c.number;
      newest = c.newest;
      base = c.base;
      run = c.repeats;
    } };

    ghost invariant = { λ c. (c.zero_run ≤ 30) × ((c.newest ≤ c.number) × ((c.base ≤ c.number) × ((c.demand ≤ 1900) ×
        ((c.wanted ≤ 2047) × (0 < c.wanted → 48 ≤ c.wanted))))) };
}

impl Control {
    /// Not armed, in no mode, before the first control tick.
    pub fn new() -> Control
        ensures kept { result ≡ start }
        ensures stands { Stands result [] }
    {
        Control {
            mode: Mode::Unknown,
            armed: false,
            wanted: 0,
            demand: 0,
            zero_run: 0,
            number: 0,
            newest: 0,
            base: 0,
            repeats: Repeats::new(),
        }
    }

    /// The mode of the signal was detected.
    pub fn found(&mut self, mode: Mode)
        ensures kept { self.new ≡ after_found self.old mode }
        ensures stands { (t : Tick) (back : List Note) → Stands self.old back →
            Stands self.new (note.Detected t (mode_number mode) ∷ back) }
    {
        self.mode = mode;
    }

    /// A good frame with this value, at most 2047: throttle from 48 on, a command from 1 to 47, or 0 to
    /// stop. Answers what the command asks for, where this frame makes it act.
    pub fn frame(&mut self, value: u16) -> Option<Act>
        requires { value ≤ 2047 }
        ensures kept { self.new ≡ after_frame self.old value }
        ensures act { result ≡ acting self.new.run.frames value }
        ensures number { IfSome result (λ act. number_of act ≡ value) }
        ensures in_range { IfSome result IsInRange }
        ensures stands { (t : Tick) (q : ℕ) (back : List Note) → Stands self.old back →
            Stands self.new (with_frame t value q result back) }
    {
        let still = self.is_still();
        self.accept(value);
        self.repeats.frame(value, still)
    }

    /// Control tick number `n`, above that of the one before; they are 2400 ticks of 48 MHz apart. Answers the
    /// demand, and whether control was armed or lost.
    pub fn tick(&mut self, n: u32, marks: Marks) -> Ticked
        requires { self.old.number < n }
        ensures answer { result ≡ answer_of (decide (view_of self.old) n (bits_of marks)) self.old.demand }
        ensures kept { self.new ≡ after_tick self.old n (decide (view_of self.old) n (bits_of marks)) }
        ensures number { self.new.number ≡ n }
        ensures most { result.demand ≤ 1900 }
        ensures stands { (t : Tick) (back : List Note) → n ≡ t.0 / 2400 → bits_of marks ≡ marks_at back →
            Stands self.old back → Stands self.new (with_tick t n (bits_of marks) result back) }
    {
        let decision = self.decide(n, marks);
        let answer = decision.answer(self.demand);
        self.apply(n, decision);
        answer
    }

    /// The mode that windows are opened in: the detected one, or `Unknown` before that and after a timeout.
    pub fn mode(&self) -> Mode
        ensures { result ≡ self.now.mode }
    {
        self.mode
    }

    /// Whether the motor may be driven.
    pub fn armed(&self) -> bool
        ensures { result ≡ self.now.armed }
    {
        self.armed
    }

    /// The demand of the newest control tick, 0 to 1900 ticks of 48 MHz.
    pub fn demand(&self) -> u16
        ensures demand { result ≡ self.now.demand }
        ensures most { result ≤ 1900 }
    {
        self.demand
    }

    /// The number of the newest control tick, or 0.
    pub fn number(&self) -> u32
        ensures { result ≡ self.now.number }
    {
        self.number
    }

    fn is_still(&self) -> bool
        ensures { result ≡ is_still self.now }
    {
        self.armed && self.demand == 0
    }

    /// What a good frame changes beside the command run.
    fn accept(&mut self, value: u16)
        requires { value ≤ 2047 }
        ensures { self.new ≡ record (after_frame self.old value) { run = self.old.run } }
    {
        self.newest = self.number;
        self.wanted = if value >= LEAST_THROTTLE { value } else { 0 };
        self.zero_run = if value == 0 {
            (self.zero_run + 1).min(ARMING_FRAMES)
        } else {
            0
        };
    }

    fn may_arm(&self, n: u32, marks: Marks) -> bool
        requires { self.now.number < n }
        ensures { result ≡ (not self.now.armed && may_arm (view_of self.now) n (bits_of marks)) }
    {
        let is_forbidden = marks.contains(Marks::FUSE) || marks.contains(Marks::SESSION);
        !self.armed
            && self.zero_run == ARMING_FRAMES
            && n - self.base >= ARMING_TICKS
            && !is_forbidden
    }

    fn decide(&self, n: u32, marks: Marks) -> Decision
        requires { self.now.number < n }
        ensures decision { result ≡ decide (view_of self.now) n (bits_of marks) }
        ensures most { demand_of result ≤ 1900 }
    {
        if n - self.newest >= TIMEOUT_TICKS {
            return Decision::Loses(Cause::Timeout);
        }
        if marks.contains(Marks::STUCK) {
            return Decision::Loses(Cause::Stuck);
        }
        if marks.contains(Marks::FUSE) && self.armed {
            return Decision::Loses(Cause::Fuse);
        }
        if self.may_arm(n, marks) {
            return Decision::Arms;
        }
        if self.armed {
            return Decision::Drives(self.target().min(self.demand + RAMP));
        }
        Decision::Drives(0)
    }

    /// The demand that the ramp goes to while control is armed, in ticks of 48 MHz.
    fn target(&self) -> u16
        ensures value { result ≡ target self.now.wanted }
        ensures most { result ≤ 1900 }
    {
        if self.wanted == 0 {
            0
        } else {
            on_ticks(self.wanted)
        }
    }

    fn apply(&mut self, n: u32, decision: Decision)
        requires rises { self.old.number < n }
        requires most { demand_of decision ≤ 1900 }
        ensures kept { self.new ≡ after_tick self.old n decision }
        ensures number { self.new.number ≡ n }
    {
        match decision {
            Decision::Loses(cause) => self.lose(n, cause),
            Decision::Arms => {
                self.number = n;
                self.armed = true;
                self.demand = 0;
            }
            Decision::Drives(demand) => {
                self.number = n;
                self.demand = demand;
            }
        }
    }

    fn lose(&mut self, n: u32, cause: Cause)
        requires { self.old.number < n }
        ensures { self.new ≡ after_loss self.old n cause }
    {
        if cause == Cause::Timeout {
            self.mode = Mode::Unknown;
            self.newest = n;
        }
        self.armed = false;
        self.wanted = 0;
        self.demand = 0;
        self.zero_run = 0;
        self.number = n;
        self.base = n;
        self.repeats.reset();
    }
}
