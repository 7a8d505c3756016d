//! A run as it is drawn.
ghost use Rattle.std.specs.Prelude.{◌≡◌, ◌≤◌, ◌<◌, ◌+◌, ◌∷◌, ◌++◌, [], if◌then◌else◌, List, All, length, ltb};
ghost use Rattle.arrayvec.specs.ArrayVec.{array_vec_len};
ghost use Rattle.esc_base.specs.Range.{IsWord};
ghost use Rattle.am32wave.specs.declared.moment.Moment.{Moment as AMoment};
ghost use Rattle.am32wave.specs.declared.view.Plan.{Plan as APlan};
ghost use Rattle.am32wave.specs.After.{IsDrawnAfter as IsAfter};
ghost use Rattle.am32wave.specs.Drawn.{told, changes, all_changes, announced, part, head, tail, end};
ghost use Rattle.am32wave.specs.Moments.{MomentFits, newest_time};
ghost use Rattle.am32wave.specs.Page.{page_head, stretch_line};
ghost use Rattle.am32wave.specs.Pieces.{text, change, piece_text, Fits};
ghost use Rattle.am32wave.specs.Scene.{scene};
ghost use Rattle.am32wave.specs.Stretch.{is_within, enters};
ghost use Rattle.am32wave.specs.Wave.{declarations, values, first_id, wave_head, stamp_if_new};
ghost use Rattle.am32wave.specs.Wires.{wires_of, width};

use crate::moment::Moment;
use crate::page::{push_moment_line, push_page_end, push_page_head};
use crate::pieces::{Page, Piece, push_all};
use crate::scene::Scene;
use crate::still::{STILL_END, painted, still_head};
use crate::view::{Plan, Stretch, View};
use crate::wire::{Wire, wires_of};
use esc_base::Tick;

/// What stands before the declarations of the wires.
const HEAD: &str = "\
$comment A journal of am32sim. Tick n of 48 MHz stands at n * 62500 / 3 ps, rounded down. $end
$timescale 1 ps $end
$scope module am32 $end
";

/// What stands between the declarations and the first stamp.
const DECLARED: &str = "\
$upscope $end
$enddefinitions $end
";

/// What stands round the first values.
const VALUES: &str = "$dumpvars\n";

const BEGUN: &str = "$end\n";

/// The identifier of the first wire in a dump, `!`. Each further one has the next character.
const FIRST_ID: u8 = b'!';

/// The same in a page.
const PAGE_ID: u8 = b'A';

fn push_declarations(wires: &[Wire], page: &mut Page)
    requires few { length wires.now ≤ 38 }
    requires room { array_vec_len page.old ≤ 1 }
    requires fits { All Fits page.old.items }
    ensures text { text page.new.items ≡ text page.old.items ++ declarations first_id wires.now }
    ensures fits { All Fits page.new.items }
    ensures len { array_vec_len page.new ≤ array_vec_len page.old + 38 }
{
    for (i, wire) in wires.iter().enumerate() {
        page.push(Piece::Declaration {
            id: FIRST_ID + i as u8,
            wire: *wire,
        });
    }
}

fn push_values(wires: &[Wire], scene: &Scene, page: &mut Page)
    requires few { length wires.now ≤ 38 }
    requires room { array_vec_len page.old ≤ 44 }
    requires fits { All Fits page.old.items }
    ensures text { text page.new.items ≡ text page.old.items ++ values first_id scene.now wires.now }
    ensures fits { All Fits page.new.items }
    ensures len { array_vec_len page.new ≤ array_vec_len page.old + 38 }
{
    for (i, wire) in wires.iter().enumerate() {
        page.push(Piece::Change {
            id: FIRST_ID + i as u8,
            width: wire.width(),
            value: wire.value(scene),
        });
    }
}

/// The new value of the wire with a number, at a tick.
fn told(plan: &Plan, t: Tick, i: u8, wire: Wire, value: u32) -> Piece
    requires word { IsWord t.0 }
    requires number { i ≤ 37 }
    ensures text { piece_text result ≡ told plan.now.view plan.now.stretch t.0 i wire value }
    ensures fits { Fits result }
{
    match plan.view {
        View::Wave => change(FIRST_ID + i, wire, value),
        View::Page => change(PAGE_ID + i, wire, value),
        View::Still => painted(&plan.stretch, t, wire, value),
    }
}

fn change(id: u8, wire: Wire, value: u32) -> Piece
    requires { id < 128 }
    ensures text { piece_text result ≡ change id (width wire) value }
    ensures fits { Fits result }
{
    Piece::Change {
        id,
        width: wire.width(),
        value,
    }
}

/// A change for each wire that shows another value than before.
fn push_changes(
    plan: &Plan,
    t: Tick,
    wires: &[Wire],
    before: &Scene,
    after: &Scene,
    page: &mut Page,
)
    requires word { IsWord t.0 }
    requires few { length wires.now ≤ 38 }
    requires room { array_vec_len page.old ≤ 80 }
    requires fits { All Fits page.old.items }
    ensures text { text page.new.items ≡ text page.old.items ++ changes plan.now.view plan.now.stretch t.0 0 before.now after.now wires.now }
    ensures fits { All Fits page.new.items }
    ensures len { array_vec_len page.new ≤ array_vec_len page.old + 38 }
{
    for (i, wire) in wires.iter().enumerate() {
        let value = wire.value(after);
        if value != wire.value(before) {
            page.push(told(plan, t, i as u8, *wire, value));
        }
    }
}

/// The stamp of a tick that isn't the one before.
fn push_stamp(before: Tick, t: Tick, page: &mut Page)
    requires word { IsWord t.0 }
    requires room { array_vec_len page.old ≤ 80 }
    requires fits { All Fits page.old.items }
    ensures text { text page.new.items ≡ text page.old.items ++ stamp_if_new before.0 t.0 }
    ensures fits { All Fits page.new.items }
    ensures len { array_vec_len page.new ≤ array_vec_len page.old + 4 }
{
    if t != before {
        page.push(Piece::Stamp(t));
    }
}

/// The declarations, and the values before the first moment.
fn push_wave_head(stretch: &Stretch, is_traced: bool, page: &mut Page)
    requires empty { page.old.items ≡ [] }
    ensures fits { All Fits page.new.items }
    ensures text { text page.new.items ≡ wave_head stretch.now is_traced }
{
    page.push(Piece::Text(HEAD));
    push_declarations(wires_of(is_traced), page);
    page.push(Piece::Text(DECLARED));
    page.push(Piece::Stamp(Tick(u64::from(stretch.from))));
    page.push(Piece::Text(VALUES));
    push_values(wires_of(is_traced), &Scene::new(), page);
    page.push(Piece::Text(BEGUN));
}

/// A run that is drawn, after some moments.
#[derive(Clone, Copy, Drop)]
pub struct Drawing {
    plan: Plan,
    scene: Scene,
    time: Tick,
}

impl Drawing {
    /// Before the first moment.
    pub fn new(plan: Plan) -> Drawing
        ensures { IsAfter result plan [] }
    {
        Drawing {
            plan,
            scene: Scene::new(),
            time: Tick(0),
        }
    }

    /// What stands before the first moment's part.
    pub fn head(&self) -> Page
        ensures fits { All Fits result.items }
        ensures head { text result.items ≡ head self.now.plan }
    {
        let mut page = Page::new();
        match self.plan.view {
            View::Wave => push_wave_head(&self.plan.stretch, self.plan.is_traced, &mut page),
            View::Page => push_page_head(&self.plan.stretch, &mut page),
            View::Still => push_all(&still_head(&self.plan.stretch), &mut page),
        }
        page
    }

    fn push_all_changes(&self, t: Tick, before: &Scene, after: &Scene, page: &mut Page)
        requires word { IsWord t.0 }
        requires room { array_vec_len page.old ≤ 80 }
        requires fits { All Fits page.old.items }
        ensures text { text page.new.items ≡ text page.old.items ++ all_changes self.now.plan t.0 before.now after.now }
        ensures fits { All Fits page.new.items }
        ensures len { array_vec_len page.new ≤ array_vec_len page.old + 38 }
    {
        let wires = wires_of(self.plan.is_traced);
        push_changes(&self.plan, t, wires, before, after, page);
    }

    /// What stands at the begin of the stretch.
    fn push_opening(&self, page: &mut Page)
        requires empty { page.old.items ≡ [] }
        ensures text { text page.new.items ≡ all_changes self.now.plan self.now.plan.stretch.from (scene []) self.now.scene }
        ensures fits { All Fits page.new.items }
        ensures len { array_vec_len page.new ≤ 38 }
    {
        let from = Tick(u64::from(self.plan.stretch.from));
        self.push_all_changes(from, &Scene::new(), &self.scene, page);
    }

    /// What announces a moment.
    fn push_announced(&self, moment: &Moment, page: &mut Page)
        requires moment { MomentFits moment.now }
        requires room { array_vec_len page.old ≤ 76 }
        requires fits { All Fits page.old.items }
        ensures text { text page.new.items ≡ text page.old.items ++ announced self.now.plan.view self.now.time.0 moment.now }
        ensures fits { All Fits page.new.items }
        ensures len { array_vec_len page.new ≤ array_vec_len page.old + 4 }
    {
        match self.plan.view {
            View::Wave => push_stamp(self.time, moment.time(), page),
            View::Page => push_moment_line(moment, page),
            View::Still => {}
        }
    }

    /// The begin of the stretch, where no moment so far is behind it and one at this tick is.
    fn push_entry(&self, t: Tick, page: &mut Page)
        requires empty { page.old.items ≡ [] }
        ensures text { text page.new.items ≡ (if enters self.now.plan.stretch self.now.time.0 t.0 then all_changes self.now.plan self.now.plan.stretch.from (scene []) self.now.scene else []) }
        ensures fits { All Fits page.new.items }
        ensures len { array_vec_len page.new ≤ 38 }
    {
        if self.plan.stretch.begins_between(self.time, t) {
            self.push_opening(page);
        }
    }

    /// A moment in the stretch, and what it changes.
    fn push_moment(&self, moment: &Moment, t: Tick, after: &Scene, page: &mut Page)
        requires moment { MomentFits moment.now }
        requires word { IsWord t.0 }
        requires room { array_vec_len page.old ≤ 38 }
        requires fits { All Fits page.old.items }
        ensures text { text page.new.items ≡ text page.old.items ++ (if is_within self.now.plan.stretch t.0
            then announced self.now.plan.view self.now.time.0 moment.now ++ all_changes self.now.plan t.0 self.now.scene after.now
            else []) }
        ensures fits { All Fits page.new.items }
    {
        if self.plan.stretch.contains(t) {
            self.push_announced(moment, page);
            self.push_all_changes(t, &self.scene, after, page);
        }
    }

    /// A moment's part. The first one at or behind the stretch's begin opens it.
    pub fn add(&mut self, moment: &Moment) -> Page
        requires { MomentFits moment.now }
        ensures fits { All Fits result.items }
        ensures plan { self.new.plan ≡ self.old.plan }
        ensures part { (p : APlan) (moments : List AMoment) → IsAfter self.old p moments → text result.items ≡ part p moments moment.now }
        ensures goes_on { (p : APlan) (moments : List AMoment) → IsAfter self.old p moments → IsAfter self.new p (moments ++ moment.now ∷ []) }
    {
        let time = moment.time();
        let after = self.scene.after(moment);
        let mut page = Page::new();
        self.push_entry(time, &mut page);
        self.push_moment(moment, time, &after, &mut page);
        self.scene = after;
        self.time = time;
        page
    }

    /// What stands behind the last moment's part. A stretch behind it is opened here.
    pub fn end(&self) -> Page
        ensures fits { All Fits result.items }
        ensures end { (p : APlan) (moments : List AMoment) → IsAfter self.now p moments → text result.items ≡ end p moments }
    {
        let mut page = Page::new();
        self.push_late_entry(&mut page);
        self.push_tail(&mut page);
        page
    }

    /// The begin of the stretch, where all moments are before it.
    fn push_late_entry(&self, page: &mut Page)
        requires empty { page.old.items ≡ [] }
        ensures text { text page.new.items ≡ (if ltb self.now.time.0 self.now.plan.stretch.from then all_changes self.now.plan self.now.plan.stretch.from (scene []) self.now.scene else []) }
        ensures fits { All Fits page.new.items }
        ensures len { array_vec_len page.new ≤ 38 }
    {
        if self.time.0 < u64::from(self.plan.stretch.from) {
            self.push_opening(page);
        }
    }

    fn push_tail(&self, page: &mut Page)
        requires room { array_vec_len page.old ≤ 38 }
        requires fits { All Fits page.old.items }
        ensures text { text page.new.items ≡ text page.old.items ++ tail self.now.plan.view }
        ensures fits { All Fits page.new.items }
    {
        match self.plan.view {
            View::Wave => {}
            View::Page => push_page_end(page),
            View::Still => page.push(Piece::Text(STILL_END)),
        }
    }
}
