//! The fixed parts of a page.

/// What stands before the script: the head, the style and the body.
pub const PAGE_HEAD: &str = r##"<!DOCTYPE html>
<html lang="en">
<head>
<meta charset="utf-8">
<meta http-equiv="Content-Security-Policy" content="default-src 'none'; style-src 'unsafe-inline'; script-src 'unsafe-inline'">
<meta name="viewport" content="width=device-width, initial-scale=1">
<title>am32 wave</title>
<style>
:root { color-scheme: light dark;
  --paper: light-dark(#fff, #14171a); --ink: light-dark(#1b1f24, #e4e8ec); --dim: light-dark(#6b7580, #8b96a1); --grid: light-dark(#e8ebee, #252a30);
  --edge: light-dark(#cfd5db, #363d45); --face: light-dark(#f5f7f9, #1c2126); --cursor: light-dark(#c2255c, #f783ac);
  --signal: light-dark(#0b7285, #3bc9db); --motor: light-dark(#2b8a3e, #51cf66); --high: light-dark(#d9480f, #ff922b); --low: light-dark(#1864ab, #4dabf7);
  --sector: light-dark(#7048a8, #b197fc); --control: light-dark(#8f5a00, #fcc419); --handler: light-dark(#495057, #adb5bd); }
* { box-sizing: border-box; }
body { margin: 0; background: var(--paper); color: var(--ink); font: 13px/1.35 system-ui, "DejaVu Sans", sans-serif; }
header { position: sticky; top: 0; z-index: 2; background: var(--paper); border-bottom: 1px solid var(--edge); }
.bar { display: flex; flex-wrap: wrap; gap: 4px 14px; align-items: center; padding: 6px 10px; }
h1 { font-size: 14px; margin: 0; } #size { color: var(--dim); }
.set { display: inline-flex; gap: 2px; align-items: center; }
button, select { font: inherit; color: inherit;
  background: var(--face); border: 1px solid var(--edge); border-radius: 4px; padding: 2px 8px; min-height: 26px; }
button:hover { border-color: var(--dim); } button[aria-pressed=true] { border-color: var(--ink); background: var(--edge); }
:focus-visible { outline: 2px solid var(--cursor); outline-offset: 1px; }
.told { font-family: ui-monospace, "DejaVu Sans Mono", Menlo, Consolas, monospace; font-size: 12px;
  border-top: 1px solid var(--edge); background: var(--face); }
#time { color: var(--cursor); font-weight: 600; }
.grid { display: grid; grid-template-columns: 196px minmax(0, 1fr); }
.corner { border-right: 1px solid var(--edge); padding: 14px 8px 0 10px; color: var(--dim); font-size: 11px; display: flex; justify-content: space-between; }
canvas { display: block; width: 100%; } #wave { cursor: crosshair; touch-action: pan-y; }
#names { position: relative;
  margin: 0; padding: 0; list-style: none; border-right: 1px solid var(--edge); font: 12px ui-monospace, "DejaVu Sans Mono", Menlo, Consolas, monospace; }
#names li { position: absolute; left: 10px; right: 8px; display: flex; justify-content: space-between; align-items: center; gap: 8px; }
#names output { color: var(--dim); overflow: hidden; text-overflow: ellipsis; white-space: nowrap; max-width: 92px; }
#notes { margin: 0; padding: 6px 10px;
  list-style: none; border-top: 1px solid var(--edge); min-height: 152px; font: 12px/17px ui-monospace, "DejaVu Sans Mono", Menlo, Consolas, monospace; }
#notes li { display: grid; grid-template-columns: 18ch 15ch 1fr; gap: 1ch; cursor: pointer; } #notes li:hover { background: var(--face); }
#notes time, #notes i { text-align: right; font-style: normal; white-space: nowrap; } #notes i { color: var(--dim); }
#notes .now { font-weight: 700; } #notes .now::before { content: "\25b8"; position: absolute; left: 2px; color: var(--cursor); }
.unseen { position: absolute; width: 1px; height: 1px; overflow: hidden; clip-path: inset(50%); margin: 0; }
details { padding: 6px 10px 12px; border-top: 1px solid var(--edge); } summary { cursor: pointer; }
kbd { font: 12px ui-monospace, "DejaVu Sans Mono", monospace; border: 1px solid var(--edge); border-radius: 3px; padding: 0 4px; }
details p { margin: 6px 0; max-width: 76em; } #probe { background: light-dark(#fff, #000); position: absolute; width: 0; height: 0; overflow: hidden; }
@media (max-width: 640px) {
  .grid { grid-template-columns: 104px minmax(0, 1fr); } #names li { left: 6px; right: 4px; gap: 4px; font-size: 11px; } #names output { max-width: 3.4ch; }
  .bar { padding: 5px 6px; gap: 4px 8px; } #size { display: none; } .corner { padding: 14px 4px 0 6px; } .corner span + span { display: none; }
  #names .text output { display: none; } 
  #notes { padding: 6px 8px 6px 12px; font-size: 11px; } #notes li { grid-template-columns: 13ch 1fr; } #notes time { display: none; }
}
</style>
</head>
<body>
<header>
<div class="bar">
<h1>am32 wave</h1> <span id="size"></span>
<span class="set">
<button data-key="p" title="the one before (p)" aria-label="the one before">&#9666;</button>
<select id="what" aria-label="what to jump to"></select>
<button data-key="n" title="the next one (n)" aria-label="the next one">&#9656;</button></span>
<span class="set">
<button data-key="-" title="zoom out (-)" aria-label="zoom out">&#8722;</button>
<button data-key="+" title="zoom in (+)" aria-label="zoom in">+</button>
<button data-key="0" title="the whole run (0)">whole</button></span>
<span class="set">
<button data-key="1" title="marker 1 at the cursor (1)">M1</button>
<button data-key="2" title="marker 2 at the cursor (2)">M2</button>
<button data-key="Escape" title="no markers (Esc)">clear</button></span>
<span class="set">
<button data-key="w" id="all" aria-pressed="false" title="all wires (w)">all wires</button>
<button data-key="d" title="dark or light (d)" aria-label="dark or light">&#9680;</button></span>
</div>
<div class="bar told"><span id="time"></span><span id="between"></span></div>
<p id="said" class="unseen" aria-live="polite"></p>
<div class="grid"><div class="corner"><span>wire</span><span>at the cursor</span></div><canvas id="axis" aria-hidden="true"></canvas></div>
</header>
<div class="grid"><ol id="names"></ol><canvas id="wave" tabindex="0" role="application" 
aria-label="The wave. Arrow keys move it, plus and minus zoom, 
comma and full stop go from note to note; what stands at the cursor is told above and below it."></canvas></div>
<ol id="notes" aria-label="notes around the cursor"></ol>
<details id="help"><summary>Keys, and how to read it</summary>
<p><kbd>&#8592;</kbd> <kbd>&#8594;</kbd> move, with <kbd>shift</kbd> by a screen &#183; <kbd>+</kbd> <kbd>&#8722;</kbd> or the wheel zoom &#183; 
<kbd>0</kbd> the whole run &#183; 
<kbd>,</kbd> <kbd>.</kbd> the note before, the next one &#183; <kbd>n</kbd> <kbd>p</kbd> the next one, the one before of what is chosen above &#183; 
<kbd>v</kbd> verdict, <kbd>s</kbd> sector, 
<kbd>z</kbd> crossing, <kbd>a</kbd> arming, <kbd>x</kbd> loss, <kbd>r</kbd> reply: the next one, with <kbd>shift</kbd> the one before &#183; 
<kbd>1</kbd> <kbd>2</kbd> a marker at the cursor, <kbd>Esc</kbd> none &#183; <kbd>w</kbd> all wires &#183; <kbd>d</kbd> dark or light</p>
<p>The pointer goes to the nearest change of the row it is on. A pale band is where a wire changes more often than the screen has room for; 
the filled part of it is the share of the time for which the wire is 1, 
so of a chopped switch it is the duty. Times are ticks of 48 MHz; 48 are a microsecond.</p>
</details>
<i id="probe"></i>
<noscript>This page draws by script. 
Its source holds the journal, line for line, and behind each line the changes of the wires.</noscript>
<script>
"##;

/// The script.
pub const SCRIPT: &str = r##""use strict";
// ---- The data: the stretch, then each note's line of the journal and each event's line of the trace, and behind a line the changes of the
// ---- wires, as a dump has them: `1A`, or for several bits `b101 G`. Changes before the first line are of before the stretch.
const byId = id => document.getElementById(id); let text = "";
function newest(ticks, count, tick, low) { // where the newest of these ticks stands that isn't behind a tick; they never fall
  for (let high = count; high - low > 1;) { const middle = (low + high) >> 1; if (ticks[middle] <= tick) low = middle; else high = middle; }
  return low;
}
const grown = array => { const larger = new array.constructor(2 * array.length); larger.set(array); return larger; };
const MODES = ["no mode yet", "DShot300", "DShot600", "DShot300 inverted", "DShot600 inverted", "servo pulses"];
const WHYS = ["", "number of edges", "polarity", "span", "width of a bit", "checksum"], CAUSES = ["timeout", "stuck", "fuse"];
const KINDS = ["MAIN", "UART", "TICK", "CAP", "CMP", "PWM", "COMM"], LEGS = ["none", "A", "B", "A B", "C", "A C", "B C", "A B C"];

class Wire { // its changes: a tick, the value from there on, and for how many ticks it was 1 before
  count = 0; ticks = new Float64Array(4); values = new Uint32Array(4); high = new Float64Array(4);
  constructor(look, first) { Object.assign(this, look).change(0, first); }
  begin(tick, value) { this.ticks[0] = tick; this.values[0] = value; }
  change(tick, value, i = this.count) {
    if (i && this.values[i - 1] === value) return;
    if (i === this.ticks.length) { this.ticks = grown(this.ticks); this.values = grown(this.values); this.high = grown(this.high); }
    this.ticks[i] = tick; this.values[i] = value; this.count++;
    if (i) this.high[i] = this.high[i - 1] + this.values[i - 1] * (tick - this.ticks[i - 1]);
  }
  at(tick, low = 0) { return newest(this.ticks, this.count, tick, low); } // its newest change at a tick, which isn't before change `low`
  highUntil(tick) { const i = this.at(tick); return this.high[i] + this.values[i] * (tick - this.ticks[i]); }
}
const rows = [], ifAny = n => n ? String(n) : "";
const row = (paint, name, kind = "bit", say = String, first = 0) => { rows.push(new Wire({ paint, name, kind, say }, first)); return rows.at(-1); };
const part = (...look) => Object.assign(row("signal", ...look), { isPart: true }); // shown with all wires only, since `frame` tells it too
row("signal", "signal_line"); const replyLine = row("signal", "reply_line", "bit", String, 1);
const frame = row("signal", "frame", "text", i => i ? words(i - 1).replace("window opens:", "open:").replace(" frame", "") : "");
part("window"); const mode = part("mode", "text", m => MODES[m]); part("good"); part("detected"); part("nothing");
part("bad", "text", why => WHYS[why]); part("frame_value", "text"); part("telemetry");
row("signal", "reply", "text", bits => bits ? bits.toString(2).padStart(21, "0") : ""); part("replies", "mark");
row("motor", "comparator"); for (const leg of "abc") { row("high", "high_" + leg); row("low", "low_" + leg); }
row("sector", "sector", "text", ifAny); row("sector", "crossings", "mark"); row("sector", "period_us", "text", ifAny);
row("control", "armed"); row("control", "demand", "steps"); for (const mark of ["stuck", "fuse", "session"]) row("control", mark);
row("control", "lost_cause", "text", cause => cause ? CAUSES[cause - 1] : ""); row("control", "losses", "mark");
row("control", "command", "text", ifAny); row("control", "commands", "mark"); row("control", "saves", "mark");
for (const kind of KINDS) row("handler", "handler_" + kind.toLowerCase());
const named = name => rows.find(wire => wire.name === name);
const WIRES = `high_a high_b high_c low_a low_b low_c sector crossings period_us armed demand stuck fuse session lost_cause losses window mode good
detected nothing bad frame_value telemetry command commands saves reply replies handler_main handler_uart handler_tick handler_cap handler_cmp
handler_pwm handler_comm signal_line comparator`.split(/\s/).map(named); // under the characters from A on

let ticks = new Float64Array(1024), places = new Uint32Array(1024), count = 0; // of each line its tick, and where it stands in the text
let from = 0, end = 1; // the first tick, and the one behind the last
// A note's letter, and an event's in small: the S of a journal is another thing than that of a trace.
const letterOf = i => text[places[i]] >= "A" ? text[places[i]] : text[text.indexOf(" ", places[i]) + 1].toLowerCase();
const fields = i => text.slice(places[i], text.indexOf("\n", places[i])).split(" ").slice(2);
function takeLine(place, tick) { // a note or an event
  if (count === ticks.length) { ticks = grown(ticks); places = grown(places); }
  ticks[count] = tick; places[count++] = place;
  if ("WF".includes(text[place])) frame.change(tick, count);
  if (text[place] === "R") { // its bits are the levels of the line, 128 or 64 ticks each
    const [start, bits] = fields(count - 1), width = mode.values[mode.count - 1] === 3 ? 128 : 64;
    for (let k = 0; k <= 21; k++) replyLine.change(+start + k * width, k < 21 ? +bits[k] : 1);
  }
}
function readLine(place, next) { // the line from one place to its line feed
  const first = text.charCodeAt(place), second = text.charCodeAt(place + 1), wire = WIRES[text.charCodeAt(next - 1) - 65];
  const now = count ? ticks[count - 1] : from, change = value => count ? wire.change(now, value) : wire.begin(from, value);
  if (next - place === 2 && second >= 65) return change(first - 48);
  if (first === 98) { // b
    let value = 0;
    for (let k = place + 1; k < next - 2; k++) value = 2 * value + text.charCodeAt(k) - 48;
    return change(value);
  }
  if (first === 115) { // s: the stretch
    [from, end] = text.slice(place + 8, next).split(" ").map(Number); end++; return rows.forEach(wire => wire.begin(from, wire.values[0]));
  }
  let tick = 0, k = first < 65 ? place : place + 2;
  for (let c; (c = text.charCodeAt(k)) >= 48 && c < 58; k++) tick = 10 * tick + c - 48;
  takeLine(place, tick);
}
function read() { // the whole lines: of a page that was cut off the last line may be a part of one
  text = byId("data").textContent;
  for (let place = 0, next; (next = text.indexOf("\n", place)) >= 0; place = next + 1) if (next > place) readLine(place, next);
  if (end > 2 ** 32 - 1) end = count ? ticks[count - 1] + 1 : 1; // a whole run ends with its last line
}

// ---- Words and times.
const digits = n => String(n).replace(/\B(?=(\d{3})+$)/g, "\u202f");
const microseconds = tick => `${digits(Math.floor(tick / 48))}.${String(Math.floor(tick % 48 * 1000 / 48)).padStart(3, "0")}\u00a0us`;
const duration = n => n < 48000 ? (n / 48).toFixed(3) + "\u00a0us" : (n / 48000).toFixed(6) + "\u00a0ms";
const apart = n => (n < 0 ? "\u2212" : "+") + duration(Math.abs(n));
const LOADED = ["the settings of the flash", ...["the block has no marker", "the block has another version", "a value of the block is out of range"]
  .map(why => "default settings: " + why)];
const SAY = {
  FG: (value, asks) => `good frame ${value}${asks > 0 ? ", asks for telemetry" : ""}`, FD: m => "detected " + MODES[m],
  FN: () => "detected nothing", FB: why => "bad frame: " + WHYS[why], F: (verdict, ...rest) => SAY["F" + verdict](...rest),
  U: r => "start with " + LOADED[r], I: k => "enter " + KINDS[k], O: k => "leave " + KINDS[k], A: () => "armed",
  X: c => "lost: " + CAUSES[c], G: (hi, lo) => `gates: high ${LEGS[hi]}, low ${LEGS[lo]}`, W: m => "window opens: " + MODES[m],
  K: (k, s, d) => `control tick ${k}, demand ${d}` + ["stuck", "fuse", "session"].filter((_, bit) => s >> bit & 1).map(mark => ", " + mark).join(""),
  M: c => `command ${c} acts`, P: r => ["settings saved", "settings not saved: the flash failed"][r], Q: s => "sector " + s,
  Z: () => "zero crossing", V: p => p === "none" ? "no period" : `period ${p} us`, S: x => "sent " + x,
  L: x => "lost a received byte: " + x, R: (start, bits) => `reply ${bits} begins at ${microseconds(start)}`,
  B: (c, k) => `packet with command ${c}, acknowledged by ${k}`,
  Y: (i, k, s) => `watcher ${i} was told ${k} gate words${s > 0 ? ", and has tripped" : ""}`,
  e: level => "signal line " + ["low", "high"][level], c: level => "comparator " + ["low", "high"][level],
  s: x => `serial byte ${x} arrives`, j: n => `no step for ${n} ticks`,
};
const words = i => SAY[letterOf(i)](...fields(i));

// ---- The picture: `left` is the tick at its left edge, `scale` the pixels of a tick.
const wave = byId("wave"), axis = byId("axis"), pen = wave.getContext("2d"), ruler = axis.getContext("2d"), names = byId("names"), GLYPH = 6.63;
const ink = {}, marks = [null, null], labels = []; // colours, the ticks of M1 and M2, and what is to be written last
let left = 0, scale = 1, width = 1, height = 1, shown = [], cursor = 0, all = false, due = 0, told = "";
const X = tick => (tick - left) * scale, tickAt = x => left + x / scale;
function layout() {
  let y = 4, before = ""; shown = rows.filter(wire => all || (wire.count > 1 && !wire.isPart)); width = wave.clientWidth;
  for (const wire of shown) {
    const group = wire.paint.replace("low", "high");
    if (before && before !== group) y += 8;
    before = group; wire.y = y; y += wire.height = wire.kind === "steps" ? 46 : 24;
  }
  height = y + 6; names.style.height = height + "px";
  names.innerHTML = shown.map(w => `<li class="${w.kind}" style="top:${w.y}px;height:${w.height}px">${w.name}<output></output></li>`).join("");
  shown.forEach((wire, i) => { wire.cell = names.children[i].lastChild; });
  for (const [canvas, h, context, ratio = devicePixelRatio] of [[wave, height, pen], [axis, 34, ruler]]) {
    canvas.width = width * ratio; canvas.height = h * ratio; canvas.style.height = h + "px"; context.scale(ratio, ratio);
    context.font = "11px ui-monospace, 'DejaVu Sans Mono', Menlo, Consolas, monospace";
  }
  for (const key of ["ink", "dim", "grid", "paper", "cursor", ...rows.map(wire => wire.paint)]) {
    byId("probe").style.color = `var(--${key})`; ink[key] = getComputedStyle(byId("probe")).color;
  }
  told = ""; look(left, scale);
}
const fit = s => Math.min(40, Math.max(s, 0.98 * width / (end - from)));
function look(tick, s) { // shows what is from this tick on, at this scale
  scale = fit(s); left = Math.max(from - 0.01 * width / scale, Math.min(tick, end - 0.97 * width / scale)); due ||= requestAnimationFrame(draw);
}
const zoom = (factor, x) => look(tickAt(x) - x / fit(scale * factor), scale * factor);
const stroke = points => { pen.beginPath(); points.forEach(([x, y]) => pen.lineTo(x, y)); pen.stroke(); };
const triangle = (p, x, y, h) => { p.beginPath(); p.moveTo(x, y); p.lineTo(x - 3.5, y + h); p.lineTo(x + 3.5, y + h); p.fill(); };
function band(x, w, y, h, share) { // where changes stand closer than pixels: a pale band, and in it the share of ones
  pen.globalAlpha = 0.25; pen.fillRect(x, y, w, h); pen.globalAlpha = 1; pen.fillRect(x, y + h * (1 - share), w, h * share);
}
function label(s, x0, x1, y) { // in the middle of what is seen of a box, where it has room; all are drawn last, over the lines
  const a = Math.max(x0, 0) + 5, b = Math.min(x1, width, X(end)), room = Math.floor((b - 5 - a) / GLYPH);
  if (s.length > room) { if (room < 5 || /^\d+$/.test(s)) return; s = s.slice(0, room - 1) + "\u2026"; }
  labels.push([s, Math.max(a, (a - 5 + b - s.length * GLYPH) / 2), y]);
}
const DRAW = { // each draws the changes from i on
  bit(w, i, top, low) { // and steps, of which 2000 is the top
    const most = w.kind === "bit" ? 1 : 2000, Y = k => low - (low - top) * w.values[k] / most, last = () => points.at(-1)[1];
    let points = [[Math.max(-2, X(from)), Y(i)]], banded = null; // where the last band ends
    for (; i < w.count && X(w.ticks[i]) <= width; i++) {
      const x = Math.max(-2, X(w.ticks[i])), column = x + 4;
      if (i + 7 < w.count && X(w.ticks[i + 7]) < x + 8) { // eight changes within eight pixels: the share of ones of some on either side
        const start = banded !== null && x - banded < 6 ? banded : x;
        if (start === x || most > 1) stroke([...points, [x, last()]]);
        i = w.at(tickAt(column), i);
        const next = i + 1 < w.count ? X(w.ticks[i + 1]) : Infinity, stop = next - column < 6 ? column : X(w.ticks[i]);
        const a = Math.max(w.ticks[0], tickAt(start - 8)), b = Math.min(tickAt(stop + 8), w.ticks[w.count - 1]);
        pen.fillStyle = ink[w.paint]; points = [[stop, Y(i)]]; banded = stop;
        if (most === 1) band(start, stop - start, top, low - top, b > a ? (w.highUntil(b) - w.highUntil(a)) / (b - a) : w.values[i]);
      } else { points.push([Math.round(x) + 0.5, last()], [Math.round(x) + 0.5, Y(i)]); banded = null; }
      const room = (i + 1 < w.count ? X(w.ticks[i + 1]) : X(end)) - x;
      if (most > 1 && room > 40) label(String(w.values[i]), x, x + room, w.values[i] > 1000 ? Y(i) + 13 : Y(i) - 4);
    }
    stroke([...points, [Math.min(width + 2, X(end)), last()]]);
  },
  text(w, i, top, low) {
    for (const middle = (top + low) / 2; i < w.count && X(w.ticks[i]) <= width; i++) {
      const x0 = Math.max(-9, X(w.ticks[i])), x1 = Math.min(width + 9, X(i + 1 < w.count ? w.ticks[i + 1] : end)), s = w.say(w.values[i]);
      if (x1 - x0 < 6) { pen.fillStyle = ink[w.paint]; band(x0, 6, top, low - top, 0); i = Math.max(i, w.at(tickAt(x0 + 6), i) - 1); }
      else if (s === "") stroke([[x0, middle], [x1, middle]]);
      else stroke([[x0, middle], [x0 + 3, top], [x1 - 3, top], [x1, middle], [x1 - 3, low], [x0 + 3, low], [x0, middle]]);
      if (x1 - x0 >= 6) label(s, x0, x1, middle + 4);
    }
  },
  mark(w, i, top, low) {
    for (i = Math.max(1, i); i < w.count && X(w.ticks[i]) <= width + 9; i++) {
      const x = X(w.ticks[i]), next = i + 1 < w.count ? X(w.ticks[i + 1]) : width;
      pen.fillStyle = ink[w.paint]; pen.fillRect(x - 0.75, top, 1.5, low - top);
      if (next - x < 3) i = Math.max(i, w.at(tickAt(x + 2), i)); else triangle(pen, x, top, 7);
      if (next - x > 24) label(String(w.values[i]), x, Math.min(next, x + 48), low - 1);
    }
  },
};
DRAW.steps = DRAW.bit;
const UNITS = [["s", 1e9], ["ms", 1e6], ["us", 1e3], ["ns", 1]];
function drawAxis() {
  const least = 116 / scale / 0.048, ten = 10 ** Math.floor(Math.log10(least)), step = ten * [1, 2, 5, 10].find(m => m * ten >= least);
  const [unit, size] = UNITS.find(u => step >= u[1]), fifth = step * 0.0096;
  ruler.clearRect(0, 0, width, 34); ruler.beginPath(); pen.beginPath();
  ruler.fillStyle = ink.ink; ruler.strokeStyle = ink.dim; pen.strokeStyle = ink.grid;
  for (let k = Math.max(0, 5 * Math.floor(left / fifth / 5)); X(k * fifth) <= width; k++) {
    const x = Math.round(X(k * fifth)) + 0.5, s = `${digits(k / 5 * step / size)} ${unit}`;
    ruler.moveTo(x, k % 5 ? 30 : 22); ruler.lineTo(x, 34);
    if (k % 5 === 0) { pen.moveTo(x, 0); pen.lineTo(x, height); }
    if (k % 5 === 0 && x > -4 && x + 4 + GLYPH * s.length < width) ruler.fillText(s, x + 4, 29);
  }
  ruler.stroke(); pen.stroke(); pen.fillStyle = ink.dim;
  if (scale >= 8) for (let t = Math.ceil(left); X(t) < width; t++) pen.fillRect(X(t) - 0.5, height - 4, 1, 4); // each tick of 48 MHz
}
function flag(tick, name, isFirst) { // a marker, or the cursor
  const x = Math.round(X(tick)) + 0.5, a = Math.max(0, Math.min(isFirst ? x - 21 : x, width - 21));
  if (tick === null || x < -1 || x > width + 1) return;
  pen.strokeStyle = ruler.fillStyle = name ? ink.ink : ink.cursor; pen.setLineDash(name ? [6, 3] : []);
  stroke([[x, 0], [x, height]]); pen.setLineDash([]);
  if (name) { ruler.fillRect(a, 0, 21, 15); ruler.fillStyle = ink.paper; ruler.fillText(name, a + 4, 11); } else triangle(ruler, x, 22, -6);
}
function drawLabels() { // on paper of their own, so that no line crosses them
  pen.strokeStyle = ink.paper; pen.fillStyle = ink.ink; pen.lineWidth = 2.5; pen.lineJoin = "round";
  for (const [s, x, y] of labels.splice(0)) { pen.strokeText(s, x, y); pen.fillText(s, x, y); }
}
function draw() {
  due = 0; pen.clearRect(0, 0, width, height); pen.lineWidth = 1; drawAxis(); pen.lineWidth = 1.25;
  for (const w of shown) {
    pen.strokeStyle = pen.fillStyle = ink[w.paint];
    DRAW[w.kind](w, w.at(tickAt(-9)), w.y + 5.5, w.y + w.height - 5.5); w.cell.textContent = w.say(w.values[w.at(cursor)]) || "\u2013";
  }
  pen.lineWidth = 1; marks.forEach((tick, i) => flag(tick, "M" + (i + 1), tick < marks[1 - i])); flag(cursor, ""); drawLabels(); tell();
}

// ---- What stands at the cursor, in words.
const lineAt = tick => newest(ticks, count, tick, -1); // the newest line at or before a tick
function near(i, way, found = []) { // four lines from this one on; the edges of the signal line are too many for words
  for (let k = 0; k < 400 && found.length < 4 && i >= 0 && i < count; k++, i += way) if (letterOf(i) !== "e") found.push(i);
  return found;
}
function between() {
  const [a, b] = marks, n = a === null ? null : (b === null ? cursor : b) - a;
  return n === null ? "click: marker M1, shift-click: M2" : `M1 to ${b === null ? "here" : "M2"} ${apart(n)} = ${digits(Math.abs(n))} ticks`;
}
function tell() {
  const key = [cursor, ...marks].join(), lines = [...near(lineAt(cursor), -1).reverse(), ...near(lineAt(cursor) + 1, 1)]; if (key === told) return;
  told = key; byId("time").textContent = `${microseconds(cursor)} \u00b7 tick ${digits(cursor)}`; byId("between").textContent = between();
  byId("notes").innerHTML = lines.map(i => [i, ...ticks[i] === cursor ? ["now", "here"] : ["", apart(ticks[i] - cursor)]]).map(([i, is, off]) =>
    `<li data-line="${i}" class="${is}"><time>${microseconds(ticks[i])}</time><i>${off}</i><span>${words(i)}</span></li>`).join("");
}
function speak() { // what a screen reader says after a key: the time, the notes there, and the markers' distance
  const here = near(lineAt(cursor), -1).reverse().filter(i => ticks[i] === cursor).map(words);
  byId("said").textContent = [`${(cursor / 48).toFixed(3)} microseconds`, ...here, marks[0] === null ? "" : between()].filter(s => s).join(", ");
}
function point(tick, isShown) { // the cursor to a tick, and that into the picture
  cursor = Math.max(from, Math.min(end - 1, Math.round(tick)));
  look(isShown && (X(cursor) < 0.05 * width || X(cursor) > 0.95 * width) ? cursor - 0.35 * width / scale : left, scale);
}
const JUMPS = { verdict: "F", sector: "Q", crossing: "Z", gates: "G", demand: "K", arming: "A", loss: "X", reply: "R", command: "M", save: "P" };
function jump(what, way) {
  let i = way > 0 ? lineAt(cursor) + 1 : lineAt(cursor - 1); while (i >= 0 && i < count && letterOf(i) !== JUMPS[what]) i += way;
  if (i >= 0 && i < count) return point(ticks[i], true);
  byId("time").textContent = byId("said").textContent = `no ${what} ${way > 0 ? "behind" : "before"} the cursor`; told = ""; return true;
}

// ---- Mouse, fingers and keys.
const down = new Map(); let far = 0;
function snapped(event) { // the nearest change of the row under the pointer, or else the tick there
  const w = shown.find(r => event.offsetY < r.y + r.height) || rows[0], i = w.at(tickAt(event.offsetX)), off = k => Math.abs(X(w.ticks[k]) - event.offsetX);
  const k = [i, i + 1].filter(k => k > 0 && k < w.count && off(k) < 8).sort((a, b) => off(a) - off(b))[0];
  return k ? w.ticks[k] : tickAt(event.offsetX);
}
const mark = k => { marks[k] = cursor; look(left, scale); }, isDark = () => getComputedStyle(byId("probe")).backgroundColor === "rgb(0, 0, 0)";
wave.onpointerdown = e => { wave.setPointerCapture(e.pointerId); down.set(e.pointerId, e); far = down.size > 1 ? 99 : 0; };
wave.onpointermove = e => {
  const old = down.get(e.pointerId), other = [...down.values()].find(d => d.pointerId !== e.pointerId);
  if (!old) return point(snapped(e));
  far += Math.abs(e.offsetX - old.offsetX); down.set(e.pointerId, e);
  const x = other ? other.offsetX : 0, was = old.offsetX - x, is = e.offsetX - x;
  if (other && was * is > 0) zoom(is / was, x); else if (!other && far > 4) look(left + (was - is) / scale, scale);
};
wave.onpointerup = e => { wave.onpointercancel(e); if (far <= 4) { point(snapped(e)); if (e.pointerType === "mouse") mark(+e.shiftKey); } };
wave.onpointercancel = e => down.delete(e.pointerId);
wave.addEventListener("wheel", e => {
  const unit = e.deltaMode ? 30 : 1, across = unit * (e.shiftKey ? e.deltaY : e.deltaX);
  e.preventDefault(); if (across) look(left + across / scale, scale); else zoom(Math.exp(-e.deltaY * unit * 0.002), e.offsetX);
}, { passive: false });
const closer = factor => zoom(factor, X(cursor) >= 0 && X(cursor) <= width ? X(cursor) : width / 2);
const move = (e, way) => look(left + (e.shiftKey ? 0.9 : 0.1) * way * width / scale, scale);
const act = {
  "+": () => closer(1.5), "=": () => closer(1.5), "-": () => closer(1 / 1.5), 0: () => look(0, 0), ArrowLeft: e => move(e, -1),
  ArrowRight: e => move(e, 1), Home: () => point(from, true), End: () => point(end, true),
  ",": () => point(ticks[Math.max(0, lineAt(cursor - 1))], true), ".": () => point(ticks[Math.min(count - 1, lineAt(cursor) + 1)], true),
  1: () => mark(0), 2: () => mark(1), Escape: () => { marks.fill(null); look(left, scale); },
  n: () => jump(byId("what").value, 1), p: () => jump(byId("what").value, -1), "?": () => { byId("help").open = !byId("help").open; },
  w: () => { all = !all; byId("all").setAttribute("aria-pressed", all); layout(); },
  d: () => { document.documentElement.style.colorScheme = isDark() ? "light" : "dark"; layout(); },
};
const JUMP_KEYS = { v: "verdict", s: "sector", z: "crossing", a: "arming", x: "loss", r: "reply" };
for (const k in JUMP_KEYS) { act[k] = () => jump(JUMP_KEYS[k], 1); act[k.toUpperCase()] = () => jump(JUMP_KEYS[k], -1); }
const does = (key, event) => { if (!act[key](event)) speak(); };
document.onkeydown = e => {
  if (act[e.key] && e.target.tagName !== "SELECT" && !e.ctrlKey && !e.metaKey && !e.altKey) { e.preventDefault(); does(e.key, e); }
};
for (const b of document.querySelectorAll("button[data-key]")) b.onclick = e => does(b.dataset.key, e);
byId("what").innerHTML = Object.keys(JUMPS).map(what => `<option>${what}</option>`).join("");
byId("notes").onclick = e => { const line = e.target.closest("li"); if (line) point(ticks[line.dataset.line], true); };
addEventListener("resize", layout); matchMedia("(prefers-color-scheme: dark)").onchange = layout;

// ---- It opens at the first sector, or else at the first verdict.
addEventListener("DOMContentLoaded", () => { // the data stands behind this script, so that a page is drawn however it ends
  read(); byId("size").textContent = `${digits(count)} notes and events, ${microseconds(end - 1)}`;
  const sector = named("sector"), verdict = frame.count > 2 ? frame.ticks[2] : from;
  const [what, tick, wide, share] = sector.count > 1 ? ["sector", sector.ticks[1], 12000, 0.1] : ["verdict", verdict, 3600, 0.75];
  byId("what").value = what; layout(); scale = fit(width / wide); cursor = tick; look(tick - share * width / scale, scale);
});
"##;

/// What stands between the script and the data.
pub const BEFORE_DATA: &str = r##"</script>
<script type="text/plain" id="data">
"##;

/// What stands behind the data.
pub const PAGE_END: &str = r##"</script>
</body>
</html>
"##;
