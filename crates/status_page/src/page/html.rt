//! The text of the page.
ghost use Rattle.std.specs.Prelude.{◌≡◌};
ghost use Rattle.status_page.specs.Responses.{page_text};

/// The page, with its style and its script.
pub const HTML: &str = r##"<!doctype html>
<html lang="en">
<head>
<meta charset="utf-8">
<meta name="viewport" content="width=device-width, initial-scale=1">
<link rel="icon" href="data:,">
<title>Darbexum</title>
<style>
:root {
  color-scheme: light dark;
  --size: 11px;
  --ground: #f4f5f7; --card: #ffffff; --line: #d5d9e0; --text: #14181f; --soft: #566071;
  --good: #1b7f46; --bad: #c4182c; --warn: #94600a; --bar: #3d73c9; --track: #e3e7ee; --bad-ground: #fde7e9;
}
@media (prefers-color-scheme: dark) {
  :root {
    --ground: #111419; --card: #1a1f27; --line: #2f3744; --text: #e8ebf0; --soft: #9aa6b8;
    --good: #4cc785; --bad: #ff6b76; --warn: #e3b04b; --bar: #6ea3f2; --track: #2a313d; --bad-ground: #42191f;
  }
}
* { box-sizing: border-box; }
body {
  margin: 0; padding: 6px 8px; background: var(--ground); color: var(--text);
  font: var(--size)/1.3 system-ui, -apple-system, "Segoe UI", "Liberation Sans", sans-serif;
  font-variant-numeric: tabular-nums;
}
h1, h2 { font-size: 1em; margin: 0; display: inline; }
header, #nets { display: flex; flex-wrap: wrap; gap: 6px; }
header { margin-bottom: 6px; }
#about { padding: 3px 0; width: 21em; }
#about h1 { font-size: 1.25em; }
#link { display: block; color: var(--soft); }
#link.off { color: var(--bad); font-weight: 700; }
#record, #wav, #pcm, #sends { display: block; overflow: hidden; text-overflow: ellipsis; white-space: nowrap; }
#whole { flex: 1 1 24em; min-width: 0; display: flex; flex-direction: column; gap: 6px; }
#run { display: flex; gap: .7em; align-items: baseline; font-size: 1.8em; line-height: 1.2; white-space: nowrap; }
#run b { font-size: 1.5em; }
#run span { overflow: hidden; text-overflow: ellipsis; }
#waiting { flex-shrink: 100; }
#nets { flex: 1; }
.net, #run { background: var(--card); border: 1px solid var(--line); border-radius: 4px; padding: 3px 8px; }
.net { flex: 1 1 27em; }
.net b, .net .word { font-size: 1.2em; line-height: 1.2; margin-right: .5em; }
.net div { line-height: 1.2; }
.net div span { display: inline-block; margin-right: .8em; white-space: nowrap; }
.failing { border-color: var(--bad) !important; background: var(--bad-ground) !important; }
.losing { border-color: var(--warn) !important; }
.soft { color: var(--soft); }
.word { font-weight: 700; }
.good { color: var(--good); } .bad { color: var(--bad); } .warn { color: var(--warn); }
#outputs { display: grid; grid-template-columns: repeat(8, 1fr); gap: 6px; margin-bottom: 6px; }
.out { background: var(--card); border: 1px solid var(--line); border-radius: 4px; padding: 2px 6px 4px; }
.out p { margin: 0; display: flex; justify-content: space-between; white-space: nowrap; }
.meter { position: relative; height: 7px; background: var(--track); border-radius: 2px; overflow: hidden; }
.meter i { position: absolute; inset: 0 auto 0 0; width: 0; background: var(--bar); }
.meter b { position: absolute; top: 0; bottom: 0; width: 2px; background: var(--text); }
#streams { display: grid; grid-template-columns: repeat(auto-fit, minmax(min(27.5em, 100%), 1fr)); gap: 6px; }
.stream { container-type: inline-size; background: var(--card); border: 1px solid var(--line); border-radius: 4px; padding: 3px 6px; min-width: 0; }
.stream.lost { border-color: var(--bad); }
.top { display: flex; gap: .7em; align-items: baseline; white-space: nowrap; }
.top h2 { overflow: hidden; text-overflow: ellipsis; flex: 0 1 auto; min-width: 3em; }
.top .right { margin-left: auto; white-space: pre; }
canvas { display: block; width: 100%; height: 1.45em; margin: 2px 0 1px; }
table { border-collapse: collapse; width: 100%; table-layout: fixed; }
th { width: 13%; }
th:first-child { width: 7%; } th:nth-child(2) { width: 12%; } th:nth-child(4) { width: 10%; } th:nth-child(6) { width: 14%; }
th:last-child { width: auto; }
th { color: var(--soft); font-weight: 400; text-align: right; padding: 0 2px; vertical-align: bottom; line-height: 1.15; }
td { text-align: right; padding: 0 2px; white-space: nowrap; }
th:first-child, td:first-child { text-align: left; padding-left: 0; }
th:last-child, td:last-child { padding-right: 0; text-align: left; padding-left: 5px; }
tr.failing td:first-child { font-weight: 700; }
.spare { display: inline-block; position: relative; width: 2.5em; height: .75em; background: var(--track); border-radius: 2px; margin-right: 4px; overflow: hidden; }
.spare i { position: absolute; inset: 0 auto 0 0; background: var(--bar); opacity: .55; }
.spare b { position: absolute; inset: 0 auto 0 0; background: var(--bar); }
td .word:not(:empty) { margin-right: .4em; }
@container (max-width: 52em) { tr.failing .least, tr.failing .more, tr.losing .more, tr.losing .spare { display: none !important; } }
@container (max-width: 39em) { .spare { display: none !important; } }
@container (max-width: 33em) { td.word { letter-spacing: -.04em; } }
@media (max-width: 480px) {
  :root { --size: 12px !important; }
  #run { flex-direction: column; gap: 0; font-size: 1.4em; }
  #run b { font-size: 1.9em; }
  #run span { max-width: 100%; min-height: 1.2em; }
  #outputs { grid-template-columns: repeat(auto-fit, minmax(10em, 1fr)) !important; }
}
.note { margin: 1px 0 0; color: var(--soft); overflow: hidden; text-overflow: ellipsis; white-space: nowrap; min-height: 1.3em; }
.notes { display: flow-root; min-height: 2.8em; }
.many .notes { min-height: 1.4em; display: flex; gap: .7em; }
.notes .note:empty { display: none; }
.note.warn { color: var(--warn); } .note.bad { color: var(--bad); }
</style>
</head>
<body>
<header>
<div id="about"><h1>Darbexum</h1> <span id="link" role="status">connecting</span>
<span id="record"></span><span id="wav"></span><span id="pcm"></span><span id="sends"></span></div>
<div id="whole"><div id="run" role="status"><b>&nbsp;</b><span id="problems"></span><span id="waiting" class="soft"></span></div>
<div id="nets"></div></div>
</header>
<section id="outputs" aria-label="Output channels"></section>
<main id="streams"></main>
<noscript>This page needs its script. The same numbers are at /state and /metrics.</noscript>
<script>
"use strict";
const LETTERS = ["a", "b", "c", "d"];
const FULL_SCALE = 8388608, RATE = 48000, FLOOR = -60;
const ASK_EVERY = 100, RATE_SPAN = 1000, HOLD = 2000, BINS = 60, LEFT_SOON = 600;
// streams from which on their notes share a line, and characters of a name among the problems
const MANY = 10, NAME_LENGTH = 24;
const CONDITIONS = {
  no_packet: ["\u25cb no packet yet", "soft"],
  running: ["\u25cf running", "good"],
  lost: ["\u2715 lost", "bad"],
  ended: ["\u25a0 ended", "soft"],
};
// the states of a path, the worst first
const STATES = {
  given_up: ["given up", "bad"],
  not_joined: ["not joined", "bad"],
  no_datagrams: ["no datagrams", "bad"],
  refused: ["refused", "bad"],
  late: ["late", "bad"],
  too_early: ["too early", "bad"],
  losing: ["losing", "warn"],
  in_time: ["in time", "good"],
};
const SIGNS = { bad: "\u2715 ", warn: "\u25b2 ", good: "\u25cf ", soft: "\u25cb " };
const COLUMNS = [
  ["path", "the path by its letter"],
  ["pk/s", "packets a second in the last second"],
  ["lost", "packets that the stream lost, or that another path brought and this one did not"],
  ["first", "the share of packets whose first copy came on this path, in the last second"],
  ["double", "further copies, with the payload of the first"],
  ["late", "packets after their deadline"],
  ["margin ms: least, median, drift ppm", "the arrival margin: the time from arrival to deadline in the last second, and its drift over the last minute"],
];
const REFUSED = { unlike: "unlike", bad: "no RTP", wrong_type: "type", wrong_length: "length", full: "no room", unexpected: "other address" };
const REFUSED_BY_STREAM = { off_grid: "off grid", ahead: "ahead", wrong_source: "source" };

let shape = "", view = null, paint = null, history = [], ended = false;

// ---- elements

function make(tag, parent, name, text) {
  const element = document.createElement(tag);
  if (name) element.className = name;
  if (text !== undefined) element.textContent = text;
  if (parent) parent.append(element);
  return element;
}

// sets a text only if it changes, so that a selection stays
function show(element, text) {
  const node = element.firstChild;
  if (!node) element.append(text);
  else if (node.data !== text) node.data = text;
}

function mark(element, name, on) {
  if (element.classList.contains(name) !== on) element.classList.toggle(name, on);
}

function style(element, name) {
  if (element.className !== name) element.className = name;
}

function set(element, property, value) {
  if (element[property + "Now"] === value) return;
  element[property + "Now"] = value;
  element.style[property] = value;
}

function percent(share) {
  return (100 * Math.min(1, Math.max(0, share))).toFixed(1);
}

function width(element, share) {
  set(element, "width", percent(share) + "%");
}

const whole = new Intl.NumberFormat("en");
const exact = n => whole.format(Math.round(n));
// up to five digits, and then the first three: the whole number is at /state
const few = new Intl.NumberFormat("en", { notation: "compact", maximumSignificantDigits: 3 });
const count = n => n < 99999.5 ? exact(n) : few.format(n);
// up to four digits, for the narrow columns of many streams
const brief = n => n < 9999.5 ? exact(n) : few.format(n);
// a number that is not known is a dash
const known = (n, text) => n === null ? "\u2013" : text(n);
const millis = n => (1000 * n / RATE).toFixed(n < 4800 ? 1 : 0);
const decibels = peak => peak > 0 ? 20 * Math.log10(peak / FULL_SCALE) : -Infinity;
const signed = n => (n > 0 ? "+" : "") + exact(n).replace("-", "\u2212");
const level = db => db === -Infinity ? "\u2212\u221e" : db.toFixed(1).replace("-", "\u2212");

// ---- the elements of a studio, built once

function build(state) {
  const streams = state.streams.length;
  document.documentElement.style.setProperty("--size", streams <= 4 ? "14px" : streams <= 9 ? "12px" : "11px");
  const paths = Math.max(0, ...state.streams.map(stream => stream.paths.length)), row = document.getElementById("nets");
  row.replaceChildren();
  const nets = LETTERS.slice(0, paths).map(letter => buildNet(row, letter));
  const outputs = document.getElementById("outputs");
  outputs.replaceChildren();
  outputs.style.gridTemplateColumns = "repeat(" + Math.max(4, state.outputs.length) + ", 1fr)";
  const main = document.getElementById("streams");
  main.replaceChildren();
  mark(main, "many", streams >= MANY);
  return {
    nets,
    number: streams >= MANY ? brief : count,
    outputs: state.outputs.map((_, n) => buildOutput(outputs, n)),
    streams: state.streams.map((stream, n) => buildStream(main, stream, n)),
  };
}

function buildNet(parent, letter) {
  const box = make("div", parent, "net");
  make("b", box, "", "path " + letter);
  const word = make("span", box, "word"), line = make("div", box);
  return { box, word, rate: make("span", line), lost: make("span", line), first: make("span", line) };
}

function buildOutput(parent, n) {
  const box = make("div", parent, "out");
  const line = make("p", box);
  make("span", line, "soft", "out " + n);
  const text = make("span", line);
  const meter = make("div", box, "meter");
  const clip = make("p", box);
  return { clip, text, bar: make("i", meter), held: make("b", meter), hold: -Infinity, holdAt: 0, saturated: null, clipAt: -Infinity };
}

function buildStream(parent, stream, n) {
  const box = make("section", parent, "stream");
  const top = make("div", box, "top");
  make("h2", top, "", stream.name || "stream " + n).title = stream.name || "";
  const redundancy = make("span", top, "right"), word = make("span", top, "word");
  redundancy.title = "paths that are in time or losing, of all paths";
  const line = make("div", box, "top");
  const epoch = make("span", line, "soft");
  const counts = make("span", line, "right");
  const strip = make("canvas", box);
  strip.setAttribute("role", "img");
  const table = make("table", box);
  const head = make("tr", make("thead", table));
  for (const [word, title] of COLUMNS) {
    const cell = make("th", head, "", word);
    cell.scope = "col";
    cell.title = title;
  }
  const body = make("tbody", table);
  const paths = stream.paths.map((_, path) => buildPath(body, LETTERS[path]));
  const note = make("p", box, "note"), notes = make("div", box, "notes");
  const astray = make("p", notes, "note bad"), sockets = make("p", notes, "note");
  return { box, redundancy, word, epoch, counts, strip, paths, note, sockets, astray, bins: [] };
}

function buildPath(body, letter) {
  const row = make("tr", body);
  make("td", row, "", letter);
  const cells = {};
  for (const name of ["rate", "lost", "first", "double", "late"]) cells[name] = make("td", row);
  const last = make("td", row);
  const bar = make("span", last, "spare");
  const median = make("i", bar), least = make("b", bar), word = make("span", last, "word");
  return { row, cells, last, bar, median, least, word, spare: make("span", last, "least"), more: make("span", last, "more") };
}

// ---- changes since an earlier snapshot

// the snapshot of about a second ago, and the seconds since
function earlier(state, now) {
  const last = history[history.length - 1];
  if (last && fell(last.state, state)) {
    history = [];
    for (const stream of view.streams) stream.bins = [];
  }
  history.push({ state, now });
  while (history.length > 2 && now - history[1].now >= RATE_SPAN) history.shift();
  return { old: history[0].state, last: history.length > 1 ? history[history.length - 2].state : state,
           seconds: Math.max(.05, (now - history[0].now) / 1000) };
}

// another run: a count is less than it was
function fell(old, state) {
  return state.streams.some((stream, n) => stream.got < old.streams[n].got || stream.arrived < old.streams[n].arrived);
}

function draw(state, now) {
  const wanted = JSON.stringify([state.streams.map(s => [s.name, s.paths.length]), state.outputs.length]);
  if (wanted !== shape) {
    shape = wanted;
    history = [];
    view = build(state);
    paint = null;
  }
  if (paint === null) measure();
  const since = earlier(state, now);
  ended = state.streams.length > 0 && state.streams.every(stream => stream.state === "ended");
  drawRun(state, since.old);
  // a network is judged by the streams that run, and if none does by those that are lost
  const judged = state.streams.some(stream => stream.state === "running") ? "running" : "lost";
  const nets = view.nets.map(() => ({ rate: 0, lost: 0, all: 0, first: 0, taken: 0, running: false, silent: false, states: [] }));
  const problems = { lost: [], bad: [], warn: [] };
  state.streams.forEach((stream, n) => {
    drawStream(view.streams[n], stream, since.old.streams[n], since.last.streams[n], since.seconds, now, nets);
    if (stream.state === judged) stream.paths.forEach((path, p) => nets[p].states.push(path.state));
    addProblems(problems, stream, n, since.old.streams[n], since.seconds);
  });
  view.nets.forEach((net, n) => drawNet(net, nets[n]));
  drawWord(state, since.old, problems);
  state.outputs.forEach((output, n) => drawOutput(view.outputs[n], output, now));
}

// the record of the run, its WAV file and raw PCM if it has these, and the sends of both copies of its mix
function drawRun(state, old) {
  const record = document.getElementById("record"), sends = document.getElementById("sends");
  drawWav(document.getElementById("wav"), state.wav);
  drawPcm(document.getElementById("pcm"), state.pcm, old.pcm);
  const { state: kind, datagrams } = state.record, closed = kind === "ended";
  show(record, kind === "none" ? "no record" : (closed ? "\u2715 record ended at " : "\u25cf record ") + exact(datagrams));
  style(record, closed ? "bad word" : kind === "none" ? "soft" : "good");
  const failed = state.failed_sends, all = failed[0] + failed[1];
  const counts = [["stale", state.stale], ["incomplete", state.incomplete], ["sent late", state.sent_late], ["left out", state.left_out]];
  const more = counts.filter(([, count]) => count > 0).map(([word, count]) => ", " + word + " " + exact(count)).join("");
  show(sends, all > 0 ? "\u25b2 sends failed: a " + exact(failed[0]) + ", b " + exact(failed[1]) + more : "no send failed" + more);
  style(sends, all > old.failed_sends[0] + old.failed_sends[1] ? "bad word" : all > 0 ? "warn" : "soft");
}

// the problems of a stream: that it is lost, or those of its paths
function addProblems(problems, stream, n, old, seconds) {
  const name = nameOf(stream, n);
  if (stream.state === "lost") problems.lost.push(name + ": lost");
  if (stream.state !== "running") return;
  stream.paths.forEach((path, p) => {
    const [word, kind] = wordOf(path, old.paths[p], seconds);
    if (kind in problems) problems[kind].push(name + ": " + LETTERS[p] + " " + word);
  });
}

function nameOf(stream, n) {
  const name = stream.name || "stream " + n;
  return name.length > NAME_LENGTH ? name.slice(0, NAME_LENGTH - 1) + "\u2026" : name;
}

// the run in a word, with its problems, the worst first
function drawWord(state, old, { lost, bad, warn }) {
  state.failed_sends.forEach((failed, n) => { if (failed > old.failed_sends[n]) bad.push("copy " + LETTERS[n] + " not sent"); });
  if (state.record.state === "ended") bad.push("record ended");
  if (state.wav.state === "ended") bad.push("WAV file ended");
  if (state.pcm.state === "ended") bad.push("PCM closed");
  const all = [...lost, ...bad, ...warn], running = state.streams.filter(stream => stream.state === "running");
  const waiting = state.streams.map(nameOf).filter((_, n) => state.streams[n].state === "no_packet").join(", ");
  const named = waiting && (all.length > 0 || running.length > 0) ? "no packet yet: " + waiting : "";
  const counted = all.length + (all.length === 1 ? " problem" : " problems");
  if (ended) showWord("\u25a0 ended", "soft");
  else if (all.length > warn.length) showWord("\u2715 " + counted, "bad", all.join("; "), named);
  else if (all.length > 0) showWord("\u25b2 " + counted, "warn", all.join("; "), named);
  else if (running.length === 0) showWord(waiting ? "\u25cb no packet yet" : "\u00a0", "soft");
  else if (running.some(stream => stream.paths.some(path => path.state === null))) showWord("\u25cf running", "good", "", named);
  else showWord("\u25cf all good", "good", "", named);
}

function showWord(word, kind, problems = "", waiting = "") {
  const box = document.getElementById("run"), list = document.getElementById("problems");
  show(box.firstChild, word);
  style(box.firstChild, kind);
  mark(box, "failing", kind === "bad");
  mark(box, "losing", kind === "warn");
  show(list, problems);
  list.title = problems;
  show(document.getElementById("waiting"), waiting);
}

// the WAV file of the run; no line without one
function drawWav(line, wav) {
  const closed = wav.state === "ended", blocks = exact(wav.blocks) + " blocks";
  show(line, closed ? "\u2715 WAV file: ended after " + blocks : "\u25cf WAV file: " + blocks);
  style(line, closed ? "bad word" : "good");
  line.title = closed ? "nothing that is mixed is added to the WAV file any more" : "blocks of the mix in the WAV file";
  set(line, "display", wav.state === "none" ? "none" : "block");
}

const PCM_WORDS = { none: "", waiting: "no reader", writing: "reading", ended: "closed" };

// the raw PCM of the run; no line without it
function drawPcm(line, pcm, old) {
  const all = pcm.blocks + pcm.left_out, closed = pcm.state === "ended";
  const sign = closed ? "\u2715" : pcm.left_out > 0 ? "\u25b2" : "\u25cf";
  show(line, sign + " PCM: " + exact(pcm.blocks) + " of " + exact(all) + " blocks, " + PCM_WORDS[pcm.state]);
  style(line, closed || pcm.left_out > old.left_out ? "bad word" : pcm.left_out > 0 ? "warn" : "good");
  line.title = "blocks of the mix that were written as raw PCM; " + exact(pcm.left_out) + " were left out";
  set(line, "display", pcm.state === "none" ? "none" : "block");
}

function drawNet(net, sum) {
  const [word, kind] = netWord(sum);
  mark(net.box, "failing", kind === "bad");
  mark(net.box, "losing", kind === "warn");
  show(net.word, SIGNS[kind] + word);
  style(net.word, "word " + kind);
  show(net.rate, count(sum.rate) + " pk/s");
  show(net.lost, sum.lost === null ? "" : "lost " + count(sum.lost) + "/s, " + exact(sum.all) + " in all");
  show(net.first, "first " + share(sum.first, sum.taken));
}

// the worst state of the paths with a letter, or what their numbers say if a state is not known
function netWord(sum) {
  if (sum.states.length === 0) return ["idle", "soft"];
  if (!sum.states.includes(null)) return STATES[Object.keys(STATES).find(state => sum.states.includes(state))];
  if (sum.running && sum.silent) return ["silent", "bad"];
  if (sum.lost > 0) return ["losing", "warn"];
  if (!sum.running) return ["idle", "soft"];
  return [sum.lost === null ? "heard" : "whole", "good"];
}

// a part of what was taken in the same snapshots, so at most 100%
function share(part, all) {
  return all > 0 ? Math.round(100 * part / all) + "%" : "\u2013";
}

function drawStream(it, stream, old, last, seconds, now, nets) {
  const [word, kind] = CONDITIONS[stream.state] || [stream.state, "soft"];
  show(it.word, word);
  style(it.word, "word " + kind);
  drawRedundancy(it.redundancy, stream);
  mark(it.box, "lost", stream.state === "lost");
  show(it.epoch, "epoch " + exact(stream.restarts) + timeLeft(stream.seconds_left));
  style(it.epoch, stream.seconds_left !== null && stream.seconds_left < LEFT_SOON ? "warn" : "soft");
  fill(it.bins, stream.got - last.got, stream.lost - last.lost, now);
  const lately = it.bins.reduce((sum, bin) => sum + bin.lost, 0);
  show(it.counts, "got " + exact(stream.got) + "  lost " + exact(stream.lost) + (lately > 0 ? " (" + count(lately) + " in 60 s)" : ""));
  style(it.counts, lately > 0 ? "right bad" : "right");
  drawStrip(it, now, lately);
  const taken = stream.taken - old.taken;
  stream.paths.forEach((path, n) => {
    drawPath(it.paths[n], stream, path, old.paths[n], taken, seconds);
    sumPath(nets[n], stream, path, old.paths[n], taken, seconds);
  });
  const words = notes(stream), none = stream.paths.some(path => path.bad === null) ? "refused on paths: not known" : "nothing refused";
  show(it.note, words.length > 0 ? "refused: " + words.join(", ") : none);
  style(it.note, words.length > 0 ? "note warn" : "note");
  drawSockets(it.sockets, stream);
  drawAstray(it.astray, stream, old);
}

// how many paths bring a stream that runs, if it has more than one; its place stays
function drawRedundancy(text, { state, redundancy, paths }) {
  const all = paths.length, shown = state === "running" && all > 1 && paths.every(path => path.state !== null);
  show(text, "redundancy " + redundancy + " of " + all);
  style(text, "right " + (redundancy === 0 ? "bad word" : redundancy < all ? "warn word" : "good"));
  set(text, "visibility", shown ? "visible" : "hidden");
}

// the time until packets will be late or too early, if it is less than a day
function timeLeft(seconds) {
  if (seconds === null || seconds >= 86400) return "";
  return ", " + (seconds < 120 ? exact(seconds) + " s" : seconds < 7200 ? exact(seconds / 60) + " min" : exact(seconds / 3600) + " h") + " left";
}

// paths of which no packet is in time, with what to do
function drawAstray(line, stream, old) {
  const words = [];
  stream.paths.forEach((path, n) => {
    const early = path.ahead - old.paths[n].ahead > path.late - old.paths[n].late;
    if (path.repeating > 0) words.push(LETTERS[n] + " repeats numbers that were heard: start its sender with other numbers, or this run again");
    else if (path.astray > 0) words.push(LETTERS[n] + (early ? ": all packets too early: larger window" : ": all packets late: more latency") + ", or clock = \"follow\"");
  });
  show(line, words.join("; "));
  line.title = words.join("; ");
}

// the faults of a stream's sockets, and what was dropped or left out there
function drawSockets(line, stream) {
  const words = [], unknown = [];
  stream.paths.forEach((path, n) => {
    if (path.socket_ended > 0) words.push(LETTERS[n] + " given up");
    if (path.socket_faults > 0) words.push(LETTERS[n] + " faults " + count(path.socket_faults));
    if (path.socket_dropped > 0) words.push(LETTERS[n] + " dropped " + count(path.socket_dropped));
    if (path.too_long > 0) words.push(LETTERS[n] + " too long " + count(path.too_long));
    if (path.held_up > 0) words.push(LETTERS[n] + " held up " + count(path.held_up));
    if (path.socket_dropped === null) unknown.push(LETTERS[n]);
  });
  const bad = words.length > 0;
  if (unknown.length > 0) words.push("drops not known on " + unknown.join(", "));
  show(line, words.length > 0 ? "sockets: " + words.join(", ") : "");
  line.title = words.join(", ");
  style(line, bad ? "note warn" : "note");
}

// the packets of a path, or its datagrams if packets are not counted
const came = path => path.packets ?? path.datagrams;

// the increase of a number, if it is known
const more = (now, before) => now === null || before === null ? null : now - before;

// true if nothing came for half a second
function isSilent(rate, seconds) {
  return rate === 0 && seconds >= .5;
}

function sumPath(net, stream, path, old, taken, seconds) {
  net.rate += (came(path) - came(old)) / seconds;
  net.lost = path.lost === null ? null : net.lost + more(path.lost, old.lost) / seconds;
  net.all += path.lost;
  net.first += path.first - old.first;
  net.taken += taken;
  net.running = net.running || stream.state === "running";
  net.silent = isSilent(net.rate, seconds);
}

// the word of a path, and how bad it is: its state, or whether it is silent if that is not known
function wordOf(path, old, seconds) {
  if (path.state !== null) return STATES[path.state];
  return isSilent((came(path) - came(old)) / seconds, seconds) ? ["silent", "bad"] : ["", ""];
}

function drawPath(it, stream, path, old, taken, seconds) {
  const [word, kind] = stream.state === "ended" ? ["", ""] : wordOf(path, old, seconds);
  const active = stream.state === "running" || stream.state === "lost", fault = kind === "good" ? "" : word;
  mark(it.row, "failing", active && kind === "bad");
  mark(it.row, "losing", active && kind === "warn");
  show(it.word, fault);
  style(it.word, "word " + (active ? kind : "soft"));
  show(it.cells.rate, count((came(path) - came(old)) / seconds));
  show(it.cells.lost, known(path.lost, view.number));
  style(it.cells.lost, path.lost > old.lost ? "bad word" : "");
  show(it.cells.first, share(path.first - old.first, taken));
  show(it.cells.double, known(path.double, view.number));
  show(it.cells.late, known(path.late, view.number));
  style(it.cells.late, path.late > old.late ? "bad word" : path.late > 0 ? "warn" : "");
  const spares = path.spare_least !== null;
  set(it.bar, "display", spares ? "inline-block" : "none");
  const none = fault ? "" : path.lost === null ? "\u2013" : "none in time";
  show(it.spare, spares ? millis(path.spare_least) : none);
  show(it.more, spares ? ", " + millis(path.spare_median) + ", " + known(path.drift_ppm, signed) : "");
  it.last.title = fault + " " + it.spare.textContent + it.more.textContent;
  if (spares) {
    width(it.least, path.spare_least / stream.latency);
    width(it.median, path.spare_median / stream.latency);
  }
}

// the refused datagrams, by reason
function notes(stream) {
  const words = [];
  stream.paths.forEach((path, n) => {
    for (const key in REFUSED) if (path[key] > 0) words.push(LETTERS[n] + " " + REFUSED[key] + " " + count(path[key]));
  });
  for (const key in REFUSED_BY_STREAM) if (stream[key] > 0) words.push(REFUSED_BY_STREAM[key] + " " + count(stream[key]));
  return words;
}

// ---- the last minute

function fill(bins, got, lost, now) {
  const second = Math.floor(now / 1000);
  if (bins.length === 0 || bins[bins.length - 1].second !== second) bins.push({ second, got: 0, lost: 0 });
  const bin = bins[bins.length - 1];
  bin.got += got;
  bin.lost += lost;
  while (bins.length > BINS) bins.shift();
}

// sizes and colors are read once, and again after a change of the window or its theme
function measure() {
  const scale = window.devicePixelRatio || 1, colors = getComputedStyle(document.documentElement);
  const sizes = view.streams.map(it => [it.strip.clientWidth * scale, it.strip.clientHeight * scale]);
  view.streams.forEach((it, n) => {
    [it.strip.width, it.strip.height] = sizes[n].map(Math.round);
    it.drawn = "";
  });
  const color = name => colors.getPropertyValue(name);
  paint = { scale, track: color("--track"), bar: color("--bar"), bad: color("--bad") };
}

addEventListener("resize", () => { paint = null; });
matchMedia("(prefers-color-scheme: dark)").addEventListener("change", () => { paint = null; });

// got is drawn from below, lost from above; drawn again if a second or a loss is new
function drawStrip(it, now, lately) {
  const newest = Math.floor(now / 1000), drawn = newest + " " + lately;
  if (it.drawn === drawn) return;
  it.drawn = drawn;
  const { width: wide, height: high } = it.strip, pen = it.strip.getContext("2d");
  pen.fillStyle = paint.track;
  pen.fillRect(0, 0, wide, high);
  const edge = second => Math.round(wide * (BINS - newest + second) / BINS);
  for (const bin of it.bins) {
    const all = bin.got + bin.lost;
    if (all === 0) continue;
    const left = edge(bin.second - 1), across = edge(bin.second) - left - paint.scale;
    const lost = bin.lost === 0 ? 0 : Math.max(.25, bin.lost / all);
    pen.fillStyle = paint.bar;
    pen.fillRect(left, high * Math.max(lost, .55), across, high);
    pen.fillStyle = paint.bad;
    pen.fillRect(left, 0, across, high * lost);
  }
  it.strip.setAttribute("aria-label", "the last minute: lost " + exact(lately));
}

// ---- meters

function drawOutput(it, output, now) {
  const db = decibels(output.peak);
  if (db >= it.hold || now - it.holdAt > HOLD) { it.hold = db; it.holdAt = now; }
  const saturated = output.saturated;
  if (it.saturated !== null && saturated > it.saturated) it.clipAt = now;
  it.saturated = saturated;
  const clips = now - it.clipAt < HOLD;
  show(it.clip, (clips ? "\u25b2 CLIP, " : "") + (saturated > 0 ? exact(saturated) : "none") + " saturated");
  style(it.clip, clips ? "bad word" : saturated > 0 ? "warn" : "soft");
  show(it.text, level(it.hold) + " dBFS");
  width(it.bar, 1 - db / FLOOR);
  set(it.held, "left", "calc(" + percent(1 - it.hold / FLOOR) + "% - 2px)");
}

// ---- requests, ten times a second, one after another

const rest = time => new Promise(done => setTimeout(done, time));

async function ask() {
  const link = document.getElementById("link");
  for (;;) {
    const now = performance.now();
    try {
      const answer = await fetch("/state", { cache: "no-store" });
      draw(await answer.json(), now);
      show(link, ended ? "\u25a0 ended" : "live");
      style(link, "");
    } catch (fault) {
      console.error(fault);
      show(link, ended ? "\u25a0 ended: these are the last numbers" : "\u2715 no answer: these are the last numbers");
      style(link, ended ? "" : "off");
      if (!ended) showWord("\u2715 no answer", "bad");
      history = [];
      await rest(900);
    }
    await rest(Math.max(0, ASK_EVERY - (performance.now() - now)));
  }
}

ask();
</script>
</body>
</html>
"##;

/// Returns the page's text.
// A function, so that a contract can name the text by `page_text`, which is unfolded here alone.
#[tactic(auto, unfolding(crate::specs::Responses::page_text))]
pub(crate) fn page_html() -> &'static str
    ensures { result.now ≡ page_text }
{
    HTML
}
