//! The text of the gains on the page of a run whose gains can be changed.
ghost use Rattle.std.specs.Prelude.{◌≡◌};
ghost use Rattle.status_page.specs.ControlPages.{controls_text};

/// The gains, with their style and their script. They come before the end of the page's body, and use its functions.
pub const CONTROLS: &str = r##"<style>
#control { margin-bottom: 6px; }
#control > p { margin: 0 0 4px; display: flex; gap: .8em; align-items: baseline; }
#control input, #control button { font: inherit; color: inherit; }
#token { width: 14em; padding: 1px 4px; background: var(--card); border: 1px solid var(--line); border-radius: 3px; }
#banks { display: grid; grid-template-columns: repeat(auto-fit, minmax(22em, 1fr)); gap: 6px; }
#banks { border: 0; margin: 0; padding: 0; }
.bank { background: var(--card); border: 1px solid var(--line); border-radius: 4px; padding: 2px 6px 4px; }
.bank { min-width: 0; }
.bank summary { cursor: pointer; }
.fader { display: grid; grid-template-columns: 4.5em 1fr 5em 3.5em; gap: 6px; align-items: center; }
.fader input { width: 100%; margin: 0; accent-color: var(--bar); }
.fader output { text-align: right; white-space: nowrap; }
.fader button { padding: 0 4px; background: var(--track); border: 1px solid var(--line); border-radius: 3px; }
.fader button[aria-pressed="true"] { background: var(--bad-ground); border-color: var(--bad); color: var(--bad); }
</style>
<section id="control" aria-label="Gains">
<p><label for="token">Token</label> <input id="token" type="password" autocomplete="off" spellcheck="false">
<span id="told" role="status"></span>
<span id="planned" class="soft" title="changes of gains that are still to come"></span></p>
<fieldset id="banks"></fieldset>
</section>
<script>
"use strict";
(() => {
const UNITY = 65536, SILENT = -601, MOST = 240, OWN_FOR = 400, OPEN_UP_TO = 64, SECOND = 48000;
const POLL_EVERY = 200, POLL_WITHOUT_TOKEN = 1000;
const FAULTS = {
  token: "\u2715 this is not the run's token",
  origin: "\u2715 this page is not the run's own",
  rate: "\u25b2 more than 200 changes in a second",
  "no answer": "\u2715 the run does not answer",
  "too many": "\u25b2 64 changes are planned already",
};
const [field, told, planned, banks] = ["token", "told", "planned", "banks"].map(name => document.getElementById(name));
let faders = [], built = "", refused = "";

document.getElementById("streams").before(document.getElementById("control"));

// ---- the token, which only this tab keeps

function keep() {
  sessionStorage.setItem("token", field.value);
  banks.disabled = field.value === "";
  tell(field.value === "" ? "Type the token to change gains." : "", "soft");
}

function tell(text, name) {
  show(told, text);
  style(told, name);
}

// the header field with the token, if one is typed that a header field can carry
const hasToken = () => /^[!-~]+$/.test(field.value);
const bearer = () => hasToken() ? { Authorization: "Bearer " + field.value } : {};

field.value = sessionStorage.getItem("token") || "";
field.addEventListener("input", keep);
keep();

// ---- gains and decibels; a fader counts in tenths of a decibel

const within = (tenth, least) => Math.min(MOST, Math.max(least, tenth));
const tenths = gain => gain === 0 ? SILENT : within(Math.round(200 * Math.log10(Math.abs(gain) / UNITY)), SILENT + 1);
const gainAt = tenth => tenth <= SILENT ? 0 : Math.round(UNITY * 10 ** (tenth / 200));

function words(gain) {
  const db = 20 * Math.log10(Math.abs(gain) / UNITY), plus = db >= .05 ? "+" : "";
  return (gain < 0 ? "\u00f8 " : "") + plus + level(Math.abs(db) < .05 ? 0 : db) + " dB";
}

function spoken(gain) {
  return gain === 0 ? "silent" : (gain < 0 ? "inverted, " : "") + words(Math.abs(gain)).replace("\u2212", "minus ");
}

// ---- the faders of a matrix, built once; the rows of an output are built when they are first shown

function build(gains) {
  const open = gains.length * gains[0].length <= OPEN_UP_TO;
  banks.replaceChildren();
  faders = gains.map((row, output) => {
    const bank = make("details", banks, "bank");
    make("summary", bank, "soft", "gains of out " + output);
    const rows = { bank, list: null, gains: row };
    const fillOnce = () => {
      if (rows.list !== null || !bank.open) return;
      rows.list = rows.gains.map((gain, input) => buildFader(bank, output, input, gain));
    };
    bank.addEventListener("toggle", fillOnce);
    bank.open = open;
    fillOnce();
    return rows;
  });
}

function buildFader(bank, output, input, gain) {
  const row = make("div", bank, "fader");
  make("span", row, "soft", "in " + input);
  const slider = make("input", row), text = make("output", row), mute = make("button", row, "", "mute");
  const fader = { output, input, slider, text, mute, gain: null, kept: UNITY };
  Object.assign(fader, { changedAt: -Infinity, sending: false, again: false });
  Object.assign(slider, { type: "range", min: SILENT, max: MOST, step: 1 });
  slider.setAttribute("aria-label", "gain of input " + input + " in output " + output);
  mute.type = "button";
  mute.setAttribute("aria-label", "mute input " + input + " in output " + output);
  slider.addEventListener("input", () => change(fader, signOf(fader) * gainAt(slider.valueAsNumber)));
  slider.addEventListener("keydown", event => step(fader, event));
  mute.addEventListener("click", () => change(fader, fader.gain === 0 ? fader.kept : 0));
  draw(fader, gain);
  return fader;
}

const signOf = fader => (fader.gain || fader.kept) < 0 ? -1 : 1;

// an arrow moves a fader by 1 dB, and by 0.1 dB with Shift
function step(fader, event) {
  const up = { ArrowUp: 1, ArrowRight: 1, ArrowDown: -1, ArrowLeft: -1 }[event.key];
  if (up === undefined) return;
  event.preventDefault();
  const tenth = fader.slider.valueAsNumber + up * (event.shiftKey ? 1 : 10);
  change(fader, signOf(fader) * gainAt(within(tenth, SILENT)));
}

function draw(fader, gain) {
  if (fader.gain === gain) return;
  fader.gain = gain;
  if (gain !== 0) fader.kept = gain;
  fader.slider.value = tenths(gain);
  fader.slider.setAttribute("aria-valuetext", spoken(gain));
  show(fader.text, words(gain));
  fader.mute.setAttribute("aria-pressed", gain === 0);
}

// ---- changes; one request at a time for each fader, and then its newest gain

function change(fader, gain) {
  fader.changedAt = performance.now();
  if (fader.gain === gain) return;
  draw(fader, gain);
  send(fader);
}

async function send(fader) {
  fader.again = true;
  if (fader.sending) return;
  fader.sending = true;
  while (fader.again) {
    fader.again = false;
    await put(fader);
  }
  fader.sending = false;
}

async function put(fader) {
  const { output, input, gain } = fader, token = field.value;
  try {
    const answer = await fetch("/gains", {
      method: "PUT",
      cache: "no-store",
      headers: { ...bearer(), "Content-Type": "application/json" },
      body: JSON.stringify({ at: null, cell: [output, input], gain }),
    });
    const { fault } = answer.ok ? {} : await answer.json();
    refused = fault === "token" ? token : "";
    if (answer.ok) return tell("", "soft");
    tell(FAULTS[fault] || "\u2715 refused: " + fault, "bad word");
  } catch (fault) {
    console.error(fault);
    tell("\u2715 the change was not sent", "bad word");
  }
}

// ---- the gains of the run, also those that others changed

function update(gains) {
  const counts = gains.length + " " + gains[0].length, now = performance.now();
  if (counts !== built) build(gains);
  built = counts;
  faders.forEach((rows, output) => {
    rows.gains = gains[output];
    if (rows.list === null) return;
    for (const fader of rows.list) {
      if (!fader.sending && now - fader.changedAt > OWN_FOR) draw(fader, gains[output][fader.input]);
    }
  });
}

// the changes that are still to come: how many, and when the next one is in force
function plan(reply) {
  const left = reply.planned.map(time => (time - reply.next_block_start) / SECOND);
  show(planned, left.length > 0 ? left.length + " planned, next in " + exact(Math.ceil(left[0])) + " s" : "");
}

function take(reply) {
  update(reply.gains);
  plan(reply);
}

// an answer that has no gains, as after too many reads without the token, leaves those that are shown
async function poll() {
  for (;;) {
    try {
      const answer = document.hidden ? null : await fetch("/gains", { cache: "no-store", headers: bearer() });
      if (answer && answer.ok) take(await answer.json());
    } catch (fault) {
      console.error(fault);
    }
    await rest(hasToken() && field.value !== refused ? POLL_EVERY : POLL_WITHOUT_TOKEN);
  }
}

poll();
})();
</script>
"##;

/// Returns the text of the gains on the page.
// A function, so that a contract can name the text by `controls_text`, which is unfolded here alone.
#[tactic(auto, unfolding(crate::specs::ControlPages::controls_text))]
pub(crate) fn controls_html() -> &'static str
    ensures { result.now ≡ controls_text }
{
    CONTROLS
}
