//! The page.

use crate::data::write_data;
use crate::looks::LOOKS;
use crate::playing::Play;
use crate::registers::{COUNTED, Register, WAITS};
use crate::scene::Scene;
use crate::script::SCRIPT;
use crate::sentences::StepName;
use crate::steps_table::write_steps;
use crate::time_drawing::TimePicture;
use plan_pictures::lines::{Order, PlanText, Verdict};
use std::fmt;

/// All that a page shows. Its words are those of the plan's text: numbers, names of the language, and answers, which are made of letters,
/// digits, spaces and `_`; so none of it needs another spelling in HTML.
#[derive(Clone, Copy)]
pub struct Page<'a> {
    pub plan: &'a PlanText,
    pub orders: &'a [Order],
    pub play: &'a Play<'a>,
    pub verdict: Option<&'a Verdict>,
    /// The plan's drawing.
    pub picture: &'a str,
    pub time: &'a TimePicture<'a>,
}

/// How many cells aren't final.
fn open_cells(plan: &PlanText, scene: &Scene) -> usize {
    let mut open = 0usize;
    let mut number = 0u32;
    for cell in plan.cells() {
        if scene.value(Register::Counter(number)) != cell.needs {
            open = open.saturating_add(1);
        }
        number = number.saturating_add(1);
    }
    open
}

/// How many done counters stand elsewhere than at their thresholds.
fn open_counters(plan: &PlanText, scene: &Scene) -> usize {
    let mut open = 0usize;
    let mut rank = 0u32;
    for threshold in plan.given.done() {
        if scene.value(Register::Done(rank)) != *threshold {
            open = open.saturating_add(1);
        }
        rank = rank.saturating_add(1);
    }
    open
}

/// How many messages and acknowledgements are left on lanes, or wait for a start.
fn left_messages(scene: &Scene) -> usize {
    let mut left = 0usize;
    for link in 0..scene.registers.links {
        let state = scene.value(Register::Link(link));
        if state != WAITS && state != COUNTED {
            left = left.saturating_add(1);
        }
        if scene.value(Register::Answer(link)) == 1 {
            left = left.saturating_add(1);
        }
    }
    left
}

/// How all stands after the last step.
fn write_end<W: fmt::Write>(
    out: &mut fmt::Formatter<W>,
    plan: &PlanText,
    scene: &Scene,
) -> fmt::Result {
    let cells = open_cells(plan, scene);
    let counters = open_counters(plan, scene);
    let messages = left_messages(scene);
    if cells == 0 && counters == 0 && messages == 0 {
        return out.write_str(
            "<p id=\"end\">After the last step every cell is final, each done counter stands at its threshold, \
            and no message is left.</p>\n",
        );
    }
    writeln!(
        out,
        "<p id=\"end\">After the last step {cells} cells aren't final, {counters} done counters aren't at their thresholds, \
         {messages} messages are left.</p>"
    )
}

/// For each rank the step of its order that can't be made, if there is one.
fn write_left<W: fmt::Write>(
    out: &mut fmt::Formatter<W>,
    orders: &[Order],
    made: &[usize],
) -> fmt::Result {
    let mut rank = 0u32;
    for (order, made) in orders.iter().zip(made.iter()) {
        if let Some(step) = order.steps.get(*made) {
            let place = made.saturating_add(1);
            writeln!(
                out,
                "<p class=\"faulty\">Rank {rank} can't make step {place} of its order, {}.</p>",
                StepName(*step)
            )?;
        }
        rank = rank.saturating_add(1);
    }
    Ok(())
}

/// What the page is of.
fn write_header<W: fmt::Write>(out: &mut fmt::Formatter<W>, page: &Page) -> fmt::Result {
    let plan = page.plan;
    let completion = if plan.given.plan().remote() {
        "remote"
    } else {
        "local"
    };
    write!(
        out,
        "<header><h1>A plan of {} ranks, step by step</h1>\n<p>{} cells, {} links, {completion} completion; {} steps.</p>\n",
        plan.ranks,
        plan.cells().len(),
        plan.links().len(),
        page.play.turns.len()
    )?;
    match page.verdict {
        Some(verdict) if verdict.line.is_some() => {
            writeln!(out, "<p class=\"faulty\">{}</p>", verdict.words)?;
        }
        Some(verdict) => writeln!(out, "<p>{}</p>", verdict.words)?,
        None => {}
    }
    write_left(out, page.orders, page.play.made.as_slice())?;
    if page.orders.is_empty() {
        return out.write_str("</header>\n");
    }
    write_end(out, plan, &page.play.scene)?;
    out.write_str("</header>\n")
}

/// A row for each rank.
fn write_ranks<W: fmt::Write>(out: &mut fmt::Formatter<W>, done: &[u64]) -> fmt::Result {
    let mut rank = 0u32;
    for threshold in done {
        writeln!(
            out,
            "<tr id=\"rank-{rank}\"><td>{rank}</td><td></td><td>of {threshold}</td></tr>"
        )?;
        rank = rank.saturating_add(1);
    }
    Ok(())
}

/// What stands before the header.
const HEAD: &str = "<!DOCTYPE html>
<html lang=\"en\">
<head>
<meta charset=\"utf-8\">
<meta name=\"viewport\" content=\"width=device-width, initial-scale=1\">
<title>A plan, step by step</title>
<style>";

/// What moves the page from step to step.
const CONTROLS: &str = "<nav hidden aria-label=\"steps\"><div>
<button id=\"first\" title=\"to the beginning (Home)\">⇤</button>
<button id=\"back\" title=\"one step back (left arrow)\">←</button>
<button id=\"play\" title=\"go on by itself (space)\">play</button>
<button id=\"on\" title=\"one step on (right arrow)\">→</button>
<button id=\"last\" title=\"to the end (End)\">⇥</button>
<input id=\"at\" type=\"range\" min=\"0\" value=\"0\" aria-label=\"step\">
<output id=\"count\"></output>
<button id=\"shade\" title=\"light or dark\">◐</button>
</div>
<p id=\"now\" aria-live=\"polite\"></p></nav>
";

const LANES: &str = "<aside>
<h2>On the lanes</h2>
<ul id=\"lanes\"></ul><p id=\"empty\">nothing</p>
<h2>Ranks</h2>
<table><thead><tr><th>rank</th><th>started</th><th>done counter</th></tr></thead><tbody>
";

const KEYS: &str = "</tbody></table>
<p>A box shows how much of what its cell needs has come, ✓ where its bytes are final. A disc on an arrow is a message under way, with the
number of its link; a square has come before its rank's start, and waits. A thick arrow is ready to be fired.</p>
<p><kbd>←</kbd> <kbd>→</kbd> a step, <kbd>PageUp</kbd> <kbd>PageDown</kbd> ten, <kbd>Home</kbd> <kbd>End</kbd>, <kbd>space</kbd> plays.</p>
</aside>
";

const STEPS: &str = "<section class=\"wide\"><h2>All steps</h2><div id=\"steps\" class=\"scroll\">
<table><thead><tr><th>step</th><th>rank</th><th>name</th><th>what the rank does</th><th>counters</th></tr></thead><tbody>
";

impl fmt::Display for Page<'_> {
    fn fmt<W: fmt::Write>(&self, f: &mut fmt::Formatter<W>) -> fmt::Result {
        f.write_str(HEAD)?;
        f.write_str(LOOKS)?;
        f.write_str("</style>\n</head>\n<body>\n")?;
        write_header(f, self)?;
        f.write_str(CONTROLS)?;
        f.write_str(
            "<main class=\"page\">\n<section id=\"plan\"><h2>The plan</h2><div class=\"scroll\">\n",
        )?;
        f.write_str(self.picture)?;
        f.write_str("</div></section>\n")?;
        f.write_str(LANES)?;
        write_ranks(f, self.plan.given.done())?;
        f.write_str(KEYS)?;
        f.write_str(
            "<section class=\"wide\"><h2>The steps in time</h2><div id=\"time\" class=\"scroll\">\n",
        )?;
        write!(f, "{}", self.time)?;
        f.write_str("</div></section>\n")?;
        f.write_str(STEPS)?;
        write_steps(f, self.plan, self.play)?;
        f.write_str("</tbody></table></div></section>\n</main>\n")?;
        f.write_str("<script type=\"application/json\" id=\"data\">")?;
        write_data(f, self.plan, self.play)?;
        f.write_str("</script>\n<script>")?;
        f.write_str(SCRIPT)?;
        f.write_str("</script>\n</body>\n</html>\n")
    }
}
