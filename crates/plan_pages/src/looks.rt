//! How a page looks.

/// The styles of a page, by the colours that the reader's system asks for, or that the page's button chose.
pub const LOOKS: &str = "
:root {
  color-scheme: light dark;
  --ink: light-dark(#1b1f24, #e6e8eb); --paper: light-dark(#fff, #14171b); --soft: light-dark(#f4f5f7, #1e232a);
  --line: light-dark(#c9ced6, #414a55); --dim: light-dark(#5b6470, #9aa3ad); --box: light-dark(#fff, #232930);
  --final: light-dark(#d8efd9, #1f4428); --green: light-dark(#2f7d32, #7ccf83);
  --put: light-dark(#1d5fc2, #84b4ff); --atomic: light-dark(#c2410c, #ffa066); --fault: light-dark(#c00, #ff7b7b);
  --acting: light-dark(#7b1fa2, #e3b5ff);
  --band-0: light-dark(#eef3fb, #1a2433); --band-1: light-dark(#fbf3ea, #2b231a);
  --band-2: light-dark(#eef8ee, #1b2a1e); --band-3: light-dark(#f7eef8, #281d2b);
}
html[data-shade=light] { color-scheme: light }
html[data-shade=dark] { color-scheme: dark }
body { margin: 0; font: 15px/1.45 system-ui, sans-serif; color: var(--ink); background: var(--paper) }
header, .page { padding: 0 1.25rem }
h1 { font-size: 1.3rem; margin: 1rem 0 .2rem }
h2 { font-size: 1rem; margin: 1.2rem 0 .4rem }
header p { margin: .1rem 0; color: var(--dim) }
header .faulty { color: var(--fault); font-weight: bold }
nav { position: sticky; top: 0; z-index: 1; background: var(--soft); border: solid var(--line); border-width: 1px 0;
  padding: .5rem 1.25rem; margin-top: .6rem }
nav div { display: flex; gap: .5rem; align-items: center }
nav input { flex: 1; min-width: 4rem; accent-color: var(--acting) }
nav button { font: inherit; min-width: 2.6rem; padding: .15rem .6rem; color: var(--ink); background: var(--box);
  border: 1px solid var(--line); border-radius: .3rem; cursor: pointer }
nav button:disabled { opacity: .4; cursor: default }
nav output { min-width: 7.5rem; text-align: right; font-variant-numeric: tabular-nums }
#now { margin: .35rem 0 0; min-height: 1.45em; font-weight: 600 }
.page { display: grid; grid-template-columns: minmax(0, 1fr) 17rem; gap: 0 1.5rem }
.wide { grid-column: 1 / -1; min-width: 0 }
.scroll { overflow: auto; border: 1px solid var(--line); border-radius: .3rem; background: var(--paper) }
#plan .scroll { max-height: 78vh }
#steps { max-height: 24rem }
.scroll svg { display: block }
table { border-collapse: collapse; width: 100%; font-size: .85rem }
td, th { text-align: left; vertical-align: top; padding: .15rem .5rem; border-bottom: 1px solid var(--line) }
th { position: sticky; top: 0; background: var(--soft) }
td:first-child { font-variant-numeric: tabular-nums }
tr.acting td { background: var(--soft); font-weight: 600; box-shadow: inset 0 1px var(--acting), inset 0 -1px var(--acting) }
a { color: inherit }
#lanes { margin: 0; padding: 0; list-style: none; font-size: .9rem }
#lanes li { padding: .1rem 0; border-bottom: 1px solid var(--line) }
#lanes b { font-weight: 600 }
aside p { color: var(--dim); font-size: .85rem; margin: .3rem 0 }
kbd { font: inherit; border: 1px solid var(--line); border-radius: .2rem; padding: 0 .25rem }
.page text { fill: var(--ink) }
.page .paper { fill: var(--paper) }
.page .box { fill: var(--box); stroke: var(--dim) }
.page .go .box { stroke: var(--green) }
.page .operation .box { stroke: var(--atomic) }
.page .final .box { fill: var(--final); stroke-width: 2.2 }
.page .put { stroke: var(--put) }
.page .atomic { stroke: var(--atomic) }
.page .bump, .page .answer { stroke: var(--dim) }
#put-head path { fill: var(--put) }
#atomic-head path { fill: var(--atomic) }
#bump-head path { stroke: var(--dim) }
#answer-head path { fill: var(--dim) }
.page .band-0 { fill: var(--band-0) }
.page .band-1 { fill: var(--band-1) }
.page .band-2 { fill: var(--band-2) }
.page .band-3 { fill: var(--band-3) }
.page .start { fill: var(--final); stroke: var(--green) }
.page .receipt { fill: var(--band-0); stroke: var(--put) }
.page .acknowledged { fill: var(--soft); stroke: var(--dim) }
.page .firing { fill: var(--band-1); stroke: var(--atomic) }
.page .label { stroke: var(--paper) }
.page path.waits { opacity: .4 }
.page path.ready { stroke-width: 2.4; opacity: 1 }
.page path.flying { stroke-width: 3.2; opacity: 1 }
.page .later { opacity: .3 }
.page .acting .box, .page .turn.acting rect { stroke: var(--acting); stroke-width: 3.2 }
.page path.acting { stroke: var(--acting); stroke-width: 4; opacity: 1 }
.page .fault .box { stroke: var(--fault); stroke-width: 3 }
.page path.fault { stroke: var(--fault); stroke-width: 3.5 }
.page text.fault { fill: var(--fault) }
.message circle, .message rect { fill: var(--ink); stroke: var(--paper); stroke-width: 1.5 }
.page .message text { fill: var(--paper); font-size: 9px; font-weight: bold; text-anchor: middle }
#cursor { stroke: var(--acting); stroke-width: 2; fill: none }
@media (max-width: 60rem) { .page { grid-template-columns: minmax(0, 1fr) } }
@media print {
  html { color-scheme: light }
  nav { position: static }
  nav div, aside p { display: none }
  .page { display: block }
  .scroll { overflow: visible; max-height: none !important; border: 0 }
  #plan svg { max-width: 100%; height: auto }
  tr { break-inside: avoid }
}
";
