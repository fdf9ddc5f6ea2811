//! A plan as a graph.

ghost use Rattle.std.specs.Prelude.{◌≡◌, ◌<◌, ◌+◌, ◌^◌, [], length};
ghost use Rattle.run_text.specs.Putting.{EndsWith, Puts};
ghost use Rattle.plan_words.specs.Graph.{edge_line, edge_style, edges, graph_text, node_line, nodes, op_label};

use coll_lang::{op_word, type_word};
use itoa::Buffer;
use plan_core::{Cell, Link, LinkKind, Plan};
use port_io::{Failed, Sink};
use ptl_types::AtomicOp;
use run_text::{Pieces, Rows, Word, put_line, put_rows};

/// What opens the graph.
const HEAD: &[u8] = b"digraph plan {\nnode [ shape = box ]\n";

/// What closes it.
const TAIL: &[u8] = b"}\n";

/// The word of what a cell combines by.
fn op_label(op: Option<AtomicOp>) -> &'static [u8]
    ensures { result.now ≡ op_label op }
{
    match op {
        Some(op) => op_word(op),
        None => b"bytes",
    }
}

/// How a link is drawn.
fn edge_style(kind: LinkKind) -> &'static [u8]
    ensures { result.now ≡ edge_style kind }
{
    match kind {
        LinkKind::Put => b"put\" ]",
        LinkKind::Atomic => b"atomic\" style = bold ]",
        LinkKind::Bump => b"bump\" style = dashed ]",
    }
}

/// Adds the line of a cell.
fn put_node<K: Sink>(out: &mut Pieces, sink: &mut K, number: u32, cell: &Cell) -> Result<(), Failed>
    ensures { Puts (K.outflow sink.old) (K.outflow sink.new) out.old out.new (node_line number cell.now) result }
{
    let words = [
        Word::Text(b"[ group ="),
        Word::Number(u64::from(cell.rank)),
        Word::Text(b"label = \"rank"),
        Word::Number(u64::from(cell.rank)),
        Word::Text(b"cell"),
        Word::Number(u64::from(number)),
        Word::Text(b"needs"),
        Word::Number(cell.needs),
        Word::Text(b"\\n"),
        Word::Number(cell.length),
        Word::Text(op_label(cell.op)),
        Word::Text(type_word(cell.ty)),
        Word::Text(b"\" ]"),
    ];
    let mut buffer = Buffer::new();
    put_line(
        out,
        sink,
        buffer.format(u64::from(number)).as_bytes(),
        &words,
    )
}

/// Adds the line of a link.
fn put_edge<K: Sink>(out: &mut Pieces, sink: &mut K, number: u32, link: &Link) -> Result<(), Failed>
    ensures { Puts (K.outflow sink.old) (K.outflow sink.new) out.old out.new (edge_line number link.now) result }
{
    let words = [
        Word::Text(b"->"),
        Word::Number(u64::from(link.target)),
        Word::Text(b"[ label = \"link"),
        Word::Number(u64::from(number)),
        Word::Text(edge_style(link.kind)),
    ];
    let mut buffer = Buffer::new();
    put_line(
        out,
        sink,
        buffer.format(u64::from(link.source)).as_bytes(),
        &words,
    )
}

/// The lines of a plan's cells.
#[derive(Clone, Copy)]
struct NodeRows<'a>(&'a Plan);

impl<'a> Rows for NodeRows<'a> {
    ghost use Rattle.std.specs.Prelude.{◌<◌, length};
    ghost use Rattle.plan_core.specs.Plan.{cell};
    ghost use Rattle.plan_words.specs.Graph.{node_line};

    ghost has = { λ rows c. c < length rows.0.now.cells };

    ghost line = { λ rows c. node_line c (cell rows.0.now c) };

    fn put<K: Sink>(&self, out: &mut Pieces, sink: &mut K, number: u32) -> Result<(), Failed> {
        put_node(out, sink, number, &self.0.cells()[number as usize])
    }
}

/// The lines of a plan's links.
#[derive(Clone, Copy)]
struct EdgeRows<'a>(&'a Plan);

impl<'a> Rows for EdgeRows<'a> {
    ghost use Rattle.std.specs.Prelude.{◌<◌, length};
    ghost use Rattle.plan_core.specs.Plan.{link};
    ghost use Rattle.plan_words.specs.Graph.{edge_line};

    ghost has = { λ rows l. l < length rows.0.now.links };

    ghost line = { λ rows l. edge_line l (link rows.0.now l) };

    fn put<K: Sink>(&self, out: &mut Pieces, sink: &mut K, number: u32) -> Result<(), Failed> {
        put_edge(out, sink, number, &self.0.links()[number as usize])
    }
}

/// Adds the lines of all cells.
fn put_nodes<K: Sink>(out: &mut Pieces, sink: &mut K, plan: &Plan) -> Result<(), Failed>
    requires { length plan.now.cells < 2 ^ 32 }
    ensures { Puts (K.outflow sink.old) (K.outflow sink.new) out.old out.new (nodes plan.now) result }
{
    put_rows(out, sink, &NodeRows(plan), plan.cells().len() as u32)
}

/// Adds the lines of all links.
fn put_edges<K: Sink>(out: &mut Pieces, sink: &mut K, plan: &Plan) -> Result<(), Failed>
    requires { length plan.now.links < 2 ^ 32 }
    ensures { Puts (K.outflow sink.old) (K.outflow sink.new) out.old out.new (edges plan.now) result }
{
    put_rows(out, sink, &EdgeRows(plan), plan.links().len() as u32)
}

/// Adds all lines.
fn put_graph<K: Sink>(out: &mut Pieces, sink: &mut K, plan: &Plan) -> Result<(), Failed>
    requires { length plan.now.cells + length plan.now.links < 2 ^ 32 }
    ensures { Puts (K.outflow sink.old) (K.outflow sink.new) out.old out.new (graph_text plan.now) result }
{
    out.put(sink, HEAD)?;
    put_nodes(out, sink, plan)?;
    put_edges(out, sink, plan)?;
    out.put(sink, TAIL)
}

/// Writes a plan as a graph in the language of Graphviz's `dot`: a node for each cell and an edge for each link; and finishes the sink.
///
/// At `Failed` the count of the sink's faults rose, and a beginning of the text stands. It takes no memory.
pub fn write_graph<K: Sink>(out: &mut Pieces, sink: &mut K, plan: &Plan) -> Result<(), Failed>
    requires empty { out.old ≡ [] }
    requires at_most { length plan.now.cells + length plan.now.links < 2 ^ 32 }
    ensures { EndsWith (K.outflow sink.old) (K.outflow sink.new) (graph_text plan.now) result }
{
    put_graph(out, sink, plan)?;
    out.end(sink)
}
