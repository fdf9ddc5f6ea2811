//! What all drawings have in common.

use std::fmt;

/// How links and local steps look, and the heads of the arrows.
const STYLES: &str = "<style>
text { font: 9px sans-serif; fill: #222 }
.rank { font-size: 12px; font-weight: bold; text-anchor: middle }
.row { font-size: 12px; font-weight: bold; text-anchor: end }
.right { text-anchor: end }
.left { text-anchor: start }
.middle { text-anchor: middle }
.number { font-weight: bold }
.box { fill: #fff; stroke: #444; stroke-width: 1 }
.operation .box { fill: #fff3df; stroke: #b45309 }
.go .box { fill: #e6f4e6; stroke: #2f7d32 }
.put { fill: none; stroke: #1d5fc2; stroke-width: 1.2 }
.atomic { fill: none; stroke: #c2410c; stroke-width: 1.8 }
.bump { fill: none; stroke: #777; stroke-width: 1; stroke-dasharray: 4 3 }
.answer { fill: none; stroke: #999; stroke-width: 0.8; stroke-dasharray: 2 2 }
.start { fill: #e6f4e6; stroke: #2f7d32 }
.receipt { fill: #e3ecfb; stroke: #1d5fc2 }
.acknowledged { fill: #eee; stroke: #777 }
.firing { fill: #fff3df; stroke: #b45309 }
.paper { fill: #fff }
.band-0 { fill: #eef3fb }
.band-1 { fill: #fbf3ea }
.band-2 { fill: #eef8ee }
.band-3 { fill: #f7eef8 }
</style>
<defs>
<marker id=\"put-head\" viewBox=\"0 0 8 8\" refX=\"8\" refY=\"4\" markerWidth=\"6\" markerHeight=\"6\" markerUnits=\"userSpaceOnUse\" \
    orient=\"auto\">\
    <path d=\"M0 0 L8 4 L0 8 z\" fill=\"#1d5fc2\"/></marker>
<marker id=\"atomic-head\" viewBox=\"0 0 8 8\" refX=\"8\" refY=\"4\" markerWidth=\"8\" markerHeight=\"8\" markerUnits=\"userSpaceOnUse\" \
    orient=\"auto\">\
    <path d=\"M0 0 L8 4 L0 8 L3 4 z\" fill=\"#c2410c\"/></marker>
<marker id=\"bump-head\" viewBox=\"0 0 8 8\" refX=\"8\" refY=\"4\" markerWidth=\"6\" markerHeight=\"6\" markerUnits=\"userSpaceOnUse\" \
    orient=\"auto\">\
    <path d=\"M0 1 L8 4 L0 7\" fill=\"none\" stroke=\"#777\"/></marker>
<marker id=\"answer-head\" viewBox=\"0 0 8 8\" refX=\"8\" refY=\"4\" markerWidth=\"5\" markerHeight=\"5\" markerUnits=\"userSpaceOnUse\" \
    orient=\"auto\">\
    <path d=\"M0 0 L8 4 L0 8 z\" fill=\"#999\"/></marker>
</defs>
";

/// How a cell or a link at fault looks, and the cells that lines name.
const FAULT_STYLES: &str = "<style>
.fault .box { fill: #ffe9e6; stroke: #c00; stroke-width: 3 }
path.fault { stroke: #c00; stroke-width: 3.5 }
text.fault { fill: #c00; font-weight: bold }
</style>
";

/// How the names of cells look.
const LABEL_STYLES: &str = "<style>
.label { font-style: italic; paint-order: stroke; stroke: #fff; stroke-width: 3px }
</style>
";

/// A place or a size, in pixels: to the right, and down.
pub type Pixels = (u64, u64);

/// Begins a drawing of this size that stands beside another in a page, whose styles and heads of arrows it has.
pub fn begin_plain<W: fmt::Write>(
    out: &mut fmt::Formatter<W>,
    width: u64,
    height: u64,
) -> fmt::Result {
    write!(
        out,
        "<svg xmlns=\"http://www.w3.org/2000/svg\" width=\"{width}\" height=\"{height}\" "
    )?;
    writeln!(out, "viewBox=\"0 0 {width} {height}\">")
}

/// Begins a drawing of this size.
pub fn begin<W: fmt::Write>(out: &mut fmt::Formatter<W>, width: u64, height: u64) -> fmt::Result {
    begin_plain(out, width, height)?;
    out.write_str(STYLES)?;
    area(out, "paper", (0, 0), (width, height))
}

/// Says how what is at fault looks.
pub fn fault_styles<W: fmt::Write>(out: &mut fmt::Formatter<W>) -> fmt::Result {
    out.write_str(FAULT_STYLES)
}

/// Says how the names of cells look.
pub fn label_styles<W: fmt::Write>(out: &mut fmt::Formatter<W>) -> fmt::Result {
    out.write_str(LABEL_STYLES)
}

/// Ends a drawing.
pub fn end<W: fmt::Write>(out: &mut fmt::Formatter<W>) -> fmt::Result {
    out.write_str("</svg>\n")
}

/// An area of this class.
pub fn area<W: fmt::Write>(
    out: &mut fmt::Formatter<W>,
    class: &str,
    at: Pixels,
    size: Pixels,
) -> fmt::Result {
    let ((x, y), (width, height)) = (at, size);
    write!(out, "<rect class=\"{class}\" x=\"{x}\" y=\"{y}\" ")?;
    writeln!(out, "width=\"{width}\" height=\"{height}\"/>")
}

/// A box of this class, with round corners.
pub fn round_box<W: fmt::Write>(
    out: &mut fmt::Formatter<W>,
    class: &str,
    at: Pixels,
    size: Pixels,
) -> fmt::Result {
    let ((x, y), (width, height)) = (at, size);
    write!(out, "<rect class=\"{class}\" x=\"{x}\" y=\"{y}\" ")?;
    writeln!(out, "width=\"{width}\" height=\"{height}\" rx=\"3\"/>")
}

/// Begins a text of this class; its end is `</text>`.
pub fn begin_text<W: fmt::Write>(
    out: &mut fmt::Formatter<W>,
    class: &str,
    at: Pixels,
) -> fmt::Result {
    let (x, y) = at;
    write!(out, "<text class=\"{class}\" x=\"{x}\" y=\"{y}\">")
}

/// Begins an arrow of this kind, whose way is to follow; its end is `"/>`, or `">` and a title and `</path>`.
pub fn begin_arrow<W: fmt::Write>(out: &mut fmt::Formatter<W>, kind: &str) -> fmt::Result {
    write!(
        out,
        "class=\"{kind}\" marker-end=\"url(#{kind}-head)\" d=\""
    )
}

/// Begins the arrow of a link at fault, as `begin_arrow` does.
pub fn begin_fault<W: fmt::Write>(out: &mut fmt::Formatter<W>, kind: &str) -> fmt::Result {
    write!(
        out,
        "class=\"{kind} fault\" marker-end=\"url(#{kind}-head)\" d=\""
    )
}

/// Moves to a place.
pub fn move_to<W: fmt::Write>(out: &mut fmt::Formatter<W>, at: Pixels) -> fmt::Result {
    write!(out, "M{} {}", at.0, at.1)
}

/// A straight line to a place.
pub fn line_to<W: fmt::Write>(out: &mut fmt::Formatter<W>, to: Pixels) -> fmt::Result {
    write!(out, " L{} {}", to.0, to.1)
}

/// A line to a place that lies further down, which leaves and comes going down.
pub fn curve_to<W: fmt::Write>(
    out: &mut fmt::Formatter<W>,
    from: Pixels,
    to: Pixels,
) -> fmt::Result {
    let (below, above) = (from.1.saturating_add(20), to.1.saturating_sub(20));
    write!(out, " C{} {below} {} {above} ", from.0, to.0)?;
    write!(out, "{} {}", to.0, to.1)
}
