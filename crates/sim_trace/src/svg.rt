//! A chart as a picture.

use crate::builder::chart_of;
use crate::chart::{Arrow, ArrowStyle, Bar, Caption, Chart, Fate, Mark, MarkStyle, Note};
use crate::escaping::put_letter;
use sim_happenings::ScriptRecord;
use std::alloc::{AllocError, Global};

// The height of a row and of what stands above the first, the width of a letter of a label and of a line of the script, and the most
// letters of such a line that are drawn.
const ROW: u64 = 18;

const HEAD: u64 = 52;

const LETTER: u64 = 6;

const MOST_LETTERS: usize = 56;
// How far apart lanes stand: at least, and at most.
const LEAST_GAP: u64 = 150;

const MOST_GAP: u64 = 420;

const BAR: u64 = 7;

const STYLE: &str =
    "<style>text{font:11px sans-serif;fill:#222;paint-order:stroke;stroke:#fff;stroke-width:3px;stroke-linejoin:round}\
.line{font:11px monospace;fill:#666}.name{font:bold 13px sans-serif;text-anchor:middle}.end{text-anchor:end}\
.life{stroke:#999}.rule{stroke:#eee}.call{stroke:#1a4f8a;fill:none}.lease{stroke:#2e7d32;fill:none}.conn{stroke:#888;fill:none}\
.way{stroke-dasharray:4 3}.lost{stroke:#c62828;stroke-width:2}.t-call{fill:#1a4f8a}.t-lease{fill:#2e7d32}.t-conn{fill:#666}\
.t-failed{fill:#c62828}.bar{fill:#a5d6a7;stroke:#2e7d32}.box{fill:#f2f2f2;stroke:#999}</style>\n";

const HEADS: &str =
    "<defs><marker id=\"a\" viewBox=\"0 0 8 8\" refX=\"8\" refY=\"4\" markerWidth=\"7\" markerHeight=\"7\" orient=\"auto\">\
<path d=\"M0 0L8 4L0 8z\" fill=\"#555\"/></marker></defs>\n";

// Where things stand in the picture.
#[derive(Clone, Copy)]
struct Sheet {
    left: u64,
    gap: u64,
    width: u64,
    height: u64,
}

/// Returns the picture, as SVG: on the left the lines of the script, and beside them a line that goes down for each space. Frames of calls
/// are blue, those of leases green, and connections grey; what is on its way at the end is dashed, and what is lost ends in a red cross.
/// A bar at an owner is a lease that it granted, on the side away from the client.
pub fn put_svg(alloc: Global, record: &ScriptRecord) -> Result<String, AllocError> {
    let chart = chart_of(alloc, record)?;
    let sheet = sheet_of(&chart, record.names());
    let mut out = String::new(alloc);
    put_head(&mut out, sheet)?;
    for (lane, name) in record.names().iter().enumerate() {
        put_lane(&mut out, sheet, lane, name)?;
    }
    put_captions(&mut out, sheet, &chart.captions)?;
    for bar in &chart.bars {
        put_bar(&mut out, sheet, bar)?;
    }
    for arrow in &chart.arrows {
        put_line(&mut out, sheet, arrow)?;
    }
    put_marks(&mut out, sheet, &chart.marks)?;
    for note in &chart.notes {
        put_note(&mut out, sheet, note)?;
    }
    for arrow in &chart.arrows {
        put_label(&mut out, sheet, arrow)?;
    }
    out.push_str("</svg>\n")?;
    Ok(out)
}

fn sheet_of(chart: &Chart, names: &[String]) -> Sheet {
    let (lines, arrows, marks) = (&chart.captions, &chart.arrows, &chart.marks);
    let lines = lines.iter().map(|it| it.text.len()).max().unwrap_or(0);
    let arrows = arrows.iter().map(|it| it.label.len()).max().unwrap_or(0);
    let marks = marks.iter().map(|it| it.label.len()).max().unwrap_or(0);
    let names_letters = names.iter().map(|it| it.len()).max().unwrap_or(0);
    let letters = arrows.max(marks).max(names_letters).min(80) as u64;
    let gap = (letters * LETTER + 40).clamp(LEAST_GAP, MOST_GAP);
    let lines = lines.min(MOST_LETTERS + 8) as u64;
    let left = widest(&chart.notes).saturating_add(lines * (LETTER + 1) + 60);
    Sheet {
        left,
        gap,
        width: placed(names.len(), gap, left),
        height: placed(chart.rows, ROW, HEAD + 2 * ROW),
    }
}

// How far notes reach away from the line that they stand at.
fn widest(notes: &[Note]) -> u64 {
    let mut most: u64 = 0;
    for note in notes {
        let letters = note.text.len().min(80) as u64;
        most = most.max(placed(note.slots, BAR, letters * LETTER));
    }
    most
}

// A place: so many steps after the first one.
fn placed(steps: usize, step: u64, first: u64) -> u64 {
    (steps as u64).saturating_mul(step).saturating_add(first)
}

impl Sheet {
    fn x(self, lane: usize) -> u64 {
        placed(lane, self.gap, self.left)
    }

    fn y(self, row: usize) -> u64 {
        placed(row, ROW, HEAD)
    }

    // The end of the lanes.
    fn bottom(self) -> u64 {
        self.height.saturating_sub(ROW)
    }
}

fn put_head(out: &mut String, sheet: Sheet) -> Result<(), AllocError> {
    let (width, height) = (sheet.width, sheet.height);
    write!(
        out,
        "<svg xmlns=\"http://www.w3.org/2000/svg\" width=\"{width}\" height=\"{height}\" viewBox=\"0 0 {width} {height}\">\n"
    )?;
    out.push_str(STYLE)?;
    out.push_str(HEADS)?;
    out.push_str("<rect width=\"100%\" height=\"100%\" fill=\"#fff\"/>\n")
}

// A space: its name, and the line that goes down from it.
fn put_lane(out: &mut String, sheet: Sheet, lane: usize, name: &str) -> Result<(), AllocError> {
    let (x, bottom) = (sheet.x(lane), sheet.bottom());
    let width = longest_name(name).max(60);
    let corner = x.saturating_sub(width / 2);
    write!(out, "<path class=\"life\" d=\"M{x} 34V{bottom}\"/>")?;
    write!(
        out,
        "<rect class=\"box\" x=\"{corner}\" y=\"12\" width=\"{width}\" height=\"22\" rx=\"4\"/>"
    )?;
    write!(out, "<text class=\"name\" x=\"{x}\" y=\"28\">")?;
    put_short(out, name)?;
    out.push_str("</text>\n")
}

// How wide the name of a space is.
fn longest_name(name: &str) -> u64 {
    (name.len().min(MOST_LETTERS) as u64) * 9 + 12
}

// A text of which a label has the front.
fn put_short(out: &mut String, text: &str) -> Result<(), AllocError> {
    for (index, letter) in text.char_indices() {
        if index >= 80 {
            return out.push_str("..");
        }
        put_letter(out, letter)?;
    }
    Ok(())
}

// The lines of the script, each beside what it lets happen.
fn put_captions(out: &mut String, sheet: Sheet, captions: &[Caption]) -> Result<(), AllocError> {
    for caption in captions {
        let y = sheet.y(caption.row);
        let (rule, low) = (y.saturating_sub(13), y.saturating_add(4));
        let (width, number) = (sheet.width, caption.number);
        write!(out, "<path class=\"rule\" d=\"M0 {rule}H{width}\"/>")?;
        write!(out, "<text class=\"line\" x=\"8\" y=\"{low}\">{number}: ")?;
        put_short(out, &caption.text)?;
        out.push_str("</text>\n")?;
    }
    Ok(())
}

// A lease: a bar beside the line of its owner.
fn put_bar(out: &mut String, sheet: Sheet, bar: &Bar) -> Result<(), AllocError> {
    let (x, away) = (sheet.x(bar.owner), placed(bar.slot, BAR, 4));
    let corner = if bar.is_right() {
        x.saturating_add(away)
    } else {
        x.saturating_sub(away).saturating_sub(BAR - 2)
    };
    let top = sheet.y(bar.row);
    let bottom = match bar.end {
        Some((row, _)) => sheet.y(row),
        None => sheet.bottom(),
    };
    let height = bottom.saturating_sub(top).max(2);
    write!(
        out,
        "<rect class=\"bar\" x=\"{corner}\" y=\"{top}\" width=\"5\" height=\"{height}\"/>\n"
    )
}

// What is told of leases, beyond the bars of its side.
fn put_note(out: &mut String, sheet: Sheet, note: &Note) -> Result<(), AllocError> {
    let (x, away) = (sheet.x(note.owner), placed(note.slots, BAR, 5));
    let low = sheet.y(note.row).saturating_add(4);
    if note.is_right {
        let edge = x.saturating_add(away);
        write!(out, "<text class=\"t-lease\" x=\"{edge}\" y=\"{low}\">")?;
    } else {
        let edge = x.saturating_sub(away);
        write!(out, "<text class=\"t-lease end\" x=\"{edge}\" y=\"{low}\">")?;
    }
    put_short(out, &note.text)?;
    out.push_str("</text>\n")
}

fn class_of(style: ArrowStyle) -> &'static str {
    match style {
        ArrowStyle::Call => "call",
        ArrowStyle::Lease => "lease",
        ArrowStyle::Connection => "conn",
    }
}

// What goes from one space to another: a line to where it comes, or to the middle between them.
fn put_line(out: &mut String, sheet: Sheet, arrow: &Arrow) -> Result<(), AllocError> {
    let (from, to) = (sheet.x(arrow.from), sheet.x(arrow.to));
    let middle = from.saturating_add(to) / 2;
    let (start, class) = (sheet.y(arrow.row), class_of(arrow.style));
    match arrow.fate {
        Fate::Came(row) => {
            let end = sheet.y(row);
            write!(
                out,
                "<path class=\"{class}\" marker-end=\"url(#a)\" d=\"M{from} {start}L{to} {end}\"/>\n"
            )
        }
        Fate::OnItsWay => {
            let end = start.saturating_add(ROW);
            write!(
                out,
                "<path class=\"{class} way\" d=\"M{from} {start}L{middle} {end}\"/>\n"
            )
        }
        Fate::Lost(row) => put_lost(out, class, from, start, middle, sheet.y(row)),
    }
}

// A line that ends in a cross.
fn put_lost(
    out: &mut String,
    class: &str,
    from: u64,
    start: u64,
    x: u64,
    y: u64,
) -> Result<(), AllocError> {
    let (left, right) = (x.saturating_sub(5), x.saturating_add(5));
    let (top, low) = (y.saturating_sub(5), y.saturating_add(5));
    write!(
        out,
        "<path class=\"{class}\" d=\"M{from} {start}L{x} {y}\"/>"
    )?;
    write!(
        out,
        "<path class=\"lost\" d=\"M{left} {top}L{right} {low}M{left} {low}L{right} {top}\"/>\n"
    )
}

// What an arrow is, beside the space that it leaves.
fn put_label(out: &mut String, sheet: Sheet, arrow: &Arrow) -> Result<(), AllocError> {
    let (from, class) = (sheet.x(arrow.from), class_of(arrow.style));
    let y = sheet.y(arrow.row).saturating_sub(3);
    if arrow.from < arrow.to {
        let x = from.saturating_add(10);
        write!(out, "<text class=\"t-{class}\" x=\"{x}\" y=\"{y}\">")?;
    } else {
        let x = from.saturating_sub(10);
        write!(out, "<text class=\"t-{class} end\" x=\"{x}\" y=\"{y}\">")?;
    }
    put_short(out, &arrow.label)?;
    out.push_str("</text>\n")
}

// What happens at one space: a dot, and what it is beside it.
fn put_marks(out: &mut String, sheet: Sheet, marks: &[Mark]) -> Result<(), AllocError> {
    for mark in marks {
        let (x, y) = (sheet.x(mark.lane), sheet.y(mark.row));
        let class = match mark.style {
            MarkStyle::Failed => "t-failed",
            MarkStyle::Owner => "t-lease",
            MarkStyle::Obeyed | MarkStyle::Task => "t-call",
        };
        let (beside, low) = (x.saturating_add(8), y.saturating_add(4));
        write!(
            out,
            "<circle class=\"{class}\" cx=\"{x}\" cy=\"{y}\" r=\"3\"/>"
        )?;
        write!(out, "<text class=\"{class}\" x=\"{beside}\" y=\"{low}\">")?;
        put_short(out, &mark.label)?;
        out.push_str("</text>\n")?;
    }
    Ok(())
}
