//! A chart as lines of text.

use crate::builder::chart_of;
use crate::chart::{Arrow, Bar, Caption, Chart, Entry, Mark, MarkStyle};
use crate::escaping::put_plain;
use sim_happenings::ScriptRecord;
use std::alloc::{AllocError, Global};

/// Returns what happened, a line each: `line K: ..` as a line of the script is played, and after it, with two spaces before it, what
/// that lets happen.
///
/// | A line | What it says |
/// |---|---|
/// | `S: TEXT` | S does or is told something: a root or a look-up begins or ends, objects are withdrawn |
/// | `S -> T: FRAME` | a frame, a connection that is opened, or that it is closed, leaves S for T |
/// | `T <- S: FRAME` | it comes to T |
/// | `S x T: FRAME` | it is lost on its way from S to T |
/// | `S: lease of N to T`, and with ` cleaned` or ` lapsed` | S grants T a lease of its object N, or it ends |
pub fn put_text(alloc: Global, record: &ScriptRecord) -> Result<String, AllocError> {
    let chart = chart_of(alloc, record)?;
    let mut out = String::new(alloc);
    for entry in &chart.entries {
        put_entry(&mut out, &chart, record.names(), *entry)?;
    }
    Ok(out)
}

fn put_entry(
    out: &mut String,
    chart: &Chart,
    names: &[String],
    entry: Entry,
) -> Result<(), AllocError> {
    match entry {
        Entry::Caption(index) => put_caption(out, chart.captions.get(index)),
        Entry::Mark(index) => put_mark(out, names, chart.marks.get(index)),
        Entry::Left(index) => put_arrow(out, names, "->", chart.arrows.get(index)),
        Entry::Came(index) => put_coming(out, names, chart.arrows.get(index)),
        Entry::Lost(index) => put_arrow(out, names, "x", chart.arrows.get(index)),
        Entry::Granted(index) => put_lease(out, names, false, chart.bars.get(index)),
        Entry::Ended(index) => put_lease(out, names, true, chart.bars.get(index)),
    }
}

fn put_caption(out: &mut String, caption: Option<&Caption>) -> Result<(), AllocError> {
    let Some(caption) = caption else {
        return Ok(());
    };
    let number = caption.number;
    write!(out, "line {number}: ")?;
    put_plain(out, &caption.text)?;
    out.push('\n')
}

fn put_name(out: &mut String, names: &[String], lane: usize) -> Result<(), AllocError> {
    match names.get(lane) {
        Some(name) => put_plain(out, name),
        None => Ok(()),
    }
}

fn put_mark(out: &mut String, names: &[String], mark: Option<&Mark>) -> Result<(), AllocError> {
    let Some(mark) = mark else {
        return Ok(());
    };
    if mark.style == MarkStyle::Obeyed {
        return Ok(());
    }
    out.push_str("  ")?;
    put_name(out, names, mark.lane)?;
    out.push_str(": ")?;
    put_plain(out, &mark.label)?;
    out.push('\n')
}

fn put_arrow(
    out: &mut String,
    names: &[String],
    sign: &str,
    arrow: Option<&Arrow>,
) -> Result<(), AllocError> {
    let Some(arrow) = arrow else {
        return Ok(());
    };
    put_way(out, names, arrow.from, sign, arrow.to, &arrow.label)
}

fn put_coming(out: &mut String, names: &[String], arrow: Option<&Arrow>) -> Result<(), AllocError> {
    let Some(arrow) = arrow else {
        return Ok(());
    };
    put_way(out, names, arrow.to, "<-", arrow.from, &arrow.label)
}

fn put_way(
    out: &mut String,
    names: &[String],
    first: usize,
    sign: &str,
    second: usize,
    label: &str,
) -> Result<(), AllocError> {
    out.push_str("  ")?;
    put_name(out, names, first)?;
    write!(out, " {sign} ")?;
    put_name(out, names, second)?;
    out.push_str(": ")?;
    put_plain(out, label)?;
    out.push('\n')
}

fn put_lease(
    out: &mut String,
    names: &[String],
    is_over: bool,
    bar: Option<&Bar>,
) -> Result<(), AllocError> {
    let Some(bar) = bar else {
        return Ok(());
    };
    out.push_str("  ")?;
    put_name(out, names, bar.owner)?;
    let object = bar.object;
    write!(out, ": lease of {object} to ")?;
    put_name(out, names, bar.client)?;
    if is_over && let Some((_, end)) = bar.end {
        out.push(' ')?;
        out.push_str(end.word())?;
    }
    out.push('\n')
}
