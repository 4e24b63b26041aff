//! Makes a chart of a record.

use crate::chart::{
    Arrow, ArrowStyle, Bar, Caption, Chart, Entry, Fate, LeaseEnd, Mark, MarkStyle, Note,
};
use crate::leases::{LeaseKey, Leases};
use crate::links::{Link, Travelling};
use sim_happenings::{Happening, LinkEnd, ScriptRecord, SentFrame, SentKind};
use std::alloc::{AllocError, Global};
use std::collections::BTreeSet;

// An owner: the moment of its clock, the leases that it granted, and which slots its bars leave free, on each side of its lane.
#[derive(Drop)]
struct Owner {
    moment: u64,
    leases: Leases,
    left: Slots,
    right: Slots,
}

// The slots that are free again, and the first that was never taken.
#[derive(Drop)]
struct Slots {
    free: BTreeSet<usize>,
    next: usize,
}

impl Slots {
    fn new(alloc: Global) -> Slots {
        Slots {
            free: BTreeSet::new(alloc),
            next: 0,
        }
    }

    fn take(&mut self) -> usize {
        match self.free.pop_first() {
            Some(slot) => slot,
            None => {
                let slot = self.next;
                self.next = slot.saturating_add(1);
                slot
            }
        }
    }

    fn give_back(&mut self, slot: usize) -> Result<(), AllocError> {
        self.free.insert(slot)?;
        Ok(())
    }
}

// A chart as it grows.
#[derive(Drop)]
struct Builder<'a> {
    alloc: Global,
    names: &'a [String],
    happenings: &'a [Happening],
    chart: Chart,
    // Whether nothing stands in the last row but a line of the script, so what happens next may stand there.
    is_open: bool,
    links: Vec<Link>,
    owners: Vec<Owner>,
}

// Returns what is drawn of a record.
pub(crate) fn chart_of(alloc: Global, record: &ScriptRecord) -> Result<Chart, AllocError> {
    let mut owners = Vec::new(alloc);
    for _ in record.names() {
        owners.push(Owner {
            moment: 0,
            leases: Leases::new(alloc),
            left: Slots::new(alloc),
            right: Slots::new(alloc),
        })?;
    }
    let mut builder = Builder {
        alloc,
        names: record.names(),
        happenings: record.happenings(),
        chart: Chart::new(alloc),
        is_open: false,
        links: Vec::new(alloc),
        owners,
    };
    for (index, happening) in record.happenings().iter().enumerate() {
        builder.add(index, happening)?;
    }
    Ok(builder.chart)
}

impl<'a> Builder<'a> {
    fn add(&mut self, index: usize, happening: &Happening) -> Result<(), AllocError> {
        match happening {
            Happening::Line { number, text } => self.caption(*number, text),
            Happening::Obeyed(space) => self.mark(*space, MarkStyle::Obeyed, ""),
            Happening::Begun { space, text } => self.mark(*space, MarkStyle::Task, text),
            Happening::Ended { space, text } => self.mark(*space, MarkStyle::Task, text),
            Happening::Denied { space, text } => self.denied(*space, text),
            Happening::Moment { space, moment } => self.moment(*space, *moment),
            Happening::Withdrawn { space, objects } => self.withdrawn(*space, objects),
            Happening::Opened { dialler, dialled } => self.opened(*dialler, *dialled),
            Happening::Refused { dialler, dialled } => self.refused(*dialler, *dialled),
            Happening::Sent { conn, from, frame } => self.sent(index, *conn, *from, frame),
            Happening::Accepted(conn) => self.accepted(*conn),
            Happening::Delivered { conn, to } => self.delivered(*conn, *to),
            Happening::Closed { conn, by } => self.closed(*conn, *by, "closes"),
            Happening::ReadFailed { conn, at } => self.closed(*conn, *at, "read fails"),
            Happening::WriteFailed { conn, at, unsent } => self.write_failed(*conn, *at, *unsent),
        }
    }

    // The row in which what happens next stands.
    fn next_row(&mut self) -> usize {
        if self.is_open {
            self.is_open = false;
        } else {
            self.chart.rows = self.chart.rows.saturating_add(1);
        }
        self.chart.rows
    }

    fn caption(&mut self, number: usize, text: &str) -> Result<(), AllocError> {
        self.is_open = false;
        let row = self.next_row();
        self.is_open = true;
        let text = String::from_str(self.alloc, text)?;
        self.chart
            .entries
            .push(Entry::Caption(self.chart.captions.len()))?;
        self.chart.captions.push(Caption { row, number, text })?;
        Ok(())
    }

    fn mark(&mut self, lane: usize, style: MarkStyle, label: &str) -> Result<(), AllocError> {
        let row = self.next_row();
        let label = String::from_str(self.alloc, label)?;
        self.chart
            .entries
            .push(Entry::Mark(self.chart.marks.len()))?;
        self.chart.marks.push(Mark {
            lane,
            row,
            style,
            label,
        })?;
        Ok(())
    }

    fn denied(&mut self, space: usize, text: &str) -> Result<(), AllocError> {
        let label = format!(in self.alloc; "denied {text}")?;
        self.mark(space, MarkStyle::Failed, &label)
    }

    fn moment(&mut self, space: usize, moment: u64) -> Result<(), AllocError> {
        let label = format!(in self.alloc; "moment {moment}")?;
        self.mark(space, MarkStyle::Owner, &label)?;
        let Some(owner) = self.owners.get_mut(space) else {
            return Ok(());
        };
        owner.moment = owner.moment.max(moment);
        let now = owner.moment;
        for _ in 0..u64::MAX {
            let Some(bar) = self.pop_lapsed(space, now) else {
                return Ok(());
            };
            self.end_bar(bar, LeaseEnd::Lapsed)?;
        }
        Ok(())
    }

    fn pop_lapsed(&mut self, owner: usize, moment: u64) -> Option<usize> {
        self.owners.get_mut(owner)?.leases.pop_lapsed(moment)
    }

    fn withdrawn(&mut self, space: usize, objects: &[u64]) -> Result<(), AllocError> {
        let listed = list_of(self.alloc, objects)?;
        let label = format!(in self.alloc; "withdraws {listed}")?;
        self.mark(space, MarkStyle::Owner, &label)
    }

    // Something leaves a lane for another one. Returns the index of its arrow.
    fn leave(
        &mut self,
        from: usize,
        to: usize,
        style: ArrowStyle,
        label: String,
    ) -> Result<usize, AllocError> {
        let row = self.next_row();
        let index = self.chart.arrows.len();
        self.chart.entries.push(Entry::Left(index))?;
        self.chart.arrows.push(Arrow {
            from,
            to,
            row,
            fate: Fate::OnItsWay,
            style,
            label,
        })?;
        Ok(index)
    }

    // What left comes to its lane.
    fn come(&mut self, arrow: usize) -> Result<(), AllocError> {
        let row = self.next_row();
        self.chart.entries.push(Entry::Came(arrow))?;
        if let Some(arrow) = self.chart.arrows.get_mut(arrow) {
            arrow.fate = Fate::Came(row);
        }
        Ok(())
    }

    // What left is lost, in the last row.
    fn lose(&mut self, arrow: usize) -> Result<(), AllocError> {
        let row = self.chart.rows;
        self.chart.entries.push(Entry::Lost(arrow))?;
        if let Some(arrow) = self.chart.arrows.get_mut(arrow) {
            arrow.fate = Fate::Lost(row);
        }
        Ok(())
    }

    fn opened(&mut self, dialler: usize, dialled: usize) -> Result<(), AllocError> {
        let number = self.links.len();
        let label = format!(in self.alloc; "connection {number}")?;
        let opening = self.leave(dialler, dialled, ArrowStyle::Connection, label)?;
        self.links
            .push(Link::new(self.alloc, dialler, dialled, opening))?;
        Ok(())
    }

    fn refused(&mut self, dialler: usize, dialled: usize) -> Result<(), AllocError> {
        let label = String::from_str(self.alloc, "refused")?;
        let arrow = self.leave(dialler, dialled, ArrowStyle::Connection, label)?;
        self.lose(arrow)
    }

    fn accepted(&mut self, conn: u64) -> Result<(), AllocError> {
        match self.links.get(conn as usize) {
            Some(link) => {
                let opening = link.opening;
                self.come(opening)
            }
            None => Ok(()),
        }
    }

    fn sent(
        &mut self,
        index: usize,
        conn: u64,
        from: LinkEnd,
        frame: &SentFrame,
    ) -> Result<(), AllocError> {
        let Some(link) = self.links.get(conn as usize) else {
            return Ok(());
        };
        let (lane, peer) = (link.lane(from), link.lane(from.other()));
        let label = label_of(self.alloc, frame)?;
        let arrow = self.leave(lane, peer, style_of(frame.kind), label)?;
        if let Some(link) = self.links.get_mut(conn as usize) {
            link.send(from.other(), Travelling { arrow, sent: index })?;
        }
        Ok(())
    }

    fn delivered(&mut self, conn: u64, to: LinkEnd) -> Result<(), AllocError> {
        let Some(link) = self.links.get_mut(conn as usize) else {
            return Ok(());
        };
        match link.way_mut(to).frames.pop_front() {
            Some(frame) => {
                self.come(frame.arrow)?;
                self.take_frame(conn, to, frame.sent)
            }
            None => self.end_delivered(conn, to),
        }
    }

    // It comes to an end that the other one has ended.
    fn end_delivered(&mut self, conn: u64, to: LinkEnd) -> Result<(), AllocError> {
        let Some(link) = self.links.get_mut(conn as usize) else {
            return Ok(());
        };
        let way = link.way_mut(to);
        way.is_over = true;
        match way.ending.take() {
            Some(arrow) => self.come(arrow),
            None => Ok(()),
        }
    }

    // A frame came to an owner: it may grant or end leases.
    fn take_frame(&mut self, conn: u64, to: LinkEnd, sent: usize) -> Result<(), AllocError> {
        let Some(link) = self.links.get(conn as usize) else {
            return Ok(());
        };
        let (owner, client) = (link.lane(to), link.lane(to.other()));
        let happenings = self.happenings;
        let Some(Happening::Sent { frame, .. }) = happenings.get(sent) else {
            return Ok(());
        };
        match frame.kind {
            SentKind::Dirty => self.grant_all(owner, client, frame),
            SentKind::Clean => self.clean_all(owner, client, frame),
            _ => Ok(()),
        }
    }

    fn grant_all(
        &mut self,
        owner: usize,
        client: usize,
        frame: &SentFrame,
    ) -> Result<(), AllocError> {
        let mut granted = Vec::new(self.alloc);
        for object in &frame.objects {
            if self.grant(owner, client, *object, frame)? {
                granted.push(*object)?;
            }
        }
        self.note_granted(owner, client, &granted)
    }

    // Grants a lease of an object. Returns whether it did not stand before.
    fn grant(
        &mut self,
        owner: usize,
        client: usize,
        object: u64,
        frame: &SentFrame,
    ) -> Result<bool, AllocError> {
        let bar = self.chart.bars.len();
        let Some(granting) = self.owners.get_mut(owner) else {
            return Ok(false);
        };
        let key = LeaseKey { client, object };
        let moment = granting.moment;
        if !granting
            .leases
            .grant(key, frame.number, moment, frame.period, bar)?
        {
            return Ok(false);
        }
        let slots = if client < owner {
            &mut granting.right
        } else {
            &mut granting.left
        };
        let slot = slots.take();
        self.chart.entries.push(Entry::Granted(bar))?;
        self.chart.bars.push(Bar {
            owner,
            client,
            slot,
            row: self.chart.rows,
            end: None,
            object,
        })?;
        Ok(true)
    }

    // Notes which leases a client was granted, if there are such.
    fn note_granted(
        &mut self,
        owner: usize,
        client: usize,
        objects: &[u64],
    ) -> Result<(), AllocError> {
        let Some(name) = self.names.get(client) else {
            return Ok(());
        };
        if objects.is_empty() {
            return Ok(());
        }
        let listed = list_of(self.alloc, objects)?;
        let text = format!(in self.alloc; "lease of {listed} to {name}")?;
        self.note(owner, client < owner, text)
    }

    // Notes something of leases in the last row, beyond all slots that bars of this side have taken.
    fn note(&mut self, owner: usize, is_right: bool, text: String) -> Result<(), AllocError> {
        let Some(granting) = self.owners.get(owner) else {
            return Ok(());
        };
        let slots = if is_right {
            granting.right.next
        } else {
            granting.left.next
        };
        self.chart.notes.push(Note {
            owner,
            is_right,
            slots,
            row: self.chart.rows,
            text,
        })?;
        Ok(())
    }

    // Notes that leases end in the last row: once on a side of a lane, however many these are.
    fn note_end(&mut self, owner: usize, is_right: bool, end: LeaseEnd) -> Result<(), AllocError> {
        if let Some(last) = self.chart.notes.last()
            && last.row == self.chart.rows
            && last.owner == owner
            && last.is_right == is_right
        {
            return Ok(());
        }
        let text = String::from_str(self.alloc, end.word())?;
        self.note(owner, is_right, text)
    }

    fn clean_all(
        &mut self,
        owner: usize,
        client: usize,
        frame: &SentFrame,
    ) -> Result<(), AllocError> {
        for object in &frame.objects {
            let key = LeaseKey {
                client,
                object: *object,
            };
            if let Some(bar) = self.clean(owner, key, frame)? {
                self.end_bar(bar, LeaseEnd::Cleaned)?;
            }
        }
        Ok(())
    }

    fn clean(
        &mut self,
        owner: usize,
        key: LeaseKey,
        frame: &SentFrame,
    ) -> Result<Option<usize>, AllocError> {
        match self.owners.get_mut(owner) {
            Some(granting) => granting.leases.clean(key, frame.number, frame.strong),
            None => Ok(None),
        }
    }

    // The lease of a bar ends in the last row.
    fn end_bar(&mut self, bar: usize, end: LeaseEnd) -> Result<(), AllocError> {
        self.chart.entries.push(Entry::Ended(bar))?;
        let row = self.chart.rows;
        let Some(ended) = self.chart.bars.get_mut(bar) else {
            return Ok(());
        };
        ended.end = Some((row, end));
        let (owner, is_right, slot) = (ended.owner, ended.is_right(), ended.slot);
        self.note_end(owner, is_right, end)?;
        match self.owners.get_mut(owner) {
            Some(granting) if is_right => granting.right.give_back(slot),
            Some(granting) => granting.left.give_back(slot),
            None => Ok(()),
        }
    }

    // An end of a connection ends, for this reason. What is on its way to it is lost, and that it has ended leaves for the other one.
    fn closed(&mut self, conn: u64, by: LinkEnd, why: &str) -> Result<(), AllocError> {
        let Some(link) = self.links.get_mut(conn as usize) else {
            return Ok(());
        };
        if link.is_over(by) {
            return Ok(());
        }
        let (lane, peer, is_heard) = (
            link.lane(by),
            link.lane(by.other()),
            !link.is_over(by.other()),
        );
        let label = format!(in self.alloc; "{why} {conn}")?;
        if is_heard {
            let arrow = self.leave(lane, peer, ArrowStyle::Connection, label)?;
            self.note_ending(conn, by.other(), arrow);
        } else {
            self.mark(lane, MarkStyle::Failed, &label)?;
        }
        self.lose_all(conn, by)
    }

    // It leaves for an end that the other one has ended.
    fn note_ending(&mut self, conn: u64, to: LinkEnd, arrow: usize) {
        if let Some(link) = self.links.get_mut(conn as usize) {
            link.way_mut(to).ending = Some(arrow);
        }
    }

    // All that is on its way to an end that has ended is lost.
    fn lose_all(&mut self, conn: u64, to: LinkEnd) -> Result<(), AllocError> {
        for _ in 0..u64::MAX {
            let Some(arrow) = self.next_lost(conn, to) else {
                return Ok(());
            };
            self.lose(arrow)?;
        }
        Ok(())
    }

    // The next arrow on its way to an end that has ended, which is on its way no more.
    fn next_lost(&mut self, conn: u64, to: LinkEnd) -> Option<usize> {
        let way = self.links.get_mut(conn as usize)?.way_mut(to);
        way.is_over = true;
        match way.frames.pop_front() {
            Some(frame) => Some(frame.arrow),
            None => way.ending.take(),
        }
    }

    // A write fails at an end: the last frames from there are lost.
    fn write_failed(&mut self, conn: u64, at: LinkEnd, unsent: u64) -> Result<(), AllocError> {
        self.closed(conn, at, "write fails")?;
        for _ in 0..unsent {
            let Some(arrow) = self.last_unsent(conn, at.other()) else {
                return Ok(());
            };
            self.lose(arrow)?;
        }
        Ok(())
    }

    // The last arrow on its way to an end, which is on its way no more.
    fn last_unsent(&mut self, conn: u64, to: LinkEnd) -> Option<usize> {
        let way = self.links.get_mut(conn as usize)?.way_mut(to);
        let frame = way.frames.pop_back()?;
        Some(frame.arrow)
    }
}

fn style_of(kind: SentKind) -> ArrowStyle {
    match kind {
        SentKind::Hello => ArrowStyle::Connection,
        SentKind::Dirty | SentKind::Lease | SentKind::Clean | SentKind::Cleaned =>
            ArrowStyle::Lease,
        _ => ArrowStyle::Call,
    }
}

// What stands at the arrow of a frame: its kind, its number, and the objects that it names or the milliseconds of a lease.
fn label_of(alloc: Global, frame: &SentFrame) -> Result<String, AllocError> {
    let (kind, number, period) = (frame.kind, frame.number, frame.period);
    match kind {
        SentKind::Hello => format!(in alloc; "Hello"),
        SentKind::Lease => format!(in alloc; "Lease {number} ({period} ms)"),
        SentKind::Dirty => {
            let listed = list_of(alloc, &frame.objects)?;
            format!(in alloc; "Dirty {number} ({listed})")
        }
        SentKind::Clean => {
            let listed = list_of(alloc, &frame.objects)?;
            format!(in alloc; "Clean {number} ({listed})")
        }
        _ => format!(in alloc; "{kind} {number}"),
    }
}

// How many objects a label names at most.
const MOST_LISTED: usize = 6;

// The numbers of objects, as `object 1` or `objects 1, 2`, of which the first are named if they are many.
fn list_of(alloc: Global, objects: &[u64]) -> Result<String, AllocError> {
    let word = if objects.len() == 1 {
        "object"
    } else {
        "objects"
    };
    let mut text = String::from_str(alloc, word)?;
    for (index, object) in objects.iter().take(MOST_LISTED).enumerate() {
        let listed = if index == 0 {
            format!(in alloc; " {object}")?
        } else {
            format!(in alloc; ", {object}")?
        };
        text.push_str(&listed)?;
    }
    if objects.len() > MOST_LISTED {
        text.push_str(" ..")?;
    }
    Ok(text)
}
