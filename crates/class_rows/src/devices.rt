//! Sources and sinks.

use super::faulty::{Faulty, Stuck};
use super::spelling::bytes_of;
use dev_io::{Failed, MemSink, MemSource, Sink, Source, StdSink, StdSource};
use std::alloc::Global;
use test_rows::{RowFault, index, number, one_word, put};

/// Plays reads of a source, or writes of a sink.
pub fn play(alloc: Global, said: &mut Vec<u8>, kind: &str, words: &[&str]) -> Result<(), RowFault> {
    match kind {
        "source" => put_source(alloc, said, words),
        "reader" => put_reader(alloc, said, words),
        "faulty-reader" => put_faulty_reader(alloc, said, words),
        "sink" => put_sink(alloc, said, words),
        "writer" => put_written(alloc, said, words),
        "faulty-writer" => writes(alloc, said, &mut StdSink::new(Faulty::new()), words),
        "stuck-writer" => writes(alloc, said, &mut StdSink::new(Stuck), words),
        _ => Err(RowFault::Bad),
    }
}

fn put_source(alloc: Global, said: &mut Vec<u8>, words: &[&str]) -> Result<(), RowFault> {
    let [step, fail, lengths, bytes] = words else {
        return Err(RowFault::Bad);
    };
    let bytes = bytes_of(alloc, &[], &[*bytes])?;
    let mut source = source_of(bytes, index(step)?, number(fail)?)?;
    reads(alloc, said, &mut source, lengths)
}

fn put_reader(alloc: Global, said: &mut Vec<u8>, words: &[&str]) -> Result<(), RowFault> {
    let [lengths, bytes] = words else {
        return Err(RowFault::Bad);
    };
    let bytes = bytes_of(alloc, &[], &[*bytes])?;
    reads(alloc, said, &mut StdSource::new(bytes.as_slice()), lengths)
}

fn put_faulty_reader(alloc: Global, said: &mut Vec<u8>, words: &[&str]) -> Result<(), RowFault> {
    let lengths = one_word(words)?;
    reads(alloc, said, &mut StdSource::new(Faulty::new()), lengths)
}

fn put_sink(alloc: Global, said: &mut Vec<u8>, words: &[&str]) -> Result<(), RowFault> {
    let [room, step, fail, words @ ..] = words else {
        return Err(RowFault::Bad);
    };
    let mut sink = sink_of(alloc, index(room)?, index(step)?, number(fail)?)?;
    writes(alloc, said, &mut sink, words)?;
    put(said, "holds", &sink.bytes())
}

/// Returns the source of these bytes that gives at most `step` a call, and fails at call `fail`, if that is
/// not 0.
pub fn source_of(bytes: Vec<u8>, step: usize, fail: u64) -> Result<MemSource, RowFault> {
    if step == 0 {
        return Err(RowFault::Bad);
    }
    let source = MemSource::new(bytes, step);
    if fail > 0 {
        Ok(source.failing_at(fail))
    } else {
        Ok(source)
    }
}

fn sink_of(alloc: Global, room: usize, step: usize, fail: u64) -> Result<MemSink, RowFault> {
    if step == 0 {
        return Err(RowFault::Bad);
    }
    let sink = MemSink::new(alloc, room, step)?;
    if fail > 0 {
        Ok(sink.failing_at(fail))
    } else {
        Ok(sink)
    }
}

// What the calls answer. These functions promise nothing, so that a row is proved at once.
fn read<S: Source>(source: &mut S, buffer: &mut [u8]) -> Result<usize, Failed> {
    source.read(buffer)
}

fn write<K: Sink>(sink: &mut K, bytes: &[u8]) -> Result<usize, Failed> {
    sink.write(bytes)
}

fn reads<S: Source>(
    alloc: Global,
    said: &mut Vec<u8>,
    source: &mut S,
    lengths: &str,
) -> Result<(), RowFault> {
    for length in lengths.split(',') {
        let mut buffer = vec![in alloc; 0u8; index(length)?]?;
        let answer = read(source, &mut buffer);
        put(said, "read", &(answer, source.failed()))?;
        put(said, "into", &buffer)?;
    }
    Ok(())
}

fn writes<K: Sink>(
    alloc: Global,
    said: &mut Vec<u8>,
    sink: &mut K,
    words: &[&str],
) -> Result<(), RowFault> {
    for word in words {
        let bytes = bytes_of(alloc, &[], &[*word])?;
        let answer = write(sink, &bytes);
        put(said, "write", &(answer, sink.failed()))?;
    }
    Ok(())
}

fn put_written(alloc: Global, said: &mut Vec<u8>, words: &[&str]) -> Result<(), RowFault> {
    let mut held = Vec::new(alloc);
    writes(alloc, said, &mut StdSink::new(&mut held), words)?;
    put(said, "holds", &held)
}
