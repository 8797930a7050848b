//! Measures how fast files of several shapes are read in parts, joined and finished, by both machines.
//! `throughput MEBIBYTES PARTS` measures every shape, and with a shape after these only that one;
//! `throughput MEBIBYTES SHAPE` writes a file of that shape to standard output.

#![tactic(auto)]

mod shape;
mod timing;

use crate::shape::{SHAPES, Shape};
use crate::timing::{Times, measure};
use anyhow::anyhow;
use job::Answer;
use machine::Machine;
use relation::RelationMachine;
use std::rt::Clock;
use std::time::Duration;
use std::{env, io};
use table::TableMachine;

const QUERIES: &[u8] = b"/day/stop\n//stop\n/day//tour/*";

/// A number of bytes in a time, as megabytes a second.
fn rate(bytes: usize, time: Duration) -> u128 {
    (bytes as u128)
        .saturating_mul(1_000)
        .checked_div(time.as_nanos())
        .unwrap_or(0)
}

/// How many matches were found.
fn matches_of(answer: Answer) -> usize {
    match answer {
        Answer::Matches(n) => n,
        Answer::Fault(_) => 0,
    }
}

fn print_times(rt: &impl Print, bytes: usize, times: &Times) -> io::Result<()> {
    let read = rate(bytes, times.read);
    let join = rate(bytes, times.join);
    let finish = rate(bytes, times.finish);
    println!(rt; "read {read} join {join} finish {finish}")
}

/// Measures a file by one machine, and prints a line.
fn report<M: Machine>(
    rt: &(impl Print + Clock + AllocGlobal),
    machine: &str,
    m: &M,
    shape: &str,
    file: &[u8],
    parts: usize,
) -> anyhow::Result<()> {
    let times = measure(rt.alloc(), rt, m, file, parts)?;
    let bytes = file.len();
    let matches = matches_of(times.answer);
    print!(rt; "{machine} {shape} bytes {bytes} matches {matches} ")?;
    print_times(rt, bytes, &times)?;
    Ok(())
}

/// Measures a shape by both machines.
fn report_shape(
    rt: &(impl Print + Clock + AllocGlobal),
    table: &TableMachine,
    relation: &RelationMachine,
    shape: Shape,
    size: usize,
    parts: usize,
) -> anyhow::Result<()> {
    let file = shape.file(rt.alloc(), size)?;
    report(rt, "table", table, shape.name(), file.as_slice(), parts)?;
    report(
        rt,
        "relation",
        relation,
        shape.name(),
        file.as_slice(),
        parts,
    )
}

/// Measures the shapes of this name, or all where there is none.
fn report_shapes(
    rt: &(impl Print + Clock + AllocGlobal),
    size: usize,
    parts: usize,
    name: Option<String>,
) -> anyhow::Result<()> {
    let mut table = TableMachine::new();
    let mut relation = RelationMachine::new();
    if table.make(QUERIES).is_err() || relation.make(QUERIES).is_err() {
        return Err(anyhow!("the queries were refused"));
    }
    for shape in SHAPES {
        if name
            .as_ref()
            .is_none_or(|name| name.as_str() == shape.name())
        {
            report_shape(rt, &table, &relation, shape, size, parts)?;
        }
    }
    Ok(())
}

/// Writes a file of the shape of this name to standard output.
fn write_shape(rt: &(impl Print + AllocGlobal), size: usize, name: &str) -> anyhow::Result<()> {
    if let Some(shape) = SHAPES.iter().find(|shape| shape.name() == name) {
        let file = shape.file(rt.alloc(), size)?;
        rt.write_all(file.as_slice())?;
    }
    Ok(())
}

fn main(rt: HostRuntime) -> anyhow::Result<()> {
    let mut words = env::args(&rt)?;
    let _ = words.next();
    let (Some(size), Some(what)) = (words.next(), words.next()) else {
        println!(rt; "usage: throughput MEBIBYTES PARTS [SHAPE] | throughput MEBIBYTES SHAPE")?;
        return Ok(());
    };
    let size = size.as_str().parse::<usize>()?.saturating_mul(1_048_576);
    match what.as_str().parse::<usize>() {
        Ok(parts) => report_shapes(&rt, size, parts, words.next()),
        Err(_) => write_shape(&rt, size, what.as_str()),
    }
}
