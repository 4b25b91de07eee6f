//! A benchmark: the jobs that users wait for, done by public calls on texts that the program makes.
//!
//! `ansi_bench JOB ROUNDS SEED` makes the texts of the job, as many as that many rounds need, makes
//! the job's calls on each of them, and prints a digest of all results. Each seed gives other texts
//! of the same kinds and sizes. No call is made twice on one text. The job `all` is one round of
//! each.
#![tactic(auto)]

mod digest;
mod jobs;
mod random;
mod texts;

use anyhow::{Context, bail};
use jobs::Bench;
use std::env;

fn main(rt: HostRuntime) -> anyhow::Result<()> {
    let mut words = env::args(&rt)?.skip(1);
    let job = words.next().context("no job is given")?;
    let rounds = words.next().context("no number of rounds is given")?;
    let rounds = rounds.parse::<u32>().context("a number of rounds")?;
    let seed = words.next().context("no seed is given")?;
    let seed = seed.parse::<u32>().context("the seed is a number")?;
    let mut bench = Bench::new(rt.alloc(), seed)?;
    for _ in 0..rounds {
        match job.as_str() {
            "table" => bench.table()?,
            "log" => bench.log()?,
            "wrap" => bench.wrap()?,
            "fields" => bench.fields()?,
            "blocks" => bench.blocks()?,
            "awkward" => bench.awkward()?,
            "marked" => bench.marked()?,
            "all" => bench.all()?,
            _ => bail!("there is no such job"),
        }
    }
    let digest = bench.digest();
    println!(rt; "{digest:016x}")?;
    Ok(())
}
