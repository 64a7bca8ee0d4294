//! Puts a million records of 64 bytes through 64 MiB of memory, over a file, and gets each as it was put.
//!
//!     million_records [RECORDS NEAR]
#![tactic(auto)]

use anyhow::{Result, ensure};
use far_file::NewFile;
use far_pool::{FileDevices, Plan, Worker};
use std::{env, fs};

fn record_of(number: u64) -> [u8; 64] {
    let mut record = [(number % 251) as u8; 64];
    record[..8].copy_from_slice(&number.to_le_bytes());
    record
}

fn main(rt: HostRuntime) -> Result<()> {
    let words: Vec<String> = env::args(&rt)?.collect(rt.alloc())?;
    let number = |at: usize| words.get(at)?.parse::<u64>().ok();
    let mut plan = Plan::for_near(number(2).unwrap_or(67_108_864));
    plan.objects = number(1).unwrap_or(1_000_000);
    let file = NewFile::new().open(&rt, "million_records.far")?;
    fs::remove_file(&rt, "million_records.far")?;
    let devices = FileDevices::new(rt.alloc(), file)?;
    let mut worker = Worker::new(rt.alloc(), devices, plan.lay_out()?, false)?;
    let mut handles = Vec::new(rt.alloc());
    for number in 0..plan.objects {
        handles.push(worker.alloc(&record_of(number), 1)?)?;
    }
    for at in 0..handles.len() {
        let mut record = [0; 64];
        worker.read(handles[at], 0, &mut record)?;
        ensure!(record == record_of(at as u64), "record {at} is another");
    }
    println!(rt; "{} records came back as they were put", handles.len())?;
    println!(rt; "{}", worker.statistics())?;
    Ok(())
}
