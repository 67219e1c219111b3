//! Drives one page and its lock word through the bridge into a register block that stalls, edge by edge, and reads the page back.

#![tactic(auto)]

mod block;
mod firmware;

use anyhow::anyhow;
use axi::plan::Plan;
use axi::wires::{Inputs, LowerRead, Outputs};
use block::Block;
use bridge::bridge::Bridge;
use bridge::slots::Slots;
use firmware::Firmware;
use std::io::Write;
use transcript::crossing::{crossings, print_edge};

/// More edges than the run takes.
const LIMIT: u32 = 4000;

/// The bridge between the firmware above and the block below.
#[derive(Drop)]
struct Bench<'a> {
    bridge: Bridge<'a>,
    firmware: Firmware,
    block: Block,
}

impl<'a> Bench<'a> {
    /// All three before the first edge.
    fn new(bridge: Bridge<'a>) -> Bench<'a> {
        Bench {
            bridge,
            firmware: Firmware::new(),
            block: Block::new(),
        }
    }

    /// What the firmware and the block drive on an edge.
    fn inputs(&self, edge: u32) -> Inputs {
        let aw = self.firmware.aw();
        let w = self.firmware.w();
        let ar = self.firmware.ar();
        let lr = self.block.lr(edge);
        Inputs {
            aresetn: true,
            awvalid: aw.is_some(),
            aw: aw.unwrap_or_default(),
            wvalid: w.is_some(),
            w: w.unwrap_or_default(),
            bready: true,
            arvalid: ar.is_some(),
            ar: ar.unwrap_or_default(),
            rready: true,
            lawready: self.block.lawready(edge),
            lwready: self.block.lwready(edge),
            lbvalid: self.block.lbvalid(edge),
            lbresp: 0,
            larready: self.block.larready(edge),
            lrvalid: lr.is_some(),
            lr: LowerRead {
                lrdata: u64::from(lr.unwrap_or(0)),
                lrresp: 0,
            },
        }
    }

    /// One edge: what crosses is printed, and the firmware and the block go on by it.
    fn step(&mut self, rt: &HostRuntime, edge: u32) -> anyhow::Result<()> {
        let o: Outputs = self.bridge.wires();
        let x = self.inputs(edge);
        let report = self
            .bridge
            .edge(&x)
            .map_err(|_| anyhow!("the bridge refused an edge"))?;
        let mut lines = Vec::new(rt.alloc());
        print_edge(&mut lines, u64::from(edge), &crossings(&report, &x, &o))?;
        rt.stdout().write_all(lines.as_slice())?;
        self.firmware.see(&report.crossed, &o);
        self.block.see(&report.crossed, &o);
        Ok(())
    }

    /// All edges until the firmware is done: how many they are.
    fn run(&mut self, rt: &HostRuntime) -> anyhow::Result<u32> {
        for edge in 0..LIMIT {
            if self.firmware.is_done() {
                return Ok(edge);
            }
            self.step(rt, edge)?;
        }
        Ok(LIMIT)
    }
}

/// The whole run.
fn run(rt: &HostRuntime) -> anyhow::Result<()> {
    let plan = Plan::new(8, 4, 0)?;
    let mut slots: Slots<4> = Slots::new();
    let mut bench = Bench::new(Bridge::new(plan, slots.tables()));
    let edges = bench.run(rt)?;
    let owed = bench.bridge.owed();
    println!(rt;
        "owed {} writes, {} reads after {edges} edges",
        owed.writes, owed.reads
    )?;
    println!(rt; "{}", bench.block)?;
    println!(rt; "{}", bench.firmware)?;
    Ok(())
}

fn main(rt: HostRuntime) -> anyhow::Result<()> {
    run(&rt)
}
