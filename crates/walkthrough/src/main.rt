// The whole path, step by step: compose, write through the pile, listen, check, read, reply.
#![tactic(auto)]

mod receiving;
mod row;
mod sending;

use crate::receiving::heard;
use crate::row::{show_octets, show_row};
use crate::sending::{answered, composed, written};
use reply::{Checked, check};

// The fifteen bits that the scrambling sequence begins with, the same at both ends.
pub const GIVEN: [bool; 15] = [
    true, true, false, true, false, false, true, false, true, false, true, true, false, false, true,
];

fn walk(rt: &HostRuntime) -> anyhow::Result<()> {
    let mut out = [0; 64];
    let information = composed(&mut out)?;
    println!(rt; "composed {} octets", information.len())?;
    show_octets(rt, information)?;
    let mut memory = [0; 128];
    let sent = written(information, &mut memory)?;
    println!(rt;
        "written {} bits: 13 of noise, and the frame twice",
        sent.bits
    )?;
    show_octets(rt, sent.octets)?;
    let mut buffer = [0; 2061];
    let caught = heard(sent, &mut buffer)?;
    println!(rt; "carrier lost behind {} bits", caught.lost)?;
    println!(rt;
        "heard a frame of {} octets in {} bits more",
        caught.octets.len(),
        caught.taken
    )?;
    answer(rt, caught.octets)
}

// The row of the display, and a reply where one is owed.
fn answer(rt: &HostRuntime, octets: &[u8]) -> anyhow::Result<()> {
    match check(octets) {
        Err(fault) => {
            println!(rt; "fault {} at {}", fault.number(), fault.place())?;
            Ok(())
        }
        Ok(
            Checked {
                frame,
                parameters,
                debt,
            },
        ) => {
            let shown = show_row(rt, &frame, parameters);
            match debt {
                None => shown,
                Some(debt) => {
                    let mut memory = [0; 64];
                    let bits = answered(debt, &mut memory);
                    shown?;
                    println!(rt; "replied in {bits} bits")?;
                    show_octets(rt, &memory[..bits.div_ceil(8).min(64)])
                }
            }
        }
    }
}

fn main(rt: HostRuntime) -> anyhow::Result<()> {
    walk(&rt)
}
