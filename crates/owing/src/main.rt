// What is owed is paid: one command is declined, another is replied to before a further frame is written.
#![tactic(auto)]

use bits::packed_sink::PackedSink;
use frame::Frame;
use reply::{Checked, Debt, check, decline, reply};
use writer::write_frame;

// An XID command with P at 1, from aircraft 400001h to ground station 1.
const COMMAND: [u8; 10] = [0x04, 0x00, 0x00, 0x81, 0x50, 0x00, 0x00, 0x81, 0xBF, 0x82];

// Declines into memory that has room enough.
fn declined(debt: Debt) -> usize {
    let mut memory = [0; 64];
    let mut sink = PackedSink::new(&mut memory, 512);
    match decline(debt, &mut sink, true, 0x10, 60) {
        Ok(bits) => bits,
        Err(_) => unreachable!(),
    }
}

// Replies, and then writes the command's own frame back.
fn replied(debt: Debt, frame: &Frame<'_>) -> usize {
    let mut memory = [0; 64];
    let mut sink = PackedSink::new(&mut memory, 512);
    let first = match reply(debt, &mut sink, true, &[0x82]) {
        Ok(bits) => bits,
        Err(_) => unreachable!(),
    };
    match write_frame(&mut sink, frame) {
        Ok(bits) => first.saturating_add(bits),
        Err(_) => first,
    }
}

// How many bits the command's debt was paid in, one way or another; none where nothing is owed.
fn paid<F: FnOnce(Debt, &Frame<'_>) -> usize>(pay: F) -> usize
    requires { F.IsAlwaysCallable pay }
{
    match check(&COMMAND) {
        Err(_) => 0,
        Ok(
            Checked {
                frame,
                parameters: _,
                debt,
            },
        ) => match debt {
            None => 0,
            Some(debt) => pay(debt, &frame),
        },
    }
}

fn main(rt: HostRuntime) -> anyhow::Result<()> {
    let first = paid(|debt, _| declined(debt));
    let second = paid(replied);
    println!(rt; "declined in {first} bits")?;
    println!(rt; "replied and wrote in {second} bits")?;
    Ok(())
}
