// Text bits in on standard input, a line for every verdict out.
#![tactic(auto)]

use anyhow::anyhow;
use bits::text::{MOST_TEXT, TextSource};
use lines::{Line, Stamp, make_line};
use path::dry::{Verdict, hear_all};
use receiver::Receiver;
use std::alloc::Global;
use std::io::{BufWriter, Read, Write};

// One receiver through all pieces of the input, with room for the longest line.
#[derive(Drop)]
struct Tracer {
    receiver: Receiver,
    ordinal: u64,
    taken: u64,
    line: [u8; 4200],
}

impl Tracer {
    fn new() -> Tracer {
        Tracer {
            receiver: Receiver::new(),
            ordinal: 0,
            taken: 0,
            line: [0; 4200],
        }
    }

    // Listens until the piece is dry, and writes the line of every verdict.
    fn hear<W: Write>(&mut self, heap: Global, piece: &[u8], output: &mut W) -> anyhow::Result<()> {
        let mut source = TextSource::new(piece);
        let heard = hear_all(heap, &mut self.receiver, &mut source);
        let heard = heard.map_err(|_| anyhow!("out of memory"))?;
        for event in heard.events.iter() {
            self.ordinal = self.ordinal.saturating_add(1);
            let stamp = Stamp {
                ordinal: self.ordinal,
                taken: self.taken.saturating_add(event.place),
            };
            put(verdict_line(stamp, &event.verdict), &mut self.line, output)?;
        }
        self.taken = self.taken.saturating_add(heard.taken);
        Ok(())
    }

    fn end<W: Write>(&mut self, output: &mut W) -> anyhow::Result<()> {
        put(total_line(self.taken), &mut self.line, output)
    }
}

fn verdict_line(stamp: Stamp, verdict: &Verdict) -> Line<'_> {
    match verdict {
        Verdict::Aborted => Line::Aborted { stamp },
        Verdict::Refused(fault) => Line::Refused {
            stamp,
            fault: *fault,
        },
        Verdict::Frame(octets) => Line::Frame {
            stamp,
            octets: octets.as_slice(),
        },
    }
}

fn total_line(total: u64) -> Line<'static> {
    Line::Taken { total }
}

fn put<W: Write>(line: Line<'_>, text: &mut [u8], output: &mut W) -> anyhow::Result<()> {
    let length = make_line(line, text).map_err(|_| anyhow!("no room for a line"))?;
    output.write_all(&text[..length])?;
    Ok(())
}

fn trace(rt: &HostRuntime) -> anyhow::Result<()> {
    let mut input = rt.stdin();
    let mut output = BufWriter::new(rt.alloc(), rt.stdout())?;
    let mut piece = vec![in rt.alloc(); 0u8; MOST_TEXT]?;
    let mut tracer = Tracer::new();
    for _ in 0..u64::MAX {
        let n = input.read(&mut piece)?;
        if n == 0 {
            break;
        }
        tracer.hear(rt.alloc(), &piece[0..n], &mut output)?;
        output.flush()?;
    }
    tracer.end(&mut output)?;
    output.flush()?;
    Ok(())
}

fn main(rt: HostRuntime) -> anyhow::Result<()> {
    trace(&rt)
}
