// The technician's row.
use anyhow::anyhow;
use frame::Frame;
use records::{Record, Stations};
use xid::Reader;

// Octets as hexadecimal pairs.
pub fn show_octets(rt: &HostRuntime, octets: &[u8]) -> anyhow::Result<()> {
    for octet in octets {
        print!(rt; "{octet:02X}")?;
    }
    println!(rt; "")?;
    Ok(())
}

// Address, latitude, longitude, altitude in feet and stations of a frame with so many parameters.
pub fn show_row(rt: &HostRuntime, frame: &Frame<'_>, parameters: usize) -> anyhow::Result<()> {
    println!(rt;
        "from {:06X}, {parameters} parameters",
        frame.heading.source.number()
    )?;
    let mut reader = Reader::new(frame.information);
    for _ in 0..parameters {
        let Ok(Some(parameter)) = reader.next() else {
            return Err(anyhow!("fewer parameters"));
        };
        show_record(rt, &parameter.record)?;
    }
    Ok(())
}

fn show_record(rt: &HostRuntime, record: &Record<'_>) -> anyhow::Result<()> {
    match record {
        Record::Aircraft { location, altitude } => {
            show_tenths(rt, "latitude", location.latitude)?;
            show_tenths(rt, "longitude", location.longitude)?;
            println!(rt; "altitude {} feet", *altitude as u32 * 1000)?;
            Ok(())
        }
        Record::Listed { stations } => show_stations(rt, stations),
        _ => Ok(()),
    }
}

fn show_tenths(rt: &HostRuntime, name: &str, tenths: i16) -> anyhow::Result<()> {
    let sign = if tenths < 0 { "-" } else { "" };
    let size = tenths.unsigned_abs();
    println!(rt; "{name} {sign}{}.{} degrees", size / 10, size % 10)?;
    Ok(())
}

fn show_stations(rt: &HostRuntime, stations: &Stations<'_>) -> anyhow::Result<()> {
    for station in (0..stations.count()).filter_map(|index| stations.entry(index)) {
        println!(rt; "station {:06X}", station.number())?;
    }
    Ok(())
}
