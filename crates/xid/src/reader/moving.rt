// How a reader moves: from one parameter to the next.
ghost use Rattle.std.specs.Prelude.{◌≡◌};
ghost use Rattle.xid.specs.Answers.{Given};
ghost use Rattle.xid.specs.Fields.{Beginning};
ghost use Rattle.xid.specs.Moving.{Next, Ahead, Counts};
ghost use Rattle.xid.specs.Stands.{Stands};

use crate::cursor::{Cursor, Taken};
use crate::parameter::Parameter;
use crate::reader::Reader;
use faults::ExchangeFault;

impl<'a> Reader<'a> {
    pub fn new(field: &'a [u8]) -> Reader<'a>
        ensures given { Given result 0 }
        ensures field { result.field.now ≡ field.now }
    {
        Reader {
            field,
            cursor: Cursor {
                open: None,
                behind: field,
            },
        }
    }

    // The next parameter, or none at the end; after the end or a fault the reader is as it was, and answers the same again.
    pub fn next(&mut self) -> Result<Option<Parameter<'a>>, ExchangeFault>
        ensures { Next self.old result self.new }
    {
        let Some(taken) = self.ahead()? else {
            return Ok(None);
        };
        self.cursor = taken.behind;
        Ok(Some(taken.parameter))
    }

    // The next parameter, with where the reader stands behind it.
    fn ahead(&self) -> Result<Option<Taken<'a>>, ExchangeFault>
        ensures { (b : Beginning) → Stands self.now.field.now self.now.cursor b → Ahead self.now.field.now b result }
    {
        let mut at = self.cursor;
        if at.open.is_none() {
            at = Cursor::led(self.field)?;
        }
        loop {
            let place = at.place(self.field);
            if let Some(taken) = at.take_parameter(place)? {
                return Ok(Some(taken));
            }
            let Some(begun) = at.begin_group(place)? else {
                return Ok(None);
            };
            at = begun;
        }
    }
}

// Reads a field to its end, and counts its parameters.
pub fn count_parameters(field: &[u8]) -> Result<usize, ExchangeFault>
    ensures { Counts field.now result }
{
    let mut reader = Reader::new(field);
    let mut count = 0;
    while let Some(_) = reader.next()? {
        count += 1;
    }
    Ok(count)
}
