// A reader that moves through an exchange field.
ghost use Rattle.xid.specs.Fields.{Beginning};
ghost use Rattle.xid.specs.Stands.{Stands};

use crate::cursor::Cursor;

pub mod moving;

#[derive(Drop)]
pub struct Reader<'a> {
    field: &'a [u8],
    cursor: Cursor<'a>,
    ghost stands: { ∥ ((b : Beginning) × Stands field.now cursor b) ∥₁ },
}
