// Lists of entries that are laid out one after another, each read when it is asked for.
ghost use Rattle.std.specs.Prelude.{◌≡◌, ℕ, ◌/◌, ◌<◌, List, Option, MatchOption, length};
ghost use Rattle.records.specs.Values.{LayoutRead, EntryAt, Joined};

use std::marker::PhantomData;

// What a list holds: a type with a layout of a fixed number of octets.
pub trait Entry: Copy {
    // what each value fulfils, and its layout
    ghost Is: { Self → Type 0 };

    ghost layout: { Self → List ℕ };

    ghost OCTETS: { ℕ };

    const OCTETS: usize;

    fn read(octets: &[u8]) -> Option<Self>
        ensures { LayoutRead Is layout octets.now result };

    ghost some: { 0 < OCTETS };

    ghost wide: { (x : Self) → length (layout x) ≡ OCTETS };
}

#[derive(Clone, Copy, PartialEq, Eq, Debug)]
pub struct Entries<'a, E> {
    pub octets: &'a [u8],
    pub entry: PhantomData<E>,
}

impl<'a, E: Entry> Entries<'a, E> {
    pub fn new(octets: &'a [u8]) -> Entries<'a, E>
        ensures { result.octets.now ≡ octets.now }
    {
        Entries {
            octets,
            entry: PhantomData,
        }
    }

    // The list whose every octet is part of an entry.
    pub fn read(octets: &'a [u8]) -> Option<Entries<'a, E>>
        ensures { MatchOption result (Joined E.Is E.layout octets.now → ⊥) (λ list. Joined E.Is E.layout octets.now × (list.octets.now ≡ octets.now)) }
    {
        if !octets.len().is_multiple_of(E::OCTETS) {
            return None;
        }
        for entry in octets.chunks_exact(E::OCTETS) {
            E::read(entry)?;
        }
        Some(Entries::new(octets))
    }

    pub fn count(&self) -> usize
        ensures { result ≡ length self.now.octets.now / E.OCTETS }
    {
        self.octets.len() / E::OCTETS
    }

    // The entry at an index from 0.
    pub fn entry(&self, index: usize) -> Option<E>
        ensures { EntryAt E.Is E.layout E.OCTETS self.now.octets.now index result }
    {
        if index >= self.count() {
            return None;
        }
        let start = E::OCTETS * index;
        E::read(&self.octets[start..start + E::OCTETS])
    }
}
