// Where symbols stand and where data does, found by hashing.

ghost use Rattle.std.specs.Prelude.{◌≡◌, ◌+◌, cond, map, Some, None, OnOk, IfOk};
ghost use Rattle.indexmap.specs.IndexMap.{get};
ghost use Rattle.pli_coding.specs.Linking.{links_of, marked_place, place_of};
ghost use Rattle.pli_coding.specs.StaticData.{datum_place};
ghost use Rattle.rv_assembly.specs.View.{symbol_of};
ghost use Rattle.rv_assembly.specs.Borrowed.{datum};
ghost use Rattle.rv_assembly.specs.Marks.{mark_of};
ghost use Rattle.rv_assembly.specs.Placed.{placed_of};
ghost use Rattle.rv_assembly.specs.Found.{first_of, FindsMarks, FindsData, shown};

use crate::code::Code;
use crate::item::Symbol;
use crate::marks::{MarkedPlace, marks_in};
use crate::placing::{PlacedDatum, placed_from, start_behind};
use crate::statics::{DatumRef, static_data};
use indexmap::IndexMap;
use std::alloc::{AllocError, Global};
use std::hash::Hash;

/// The places of code's symbols and data.
#[derive(Drop)]
pub struct Links<'a> {
    pub marks: Vec<MarkedPlace<'a>>,
    pub placed: Vec<PlacedDatum<'a>>,
    mark_index: IndexMap<&'a Symbol, u32>,
    data_index: IndexMap<DatumRef<'a>, u32>,
    ghost finds_marks: { ∥ FindsMarks mark_index (map mark_of marks.items) ∥₁ },
    ghost finds_data: { ∥ FindsData data_index (map placed_of placed.items) ∥₁ },
}

/// A place under a key, unless the key has one.
fn insert_first<K: Eq + Hash + Copy + Drop>(
    places: &mut IndexMap<K, u32>,
    key: K,
    place: u32,
) -> Result<(), AllocError>
    ensures { OnOk result ((q : K) → get K.eq places.new q ≡ first_of (get K.eq places.old q) (cond (K.eq q key) (Some place) None)) }
{
    if places.contains_key(&key) {
        return Ok(());
    }
    places.insert(key, place)?;
    Ok(())
}

fn indexed_marks<'a>(
    alloc: Global,
    marks: &[MarkedPlace<'a>],
) -> Result<IndexMap<&'a Symbol, u32>, AllocError>
    ensures { IfOk result (λ m. FindsMarks m (map mark_of marks.now)) }
{
    let mut index = IndexMap::new(alloc);
    for mark in marks {
        insert_first(&mut index, mark.symbol, mark.place)?;
    }
    Ok(index)
}

fn indexed_data<'a>(
    alloc: Global,
    placed: &[PlacedDatum<'a>],
) -> Result<IndexMap<DatumRef<'a>, u32>, AllocError>
    ensures { IfOk result (λ m. FindsData m (map placed_of placed.now)) }
{
    let mut index = IndexMap::new(alloc);
    for datum in placed {
        insert_first(&mut index, datum.datum, datum.place)?;
    }
    Ok(index)
}

/// The places of this code's symbols, and of the data that it names.
pub fn links_in<'a>(alloc: Global, code: &'a Code) -> Result<Links<'a>, AllocError>
    ensures { IfOk result (λ l. shown l.marks.items l.placed.items ≡ links_of code.now) }
{
    let marks = marks_in(alloc, code)?;
    let start = start_behind(code.size());
    let placed = placed_from(alloc, start, &static_data(alloc, code)?)?;
    let mark_index = indexed_marks(alloc, &marks)?;
    let data_index = indexed_data(alloc, &placed)?;
    Ok(Links {
        marks,
        placed,
        mark_index,
        data_index,
    })
}

impl<'a> Links<'a> {
    fn place_marked(&self, symbol: &'a Symbol) -> u32
        ensures { result ≡ marked_place (symbol_of symbol.now) (map mark_of self.now.marks.items) }
    {
        match self.mark_index.get(&symbol) {
            Some(place) => *place,
            None => 0,
        }
    }

    /// The place of a datum, in bytes from the base, 0 where it isn't in use.
    pub fn datum_place(&self, named: DatumRef<'a>) -> u32
        ensures { result ≡ datum_place (datum named.entry) (map placed_of self.now.placed.items) }
    {
        match self.data_index.get(&named) {
            Some(place) => *place,
            None => 0,
        }
    }

    /// The place of a symbol, in bytes from the base, 0 where the code doesn't mark it.
    pub fn place_of(&self, symbol: &'a Symbol) -> u32
        ensures { result ≡ place_of (shown self.now.marks.items self.now.placed.items) (symbol_of symbol.now) }
    {
        match symbol {
            Symbol::DataPlace(datum) => self.datum_place(datum.borrowed()),
            _ => self.place_marked(symbol),
        }
    }
}
