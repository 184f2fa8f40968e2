// The lists and the fault table that passes keep. What entries and faults mean isn't told here.
ghost use Rattle.std.specs.Prelude.{◌≡◌, ◌<◌, ◌≤◌, ◌^◌, ◌+◌, ◌*◌, ℕ, All, IfOk, length, vec_capacity};
ghost use Rattle.std.specs.Prelude.{[], ◌-◌, slice_index_or};
ghost use Rattle.gier_text.specs.declared.fault.Fault.{Fault};
ghost use Rattle.gier_text.specs.Lists.{IsLaid};

use crate::Fault;
use crate::extent::{Extent, copy, extent_at, set_count, word_place};
use gier_region::Region;
use gier_word::NoMemory;
use std::alloc::Global;

// How many lists may be open at once.
const LISTS: usize = 16;

/// The lists of a pass and the list of faults.
///
/// Its memory is taken at opening, and touched only as entries and faults are added.
#[derive(Drop)]
pub struct Tables {
    limit: u32,
    lists: Vec<Extent>,
    // How many words the opened lists have room for.
    used: u64,
    words: Region,
    faults: Vec<Fault>,
    ghost few: { limit ≤ 2 ^ 19 },
    ghost sized: { length words.words ≡ 62 * limit + 4094 },
    ghost fits: { used ≤ 62 * limit + 4092 },
    ghost laid: { IsLaid lists.items used },
    ghost places: { length lists.items ≤ 16 },
    ghost room: { 16 ≤ vec_capacity lists },
    ghost fault_places: { length faults.items ≤ limit + 1 },
    ghost fault_room: { limit + 1 ≤ vec_capacity faults },
}

impl Tables {
    ghost use Rattle.gier_text.specs.Lists.{list_at, word_at, with_entry, cut_to, with_word};
    ghost use Rattle.gier_text.specs.TablesModel.{tables_model, fresh, with_list, with_at, AddsFault};

    /// Tables without lists and faults, for programs of at most `limit` bytes.
    pub fn open(alloc: Global, limit: u32) -> Result<Tables, NoMemory>
        requires { limit ≤ 2 ^ 19 }
        ensures { IfOk result (λ t. tables_model t ≡ fresh limit) }
    {
        let Ok(lists) = Vec::with_capacity(alloc, LISTS) else {
            return Err(NoMemory);
        };
        let Ok(faults) = Vec::with_capacity(alloc, limit as usize + 1) else {
            return Err(NoMemory);
        };
        let words = Region::open(alloc, 62 * u64::from(limit) + 4094)?;
        Ok(Tables {
            limit,
            lists,
            used: 0,
            words,
            faults,
        })
    }

    /// The bytes of the longest program that they were opened for.
    pub fn limit(&self) -> u32
        ensures limit { result ≡ (tables_model self.now).limit }
        ensures few { result ≤ 2 ^ 19 }
    {
        self.limit
    }

    /// Opens an empty list of entries of `width` words, and gives its number.
    pub fn list(&mut self, width: u8, capacity: u32) -> u8
        requires few { length (tables_model self.old).lists < 16 }
        requires some { 0 < width }
        requires fits { (tables_model self.old).used + width * capacity ≤ 62 * (tables_model self.old).limit + 4092 }
        ensures number { result ≡ length (tables_model self.old).lists }
        ensures opened { tables_model self.new ≡ with_list (tables_model self.old) width capacity }
    {
        let number = self.lists.len();
        self.lists.push_reserved(Extent {
            base: self.used,
            width: u64::from(width),
            capacity: u64::from(capacity),
            count: 0,
        });
        self.used += u64::from(width) * u64::from(capacity);
        number as u8
    }

    /// Appends an entry to an open list that has room for it.
    pub fn push(&mut self, list: u8, entry: &[u64])
        requires open { list < length (tables_model self.old).lists }
        requires room { (list_at (tables_model self.old).lists list).count < (list_at (tables_model self.old).lists list).capacity }
        requires width { length entry.now ≡ (list_at (tables_model self.old).lists list).width }
        requires small { All (λ word. word < 2 ^ 40) entry.now }
        ensures { tables_model self.new
            ≡ with_at (tables_model self.old) list (with_entry (list_at (tables_model self.old).lists list) entry.now) }
    {
        let extent = extent_at(&self.lists, list);
        copy(&mut self.words, word_place(extent, extent.count, 0), entry);
        set_count(&mut self.lists, list, extent.count + 1);
    }

    /// How many entries an open list has.
    pub fn len(&self, list: u8) -> u32
        requires { list < length (tables_model self.now).lists }
        ensures { result ≡ (list_at (tables_model self.now).lists list).count }
    {
        extent_at(&self.lists, list).count as u32
    }

    /// Keeps the first `len` entries of an open list.
    pub fn cut(&mut self, list: u8, len: u32)
        requires open { list < length (tables_model self.old).lists }
        requires within { len ≤ (list_at (tables_model self.old).lists list).count }
        ensures { tables_model self.new
            ≡ with_at (tables_model self.old) list (cut_to (list_at (tables_model self.old).lists list) len) }
    {
        set_count(&mut self.lists, list, u64::from(len));
    }

    /// A word of an entry.
    pub fn word(&self, list: u8, at: u32, part: u8) -> u64
        requires open { list < length (tables_model self.now).lists }
        requires entry { at < (list_at (tables_model self.now).lists list).count }
        requires part { part < (list_at (tables_model self.now).lists list).width }
        ensures word { result ≡ word_at (list_at (tables_model self.now).lists list) at part }
        ensures small { result < 2 ^ 40 }
    {
        let extent = extent_at(&self.lists, list);
        self.words
            .get(word_place(extent, u64::from(at), u64::from(part)))
    }

    /// Writes a word of an entry.
    pub fn set_word(&mut self, list: u8, at: u32, part: u8, word: u64)
        requires open { list < length (tables_model self.old).lists }
        requires entry { at < (list_at (tables_model self.old).lists list).count }
        requires part { part < (list_at (tables_model self.old).lists list).width }
        requires small { word < 2 ^ 40 }
        ensures { tables_model self.new
            ≡ with_at (tables_model self.old) list (with_word (list_at (tables_model self.old).lists list) at part word) }
    {
        let extent = extent_at(&self.lists, list);
        self.words
            .set(word_place(extent, u64::from(at), u64::from(part)), word);
    }

    /// Gives back all lists; the faults stay.
    pub fn clear(&mut self)
        ensures { tables_model self.new ≡ record (tables_model self.old) { used = 0; lists = [] } }
    {
        self.lists.clear();
        self.used = 0;
    }

    /// Forgets all faults.
    pub fn drop_faults(&mut self)
        ensures { tables_model self.new ≡ record (tables_model self.old) { faults = [] } }
    {
        self.faults.clear();
    }

    /// Adds a fault, behind all that have no later position.
    pub fn add_fault(&mut self, f: Fault)
        requires { length (tables_model self.old).faults < (tables_model self.old).limit + 1 }
        ensures { AddsFault (tables_model self.old) f (tables_model self.new) }
    {
        let at = place_behind(&self.faults, f.position);
        match self.faults.insert(at, f) {
            Ok(()) => {}
            Err(_) => unreachable!(),
        }
    }

    /// How many faults there are.
    pub fn faults(&self) -> u32
        ensures { result ≡ length (tables_model self.now).faults }
    {
        self.faults.len() as u32
    }

    /// The fault with this number from 0, in order of position.
    pub fn fault(&self, at: u32) -> Fault
        requires { at < length (tables_model self.now).faults }
        ensures { result ≡ slice_index_or (tables_model self.now).faults at result }
    {
        self.faults[at as usize]
    }
}

// The number behind the last fault that has no later position.
fn place_behind(faults: &Vec<Fault>, position: u32) -> usize
    ensures within { result ≤ length faults.now.items }
    ensures later { (k : ℕ) (d : Fault) → result ≤ k → k < length faults.now.items
        → position < (slice_index_or faults.now.items k d).position }
    ensures last { (d : Fault) → 0 < result → (slice_index_or faults.now.items (result - 1) d).position ≤ position }
{
    let mut at = faults.len();
    while at > 0 && faults[at - 1].position > position {
        at -= 1;
    }
    at
}
