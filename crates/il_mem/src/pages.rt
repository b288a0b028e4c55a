//! The pages that are held.

ghost use Rattle.std.specs.Prelude.{◌≡◌, ◌≢◌, ℕ, ◌+◌, ◌-◌, ◌⊎◌, if◌then◌else◌, ◌*◌, ◌/◌, ◌%◌, ◌<◌, ◌≤◌, ◌^◌, ◌++◌, ◌&&◌, ◌||◌, [], ◌∷◌, min, take, drop, length, replicate, option_map, is_some, nat_eq, nat_le, nat_lt, not, slice_get, slice_index, bytes_eq, IsSome, IfSome, IsOk, OnOk, OnErr, Some, None, true, false};
ghost use Rattle.std.specs.HashMap.{get};
ghost use Rattle.hx_base.specs.Memory.{Memory, bytes_at, le_bytes, le_number, write, clear_range};
ghost use Rattle.il_mem.specs.Kept.{Held, place_in, is_held, byte_of, AreDistinct, page_size, meets};
ghost use Rattle.il_mem.specs.Holds.{HoldsBytes, IsWidth};
ghost use Rattle.il_mem.specs.Stored.{AreEntered, source, with_page};

use std::alloc::{AllocError, Global};
use std::collections::HashMap;
use std::marker::Model;

/// How many bytes a page has.
pub const PAGE: u64 = 4096;

/// The pages that are held, and the byte that every other address has.
#[derive(Drop)]
pub struct Pages {
    fill: u8,
    numbers: Vec<u64>,
    bytes: Vec<u8>,
    places: HashMap<u64, usize>,
}

impl Model for Pages {
    ghost use Rattle.il_mem.specs.Kept.{Held};
    ghost use Rattle.il_mem.specs.Stored.{AreStored};

    ghost Value = { Held };

    ghost view = { λ a. record { fill = a.fill; pages = a.numbers.items; bytes = a.bytes.items } };

    ghost invariant = { λ a. AreStored a.places a.numbers.items a.bytes.items };
}

impl Pages {
    /// No pages.
    pub fn new(alloc: Global, fill: u8) -> Pages
        ensures { result ≡ record { fill = fill; pages = []; bytes = [] } }
    {
        Pages {
            fill,
            numbers: Vec::new(alloc),
            bytes: Vec::new(alloc),
            places: HashMap::new(alloc),
        }
    }

    /// How many pages are held.
    pub fn len(&self) -> usize
        ensures count { result ≡ length self.now.pages }
        ensures once { AreDistinct self.now.pages }
    {
        self.numbers.len()
    }

    /// How many bytes stand before those of a page, if it is held.
    pub fn begin(&self, page: u64) -> Option<usize>
        ensures value { result ≡ option_map (λ k. page_size * k) (place_in self.now.pages page) }
        ensures inside { IfSome result (λ i. i + page_size ≤ length self.now.bytes) }
        ensures short { IfSome result (λ i. i + page_size < 2 ^ 64) }
    {
        let _room = self.bytes.len();
        match self.places.get(&page) {
            Some(place) => Some(*place * PAGE as usize),
            None => None,
        }
    }

    /// Reads a part of a page.
    pub fn get(&self, at: u64, part: &mut [u8])
        requires { at % page_size + length part.old ≤ page_size }
        ensures { (m : Memory) → HoldsBytes self.now m → part.new ≡ bytes_at m at (length part.old) }
    {
        match self.begin(at / PAGE) {
            Some(begin) => {
                let from = begin + (at % PAGE) as usize;
                part.copy_from_slice(&self.bytes[from..from + part.len()]);
            }
            None => part.fill(self.fill),
        }
    }

    /// The number in the 1, 2, 4 or 8 bytes from an address on, before which `i` bytes of pages stand.
    #[inline(always)]
    pub fn number(&self, at: u64, n: u32, i: usize) -> u64
        requires width { IsWidth n }
        requires within { at % page_size + n ≤ page_size }
        requires held { place_in self.now.pages (at / page_size) ≡ Some (i / page_size) }
        requires offset { i % page_size ≡ at % page_size }
        requires short { i + n < 2 ^ 64 }
        ensures { (m : Memory) → HoldsBytes self.now m → result ≡ le_number (bytes_at m at n) }
    {
        let _at = at;
        let len = n as usize;
        let mut eight = [0; 8];
        eight[..len].copy_from_slice(&self.bytes[i..i + len]);
        u64::from_le_bytes(eight)
    }

    /// Writes the 1, 2, 4 or 8 low bytes of a number from an address on, before which `i` bytes of pages stand.
    #[inline(always)]
    pub fn put_number(&mut self, at: u64, n: u32, i: usize, v: u64)
        requires width { IsWidth n }
        requires within { at % page_size + n ≤ page_size }
        requires held { place_in self.old.pages (at / page_size) ≡ Some (i / page_size) }
        requires offset { i % page_size ≡ at % page_size }
        requires short { i + n < 2 ^ 64 }
        ensures bytes { (m : Memory) → HoldsBytes self.old m → HoldsBytes self.new (write m at (le_bytes n v)) }
        ensures pages { self.new.pages ≡ self.old.pages }
    {
        let _at = at;
        let eight = v.to_le_bytes();
        put_part(self.bytes.as_mut_slice(), i, &eight[..n as usize]);
    }

    /// Writes a part of a page that is held.
    pub fn put(&mut self, at: u64, part: &[u8])
        requires within { at % page_size + length part.now ≤ page_size }
        requires held { is_held self.old (at / page_size) ≡ true }
        ensures bytes { (m : Memory) → HoldsBytes self.old m → HoldsBytes self.new (write m at part.now) }
        ensures pages { self.new.pages ≡ self.old.pages }
    {
        let Some(begin) = self.begin(at / PAGE) else {
            unreachable!()
        };
        let from = begin + (at % PAGE) as usize;
        put_part(self.bytes.as_mut_slice(), from, part);
    }

    /// Reads bytes, at most as many as a page has.
    pub fn read(&self, at: u64, bytes: &mut [u8])
        requires few { length bytes.old ≤ page_size }
        requires ends { at + length bytes.old < 2 ^ 64 }
        ensures { (m : Memory) → HoldsBytes self.now m → bytes.new ≡ bytes_at m at (length bytes.old) }
    {
        let first = in_page(at, bytes.len());
        let (front, back) = bytes.split_at_mut(first);
        self.get(at, front);
        self.get(at + first as u64, back);
    }

    /// Writes bytes, at most as many as a page has, to pages that are held.
    pub fn write(&mut self, at: u64, bytes: &[u8])
        requires some { 0 < length bytes.now }
        requires few { length bytes.now ≤ page_size }
        requires ends { at + length bytes.now < 2 ^ 64 }
        requires held { (p : ℕ) → meets at (length bytes.now) p ≡ true → is_held self.old p ≡ true }
        ensures bytes { (m : Memory) → HoldsBytes self.old m → HoldsBytes self.new (write m at bytes.now) }
        ensures pages { self.new.pages ≡ self.old.pages }
    {
        let first = in_page(at, bytes.len());
        if first < bytes.len() {
            self.put(at + first as u64, &bytes[first..]);
        }
        self.put(at, &bytes[..first]);
    }

    /// Makes the bytes of a part of a page the fill byte.
    pub fn wipe(&mut self, at: u64, n: u64)
        requires { at % page_size + n ≤ page_size }
        ensures bytes { (m : Memory) → HoldsBytes self.old m → HoldsBytes self.new (clear_range m at n) }
        ensures pages { self.new.pages ≡ self.old.pages }
    {
        if let Some(begin) = self.begin(at / PAGE) {
            let from = begin + (at % PAGE) as usize;
            let fill = self.fill;
            fill_part(self.bytes.as_mut_slice(), from, n as usize, fill);
        }
    }

    /// Gives a page up, if it is held. The last page takes its place.
    pub fn give_up(&mut self, page: u64)
        ensures bytes { (m : Memory) → HoldsBytes self.old m → HoldsBytes self.new (clear_range m (page_size * page) page_size) }
        ensures pages { (p : ℕ) → is_held self.new p ≡ (is_held self.old p && not (nat_eq page p)) }
    {
        let Some(place) = self.places.get(&page).copied() else {
            return;
        };
        take_out(&mut self.numbers, &mut self.places, page, place);
        let last = self.numbers.len();
        take_bytes_out(&mut self.bytes, place, last);
    }

    /// Holds the pages from one up to another, or changes nothing.
    pub fn hold(&mut self, first: u64, end: u64) -> Result<(), AllocError>
        requires { first ≤ end }
        ensures bytes { (m : Memory) → HoldsBytes self.old m → HoldsBytes self.new m }
        ensures pages { OnOk result ((p : ℕ) → is_held self.new p ≡ (is_held self.old p || (nat_le first p && nat_lt p end))) }
        ensures err { OnErr result (self.new ≡ self.old) }
        ensures held { ((p : ℕ) → first ≤ p → p < end → is_held self.old p ≡ true) → (IsOk result) }
        ensures stay { (p k : ℕ) → place_in self.old.pages p ≡ Some k → place_in self.new.pages p ≡ Some k }
    {
        let before = self.numbers.len();
        for page in first..end {
            if let Err(failed) = self.make(page) {
                self.cut(before);
                return Err(failed);
            }
        }
        Ok(())
    }

    /// Makes a page, unless it is held.
    fn make(&mut self, page: u64) -> Result<(), AllocError>
        ensures made { place_in self.old.pages page ≡ None → OnOk result (self.new ≡ with_page self.old page) }
        ensures held { is_held self.old page ≡ true → (IsOk result × (self.new ≡ self.old)) }
        ensures err { OnErr result (self.new ≡ self.old) }
    {
        match self.begin(page) {
            Some(_) => Ok(()),
            None => self.add(page),
        }
    }

    /// Makes a page, which holds the fill byte.
    fn add(&mut self, page: u64) -> Result<(), AllocError>
        requires { place_in self.old.pages page ≡ None }
        ensures ok { OnOk result (self.new ≡ with_page self.old page) }
        ensures err { OnErr result (self.new ≡ self.old) }
    {
        let place = self.numbers.len();
        let room = self.bytes.len();
        self.bytes.resize(room + PAGE as usize, self.fill)?;
        if self.numbers.push(page).is_err() {
            self.bytes.truncate(room);
            return Err(AllocError);
        }
        if self.places.insert(page, place).is_err() {
            self.numbers.truncate(place);
            self.bytes.truncate(room);
            return Err(AllocError);
        }
        Ok(())
    }

    /// Gives all pages up but so many of the first.
    fn cut(&mut self, count: usize)
        requires { count ≤ length self.old.pages }
        ensures { self.new ≡ record self.old { pages = take count self.old.pages; bytes = take (page_size * count) self.old.bytes } }
    {
        while self.numbers.len() > count {
            if let Some(page) = self.numbers.pop() {
                self.places.remove(&page);
            }
        }
        self.bytes.truncate(count * PAGE as usize);
    }
}

// How many of so many bytes from an address on lie in its page.
fn in_page(at: u64, n: usize) -> usize
    ensures { result ≡ min n (page_size - at % page_size) }
{
    n.min((PAGE - at % PAGE) as usize)
}

// Puts bytes in the place of as many others.
#[inline(always)]
fn put_part(bytes: &mut [u8], from: usize, part: &[u8])
    requires { from + length part.now ≤ length bytes.old }
    ensures { bytes.new ≡ take from bytes.old ++ part.now ++ drop (from + length part.now) bytes.old }
{
    bytes[from..from + part.len()].copy_from_slice(part);
}

// Puts so many of one byte in the place of as many others.
fn fill_part(bytes: &mut [u8], from: usize, n: usize, fill: u8)
    requires { from + n ≤ length bytes.old }
    ensures { bytes.new ≡ take from bytes.old ++ replicate n fill ++ drop (from + n) bytes.old }
{
    bytes[from..from + n].fill(fill);
}

// Enters another place of a page.
fn enter(places: &mut HashMap<u64, usize>, page: u64, place: usize)
    requires { IsSome (get nat_eq places.old page) }
    ensures { (p : ℕ) → get nat_eq places.new p ≡ (if nat_eq page p then Some place else get nat_eq places.old p) }
{
    let _entered = places.insert(page, place).is_ok();
}

// Takes the page at a place out of a list of pages. The last one takes its place.
fn take_out(numbers: &mut Vec<u64>, places: &mut HashMap<u64, usize>, page: u64, place: usize)
    requires entered { AreEntered places.old numbers.old.items }
    requires there { slice_get numbers.old.items place ≡ Some page }
    ensures entered { AreEntered places.new numbers.new.items }
    ensures fewer { length numbers.new.items + 1 ≡ length numbers.old.items }
    ensures pages { (j : ℕ) → j < length numbers.new.items
        → slice_get numbers.new.items j ≡ slice_get numbers.old.items (source place (length numbers.new.items) j) }
{
    let last = numbers.len() - 1;
    let moved = numbers[last];
    enter(places, moved, place);
    places.remove(&page);
    let _page = numbers.swap_remove(place);
}

// Takes the bytes of the page at a place out of those of pages. Those of the last one take their place.
fn take_bytes_out(bytes: &mut Vec<u8>, place: usize, last: usize)
    requires order { place ≤ last }
    requires sized { length bytes.old.items ≡ page_size * (last + 1) }
    ensures sized { length bytes.new.items ≡ page_size * last }
    ensures bytes { (j o : ℕ) → j < last → o < page_size
        → slice_index bytes.new.items (page_size * j + o) ≡ slice_index bytes.old.items (page_size * source place last j + o) }
{
    move_page(bytes.as_mut_slice(), place, last);
    bytes.truncate(last * PAGE as usize);
}

// Copies the bytes of a page to the place of one before it, if it is not that.
fn move_page(bytes: &mut [u8], place: usize, last: usize)
    requires order { place ≤ last }
    requires inside { page_size * (last + 1) ≤ length bytes.old }
    ensures copied { (o : ℕ) → o < page_size → slice_index bytes.new (page_size * place + o) ≡ slice_index bytes.old
        (page_size * last + o) }
    ensures kept { (i : ℕ) → (i < page_size * place) ⊎ (page_size * (place + 1) ≤ i) → slice_index bytes.new i ≡ slice_index bytes.old i }
{
    if place < last {
        copy_page(bytes, place * PAGE as usize, last * PAGE as usize);
    }
}

// Copies the bytes of a page to the place of another.
fn copy_page(bytes: &mut [u8], to: usize, from: usize)
    requires apart { to + page_size ≤ from }
    requires inside { from + page_size ≤ length bytes.old }
    ensures copied { (o : ℕ) → o < page_size → slice_index bytes.new (to + o) ≡ slice_index bytes.old (from + o) }
    ensures kept { (i : ℕ) → (i < to) ⊎ (to + page_size ≤ i) → slice_index bytes.new i ≡ slice_index bytes.old i }
{
    for o in 0..PAGE as usize {
        bytes[to + o] = bytes[from + o];
    }
}
