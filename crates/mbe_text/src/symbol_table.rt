// A table of symbols that keeps equal texts once.
//
// It is a hash table with open addressing. A short text needs no entry, since its symbol stores
// it. A longer text is looked for in a bounded number of slots.
ghost use Rattle.std.specs.Prelude.{◌≡◌, IfOk, IfSome};

use mbe_tt::symbol::Symbol;
use std::alloc::{AllocError, Allocator, Global};
use std::hash::{FoldHasher, Hasher};

// The number of slots in which a text is looked for. An input may choose its texts so that they all
// begin at one slot. Then the table keeps some of them more than once, so that the work for each
// text is bounded.
const MAX_PROBES: usize = 32;

// The number that marks a free slot. No symbol has it.
const FREE: u32 = 0xFFFF_FFFF;

const FIRST_SLOTS: usize = 64;

// The hash of a text, and the index of its symbol in the table.
#[derive(Clone, Copy)]
struct Slot {
    hash: u32,
    number: u32,
}

/// The symbols made so far.
///
/// Equal texts that one table is asked for usually share their memory. No contract says which of
/// them do, since a symbol is its text and nothing else.
#[derive(Drop)]
pub struct SymbolTable<A: Allocator = Global> {
    alloc: A,
    symbols: Vec<Symbol<A>, A>,
    // Empty, or a power of two of slots. At most half of them are taken.
    slots: Vec<Slot, A>,
}

impl<A: Allocator + Copy> SymbolTable<A> {
    /// Returns an empty table. Allocates nothing.
    pub fn new(alloc: A) -> SymbolTable<A> {
        SymbolTable {
            alloc,
            symbols: Vec::new(alloc),
            slots: Vec::new(alloc),
        }
    }

    /// Returns the allocator of the table's symbols.
    pub fn alloc(&self) -> A {
        self.alloc
    }

    /// Returns the symbol of that text, whatever the table was asked for before. Returns
    /// `AllocError` if out of memory. Then the table is still usable.
    #[inline]
    pub fn intern(&mut self, text: &str) -> Result<Symbol<A>, AllocError>
        ensures { IfOk result (λ s. s ≡ text.now) }
    {
        if let Some(symbol) = Symbol::short(text) {
            return Ok(symbol);
        }
        self.share(text)
    }

    // Returns the symbol of a text that is too long to be stored in the symbol itself.
    fn share(&mut self, text: &str) -> Result<Symbol<A>, AllocError>
        ensures { IfOk result (λ s. s ≡ text.now) }
    {
        let hash = hash_of(text);
        if let Some(symbol) = self.find(hash, text) {
            if let Ok(shared) = symbol.clone() {
                return Ok(shared);
            }
        }
        self.add(hash, text)
    }

    // Returns the symbol of a text with this hash, if the table finds one.
    fn find(&self, hash: u32, text: &str) -> Option<&Symbol<A>>
        ensures { IfSome result (λ s. s.now ≡ text.now) }
    {
        'slots: for step in 0..MAX_PROBES {
            let slot = self.slots.get(slot_index(hash, step, self.slots.len()))?;
            let symbol = self.symbols.get(slot.number as usize)?;
            if slot.hash == hash && symbol.as_str() == text {
                return Some(symbol);
            }
        }
        None
    }

    // Returns a new symbol of a text with this hash. The table keeps it if it finds a slot for it.
    fn add(&mut self, hash: u32, text: &str) -> Result<Symbol<A>, AllocError>
        ensures { IfOk result (λ s. s ≡ text.now) }
    {
        let symbol = Symbol::intern(self.alloc, text)?;
        self.reserve()?;
        let kept = symbol.clone()?;
        let number = u32::try_from(self.symbols.len()).unwrap_or(FREE);
        if number != FREE && claim_slot(&mut self.slots, Slot { hash, number }) {
            self.symbols.push(kept)?;
        }
        Ok(symbol)
    }

    // Makes sure that half of the slots are free, and that the next symbol has room.
    fn reserve(&mut self) -> Result<(), AllocError> {
        self.symbols.reserve(1)?;
        if self.symbols.len() < self.slots.len() / 2 {
            return Ok(());
        }
        let count = self.slots.len().saturating_mul(2).max(FIRST_SLOTS);
        let free = Slot {
            hash: 0,
            number: FREE,
        };
        let mut slots = Vec::from_elem(self.alloc, free, count)?;
        'slots: for slot in self.slots.as_slice() {
            claim_slot(&mut slots, *slot);
        }
        self.slots = slots;
        Ok(())
    }
}

// Fills a free slot among those in which the text would be looked for. Returns whether there was
// one.
fn claim_slot(slots: &mut [Slot], new_slot: Slot) -> bool {
    'slots: for step in 0..MAX_PROBES {
        let at = slot_index(new_slot.hash, step, slots.len());
        let Some(slot) = slots.get_mut(at) else {
            return false;
        };
        if slot.number == FREE {
            *slot = new_slot;
            return true;
        }
    }
    false
}

// Returns the slot in which a text of that hash is looked for at that step, in a table of `slots`
// slots.
fn slot_index(hash: u32, step: usize, slots: usize) -> usize {
    (hash as usize).wrapping_add(step) & slots.wrapping_sub(1)
}

fn hash_of(text: &str) -> u32 {
    let mut hasher = FoldHasher::default();
    hasher.write(text.as_bytes());
    (hasher.finish() & 0xFFFF_FFFF) as u32
}
