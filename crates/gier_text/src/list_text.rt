// A text in memory. It has no tracks, and only want of memory refuses a write.
ghost use Rattle.std.specs.Prelude.{◌≡◌, ◌≤◌, true, false, Some, None, [], length, All};
ghost use Rattle.gier_symbol.specs.Symbols.{IsSymbol};
ghost use Rattle.gier_text.specs.Remaining.{left_of};
ghost use Rattle.gier_text.specs.View.{View};

use crate::{Text, TextStop, Way};
use gier_symbol::Symbol;
use std::alloc::Global;

/// A text in memory.
#[derive(Drop)]
pub struct ListText {
    list: Vec<Symbol>,
    rewound: bool,
    way: Way,
    unread: usize,
    ghost within: { unread ≤ length list.items },
    ghost symbols: { All (λ s. IsSymbol s) list.items },
}

impl ListText {
    /// An empty text. It takes no memory before the first symbol is written.
    pub fn open(alloc: Global) -> ListText
        ensures { (result.rewound ≡ false) × (result.list.items ≡ []) }
    {
        ListText {
            list: Vec::new(alloc),
            rewound: false,
            way: Way::Forward,
            unread: 0,
        }
    }
}

impl Text for ListText {
    type Store = ();

    ghost view = { λ t store. record {
      held = Some t.list.items;
      count = length t.list.items;
      capacity = None;
      rewound = t.rewound;
      way = t.way;
      left = Some (left_of t.way t.unread t.list.items);
      unread = t.unread;
      log = [];
    } };

    ghost first_track = { λ t. 0 };

    ghost end_track = { λ t. 0 };

    ghost room = { λ store. 0 };

    ghost tracks = { λ store. None };

    ghost journal = { λ store. None };

    ghost faults = { λ store. 0 };

    ghost grows = { true };

    ghost use Rattle.std.proofs.Common.{arith, refl};

    ghost runs = { λ t. Prim.omega arith };

    ghost own = { λ t old new same. refl };

    fn write_next(&mut self, _store: &mut (), s: Symbol) -> Result<(), TextStop> {
        match self.list.push(s) {
            Ok(()) => Ok(()),
            Err(_) => Err(TextStop::Memory),
        }
    }

    fn rewind(&mut self, _store: &mut (), way: Way) -> Result<(), TextStop> {
        self.rewound = true;
        self.way = way;
        self.unread = self.list.len();
        Ok(())
    }

    fn read_next(&mut self, _store: &mut ()) -> Result<Option<Symbol>, TextStop> {
        if self.unread == 0 {
            return Ok(None);
        }
        self.unread -= 1;
        match self.way {
            Way::Forward => Ok(Some(self.list[self.list.len() - self.unread - 1])),
            Way::Backward => Ok(Some(self.list[self.unread])),
        }
    }
}
