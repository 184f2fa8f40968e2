// Strings: a word with the number of bytes and then the bytes, five to a word, the first in the highest bits.
ghost use Rattle.std.specs.Prelude.{◌≡◌};
ghost use Rattle.gier_text.specs.TablesModel.{tables_model};

use crate::kinds::ValueType;
use crate::state::State;
use gier_order::Operation;
use gier_text::Tables;

const BYTES_IN_WORD: u64 = 5;

// A byte is below this.
const BYTES: u64 = 256;

impl State {
    ghost use Rattle.gier_pass7.specs.StateInvariants.{StateInvariant, PreservesState};

    // A string begins. Its length is written at its end.
    pub(crate) fn string_begins(&mut self, tables: &mut Tables, line: u32)
        requires ready { StateInvariant self.old (tables_model tables.old) }
        ensures { PreservesState self.old (tables_model tables.old) self.new (tables_model tables.new) }
    {
        self.text_label = self.new_label();
        let label = self.new_label();
        self.jump(tables, self.text_label, line);
        self.mark(tables, label);
        self.text_at = self.place(tables);
        self.text_length = 0;
        self.text_word = 0;
        self.word(tables, 0, line);
        self.hold();
    }

    pub(crate) fn string_byte(&mut self, tables: &mut Tables, byte: u64)
        requires ready { StateInvariant self.old (tables_model tables.old) }
        ensures { PreservesState self.old (tables_model tables.old) self.new (tables_model tables.new) }
    {
        self.text_word = self
            .text_word
            .saturating_mul(BYTES)
            .saturating_add(byte % BYTES);
        self.text_length = self.text_length.saturating_add(1);
        if self.text_length % BYTES_IN_WORD == 0 {
            self.word(tables, self.text_word, self.line);
            self.text_word = 0;
        }
    }

    // A string ends: it is filled up with zeros, and its address is found.
    pub(crate) fn string_ends(&mut self, tables: &mut Tables)
        requires ready { StateInvariant self.old (tables_model tables.old) }
        ensures { PreservesState self.old (tables_model tables.old) self.new (tables_model tables.new) }
    {
        let line = self.line;
        let length = self.text_length;
        for _turn in 0..BYTES_IN_WORD {
            if self.text_length % BYTES_IN_WORD != 0 {
                self.string_byte(tables, 0);
            }
        }
        self.set_value(tables, self.text_at, length);
        self.release();
        self.mark(tables, self.text_label);
        let label = self.text_label.saturating_add(1);
        self.label_order(tables, Operation::Short, 0, label, line);
        self.operand_ends(ValueType::Text);
    }
}
