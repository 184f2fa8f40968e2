// The order table: the number, the name and the fields of each order, and what it does. No order is executed here.
ghost use Rattle.std.specs.Prelude.{◌≡◌, map, slice_get};
ghost use Rattle.gier_order.specs.Table.{row_of, operation_at};
ghost use Rattle.gier_order.specs.Codes.{level_used, address_used};

/// The orders of the machine, in the order of their numbers, from 1.
///
/// The registers are R, Q, C (base of the current activation), T (first free word of the region), D (activations
/// entered and not left) and the place of the next order; l is the level of the order and a its address, w is the word
/// C + a, and cell is word a of the visible activation of level l.
#[derive(Debug, Clone, Copy, PartialEq, Eq)]
pub enum Operation {
    /// START l, a: the first activation, of level l with a words, without a step.
    Start = 1,
    /// STOP: the run has ended.
    Stop,
    /// TAKE l, a: R := cell.
    Take,
    /// SHORT a: R := a.
    Short,
    /// LONG: R := the next word of the object, which is passed over.
    Long,
    /// KEEP a: w := R.
    Keep,
    /// ADDR l, a: R := the place of cell in the region.
    Addr,
    /// FETCH: R := the word at place R.
    Fetch,
    /// PUT a: the word at place w := R.
    Put,
    /// ADD a: R := w + R; alarm `spill`.
    Add,
    /// SUB a: R := w - R; alarm `spill`.
    Sub,
    /// MUL a: R := w * R; alarm `spill`.
    Mul,
    /// DIV a: R := w _div R; alarms `division` and `spill`.
    Div,
    /// POW a: R := w ^ R; alarms `power` and `spill`.
    Pow,
    /// NEG: R := -R; alarm `spill`.
    Neg,
    /// LT a: R := 1 where w < R, else 0.
    Lt,
    /// LE a: R := 1 where w <= R, else 0.
    Le,
    /// EQ a: R := 1 where w = R, else 0.
    Eq,
    /// GE a: R := 1 where w >= R, else 0.
    Ge,
    /// GT a: R := 1 where w > R, else 0.
    Gt,
    /// NE a: R := 1 where w <> R, else 0.
    Ne,
    /// NOT: R := 1 where R is 0, else 0.
    Not,
    /// AND a: R := 1 where w and R are not 0, else 0.
    And,
    /// OR a: R := 1 where w or R is not 0, else 0.
    Or,
    /// IMPL a: R := 1 where w is 0 or R is not, else 0.
    Impl,
    /// EQUIV a: R := 1 where both or none of w and R are 0, else 0.
    Equiv,
    /// JUMP a: goes on at a.
    Jump,
    /// FALSE a: where R is 0, goes on at a.
    False,
    /// TEST a: R := 0 where w * sign(R) > 0, else 1; alarm `spill`.
    Test,
    /// TURN a: charges a step and goes on at w.
    Turn,
    /// BLOCK l, a: enters a block of level l with a words, enclosed by C.
    Block,
    /// LEAVE: leaves a block: T := C, C := word C, D falls by 1.
    Leave,
    /// ARRAY l, a: an array of l dimensions with the descriptor at w, from the 2l bounds at C + R; alarms `bounds` and `stack`.
    Array,
    /// INDEX l, a: R := the place of the element, from the place of the descriptor in w and the l subscripts after it; alarm
    /// `subscript`.
    Index,
    /// PROC l, a: is not executed: level and room of a procedure.
    Proc,
    /// CALL l, a: enters the procedure at a, enclosed by the visible activation of level l, with the formals at C + R.
    Call,
    /// FORMAL l, a: the same without formals, for the procedure in cell, enclosed by the base after it; alarm `parameters`.
    Formal,
    /// RETURN a: leaves a procedure; where a is 1, R := its value.
    Return,
    /// THUNK l, a: is not executed: kind l and room a of an evaluation; 0 is an expression, 1 a variable, 2 a label, 3 a name
    /// formal.
    Thunk,
    /// VALUE l, a: enters the evaluation in cell, enclosed by the base after it; a value is wanted.
    Value,
    /// PLACE l, a: the same, and an address is wanted; alarm `assignment` where it is an expression.
    Place,
    /// NAMEL l, a: the same, and a label is wanted.
    NameL,
    /// PASS l, a: the same, and what the current activation wants is wanted.
    Pass,
    /// BACK: leaves an evaluation.
    Back,
    /// GIVE: leaves the evaluation of a variable; where a value is wanted, R := the word at place R.
    Give,
    /// LIB a: the standard procedure a, on R.
    Lib,
    /// SWITCH l, a: enters the evaluation of element R of the switch at a, enclosed by the visible activation of level l; where
    /// there is none, R := 0, Q := 0.
    Switch,
    /// SWFORM l, a: the same, for the switch in cell, enclosed by the base after it.
    SwForm,
    /// LAB l, a: R := a, Q := the base of the visible activation of level l.
    Lab,
    /// GO: where R is not 0, charges a step, C := Q, T := word Q + 2, and goes on at R.
    Go,
    /// BASE l: R := C for l = 0, else the base of the visible activation of level l.
    Base,
    /// KINDS l, a: is not executed: a procedure with l formals, at a; the packed kinds of the formals follow.
    Kinds,
    /// AGREE l, a: compares the packed kinds after it with those of the formal procedure in cell; alarm `parameters`.
    Agree,
    /// BYVAL l, a: R := 1 where formal R of the formal procedure in cell is by value, else 0.
    ByVal,
    /// CALLF l, a: enters the formal procedure in cell, with the formals at C + R.
    CallF,
}

/// Which of its two fields an order uses. Those that it doesn't use are 0.
#[derive(Debug, Clone, Copy, PartialEq, Eq)]
pub enum Fields {
    /// The level and the address.
    Both,
    /// The level alone.
    Level,
    /// The address alone.
    Address,
    /// None of the two.
    Neither,
}

impl Fields {
    #[inline]
    pub(crate) fn has_level(self) -> bool
        ensures { result ≡ level_used self }
    {
        matches!(self, Fields::Both | Fields::Level)
    }

    #[inline]
    pub(crate) fn has_address(self) -> bool
        ensures { result ≡ address_used self }
    {
        matches!(self, Fields::Both | Fields::Address)
    }
}

struct Row(Operation, &'static str, Fields);

// The row of the order with number n stands at place n - 1.
static TABLE: [Row; 55] = [
    Row(Operation::Start, "START", Fields::Both),
    Row(Operation::Stop, "STOP", Fields::Neither),
    Row(Operation::Take, "TAKE", Fields::Both),
    Row(Operation::Short, "SHORT", Fields::Address),
    Row(Operation::Long, "LONG", Fields::Neither),
    Row(Operation::Keep, "KEEP", Fields::Address),
    Row(Operation::Addr, "ADDR", Fields::Both),
    Row(Operation::Fetch, "FETCH", Fields::Neither),
    Row(Operation::Put, "PUT", Fields::Address),
    Row(Operation::Add, "ADD", Fields::Address),
    Row(Operation::Sub, "SUB", Fields::Address),
    Row(Operation::Mul, "MUL", Fields::Address),
    Row(Operation::Div, "DIV", Fields::Address),
    Row(Operation::Pow, "POW", Fields::Address),
    Row(Operation::Neg, "NEG", Fields::Neither),
    Row(Operation::Lt, "LT", Fields::Address),
    Row(Operation::Le, "LE", Fields::Address),
    Row(Operation::Eq, "EQ", Fields::Address),
    Row(Operation::Ge, "GE", Fields::Address),
    Row(Operation::Gt, "GT", Fields::Address),
    Row(Operation::Ne, "NE", Fields::Address),
    Row(Operation::Not, "NOT", Fields::Neither),
    Row(Operation::And, "AND", Fields::Address),
    Row(Operation::Or, "OR", Fields::Address),
    Row(Operation::Impl, "IMPL", Fields::Address),
    Row(Operation::Equiv, "EQUIV", Fields::Address),
    Row(Operation::Jump, "JUMP", Fields::Address),
    Row(Operation::False, "FALSE", Fields::Address),
    Row(Operation::Test, "TEST", Fields::Address),
    Row(Operation::Turn, "TURN", Fields::Address),
    Row(Operation::Block, "BLOCK", Fields::Both),
    Row(Operation::Leave, "LEAVE", Fields::Neither),
    Row(Operation::Array, "ARRAY", Fields::Both),
    Row(Operation::Index, "INDEX", Fields::Both),
    Row(Operation::Proc, "PROC", Fields::Both),
    Row(Operation::Call, "CALL", Fields::Both),
    Row(Operation::Formal, "FORMAL", Fields::Both),
    Row(Operation::Return, "RETURN", Fields::Address),
    Row(Operation::Thunk, "THUNK", Fields::Both),
    Row(Operation::Value, "VALUE", Fields::Both),
    Row(Operation::Place, "PLACE", Fields::Both),
    Row(Operation::NameL, "NAMEL", Fields::Both),
    Row(Operation::Pass, "PASS", Fields::Both),
    Row(Operation::Back, "BACK", Fields::Neither),
    Row(Operation::Give, "GIVE", Fields::Neither),
    Row(Operation::Lib, "LIB", Fields::Address),
    Row(Operation::Switch, "SWITCH", Fields::Both),
    Row(Operation::SwForm, "SWFORM", Fields::Both),
    Row(Operation::Lab, "LAB", Fields::Both),
    Row(Operation::Go, "GO", Fields::Neither),
    Row(Operation::Base, "BASE", Fields::Level),
    Row(Operation::Kinds, "KINDS", Fields::Both),
    Row(Operation::Agree, "AGREE", Fields::Both),
    Row(Operation::ByVal, "BYVAL", Fields::Both),
    Row(Operation::CallF, "CALLF", Fields::Both),
];

impl Operation {
    /// The order with this number; None where it isn't 1 to 55.
    pub fn of(number: u8) -> Option<Operation>
        ensures { result ≡ operation_at number }
    {
        if number == 0 {
            return None;
        }
        operation_in(&TABLE, number as usize - 1)
    }

    /// The number, 1 to 55.
    pub fn number(self) -> u8
        ensures { result ≡ (row_of self).number }
    {
        self as u8
    }

    /// The name, in capital letters.
    pub fn name(self) -> &'static str
        ensures { result.now ≡ (row_of self).name }
    {
        let Row(_, name, _) = TABLE[self.number() as usize - 1];
        name
    }

    /// Which fields it uses.
    pub fn fields(self) -> Fields
        ensures { result ≡ (row_of self).fields }
    {
        let Row(_, _, fields) = TABLE[self.number() as usize - 1];
        fields
    }
}

fn operation_in(rows: &[Row], place: usize) -> Option<Operation>
    ensures { result ≡ slice_get (map (λ row. row.0) rows.now) place }
{
    match rows.get(place) {
        Some(row) => Some(row.0),
        None => None,
    }
}

#[cfg(test)]
mod tests {
    use super::*;

    static NAMES: [&str; 55] = [
        "START", "STOP", "TAKE", "SHORT", "LONG", "KEEP", "ADDR", "FETCH", "PUT", "ADD", "SUB",
        "MUL", "DIV", "POW", "NEG", "LT", "LE", "EQ", "GE", "GT", "NE", "NOT", "AND", "OR", "IMPL",
        "EQUIV", "JUMP", "FALSE", "TEST", "TURN", "BLOCK", "LEAVE", "ARRAY", "INDEX", "PROC",
        "CALL", "FORMAL", "RETURN", "THUNK", "VALUE", "PLACE", "NAMEL", "PASS", "BACK", "GIVE",
        "LIB", "SWITCH", "SWFORM", "LAB", "GO", "BASE", "KINDS", "AGREE", "BYVAL", "CALLF",
    ];

    // Which orders use their level, and which their address.
    static LEVELS: [u8; 55] = *b"1010001000000000000000000000001011111011111000111011111";

    static ADDRESSES: [u8; 55] = *b"1011011011111101111110111111111011111111111001111001111";

    #[test]
    fn has_each_order_in_its_place(rt: HostRuntime) {
        for i in 0..55 {
            let operation = Operation::of(i as u8 + 1).expect(&rt, "an order");
            assert_eq!(rt; operation.number() as usize, i + 1);
            assert_eq!(rt; operation.name(), NAMES[i]);
            let (level, address) = match operation.fields() {
                Fields::Both => (b'1', b'1'),
                Fields::Level => (b'1', b'0'),
                Fields::Address => (b'0', b'1'),
                Fields::Neither => (b'0', b'0'),
            };
            assert_eq!(rt; level, LEVELS[i]);
            assert_eq!(rt; address, ADDRESSES[i]);
        }
    }
}
