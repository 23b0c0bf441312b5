// What an opcode names: kinds of instruction, and what their fields stand for.

// How Rx is compared with the second operand, by the whole numbers that they stand for.
pub use words::Relation;

// The segment that an address lies in.
#[derive(Clone, Copy, PartialEq, Eq, Debug)]
pub enum Side {
    Code,
    Data,
}

// What the Ry field gives as second operand: the register of that number, or the four-bit number itself.
#[derive(Clone, Copy, PartialEq, Eq, Debug)]
pub enum Second {
    Register,
    Field,
}

impl Second {
    ghost use Rattle.std.specs.Prelude.{◌≡◌};
    ghost use Rattle.isa.specs.Second.{picked};

    // One of two values: the first for a register, the second for a field.
    pub fn pick<T: Copy>(self, register: T, field: T) -> T
        ensures { result ≡ picked self register field }
    {
        match self {
            Second::Register => register,
            Second::Field => field,
        }
    }
}

// The length of an operand in memory: 1, 2, 4 or 8 bytes.
#[derive(Clone, Copy, PartialEq, Eq, Debug)]
pub enum Width {
    Byte,
    Halfword,
    Word,
    Double,
}

impl Width {
    ghost use Rattle.std.specs.Prelude.{◌≡◌};
    ghost use Rattle.isa.specs.Width.{sized};

    // One of four values, by the width.
    pub fn pick<T: Copy>(self, byte: T, halfword: T, word: T, double: T) -> T
        ensures { result ≡ sized self byte halfword word double }
    {
        match self {
            Width::Byte => byte,
            Width::Halfword => halfword,
            Width::Word => word,
            Width::Double => double,
        }
    }
}

// Whether Ry is added to the address of an operand.
#[derive(Clone, Copy, PartialEq, Eq, Debug)]
pub enum Indexing {
    Direct = 0,
    Indexed = 1,
}

// The carried instructions, by their mnemonics. A `Second` tells the register form from the immediate one.
#[derive(Clone, Copy, PartialEq, Eq, Debug)]
pub enum Kind {
    Move(Second),
    Neg,
    Add(Second),
    Sub(Second),
    Mpy(Second),
    Div,
    Rem,
    Not(Second),
    Or,
    Xor,
    And(Second),
    Cbit,
    Sbit,
    Tbit,
    Chk(Second),
    Nop,
    Lcomp,
    Dcomp,
    Trap,
    Test(Relation, Second),
    Callr,
    Ret,
    Kcall,
    Lsl(Second),
    Lsr(Second),
    Asl(Second),
    Asr(Second),
    Dlsl(Second),
    Dlsr(Second),
    Csl(Second),
    Seb,
    Seh,
    // BR with a comparison
    Branch(Relation, Second),
    // BR without one
    Jump,
    Call,
    Loop,
    Store(Width, Indexing),
    Load(Side, Width, Indexing),
    Laddr(Side, Indexing),
}

// What the fields and the displacement of an instruction stand for.
#[derive(Clone, Copy, PartialEq, Eq, Debug)]
pub enum Shape {
    // nothing
    Bare,
    // the Ry field a number
    Number,
    // both fields one number
    Entry,
    // Rx and a second operand
    Pair(Second),
    // Rx compared with a second operand
    Compare(Relation, Second),
    // the same, and the displacement a branch
    Branch(Relation, Second),
    // the displacement a branch; for a call with Rx, for a loop with Rx and the Ry field a number
    Jump,
    Call,
    Loop,
    // Rx and the address of an operand in memory
    Memory(Indexing),
}

// A cell of the opcode map. The map has all four kinds side by side; `Kind::try_from` takes the carried ones.
#[derive(Clone, Copy, PartialEq, Eq, Debug)]
pub enum Opcode {
    // no instruction
    Empty,
    // a real or extended-precision instruction, which this machine leaves out
    NotCarried,
    // an instruction of kernel mode
    Kernel,
    Carried(Kind),
}

// One instruction: its kind, its size in bytes, the fields Rx and Ry, and the displacement as a word,
// which is 0 where the format has none.
#[derive(Clone, Copy, PartialEq, Eq, Debug)]
pub struct Instruction {
    pub kind: Kind,
    pub size: u8,
    pub x: u8,
    pub y: u8,
    pub displacement: u32,
}

// Why bytes are no carried instruction.
#[derive(Clone, Copy, PartialEq, Eq, Debug)]
pub enum Undecoded {
    Empty,
    NotCarried,
    Kernel,
    // fewer or more bytes than the opcode takes
    WrongLength,
}
