// Addresses: sums modulo 2^32, and the targets of branches.
ghost use Rattle.std.specs.Prelude.{◌≡◌};
ghost use Rattle.words.specs.Addresses.{address_of, evened, total};

// The sum of two words modulo 2^32.
pub fn sum(a: u32, b: u32) -> u32
    ensures { result ≡ total a b }
{
    a.wrapping_add(b)
}

// The effective address of an operand.
pub fn address(base: u32, index: u32, displacement: u32) -> u32
    ensures { result ≡ address_of base index displacement }
{
    sum(sum(base, index), displacement)
}

// A word without its last bit, as every new program counter is.
pub fn even(a: u32) -> u32
    ensures { result ≡ evened a }
{
    a - a % 2
}

// Where a branch goes.
pub fn target(base: u32, displacement: u32) -> u32
    ensures { result ≡ evened (total base displacement) }
{
    even(sum(base, displacement))
}
