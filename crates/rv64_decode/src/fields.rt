//! The fields of an instruction, each a number in the range that its bits have.
//!
//! `new` asks for the range. Who has a number from outside tests it first.

ghost use Rattle.std.specs.Prelude.{◌≡◌, ℕ, ℤ, pos, negsuc, ◌<◌, ◌≤◌, ◌≤ℤ◌, ◌^◌, ◌%◌, unsigned_abs};
ghost use Rattle.rv64_decode.specs.Bits.{signed};

use std::marker::Model;

/// A register, x0 to x31.
#[derive(Clone, Copy, Debug, PartialEq, Eq)]
pub struct Register {
    index: u8,
}

impl Model for Register {
    ghost Value = { ℕ };

    ghost view = { λ x. x.index };

    ghost invariant = { λ x. x.index < 32 };

    ghost inverse = { λ n. record { index = n } };
}

impl Register {
    /// The register of this number, below 32.
    pub fn new(index: u8) -> Register
        requires { index < 32 }
        ensures { result ≡ index }
    {
        Register { index }
    }

    /// Its number.
    pub fn index(self) -> u8
        ensures same { result ≡ self }
        ensures in_range { result < 32 }
    {
        self.index
    }
}

/// An immediate of 12 bits (I and S forms): -2048 to 2047.
#[derive(Clone, Copy, Debug, PartialEq, Eq)]
pub struct Immediate {
    number: i16,
}

impl Model for Immediate {
    ghost Value = { ℤ };

    ghost view = { λ x. x.number };

    // `negsuc 2047` is -2048
    ghost invariant = { λ x. (negsuc 2047 ≤ℤ x.number) × (x.number ≤ℤ pos 2047) };

    ghost inverse = { λ z. record { number = z } };
}

impl Immediate {
    /// The immediate of this value, -2048 to 2047.
    pub fn new(value: i16) -> Immediate
        requires low { negsuc 2047 ≤ℤ value }
        requires high { value ≤ℤ pos 2047 }
        ensures { result ≡ value }
    {
        Immediate { number: value }
    }

    /// The immediate of these 12 bits, the highest its sign.
    pub fn from_bits(bits: u16) -> Immediate
        requires fits { bits < 2 ^ 12 }
        ensures { result ≡ signed 12 bits }
    {
        if bits < 2048 {
            Immediate::new(bits as i16)
        } else {
            Immediate::new(bits as i16 - 4096)
        }
    }

    /// Its 12 bits, in two's complement.
    pub fn bits(self) -> u16
        ensures fits { result < 2 ^ 12 }
        ensures number { self ≡ signed 12 result }
    {
        let value = self.value();
        if value < 0 {
            (value + 4096) as u16
        } else {
            value as u16
        }
    }

    /// The number, -2048 to 2047.
    pub fn value(self) -> i16
        ensures same { result ≡ self }
        ensures low { negsuc 2047 ≤ℤ result }
        ensures high { result ≤ℤ pos 2047 }
    {
        self.number
    }
}

/// How far from its own address a branch goes, in bytes (B form): even, -4096 to 4094.
#[derive(Clone, Copy, Debug, PartialEq, Eq)]
pub struct BranchOffset {
    offset: i16,
}

impl Model for BranchOffset {
    ghost Value = { ℤ };

    ghost view = { λ x. x.offset };

    // `negsuc 4095` is -4096
    ghost invariant = { λ x. (negsuc 4095 ≤ℤ x.offset) × (x.offset ≤ℤ pos 4094) × (unsigned_abs x.offset % 2 ≡ 0) };

    ghost inverse = { λ z. record { offset = z } };
}

impl BranchOffset {
    /// The offset of this many bytes, even and -4096 to 4094.
    pub fn new(value: i16) -> BranchOffset
        requires low { negsuc 4095 ≤ℤ value }
        requires high { value ≤ℤ pos 4094 }
        requires even { unsigned_abs value % 2 ≡ 0 }
        ensures { result ≡ value }
    {
        BranchOffset { offset: value }
    }

    /// The offset of these 13 bits, the highest its sign; the lowest is 0.
    pub fn from_bits(bits: u16) -> BranchOffset
        requires fits { bits < 2 ^ 13 }
        requires even { bits % 2 ≡ 0 }
        ensures { result ≡ signed 13 bits }
    {
        if bits < 4096 {
            BranchOffset::new(bits as i16)
        } else {
            BranchOffset::new(bits as i16 - 8192)
        }
    }

    /// Its 13 bits, in two's complement; the lowest is 0.
    pub fn bits(self) -> u16
        ensures fits { result < 2 ^ 13 }
        ensures even { result % 2 ≡ 0 }
        ensures number { self ≡ signed 13 result }
    {
        let value = self.value();
        if value < 0 {
            (value + 8192) as u16
        } else {
            value as u16
        }
    }

    /// The bytes, even and -4096 to 4094.
    pub fn value(self) -> i16
        ensures same { result ≡ self }
        ensures low { negsuc 4095 ≤ℤ result }
        ensures high { result ≤ℤ pos 4094 }
        ensures even { unsigned_abs result % 2 ≡ 0 }
    {
        self.offset
    }
}

/// How far from its own address JAL goes, in bytes (J form): even, -1048576 to 1048574.
#[derive(Clone, Copy, Debug, PartialEq, Eq)]
pub struct JumpOffset {
    distance: i32,
}

impl Model for JumpOffset {
    ghost Value = { ℤ };

    ghost view = { λ x. x.distance };

    // `negsuc 1048575` is -1048576
    ghost invariant = { λ x. (negsuc 1048575 ≤ℤ x.distance) × (x.distance ≤ℤ pos 1048574) × (unsigned_abs x.distance % 2 ≡ 0) };

    ghost inverse = { λ z. record { distance = z } };
}

impl JumpOffset {
    /// The offset of this many bytes, even and -1048576 to 1048574.
    pub fn new(value: i32) -> JumpOffset
        requires low { negsuc 1048575 ≤ℤ value }
        requires high { value ≤ℤ pos 1048574 }
        requires even { unsigned_abs value % 2 ≡ 0 }
        ensures { result ≡ value }
    {
        JumpOffset { distance: value }
    }

    /// The offset of these 21 bits, the highest its sign; the lowest is 0.
    pub fn from_bits(bits: u32) -> JumpOffset
        requires fits { bits < 2 ^ 21 }
        requires even { bits % 2 ≡ 0 }
        ensures { result ≡ signed 21 bits }
    {
        if bits < 1_048_576 {
            JumpOffset::new(bits as i32)
        } else {
            JumpOffset::new(bits as i32 - 2_097_152)
        }
    }

    /// Its 21 bits, in two's complement; the lowest is 0.
    pub fn bits(self) -> u32
        ensures fits { result < 2 ^ 21 }
        ensures even { result % 2 ≡ 0 }
        ensures number { self ≡ signed 21 result }
    {
        let value = self.value();
        if value < 0 {
            (value + 2_097_152) as u32
        } else {
            value as u32
        }
    }

    /// The bytes, even and -1048576 to 1048574.
    pub fn value(self) -> i32
        ensures same { result ≡ self }
        ensures low { negsuc 1048575 ≤ℤ result }
        ensures high { result ≤ℤ pos 1048574 }
        ensures even { unsigned_abs result % 2 ≡ 0 }
    {
        self.distance
    }
}

/// The upper 20 bits of an immediate whose lower 12 are 0 (U form), as a number without these.
#[derive(Clone, Copy, Debug, PartialEq, Eq)]
pub struct UpperImmediate {
    upper: u32,
}

impl Model for UpperImmediate {
    ghost Value = { ℕ };

    ghost view = { λ x. x.upper };

    ghost invariant = { λ x. x.upper < 2 ^ 20 };

    ghost inverse = { λ n. record { upper = n } };
}

impl UpperImmediate {
    /// The immediate whose upper 20 bits are this number, below 2^20.
    pub fn new(value: u32) -> UpperImmediate
        requires { value < 2 ^ 20 }
        ensures { result ≡ value }
    {
        UpperImmediate { upper: value }
    }

    /// The 20 bits: the immediate is 2^12 times this, sign-extended from 32 bits.
    pub fn value(self) -> u32
        ensures same { result ≡ self }
        ensures in_range { result < 2 ^ 20 }
    {
        self.upper
    }
}

/// How far to shift 64 bits: 0 to 63.
#[derive(Clone, Copy, Debug, PartialEq, Eq)]
pub struct ShiftAmount {
    amount: u8,
}

impl Model for ShiftAmount {
    ghost Value = { ℕ };

    ghost view = { λ x. x.amount };

    ghost invariant = { λ x. x.amount < 64 };

    ghost inverse = { λ n. record { amount = n } };
}

impl ShiftAmount {
    /// A shift by this many bits, below 64.
    pub fn new(value: u8) -> ShiftAmount
        requires { value < 64 }
        ensures { result ≡ value }
    {
        ShiftAmount { amount: value }
    }

    /// How many bits.
    pub fn value(self) -> u8
        ensures same { result ≡ self }
        ensures in_range { result < 64 }
    {
        self.amount
    }
}

/// How far to shift the 32 bits of a word: 0 to 31.
#[derive(Clone, Copy, Debug, PartialEq, Eq)]
pub struct WordShiftAmount {
    places: u8,
}

impl Model for WordShiftAmount {
    ghost Value = { ℕ };

    ghost view = { λ x. x.places };

    ghost invariant = { λ x. x.places < 32 };

    ghost inverse = { λ n. record { places = n } };
}

impl WordShiftAmount {
    /// A shift by this many bits, below 32.
    pub fn new(value: u8) -> WordShiftAmount
        requires { value < 32 }
        ensures { result ≡ value }
    {
        WordShiftAmount { places: value }
    }

    /// How many bits.
    pub fn value(self) -> u8
        ensures same { result ≡ self }
        ensures in_range { result < 32 }
    {
        self.places
    }
}

/// The upper 12 bits of a FENCE: its mode in bits 11..8, its predecessor set in 7..4 and its
/// successor set in 3..0 (2.7), each set as device input, output, reads and writes from the highest.
#[derive(Clone, Copy, Debug, PartialEq, Eq)]
pub struct FenceBits {
    bits: u16,
}

impl Model for FenceBits {
    ghost Value = { ℕ };

    ghost view = { λ x. x.bits };

    ghost invariant = { λ x. x.bits < 2 ^ 12 };

    ghost inverse = { λ n. record { bits = n } };
}

impl FenceBits {
    /// The bits of this number, below 4096.
    pub fn new(value: u16) -> FenceBits
        requires { value < 2 ^ 12 }
        ensures { result ≡ value }
    {
        FenceBits { bits: value }
    }

    /// The 12 bits, below 4096.
    pub fn value(self) -> u16
        ensures same { result ≡ self }
        ensures in_range { result < 2 ^ 12 }
    {
        self.bits
    }
}
