//! The codes of refusals.

ghost use Rattle.std.specs.Prelude.{◌≡◌, map};
ghost use Rattle.refusal_codes.specs.Codes as spec;

/// The names of the codes, in order.
const NAMES: &[&str] = &[
    "A1", "A2", "A3", "A4", "A5", "A6", "A7", "A8", "C3", "E1", "J1", "J2", "J3", "J4", "J5", "J6",
    "P1", "P2", "P3", "P4", "P5", "S1", "S2",
];

/// A code of a refusal.
#[derive(Clone, Copy, Debug, PartialEq, Eq)]
pub enum Code {
    /// A word of a program is no instruction, directive or label.
    A1,
    /// The operands of a line aren't of the word's form, or the line is in the wrong part.
    A2,
    /// A number of a program is out of its range.
    A3,
    /// A label isn't in the text.
    A4,
    /// A label is there twice.
    A5,
    /// A branch or jump is odd or too far.
    A6,
    /// The text or the data of a program is too long.
    A7,
    /// Out of memory in the assembler.
    A8,
    /// Out of memory for the state of a context.
    C3,
    /// Out of memory elsewhere.
    E1,
    /// A plan is no TOML, or a key or a value isn't one of a plan.
    J1,
    /// A context names a program that isn't there.
    J2,
    /// A plan has too many jobs.
    J3,
    /// The profile of a job is refused.
    J4,
    /// A program of a plan isn't assembled.
    J5,
    /// Out of memory for a plan.
    J6,
    /// A key of a profile is unknown.
    P1,
    /// A value of a profile is of another kind.
    P2,
    /// A number of a profile is out of its range.
    P3,
    /// A policy of a profile is unknown.
    P4,
    /// Out of memory for the name of a key.
    P5,
    /// A file can't be read.
    S1,
    /// A file can't be written.
    S2,
}

impl Code {
    /// All codes, in the order of their names.
    pub fn all() -> [Code; 23]
        ensures { result ≡ spec.all_codes }
    {
        [
            Code::A1,
            Code::A2,
            Code::A3,
            Code::A4,
            Code::A5,
            Code::A6,
            Code::A7,
            Code::A8,
            Code::C3,
            Code::E1,
            Code::J1,
            Code::J2,
            Code::J3,
            Code::J4,
            Code::J5,
            Code::J6,
            Code::P1,
            Code::P2,
            Code::P3,
            Code::P4,
            Code::P5,
            Code::S1,
            Code::S2,
        ]
    }

    /// The name that a refusal prints.
    pub fn name(self) -> &'static str
        ensures { result.now ≡ spec.name_of self }
    {
        match self {
            Code::A1 => "A1",
            Code::A2 => "A2",
            Code::A3 => "A3",
            Code::A4 => "A4",
            Code::A5 => "A5",
            Code::A6 => "A6",
            Code::A7 => "A7",
            Code::A8 => "A8",
            Code::C3 => "C3",
            Code::E1 => "E1",
            Code::J1 => "J1",
            Code::J2 => "J2",
            Code::J3 => "J3",
            Code::J4 => "J4",
            Code::J5 => "J5",
            Code::J6 => "J6",
            Code::P1 => "P1",
            Code::P2 => "P2",
            Code::P3 => "P3",
            Code::P4 => "P4",
            Code::P5 => "P5",
            Code::S1 => "S1",
            Code::S2 => "S2",
        }
    }

    /// The names of all codes, in order.
    pub fn names() -> &'static [&'static str]
        ensures { map (λ name. name.now) result.now ≡ spec.code_names }
    {
        NAMES
    }

    /// Whether this is the code's name, in capitals or small letters.
    fn is_named(self, name: &str) -> bool
        ensures { result ≡ spec.is_alike (spec.name_of self) name.now }
    {
        self.name().eq_ignore_ascii_case(name)
    }

    /// The code of a name in capitals or small letters, if it is one.
    pub fn from_name(name: &str) -> Option<Code>
        ensures { result ≡ spec.code_named name.now }
    {
        for code in Code::all() {
            if code.is_named(name) {
                return Some(code);
            }
        }
        None
    }
}
