//! What each code means, with an example, and what to do.

ghost use Rattle.std.specs.Prelude.{◌≡◌};
ghost use Rattle.refusal_codes.specs.Explanations as spec;

use crate::code::Code;

impl Code {
    /// The paragraph of the code in docs/formats.md, in lines of at most 100 characters.
    #[tactic(auto, unfolding(crate::specs::Explanations::explanation_of))]
    pub fn explanation(self) -> &'static str
        ensures { result.now ≡ spec.explanation_of self }
    {
        match self {
            Code::A1 => {
                "\
The first word of the line is no instruction or directive of plain RV64I, as `mul x5, x6, x7`,\n\
`li a0, 1` or `MV a0, a1`. Names are in lower case, and only the pseudo-instructions of\n\
docs/formats.md are there. Write `addi a0, x0, 1` for a small number; C code becomes plain RV64I\n\
with `-march=rv64i` and `tools/elf2s.py`.\n"
            }
            Code::A2 => {
                "\
The operands don't have the form of the word, as `addi x5, x0` or `lw x5, x6`, or the line is in the\n\
wrong part, as an instruction behind `.data`. Compare the line with the table of forms in\n\
docs/formats.md: a load is `lw x5, 0(x6)`.\n"
            }
            Code::A3 => {
                "\
A number is out of its range, as `addi x5, x0, 2048`, `slli x5, x5, 64` or `.byte 256`. The table of\n\
forms in docs/formats.md has the ranges. A greater number is made of two instructions, `lui` and\n\
`addi`.\n"
            }
            Code::A4 => {
                "\
A branch or a jump names a label that the text doesn't have, as `j loop` where only `Loop:` is\n\
there. Labels count capitals, and a label of another program isn't seen.\n"
            }
            Code::A5 => {
                "\
The line has a label that an earlier line has. Rename one of the two.\n"
            }
            Code::A6 => {
                "\
A branch or jump goes too far, or to an odd address: from -4096 to 4094 bytes for a branch, from\n\
-1048576 to 1048574 for `jal` and `j`. Turn the condition and jump over a `j`.\n"
            }
            Code::A7 => {
                "\
The text has more than 65,536 words, or the data more than 1 MiB, at this line. A program has 64\n\
pages of text and 256 of data, the stack among them.\n"
            }
            Code::A8 => {
                "\
There was no memory to assemble the program. Free some, or make the text shorter.\n"
            }
            Code::C3 => {
                "\
There was no memory to make or copy the state of a context.\n"
            }
            Code::E1 => {
                "\
There was no memory for something else of the command. `E1 job N` names the first job that ran out\n\
of memory: the report before it is whole but for the jobs that it calls refused.\n"
            }
            Code::J1 => {
                "\
The text of the plan is no TOML document, or has a key or a value that isn't one of a plan. The keys\n\
are `environment`, `programs`, `contexts` and `jobs`; a job has `limit`, which must be there,\n\
`start`, `targets` and `profile`. Numbers have no point and no quotes: `limit = 1000`, not\n\
`limit = \"1000\"`. `tools/lab check PLAN` names the line or the key, and the nearest known one.\n"
            }
            Code::J2 => {
                "\
A context names a program that isn't in the table `programs`, as `contexts = [\"sort\"]` beside\n\
`[programs]` with `sorted`. I is the number of the context, from 0. An empty name `\"\"` is a context\n\
without a program.\n"
            }
            Code::J3 => {
                "\
The plan has more than 4096 jobs. Make two plans of it.\n"
            }
            Code::J4 => {
                "\
The profile of job N, counted from 0, is refused for what follows: P1 to P5 and the key.\n"
            }
            Code::J5 => {
                "\
The program NAME isn't assembled for what follows: A1 to A8 and the line of its text, counted from\n\
the line behind `'''`. `smt-lab asm FILE` gives the same line of a file.\n"
            }
            Code::J6 => {
                "\
There was no memory to read the plan.\n"
            }
            Code::P1 => {
                "\
A profile has no such key, as `issue_size = 8`. docs/pipeline.md has the eighteen;\n\
`tools/lab check PLAN` names the nearest.\n"
            }
            Code::P2 => {
                "\
The value of the key is of another kind, as `issue_queue = \"32\"` or `fetch = 1`. Policies are texts\n\
between quotes, all else is a number.\n"
            }
            Code::P3 => {
                "\
The number is out of the range of its key, as `issue_queue = 4`. The ranges are in docs/pipeline.md;\n\
`num1` is 1, 2 or 4.\n"
            }
            Code::P4 => {
                "\
The key `fetch` or `issue` names no policy, as `fetch = \"icount\"`. The names are in capitals: RR,\n\
ICOUNT, BRCOUNT, MISSCOUNT, IQPOSN; OLDEST_FIRST, SPEC_LAST, BRANCH_FIRST.\n"
            }
            Code::P5 => {
                "\
There was no memory to copy the name of an unknown key.\n"
            }
            Code::S1 => {
                "\
The file can't be opened or read, has more than 64 MiB, or isn't text in UTF-8. An ELF file or a C\n\
file is none: `tools/lab plan` takes both.\n"
            }
            Code::S2 => {
                "\
The file can't be written, as where the disk is full or the reader of a pipe has gone. `-` is\n\
standard output.\n"
            }
        }
    }
}
