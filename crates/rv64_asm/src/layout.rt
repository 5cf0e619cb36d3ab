//! The first pass: where each line goes, and the labels.

ghost use Rattle.std.specs.Prelude.{◌≡◌, Ok, Err, false, length, IfOk, IfErr, OnOk, option_map};
ghost use Rattle.std.specs.Str.Lines.{lines};
ghost use Rattle.rv64_asm.specs.Places as spec;
ghost use Rattle.rv64_asm.specs.Places.{IsWithinPages, StandBelow};
ghost use Rattle.rv64_asm.specs.Passes.{IsOwnRefusal};

use crate::fault::AsmFault;
use crate::labels::Labels;
use crate::place::{Place, next_place};
use crate::statement::split_line;
use crate::words::Part;
use std::alloc::{AllocError, Allocator};

/// A text starts in the text part.
pub fn start() -> Place
    ensures same { result ≡ spec.start.place }
    ensures within { IsWithinPages result }
{
    Place {
        part: Part::Text,
        words: 0,
        bytes: 0,
    }
}

/// Puts the label of a line, if it has one, behind the others.
fn add_label<A: Allocator + Copy>(
    labels: &mut Labels<A>,
    alloc: A,
    place: Place,
    label: Option<&[u8]>,
) -> Result<(), AllocError>
    requires within { IsWithinPages place }
    requires new { spec.is_twice labels.old (option_map (λ n. n.now) label) ≡ false }
    ensures { OnOk result (labels.new ≡ spec.with_label labels.old (spec.address place) (option_map (λ n. n.now) label.entry)) }
{
    if let Some(name) = label {
        labels.insert(alloc, name, place.address())?;
    }
    Ok(())
}

/// The labels of a text, or its lowest fault that a line has by itself and by those before it.
pub fn lay_out<A: Allocator + Copy>(alloc: A, text: &str) -> Result<Labels<A>, AsmFault>
    ensures stand { OnOk result (StandBelow (lines text.now) (length (lines text.now))) }
    ensures labels { IfOk result (λ labels. labels ≡ (spec.behind (lines text.now)).labels) }
    ensures refused { IfErr result (IsOwnRefusal (lines text.now)) }
{
    let mut place = start();
    let mut labels = Labels::new(alloc);
    let mut number = 0;
    for line in text.lines() {
        number += 1;
        let (label, body) = split_line(line.as_bytes());
        match next_place(place, &labels, label, body) {
            Ok(next) => {
                add_label(&mut labels, alloc, place, label)?;
                place = next;
            }
            Err(fault) => {
                return Err(AsmFault::At {
                    fault,
                    line: number,
                });
            }
        }
    }
    Ok(labels)
}
