//! Numbers of a plan.

ghost use Rattle.std.specs.Prelude.{◌≡◌, ◌≤◌, IfSome};
ghost use Rattle.toml.specs.View.{view};
ghost use Rattle.lab_plan.specs.Jobs.{number_of};

use toml::Value;

/// The greatest limit, and the greatest target: 2^40.
const GREATEST: i64 = 1_099_511_627_776;

/// The number from 0 to 2^40 that a value is, if it is one.
pub(crate) fn number_of(value: &Value) -> Option<u64>
    ensures number { result ≡ number_of (view value.now) }
    ensures bound { IfSome result (λ n. n ≤ 1099511627776) }
{
    match value.as_integer() {
        None => None,
        Some(number) => {
            if number >= 0 && number <= GREATEST {
                Some(number as u64)
            } else {
                None
            }
        }
    }
}
