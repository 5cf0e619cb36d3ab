//! Values of a table by their keys.

ghost use Rattle.std.specs.Prelude.{◌≡◌, option_map, option_and_then};
ghost use Rattle.toml.specs.Data.{as_array, as_table, get_item, get_member};
ghost use Rattle.toml.specs.View.{array_view, items_view, table_view, view};

use toml::value::Array;
use toml::{Table, Value};

/// The value at a key.
pub(crate) fn value_at<'a>(table: &'a Table, key: &str) -> Option<&'a Value>
    ensures { option_map (λ v. view v.now) result ≡ get_member key.now (table_view table.now) }
{
    table.get(key)
}

/// The table at a key.
pub(crate) fn table_at<'a>(table: &'a Table, key: &str) -> Option<&'a Table>
    ensures { option_map (λ t. table_view t.now) result ≡ option_and_then as_table (get_member key.now (table_view table.now)) }
{
    match value_at(table, key) {
        None => None,
        Some(value) => value.as_table(),
    }
}

/// The array at a key.
pub(crate) fn array_at<'a>(table: &'a Table, key: &str) -> Option<&'a Array>
    ensures { option_map (λ a. array_view a.now) result ≡ option_and_then as_array (get_member key.now (table_view table.now)) }
{
    match value_at(table, key) {
        None => None,
        Some(value) => value.as_array(),
    }
}

/// The value at an index.
pub(crate) fn item_at(values: &[Value], place: usize) -> Option<&Value>
    ensures { option_map (λ v. view v.now) result ≡ get_item place (items_view values.now) }
{
    values.get(place)
}
