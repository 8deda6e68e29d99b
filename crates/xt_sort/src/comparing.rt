// How keys compare.
ghost use Rattle.std.specs.Prelude.{◌≡◌, map};
ghost use Rattle.xt_sort.specs.Order.{keys_order, order_by, value_order};
ghost use Rattle.xt_sort.specs.View.{criterion_of, key_of, row_of};

use crate::row::{Criterion, KeyValue, Row};
use std::cmp::Ordering;
use xt_text::compare;

/// How two rows stand in the order of their keys. Takes no memory.
pub(crate) fn compare_rows(criteria: &[Criterion], first: &Row, second: &Row) -> Ordering
    ensures { result ≡ keys_order (map criterion_of criteria.now) (row_of first.now).keys (row_of second.now).keys }
{
    compare_keys(criteria, first.keys.as_slice(), second.keys.as_slice())
}

// The first key that tells the two apart decides.
fn compare_keys(criteria: &[Criterion], first: &[KeyValue], second: &[KeyValue]) -> Ordering
    ensures { result ≡ keys_order (map criterion_of criteria.now) (map key_of first.now) (map key_of second.now) }
{
    for index in 0..criteria.len() {
        if index >= first.len() {
            return if index >= second.len() {
                Ordering::Equal
            } else {
                Ordering::Less
            };
        }
        if index >= second.len() {
            return Ordering::Greater;
        }
        let order = compare_by(criteria[index], &first[index], &second[index]);
        if order.is_ne() {
            return order;
        }
    }
    Ordering::Equal
}

// A descending key turns its own order, so that what ties still does.
fn compare_by(criterion: Criterion, first: &KeyValue, second: &KeyValue) -> Ordering
    ensures { result ≡ order_by (criterion_of criterion) (key_of first.now) (key_of second.now) }
{
    if criterion.descends {
        compare_values(second, first)
    } else {
        compare_values(first, second)
    }
}

// Texts compare by code points. NaN, which is no value, is the least of the numbers.
fn compare_values(first: &KeyValue, second: &KeyValue) -> Ordering
    ensures { result ≡ value_order (key_of first.now) (key_of second.now) }
{
    match (first, second) {
        (KeyValue::Text(first), KeyValue::Text(second)) => {
            compare(first.as_str(), second.as_str())
        }
        (KeyValue::Number(first), KeyValue::Number(second)) => first.get().cmp(&second.get()),
        (KeyValue::Number(_), KeyValue::Text(_)) => Ordering::Less,
        (KeyValue::Text(_), KeyValue::Number(_)) => Ordering::Greater,
    }
}
