//! Rows, values and transforms by both types of the field of 65,536 elements, as the models of their tables have them.
use crate::{rows_tests, transform_tests, values_tests};
use field_elements::Gf16Plain;
use pet_field::Gf16Tables;

#[test]
fn agree_by_tables(rt: HostRuntime) {
    let alloc = rt.alloc();
    let tables = Gf16Tables::new(alloc).expect(&rt, "memory");
    assert_eq!(rt; rows_tests::first_other(alloc, &tables), None);
    assert_eq!(rt; values_tests::first_other(alloc, &tables), None);
    assert_eq!(rt; transform_tests::first_other(alloc, &tables), None);
}

#[test]
fn agree_by_single_products(rt: HostRuntime) {
    let alloc = rt.alloc();
    assert_eq!(rt; rows_tests::first_other(alloc, &Gf16Plain), None);
    assert_eq!(rt; values_tests::first_other(alloc, &Gf16Plain), None);
    assert_eq!(rt; transform_tests::first_other(alloc, &Gf16Plain), None);
}
