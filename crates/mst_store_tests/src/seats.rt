//! Tests of what passes do by their seats: the pins while a version is published. Each order in
//! which passes pin, end their pins and write is tested in C (`tests/store/orders.c`,
//! `tests/store/at_rest.c`).
mod seated;
pub(crate) mod tables;
mod transfers;
