//! Tests of the crates below that only `#[test]` can make: an office over a book that refuses each of its calls in
//! turn; that no input is read for ever; connections whose clock or book fails; and calls that the program doesn't
//! make.
#![tactic(auto)]

#[cfg(test)]
mod connections;
#[cfg(test)]
mod endless;
#[cfg(test)]
mod index;
#[cfg(test)]
mod laws;
#[cfg(test)]
mod reads;
#[cfg(test)]
mod records;
#[cfg(test)]
mod refused;
#[cfg(test)]
mod release;
#[cfg(test)]
mod runs;
