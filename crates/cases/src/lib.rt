// Cases from the rules, run on the book, the sheet and the tests. Their expected values are worked out by hand from the rules.
#![tactic(auto)]

#[cfg(test)]
mod amending;
#[cfg(test)]
mod classes;
#[cfg(test)]
mod common;
#[cfg(test)]
mod entering;
#[cfg(test)]
mod layers;
#[cfg(test)]
mod questions;
#[cfg(test)]
mod refusals;
#[cfg(test)]
mod rows;
#[cfg(test)]
mod sheets;
