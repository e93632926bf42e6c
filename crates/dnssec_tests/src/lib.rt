//! What no script shows: names that are read and printed, numbers, moments, texts, devices that
//! fail, and verdicts. The tests make public calls, in a crate of their own, so that no other crate
//! is proved twice. The proofs say what each call does; the values here come from worked examples.
#![tactic(auto)]

#[cfg(test)]
mod at_random;
#[cfg(test)]
mod audits;
#[cfg(test)]
mod devices;
#[cfg(test)]
mod failing;
#[cfg(test)]
mod many;
#[cfg(test)]
mod names;
#[cfg(test)]
mod numbers;
#[cfg(test)]
mod texts;
#[cfg(test)]
mod values;
