//! A caller of `dnssec_base`.
use anyhow::Result;
use dnssec_base::Name;
use std::alloc::Global;

/// What a text is as the name of a zone: the name with its length on the wire, or its first fault.
pub fn describe(alloc: Global, text: &str) -> Result<String> {
    match Name::<Vec<u8>>::from_str(alloc, text) {
        Ok(name) => {
            let length = name.as_slice().len();
            Ok(format!(in alloc; "{name}: {length} bytes on the wire")?)
        }
        Err(fault) => Ok(format!(in alloc; "{text}: {fault}")?),
    }
}
